// Machines that no list reaches, handed in: one call of each kind on each, and a drain.
use crate::calls::{self, Answered};
use crate::chance::draw;
use crate::counting::Counts;
use crate::run::{Run, Until};
use crate::sums::{self, Sum};
use crate::{chance, changes};
use renaming::Core;
use vectors::add;
use window::{Call, Machine};

// How many machines, what their calls, drains and reports answered, by number; and how often a refused call changed something.
#[derive(Clone, Copy, Default)]
pub struct Answers {
    machines: u64,
    calls: [u64; 32],
    drains: [u64; 32],
    reports: [u64; 32],
    changed: u64,
}

// A machine, with what is lent to its calls.
#[derive(Clone, Copy)]
struct Handed<'a> {
    core: Core,
    program: &'a [u8],
    data: &'a [u8],
}

impl Answers {
    // A call on the machine with a copy of the data: what it leaves is summed up.
    fn call(&mut self, h: Handed, copy: &mut [u8], call: Call, sum: &mut Sum) {
        vectors::lay(copy, 0, h.data);
        let Answered { after, number } = calls::made(&h.core, h.program, copy, call);
        vectors::count(&mut self.calls, number as usize);
        let kept = number == 0 || (after == h.core && &*copy == h.data);
        add(&mut self.changed, u64::from(!kept));
        sum.add(u64::from(number));
        sum.add(sums::of_machine(&after));
        sum.add(sums::of_bytes(copy));
    }

    fn drain(&mut self, h: Handed, copy: &mut [u8], sum: &mut Sum) {
        vectors::lay(copy, 0, h.data);
        let drained = Machine { core: h.core }.drain(h.program, copy);
        vectors::count(&mut self.drains, drained.number as usize);
        sum.add(u64::from(drained.number));
        sum.add(u64::from(drained.calls));
        sum.add(sums::of_machine(&drained.machine.core));
        sum.add(sums::of_bytes(copy));
    }

    fn report(&mut self, h: Handed, sum: &mut Sum) {
        let report = Machine { core: h.core }.report();
        vectors::count(&mut self.reports, report.number as usize);
        sum.add(u64::from(report.number));
        sum.words(&report.registers);
    }

    // Decode, issue and complete at the first entry that can be issued or completed and at any, commit, drain, report.
    fn all(&mut self, h: Handed, copy: &mut [u8], seed: u32) -> u64 {
        let mut sum = Sum::start();
        let any = (draw(seed, 12) % (u32::from(h.core.count) + 2)) as usize;
        for call in [
            Call::Decode(draw(seed, 10)),
            Call::Issue(calls::first_waiting(&h.core, draw(seed, 11))),
            Call::Issue(any),
            Call::Complete(calls::first_issued(&h.core, draw(seed, 11))),
            Call::Complete(any),
            Call::Commit,
        ] {
            self.call(h, copy, call, &mut sum);
        }
        self.drain(h, copy, &mut sum);
        self.report(h, &mut sum);
        add(&mut self.machines, 1);
        sum.value
    }

    pub fn print(&self, rt: &impl Print) {
        let _ = println!(rt; "machines {}", self.machines);
        for number in [0, 5, 6, 10, 11, 12, 13, 14, 15, 16] {
            let calls = self.calls[number];
            let drains = self.drains[number];
            let _ = println!(rt;
                "answered by {number}: calls {calls}, drains {drains}, reports {}",
                self.reports[number]
            );
        }
        let _ = println!(rt; "refused and changed {}", self.changed);
    }
}

// of so many turns the last machine with the most entries
fn fullest(run: &mut Run, seed: u32, n: u32) -> Core {
    let mut fullest = run.core;
    let mut seed = seed;
    for _ in 0..n {
        seed = chance::next(seed);
        run.turns(seed, 1, Until::Halt);
        if run.core.count >= fullest.count {
            fullest = run.core;
        }
    }
    fullest
}

// Of a list that breaks off so many machines, each with some changes; the sum of what their calls leave.
pub fn machines(from: u32, k: u32, answers: &mut Answers) -> u64 {
    let seed = draw(!from, k).wrapping_add(1);
    // an odd number: W and N are anywhere in their ranges
    let mut run = Run::set_up(k | 1, seed, Counts::default());
    let fullest = fullest(&mut run, seed, 10 + draw(seed, 104) % 110);
    let lent = &mut run;
    let mut sum = Sum::start();
    let mut seed = seed;
    for _ in 0..FROM_EACH {
        seed = chance::next(seed);
        let handed = Handed {
            core: changes::changed(&fullest, seed),
            program: lent.program.as_slice(),
            data: lent.data.as_slice(),
        };
        sum.add(answers.all(handed, lent.copy.as_mut_slice(), seed));
    }
    sum.value
}

// how many machines come from one list
const FROM_EACH: u32 = 50;
