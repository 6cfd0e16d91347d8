// A machine driven by calls, beside the in-order run.
use crate::bytes::Bytes;
use crate::calls::Lent;
use crate::chance::draw;
use crate::counting::Counts;
use crate::ordered::Ordered;
use crate::sums::{self, Sum};
use crate::{accounting, calls, chance, changes, programs, resting};
use renaming::Core;
use vectors::add;
use window::{Call, Machine};

// A machine with the program and data that are lent to it, the in-order run with its own data in `want`, and what was seen. What
// a drain writes goes to a copy of the data.
#[derive(Drop)]
pub struct Run {
    pub core: Core,
    ordered: Ordered,
    pub program: Bytes<PROGRAM>,
    pub data: Bytes<DATA>,
    want: Bytes<DATA>,
    pub copy: Bytes<DATA>,
    pub counts: Counts,
    pub sum: Sum,
}

// Whether the turns end at a halt or go on through it.
#[derive(Clone, Copy, PartialEq, Eq)]
pub enum Until {
    Halt,
    Through,
}

// Half of them at the ends of their ranges, half anywhere in them.
fn sizes(k: u32, seed: u32) -> (u32, u32) {
    if k % 2 == 0 {
        let window = WINDOWS[(k / 2 % 6) as usize];
        let registers = REGISTERS[(k / 12 % 8) as usize];
        return (window, registers);
    }
    (1 + draw(seed, 102) % 64, 32 + draw(seed, 103) % 64)
}

// The most bytes of a program and of data.
const PROGRAM: usize = 256;

const DATA: usize = 64;

fn program_length(seed: u32) -> usize {
    4 * (16 + draw(seed, 100) % 49) as usize
}

// mostly 40 to 64 bytes, now and then none or few; never 3, which is another length (`calls::made_with`)
fn data_length(seed: u32) -> usize {
    let x = draw(seed, 101);
    if x % 16 == 0 {
        return (x / 16 % 4 * 2) as usize;
    }
    (40 + x / 16 % 25) as usize
}

const WINDOWS: [u32; 6] = [1, 2, 3, 4, 8, 64];

const REGISTERS: [u32; 8] = [32, 32, 33, 33, 34, 34, 40, 95];

impl Run {
    // A fresh machine, with a program and data from the seed.
    pub fn set_up(k: u32, seed: u32, counts: Counts) -> Self {
        let length = program_length(seed);
        let bytes = data_length(seed);
        let (window, registers) = sizes(k, seed);
        let fresh = Machine::set_up(window, registers, length, bytes);
        let mut program = Bytes::zeros(length);
        let mut data = Bytes::zeros(bytes);
        programs::fill_program(program.as_mut_slice(), seed);
        programs::fill_data(data.as_mut_slice(), seed);
        Self {
            core: fresh.machine.core,
            ordered: Ordered::default(),
            program,
            data,
            want: data,
            copy: data,
            counts,
            sum: Sum::start(),
        }
    }

    // The number of an answer, the machine and the data after it, and the report.
    fn sum(&mut self, number: u8, m: &Core) {
        let report = Machine { core: *m }.report();
        self.sum.add(u64::from(number));
        self.sum.add(sums::of_machine(m));
        self.sum.add(sums::of_bytes(self.data.as_slice()));
        self.sum.add(u64::from(report.number));
        self.sum.words(&report.registers);
    }

    // A call, and what is to hold after it: a refused one changed nothing, and other lengths are refused by 6.
    fn call(&mut self, call: Call, lengths: Lent) {
        let before = self.core;
        let program = self.program.as_slice();
        let data = self.data.as_mut_slice();
        let answered = calls::made_with(&before, program, data, call, lengths);
        self.core = answered.after;
        let accepted = answered.number == 0;
        if accepted && call == Call::Commit {
            self.ordered.step(program, self.want.as_mut_slice());
        }
        self.counts.made(&before, call, &answered);
        let kept = accepted || before == self.core;
        let refused = lengths == Lent::AsSetUp || answered.number == 6;
        let same = self.data.as_slice() == self.want.as_slice();
        let agrees = same && self.ordered.agrees(&self.core);
        self.counts.expect_no_difference(kept && refused && agrees);
        let rests = accounting::holds(&self.core) && resting::rests(&self.core);
        self.counts.expect_no_violation(rests);
        self.sum(answered.number, &answered.after);
    }

    // A call on a copy with one number out of range: 5, and the copy comes back as it was.
    fn call_damaged(&mut self, call: Call, k: u32) {
        let damaged = changes::damaged(&self.core, k);
        let program = self.program.as_slice();
        let answered = calls::made(&damaged, program, self.data.as_mut_slice(), call);
        let machine = Machine { core: damaged };
        let report = machine.report();
        self.counts.made(&damaged, call, &answered);
        let refused = answered.number == 5 && report.number == 5;
        self.counts
            .expect_no_difference(refused && answered.after == damaged);
        self.sum(answered.number, &answered.after);
    }

    // A drain of a copy: it ends without entries or halted, after at most three calls for each entry.
    fn drain(&mut self) {
        let copy = self.copy.as_mut_slice();
        vectors::lay(copy, 0, self.data.as_slice());
        let machine = Machine { core: self.core };
        let drained = machine.drain(self.program.as_slice(), copy);
        let after = drained.machine.core;
        let ended = after.count == 0 || after.halt.cause != 0;
        let most = 3 * u32::from(self.core.count);
        let few = u32::from(drained.calls) <= most;
        add(&mut self.counts.drains, 1);
        self.counts
            .expect_no_difference(drained.number == 0 && ended && few);
        self.sum.add(u64::from(drained.calls));
        self.sum.add(sums::of_machine(&after));
        self.sum.add(sums::of_bytes(self.copy.as_slice()));
    }

    // At most four calls, all accepted, the last a commit.
    fn further(&mut self) {
        let start = self.counts.accepted;
        let made = (1..=4).find(|_| {
            let call = calls::further(&self.core);
            self.call(call, Lent::AsSetUp);
            call == Call::Commit
        });
        add(&mut self.counts.rounds, 1);
        let right = made.is_some_and(|made| self.counts.accepted == start.wrapping_add(made));
        self.counts.expect_no_difference(right);
    }

    fn turn(&mut self, seed: u32) {
        let pick = draw(seed, 0) % 96;
        if pick < 2 && !self.ordered.has_ended() {
            self.further();
            return;
        }
        let registers = &self.ordered.last.registers;
        let call = calls::chosen(&self.core, self.program.as_slice(), registers, seed);
        if pick == 2 {
            self.call_damaged(call, draw(seed, 4));
            return;
        }
        let lengths = match (pick, draw(seed, 5) % 2) {
            (3, 0) => Lent::OtherProgram,
            (3, _) => Lent::OtherData,
            _ => Lent::AsSetUp,
        };
        self.call(call, lengths);
        if pick % 16 == 15 {
            self.drain();
        }
    }

    // So many turns, until a halt or through it.
    pub fn turns(&mut self, seed: u32, n: u32, until: Until) {
        let mut seed = seed;
        for _ in 0..n {
            seed = chance::next(seed);
            self.turn(seed);
            if until == Until::Halt && self.core.halt.cause != 0 {
                break;
            }
        }
    }

    // A few turns more through a halt, or without a halt the further calls.
    pub fn end(&mut self, seed: u32) {
        if self.core.halt.cause != 0 {
            self.turns(seed, 5, Until::Through);
        } else {
            self.further();
        }
    }
}
