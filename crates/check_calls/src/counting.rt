// What was seen.
use crate::calls::Answered;
use renaming::Core;
use vectors::add;
use window::Call;

// What became of FENCEs.
#[derive(Clone, Copy, Default)]
pub struct Fences {
    issued: u64,
    committed: u64,
    dropped: u64,
}

#[derive(Clone, Copy, Default)]
pub struct Counts {
    pub lists: u64,
    pub calls: u64,
    pub accepted: u64,
    // by the refusal's number
    pub refused: [u64; 32],
    pub steals: u64,
    pub dropped: u64,
    pub wrong_predictions: u64,
    pub commits: u64,
    // by the cause
    pub halts: [u64; 8],
    pub rounds: u64,
    pub drains: u64,
    pub fences: Fences,
    pub differences: u64,
    pub violations: u64,
}

// a destination without a cause while no register was free
fn is_steal(before: &Core, after: &Core, position: usize) -> bool {
    before.free_registers.head == 0
        && after
            .entries
            .get(position)
            .is_some_and(|e| e.destination != 0 && e.stop.cause == 0)
}

// how many of the entries from one position to the one before another are FENCEs
fn fences_among(m: &Core, from: usize, to: usize) -> u64 {
    m.entries.get(from..to).map_or(0, |entries| {
        entries
            .iter()
            .filter(|e| e.instruction.operation == isa::FENCE)
            .count() as u64
    })
}

impl Counts {
    pub fn expect_no_difference(&mut self, right: bool) {
        add(&mut self.differences, u64::from(!right));
    }

    pub fn expect_no_violation(&mut self, right: bool) {
        add(&mut self.violations, u64::from(!right));
    }

    fn completed(&mut self, before: &Core, after: &Core, position: usize) {
        let gone = before.count.saturating_sub(after.count);
        add(&mut self.dropped, u64::from(gone));
        let fences = fences_among(before, after.count as usize, before.count as usize);
        add(&mut self.fences.dropped, fences);
        let wrong = gone != 0 || before.fetch != after.fetch;
        add(&mut self.wrong_predictions, u64::from(wrong));
        let stole = is_steal(before, after, position);
        add(&mut self.steals, u64::from(stole));
    }

    fn committed(&mut self, before: &Core, after: &Core) {
        if after.halt.cause == 0 {
            add(&mut self.commits, 1);
            add(&mut self.fences.committed, fences_among(before, 0, 1));
        } else {
            vectors::count(&mut self.halts, after.halt.cause as usize);
            add(&mut self.dropped, u64::from(before.count.saturating_sub(1)));
            let fences = fences_among(before, 1, before.count as usize);
            add(&mut self.fences.dropped, fences);
        }
    }

    // A call that was made.
    pub fn made(&mut self, before: &Core, call: Call, answered: &Answered) {
        add(&mut self.calls, 1);
        if answered.number != 0 {
            vectors::count(&mut self.refused, answered.number as usize);
            return;
        }
        let after = &answered.after;
        add(&mut self.accepted, 1);
        match call {
            Call::Decode(_) => {}
            Call::Issue(position) => {
                let end = position.saturating_add(1);
                add(&mut self.fences.issued, fences_among(before, position, end));
            }
            Call::Complete(position) => self.completed(before, after, position),
            Call::Commit => self.committed(before, after),
        }
    }

    pub fn print(&self, rt: &impl Print) {
        let _ = println!(rt; "lists {}", self.lists);
        let _ = println!(rt; "calls {}", self.calls);
        let _ = println!(rt; "accepted {}", self.accepted);
        for number in [5, 6, 10, 11, 12, 13, 14, 15, 16] {
            let _ = println!(rt; "refused by {number} {}", self.refused[number]);
        }
        let _ = println!(rt; "steals {}", self.steals);
        let _ = println!(rt; "dropped {}", self.dropped);
        let _ = println!(rt; "wrong predictions {}", self.wrong_predictions);
        let _ = println!(rt; "commits {}", self.commits);
        for (cause, halts) in self.halts.iter().enumerate().skip(1) {
            let _ = println!(rt; "halts with {cause} {halts}");
        }
        let _ = println!(rt; "rounds of further calls {}", self.rounds);
        let _ = println!(rt; "drains {}", self.drains);
        let _ = println!(rt; "fences issued {}", self.fences.issued);
        let _ = println!(rt; "fences committed {}", self.fences.committed);
        let _ = println!(rt; "fences dropped {}", self.fences.dropped);
        let _ = println!(rt; "differences {}", self.differences);
        let _ = println!(rt; "violations {}", self.violations);
    }
}
