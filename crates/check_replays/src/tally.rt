// What the cases came to, counted from what replay answered and not from what the file expects.
use bench::Replayed;
use events::Counts;
use refusals::Refusal;

// how many of the cases that differ are named
const NAMED: u64 = 5;

// The sums of the counts of events. No generic `Counts` for it: its methods and contracts are of u32, and none serves these sums.
#[derive(Clone, Copy, Default)]
struct Sums {
    accepted: u64,
    refused: u64,
    committed: u64,
    steals: u64,
    dropped: u64,
}

impl Sums {
    fn add(&mut self, counts: &Counts) {
        vectors::add(&mut self.accepted, counts.accepted.into());
        vectors::add(&mut self.refused, counts.refused.into());
        vectors::add(&mut self.committed, counts.committed.into());
        vectors::add(&mut self.steals, counts.steals.into());
        vectors::add(&mut self.dropped, counts.dropped.into());
    }

    fn print(&self, rt: &impl Print) {
        let _ = println!(rt; "accepted {}", self.accepted);
        let _ = println!(rt; "refused {}", self.refused);
        let _ = println!(rt; "committed {}", self.committed);
        let _ = println!(rt; "steals {}", self.steals);
        let _ = println!(rt; "dropped {}", self.dropped);
    }
}

// `numbers` counts the cases by their number.
#[derive(Clone, Copy, Default)]
pub struct Tally {
    cases: vectors::Tally,
    numbers: [u64; 32],
    sums: Sums,
}

impl Tally {
    // One case more. A refused replay has no counts.
    pub fn told(&mut self, rt: &impl Print, answer: &Result<Replayed, Refusal>, right: bool) {
        if let Ok(found) = answer {
            self.sums.add(&found.counts);
        }
        vectors::count(&mut self.numbers, refusals::number_of(answer).into());
        let named = !right && self.cases.differ < NAMED;
        self.cases.told(right);
        if named {
            let _ = println!(rt; "differs: line of cases.txt {}", self.cases.tested);
        }
    }

    pub fn print(&self, rt: &impl Print) {
        let _ = self.cases.print(rt, "cases");
        for (number, cases) in self.numbers.iter().enumerate() {
            if matches!(number, 0..=4 | 20..=26) {
                let _ = println!(rt; "number {number} {cases}");
            }
        }
        self.sums.print(rt);
    }
}
