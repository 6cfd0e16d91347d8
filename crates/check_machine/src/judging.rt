// Whether a machine is refused by 5, or passes. Document 01's numbers are written as they stand there: a test that took them
// from the code would not see a wrong one.
use crate::cases::Expected;
use renaming::Core;
use vectors::Tally;
use window::Machine;

// Refused by the sweep and by the report, which then has all values 0.
pub fn is_refused(m: &Core) -> bool {
    let report = Machine { core: *m }.report();
    !m.in_range() && report.number == 5 && report.registers == [0; 32]
}

pub fn passes(m: &Core) -> bool {
    m.in_range() && Machine { core: *m }.report().number == 0
}

// A machine that is changed in one way or another, and how many of the changed ones were judged.
#[derive(Default, Drop)]
pub struct Trial {
    pub machine: Core,
    // by what was expected of them
    counts: [u64; 3],
    tally: Tally,
}

impl Trial {
    pub fn judge(&mut self, m: &Core, expected: Expected) {
        vectors::count(&mut self.counts, expected as usize);
        self.tally.told(match expected {
            Expected::Refused => is_refused(m),
            Expected::InRange | Expected::Ignored => passes(m),
        });
    }

    // The machine with one change.
    pub fn change<F: FnOnce(&mut Core)>(&mut self, expected: Expected, change: F)
        requires { F.IsAlwaysCallable change }
    {
        let mut changed = self.machine;
        change(&mut changed);
        self.judge(&changed, expected);
    }

    // The machine with each of these values set.
    pub fn each<T: Copy, F: Fn(&mut Core, T)>(&mut self, expected: Expected, values: &[T], set: F)
        requires { F.IsAlwaysCallable set }
    {
        for value in values {
            self.change(expected, |m| set(m, *value));
        }
    }

    // There is no machine to change where there should be one.
    pub fn miss(&mut self) {
        self.tally.told(false);
    }

    pub fn print(&self, rt: &impl Print, name: &str) {
        let [refused, in_range, ignored] = self.counts;
        let _ = println!(rt;
            "{name}: refused {refused}, in range {in_range}, not looked at {ignored}, differ {}",
            self.tally.differ
        );
    }
}
