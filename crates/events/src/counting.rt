// What one event adds to the counts.
ghost use Rattle.std.specs.Prelude.{◌≡◌};
ghost use Rattle.events.specs.Counts.{refusing};
ghost use Rattle.events.specs.Numbers.{Small, accepting_by};

use crate::Counts;
use renaming::Core;
use window::Call;

impl Counts {
    // An accepted call: by the entries before it, whether it stole a register, and the machine after it. A difference ends at
    // 0, as in the definitions. Inner: replay's loop uses it.
    pub fn accept(&mut self, call: Call, entries: u8, stole: bool, after: &Core)
        requires { Small 100_000_000 self.old }
        ensures { self.new ≡ accepting_by call entries stole after.now self.old }
    {
        self.accepted += 1;
        self.steals += u32::from(stole);
        // the halting entry is not a dropped one
        let others = entries.saturating_sub(1);
        match call {
            Call::Decode(_) | Call::Issue(_) => {}
            Call::Complete(_) => self.dropped += u32::from(entries.saturating_sub(after.count)),
            Call::Commit if after.is_halted() => self.dropped += u32::from(others),
            Call::Commit => self.committed += 1,
        }
    }

    // Inner: replay's loop uses it.
    pub fn refuse(&mut self)
        requires { Small 100_000_000 self.old }
        ensures { self.new ≡ refusing self.old }
    {
        self.refused += 1;
    }
}
