// The entry that a call is made on.
ghost use Rattle.std.specs.Prelude.{◌≡◌, ◌≤◌, ◌<◌, OnOk};
ghost use Rattle.refusals.specs.Numbers.{number_of};
ghost use Rattle.ranges.specs.Sizes.{most_entries};
ghost use Rattle.renaming.specs.Call as Call;

use crate::Core;
use refusals::Refusal;
use tables::State;

impl Core {
    // 10, 12 and 13, with which issue, complete and commit begin. Inner: they use it.
    #[tactic(auto, unfolding(crate::specs::Call::entry_refusal, reference::specs::Step::first))]
    pub fn check_entry(&self, position: usize, wanted: State) -> Result<(), Refusal>
        requires { self.now.count ≤ most_entries }
        ensures number { number_of result ≡ Call.entry_refusal wanted position self.now }
        ensures inside { OnOk result (position < self.now.count) }
    {
        if self.is_halted() {
            return Err(Refusal::Halted);
        }
        if self.count as usize <= position {
            return Err(Refusal::NoEntry);
        }
        if self.entries[position].state != wanted {
            return Err(Refusal::WrongState);
        }
        Ok(())
    }
}
