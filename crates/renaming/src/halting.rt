ghost use Rattle.std.specs.Prelude.{◌≡◌};
ghost use Rattle.renaming.specs.Call as Call;

use crate::Core;
use execution::Stop;

impl Core {
    // Whether it holds a cause: no call is made on it any more. Inner: the calls, drain and the counts use it.
    pub fn is_halted(&self) -> bool
        ensures { result ≡ Call.halted self.now }
    {
        self.halt != Stop::NONE
    }
}
