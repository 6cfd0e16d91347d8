ghost use Rattle.std.specs.Prelude.{◌≡◌};
ghost use Rattle.refusals.specs.Numbers.{number_of};
ghost use Rattle.renaming.specs.Call as Call;

use crate::Core;
use refusals::Refusal;

impl Core {
    // What whoever holds a machine meets: 5, then 6. Inner: the calls use it.
    pub fn lent(&self, program: &[u8], data: &[u8]) -> Result<(), Refusal>
        ensures { number_of result ≡ Call.lent_refusal self.now program.now «data».now }
    {
        if !self.in_range() {
            return Err(Refusal::OutOfRange);
        }
        let same = (program.len() == self.setup.program as usize)
            & (data.len() == self.setup.bytes as usize);
        if !same {
            return Err(Refusal::LentLength);
        }
        Ok(())
    }
}
