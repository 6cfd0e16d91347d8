// What is answered in place, as the number that document 01 puts beside the machine.
ghost use Rattle.std.specs.Prelude.{◌≡◌};
ghost use Rattle.renaming.specs.Answer.{answer};
ghost use Rattle.window.specs.Handed as Handed;

use crate::{Answer, Machine};
use refusals::Refusal;

impl Machine {
    pub(crate) fn answered(self, outcome: Result<(), Refusal>) -> Answer
        ensures { Handed.answer result ≡ answer self.core outcome }
    {
        Answer {
            machine: self,
            number: refusals::number_of(&outcome),
        }
    }
}
