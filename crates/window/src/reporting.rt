ghost use Rattle.std.specs.Prelude.{◌≡◌};
ghost use Rattle.window.specs.Report.{report_of};

use crate::{Machine, Report};
use refusals::Refusal;

impl Machine {
    // The committed registers; refused by 5 alone, then all values are 0.
    #[tactic(auto, unfolding(crate::specs::Report::report_of))]
    pub fn report(self) -> Report
        ensures { result ≡ report_of self.core }
    {
        if !self.core.in_range() {
            return Report {
                registers: [0; 32],
                number: Refusal::OutOfRange.into(),
            };
        }
        Report {
            registers: self.core.committed_values(),
            number: 0,
        }
    }
}
