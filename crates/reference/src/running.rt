ghost use Rattle.std.specs.Prelude.{◌≡◌};
ghost use Rattle.reference.specs.Run as Run;
ghost use Rattle.reference.specs.Step as Step;

use crate::{Ran, lengths, stepping};
use execution::Stop;

// up to n steps, lengths unseen
fn proceed(program: &[u8], data: &mut [u8], registers: [u32; 32], address: u32, n: u16) -> Ran
    ensures { Run.run_answer (Run.run_of n program.now (Step.state registers address «data».old)) 0 ≡ record { answer = Run.ran result; memory = «data».new } }
{
    let mut values = registers;
    let mut at = address;
    for steps in 0..n {
        match stepping::advance(program, data, &mut values, at) {
            Ok(next) => at = next,
            Err(cause) => {
                return Ran {
                    registers: values,
                    address: at,
                    steps,
                    stop: cause.into(),
                    refusal: None,
                };
            }
        }
    }
    Ran {
        registers: values,
        address: at,
        steps: n,
        stop: Stop::NONE,
        refusal: None,
    }
}

// Up to n steps in order, fewer at a stop; at a refusal all comes back as given with 0 steps.
pub fn run(program: &[u8], data: &mut [u8], registers: [u32; 32], address: u32, n: u16) -> Ran
    ensures { Run.ran_of n program.now (Step.state registers address «data».old) ≡ record { answer = Run.ran result; memory = «data».new } }
{
    if let Err(refusal) = lengths::check_lent(program, data) {
        return Ran {
            registers,
            address,
            steps: 0,
            stop: Stop::NONE,
            refusal: Some(refusal),
        };
    }
    proceed(program, data, registers, address, n)
}
