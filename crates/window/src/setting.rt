ghost use Rattle.std.specs.Prelude.{◌≡◌};
ghost use Rattle.renaming.specs.SetUp.{set_up_of};
ghost use Rattle.ranges.specs.Sizes.{setup_of};
ghost use Rattle.window.specs.Handed as Handed;

use crate::{Answer, Machine, Setup};
use renaming::{Core, Dimensions};

impl Machine {
    // A fresh machine for a window of 1 to 64 entries, 32 to 95 physical registers and these lengths of program and
    // data; refused by 1 to 4, a machine of zeros.
    pub fn set_up(window: u32, registers: u32, program: usize, bytes: usize) -> Answer
        ensures { Handed.answer result ≡ set_up_of (setup_of window registers program bytes) }
    {
        let asked = Dimensions {
            window,
            registers,
            program,
            bytes,
        };
        // in the answer: a machine that a Result or another function hands on is copied
        let mut answer = Answer {
            machine: Machine {
                core: Core::zeros(),
            },
            number: 0,
        };
        match Setup::try_from(asked) {
            Ok(setup) => answer.machine.core.begin(setup),
            Err(refusal) => answer.number = refusal.into(),
        }
        answer
    }
}
