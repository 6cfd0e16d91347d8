// The sizes of a machine: W, N and the lengths of program and data.
ghost use Rattle.std.specs.Prelude.{◌≡◌, ◌≤◌};
ghost use Rattle.ranges.specs.Sizes.{most_entries, names_of, window_fits, registers_fit, setup_in_range};
ghost use Rattle.ranges.specs.Asked.{SetupIs};

use crate::{Dimensions, Setup};
use reference::lengths;
use refusals::Refusal;

// the entries of the largest window
pub const MOST_ENTRIES: usize = 64;

// the most physical registers
pub const MOST_REGISTERS: usize = 95;

// the last logical register
pub const LAST_LOGICAL: u8 = 31;

fn window_fits(window: u32) -> bool
    ensures { result ≡ window_fits window }
{
    (1 <= window) & (window <= MOST_ENTRIES as u32)
}

fn registers_fit(registers: u32) -> bool
    ensures { result ≡ registers_fit registers }
{
    (32 <= registers) & (registers <= MOST_REGISTERS as u32)
}

// Refusals 1 to 4, or the sizes as a machine holds them. Inner: set-up uses it.
impl TryFrom<Dimensions> for Setup {
    type Error = Refusal;

    ghost try_from_gives = { SetupIs };

    #[tactic(auto, unfolding(crate::specs::Sizes::set_up_refusal, reference::specs::Step::lengths_refusal, reference::specs::Step::first))]
    fn try_from(asked: Dimensions) -> Result<Setup, Refusal> {
        if !window_fits(asked.window) {
            return Err(Refusal::WindowSize);
        }
        if !registers_fit(asked.registers) {
            return Err(Refusal::RegisterCount);
        }
        lengths::check(asked.program, asked.bytes)?;
        Ok(Setup {
            window: asked.window as u8,
            registers: asked.registers as u8,
            program: asked.program as u16,
            bytes: asked.bytes as u16,
        })
    }
}

impl Setup {
    // Inner: refusal 5 uses it.
    pub fn is_in_range(self) -> bool
        ensures { result ≡ setup_in_range self }
    {
        window_fits(self.window as u32)
            & registers_fit(self.registers as u32)
            & lengths::program_fits(self.program as usize)
            & lengths::data_fits(self.bytes as usize)
    }

    // The last name, 31 + W. Inner: refusal 5 and set-up use it.
    pub fn last_name(self) -> u8
        requires { self.window ≤ most_entries }
        ensures { result ≡ names_of self.window }
    {
        LAST_LOGICAL + self.window
    }
}
