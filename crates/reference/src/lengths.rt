ghost use Rattle.std.specs.Prelude.{◌≡◌};
ghost use Rattle.refusals.specs.Numbers.{number_of};
ghost use Rattle.reference.specs.Step.{program_fits, data_fits, lengths_refusal, length_refusal};

use refusals::Refusal;

pub const LONGEST_PROGRAM: usize = 16_384;

pub const LONGEST_DATA: usize = 16_384;

// whether a program may have so many bytes. Inner: step, run, set-up and replay use it.
pub fn program_fits(bytes: usize) -> bool
    ensures { result ≡ program_fits bytes }
{
    (4 <= bytes) & (bytes <= LONGEST_PROGRAM) & (bytes % 4 == 0)
}

// whether data may have so many bytes. Inner: step, run, set-up and replay use it.
pub fn data_fits(bytes: usize) -> bool
    ensures { result ≡ data_fits bytes }
{
    bytes <= LONGEST_DATA
}

// refusal 3 for a program's length, 4 for the data's. Inner: step, run, set-up and replay use it.
#[tactic(auto, unfolding(crate::specs::Step::lengths_refusal, crate::specs::Step::first))]
pub fn check(program: usize, bytes: usize) -> Result<(), Refusal>
    ensures { number_of result ≡ lengths_refusal program bytes }
{
    if !program_fits(program) {
        return Err(Refusal::ProgramLength);
    }
    if !data_fits(bytes) {
        return Err(Refusal::DataLength);
    }
    Ok(())
}

// Inner: step, run, set-up and replay use it.
pub fn check_lent(program: &[u8], data: &[u8]) -> Result<(), Refusal>
    ensures { number_of result ≡ length_refusal program.now «data».now }
{
    check(program.len(), data.len())
}
