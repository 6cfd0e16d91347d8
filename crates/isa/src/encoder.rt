ghost use Rattle.std.specs.Prelude.{◌≡◌};
ghost use Rattle.isa.specs.Encodes.{accepted, byte, encoded, encoded_of};
ghost use Rattle.isa.specs.Reads.{instruction};

use crate::{Instruction, limits, listing, placing};
use refusals::Refusal;

// whether the encoder accepts the instruction. Inner: `encode` and refusal 5 use it.
#[tactic(auto, unfolding(crate::specs::Encodes::accepted))]
pub fn accepts(i: Instruction) -> bool
    ensures { result ≡ accepted i }
{
    (1..=listing::LAST).contains(&i.operation) && limits::in_range(listing::format(i.operation), i)
}

// the number as a field, which holds 8 bits
fn narrow(number: u32) -> Result<u8, Refusal>
    ensures { result ≡ byte number }
{
    u8::try_from(number).map_err(|_| Refusal::Encoding)
}

// The word of these fields, or refusal 30. Five numbers, as C hands them over: an `Instruction` cannot hold those above 255.
#[tactic(auto, using(crate::proofs::Accepted::refused_operation, crate::proofs::Accepted::refused_rd, crate::proofs::Accepted::refused_rs1, crate::proofs::Accepted::refused_rs2))]
pub fn encode(operation: u32, rd: u32, rs1: u32, rs2: u32, constant: i32) -> Result<u32, Refusal>
    ensures { encoded result ≡ encoded_of (instruction operation rd rs1 rs2 constant) }
{
    let i = Instruction {
        operation: narrow(operation)?,
        rd: narrow(rd)?,
        rs1: narrow(rs1)?,
        rs2: narrow(rs2)?,
        constant,
    };
    if !accepts(i) {
        return Err(Refusal::Encoding);
    }
    Ok(placing::write(i))
}
