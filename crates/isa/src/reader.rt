ghost use Rattle.std.specs.Prelude.{◌≡◌};
ghost use Rattle.isa.specs.Reads.{numbers_of, read_of};

use crate::{Instruction, fields, listing, operation};

// The instruction in a word, if it has one. In line, since each step reads a word: with two callers it is else called, and the
// in-order run takes half as long again (docs/SPEED.md).
#[inline(always)]
#[tactic(auto, using(crate::proofs::ReadLaws::found_none, crate::proofs::ReadLaws::found_some, crate::proofs::ReadLaws::read_none, crate::proofs::ReadLaws::read_some))]
pub fn read(word: u32) -> Option<Instruction>
    ensures { numbers_of result ≡ read_of word }
{
    let operation = operation::find(word)?;
    Some(fields::fields(listing::format(operation), operation, word))
}
