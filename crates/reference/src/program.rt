ghost use Rattle.std.specs.Prelude.{◌≡◌, true};
ghost use Rattle.reference.specs.Fetch.{fetch_numbers, has_word, word_at, fetch_at};

use execution::{Cause, memory};
use isa::Instruction;

// Inner, for fetch and for decode: whether the program has a word at this address.
pub fn has_word(program: &[u8], address: u32) -> bool
    ensures { result ≡ has_word program.now address }
{
    memory::accessible(program.len(), address, 4)
}

// Inner, for fetch and for decode: the word at an address that has one.
#[tactic(auto, using(execution::proofs::MemoryLaws::access_room))]
pub fn word_at(program: &[u8], address: u32) -> u32
    requires { has_word program.now address ≡ true }
    ensures { result ≡ word_at program.now address }
{
    word::load(program, address as usize, 4)
}

// The instruction at an address, or the cause of a stop: 4 outside the program or not a multiple of 4, 1 illegal.
// Inner: step and run use it.
#[tactic(auto, unfolding(crate::specs::Fetch::fetch_at))]
pub fn fetch(program: &[u8], address: u32) -> Result<Instruction, Cause>
    ensures { fetch_numbers result ≡ fetch_at program.now address }
{
    if !has_word(program, address) {
        return Err(Cause::Fetch);
    }
    isa::read(word_at(program, address)).ok_or(Cause::Illegal)
}
