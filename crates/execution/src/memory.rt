ghost use Rattle.std.specs.Prelude.{◌≡◌, ◌^◌, ◌<◌, ◌≤◌, length};
ghost use Rattle.word.specs.Bytes.{byte_of};
ghost use Rattle.execution.specs.Memory as Memory;

use crate::{Action, actions};
use isa::Instruction;

// Whether the access is aligned and stays within the memory's bytes; the sizes that there are by constants, since a division
// takes longer than the access. Inner: the step and the calls use it.
#[tactic(auto, unfolding(crate::specs::Memory::accessible))]
pub fn accessible(bytes: usize, address: u32, size: u8) -> bool
    ensures { result ≡ Memory.accessible bytes address size }
{
    let at = address as usize;
    let width = size as usize;
    let aligned = match size {
        1 => true,
        2 => at.is_multiple_of(2),
        4 => at.is_multiple_of(4),
        _ => at.is_multiple_of(width),
    };
    aligned & (at + width <= bytes)
}

// the address that a load or a store goes to
fn effective(i: Instruction, first: u32) -> u32
    ensures { result ≡ Memory.effective i first }
{
    word::add(first, word::to_word(i.constant))
}

// the number in the bytes of an access, or 0 where it stops
#[tactic(auto, using(crate::proofs::MemoryLaws::access_room, crate::proofs::MemoryLaws::byte_powers), unfolding(crate::specs::Memory::second_by))]
fn load(data: &[u8], address: u32, size: u8) -> u32
    requires { size ≤ 4 }
    ensures found { result ≡ Memory.second_by (Action.LoadsUnsigned size) (length «data».now) address 0 (byte_of «data».now) }
    ensures below { result < 256 ^ size }
{
    if accessible(data.len(), address, size) {
        word::load(data, address as usize, size as usize)
    } else {
        0
    }
}

// size bytes as a signed number, extended to 32 bits
fn sign_extended(size: u8, value: u32) -> u32
    requires sized { (0 < size) × (size < 4) }
    requires below { value < 256 ^ size }
    ensures { result ≡ Memory.sign_extended size value }
{
    let half = 1u32 << (8 * (size as u32) - 1);
    word::to_word(word::extend(half, value))
}

// the second value of an action: what a load finds in the data, else the operand's. Inner: the step uses it.
#[tactic(auto, unfolding(crate::specs::Memory::second_by))]
pub fn second_by(action: Action, data: &[u8], address: u32, second: u32) -> u32
    requires { Memory.Loadable action }
    ensures { result ≡ Memory.second_by action (length «data».now) address second (byte_of «data».now) }
{
    match action {
        Action::LoadsSigned(size) => sign_extended(size, load(data, address, size)),
        Action::LoadsUnsigned(size) => load(data, address, size),
        _ => second,
    }
}

// The second value that an instruction reads. Inner: the step and the calls use it.
pub fn second_value(i: Instruction, data: &[u8], first: u32, second: u32) -> u32
    ensures { result ≡ Memory.second_value i first second «data».now }
{
    second_by(
        actions::action(i.operation),
        data,
        effective(i, first),
        second,
    )
}

// the data after an action: a store whose bytes stay within them writes them, others leave them.
// Inner: the step uses it.
#[tactic(auto, unfolding(crate::specs::Memory::stored_by))]
pub fn store_by(action: Action, data: &mut [u8], address: u32, second: u32)
    ensures { «data».new ≡ Memory.stored_by action address second «data».old }
{
    if let Action::Stores(size) = action {
        let at = address as usize;
        let width = size as usize;
        if at + width <= data.len() {
            word::store(data, at, width, second);
        }
    }
}

// The data after a store; other instructions leave them. Inner: the step and the calls use it.
pub fn store(i: Instruction, data: &mut [u8], first: u32, second: u32)
    ensures { «data».new ≡ Memory.stored i first second «data».old }
{
    store_by(
        actions::action(i.operation),
        data,
        effective(i, first),
        second,
    );
}

// whether a store's bytes stay within the memory's; other instructions have none. Inner: the step and the calls use it.
#[tactic(auto, unfolding(crate::specs::Memory::ends_within_by))]
pub fn store_ends_within(bytes: usize, i: Instruction, first: u32) -> bool
    ensures { result ≡ Memory.store_ends_within bytes i first }
{
    match actions::action(i.operation) {
        Action::Stores(size) => effective(i, first) as usize + size as usize <= bytes,
        _ => true,
    }
}
