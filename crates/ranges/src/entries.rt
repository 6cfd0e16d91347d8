// What refusal 5 looks at in an entry. Tests are joined without early exit.
ghost use Rattle.std.specs.Prelude.{◌≡◌, ◌≤◌};
ghost use Rattle.ranges.specs.Entries as Entries;
ghost use Rattle.ranges.specs.Sizes.{most_entries};

use crate::Setup;
use crate::sizes::LAST_LOGICAL;
use execution::{Cause, Stop, memory};
use isa::Instruction;
use tables::{Entry, Operand, State};

fn operand_in_range(names: u8, registers: u8, operand: Operand) -> bool
    ensures { result ≡ Entries.operand_in_range names registers operand }
{
    match operand {
        Operand::Zero => true,
        Operand::Waiting(name) => name <= names,
        Operand::Ready(name, register) => (name <= names) & (register <= registers),
    }
}

// the derived equality, under the name of document 01's case
fn is_none(i: Instruction) -> bool
    ensures { result ≡ Entries.is_none i }
{
    i == Instruction::default()
}

fn instruction_in_range(e: &Entry) -> bool
    ensures { result ≡ Entries.instruction_in_range e.now }
{
    let without = (e.stop == Cause::Illegal.into()) | (e.stop == Cause::Fetch.into());
    isa::accepts(e.instruction) | (is_none(e.instruction) & (e.state == State::Completed) & without)
}

fn cause_in_range(e: &Entry) -> bool
    ensures { result ≡ Entries.cause_in_range e.now }
{
    e.stop.is_in_range() & ((e.state == State::Completed) | (e.stop == Stop::NONE))
}

fn store_in_range(bytes: u16, e: &Entry) -> bool
    ensures { result ≡ Entries.store_in_range bytes e.now }
{
    !((e.state == State::Completed) & (e.stop == Stop::NONE))
        | memory::store_ends_within(bytes as usize, e.instruction, e.first)
}

// Inner: refusal 5 uses it.
#[tactic(auto, unfolding(crate::specs::Entries::entry_in_range))]
pub fn entry_in_range(s: Setup, e: &Entry) -> bool
    requires { s.window ≤ most_entries }
    ensures { result ≡ Entries.entry_in_range s e.now }
{
    let names = s.last_name();
    instruction_in_range(e)
        & (e.destination <= LAST_LOGICAL)
        & (e.name <= names)
        & (e.previous <= names)
        & operand_in_range(names, s.registers, e.left)
        & operand_in_range(names, s.registers, e.right)
        & cause_in_range(e)
        & store_in_range(s.bytes, e)
}
