// The entry that decode enters.
ghost use Rattle.std.specs.Prelude.{◌≡◌};
ghost use Rattle.isa.specs.Reads.{none};
ghost use Rattle.execution.specs.Causes.{cause_number};
ghost use Rattle.execution.specs.Execute.{stop};
ghost use Rattle.reference.specs.Fetch.{fetch_at};
ghost use Rattle.decoding.specs.Decode as Decode;

use execution::{Cause, roles};
use isa::Instruction;
use reference::program;
use renaming::Core;
use tables::{Entry, State};

// one that enters completed, with a cause
fn ended(address: u32, instruction: Instruction, cause: Cause) -> Entry
    ensures { result ≡ Decode.ended_entry address instruction (stop (cause_number cause)) }
{
    Entry {
        instruction,
        address,
        predicted: word::add(address, 4),
        state: State::Completed,
        stop: cause.into(),
        ..Entry::default()
    }
}

// one for which the program has no instruction
fn without_instruction(address: u32, cause: Cause) -> Entry
    ensures { result ≡ Decode.ended_entry address none (stop (cause_number cause)) }
{
    ended(address, Instruction::default(), cause)
}

// one that waits: its operands come from the general map, its destination's name is the pool's head
fn started(core: &Core, i: Instruction, guess: u32) -> Entry
    ensures { result ≡ Decode.started_entry core.now i guess }
{
    let destination = reference::destination_of(i);
    let name = if destination == 0 {
        0
    } else {
        core.free_names.head
    };
    Entry {
        instruction: i,
        address: core.fetch,
        predicted: roles::predicted_next(i, core.fetch, guess),
        left: core.map.operand(reference::first_source(i)),
        right: core.map.operand(reference::second_source(i)),
        destination,
        name,
        previous: core.map.shown(destination).name,
        ..Entry::default()
    }
}

// By what the program has at the fetch address. Document 01 wants `let .. else` on the reader's answer here, so that decode does
// not call `fetch`. Inner: this crate uses it.
#[tactic(auto, unfolding(reference::specs::Fetch::fetch_at))]
pub fn entry_for(core: &Core, program: &[u8], guess: u32) -> Entry
    ensures { result ≡ Decode.entry_for core.now (fetch_at program.now core.now.fetch) guess }
{
    let address = core.fetch;
    if !program::has_word(program, address) {
        return without_instruction(address, Cause::Fetch);
    }
    let Some(i) = isa::read(program::word_at(program, address)) else {
        return without_instruction(address, Cause::Illegal);
    };
    if let Some(cause) = roles::stop_at_once(i) {
        return ended(address, i, cause);
    }
    started(core, i, guess)
}
