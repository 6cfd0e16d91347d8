// One call, and which one to make.
ghost use Rattle.std.specs.Prelude.{◌<◌};

use crate::chance::draw;
use isa::Instruction;
use renaming::Core;
use tables::State;
use window::{Call, Machine};

// The machine after a call, and 0 or the refusal's number. It is document 01's and no `Refusal`: a test that took it from the enum
// would not see it change.
#[derive(Clone, Copy)]
pub struct Answered {
    pub after: Core,
    pub number: u8,
}

pub fn made(m: &Core, program: &[u8], data: &mut [u8], call: Call) -> Answered {
    let machine = Machine { core: *m };
    let answer = machine.make(call, program, data);
    Answered {
        after: answer.machine.core,
        number: answer.number,
    }
}

// With which lengths a call is made.
#[derive(Clone, Copy, PartialEq, Eq)]
pub enum Lent {
    AsSetUp,
    OtherProgram,
    OtherData,
}

// A call; 6 answers lengths that are not those of set-up.
pub fn made_with(m: &Core, program: &[u8], data: &mut [u8], call: Call, lengths: Lent) -> Answered {
    let mut bytes = [0u8; 3];
    match lengths {
        Lent::AsSetUp => made(m, program, data, call),
        Lent::OtherProgram => made(m, &bytes, data, call),
        Lent::OtherData => made(m, program, &mut bytes, call),
    }
}

// k places after or before a start, around 64 places
fn place(from: u32, k: usize, down: bool) -> usize
    ensures { result < 64 }
{
    let start = (from % 64) as usize;
    if down {
        return (start + 64 - k % 64) % 64;
    }
    (start + k % 64) % 64
}

// the position of the first entry in this state, from a start on and around
fn position_of(m: &Core, start: u32, down: bool, wanted: State) -> Option<usize> {
    let entries = m.entries.get(..m.count as usize)?;
    (0..64)
        .map(|k| place(start, k, down))
        .find(|at| entries.get(*at).is_some_and(|e| e.state == wanted))
}

// The position of the first waiting entry, from a start on and around; 0 where there is none.
pub fn first_waiting(m: &Core, start: u32) -> usize {
    position_of(m, start, false, State::Waits).unwrap_or(0)
}

// The same of an issued one.
pub fn first_issued(m: &Core, start: u32) -> usize {
    position_of(m, start, false, State::Issued).unwrap_or(0)
}

// where a branch or jump at the fetch address would go; 4 is JALR, by document 01
fn target(i: Instruction, address: u32, registers: &[u32; 32]) -> u32 {
    let constant = i.constant.cast_unsigned();
    if i.operation != 4 {
        return address.wrapping_add(constant);
    }
    registers.get(i.rs1 as usize).map_or(0, |value| {
        let to = value.wrapping_add(constant);
        to - to % 2
    })
}

// the next address, the target, a near address, or any number; the match is of a weight, which is no kind
fn guess(program: &[u8], address: u32, registers: &[u32; 32], x: u32) -> u32 {
    match x % 8 {
        0 => x / 8 % 64 * 4,
        1 => x,
        2..=4 => reference::fetch(program, address).map_or(0, |i| target(i, address, registers)),
        _ => address.wrapping_add(4),
    }
}

// The call that an entry in this state needs next. `window` has the same in a drain; a test that took it from there would not
// see it change.
fn needed(state: State, position: usize) -> Call {
    match state {
        State::Waits => Call::Issue(position),
        State::Issued => Call::Complete(position),
        State::Completed => Call::Commit,
    }
}

// The call that document 01's further calls make on this machine.
pub fn further(m: &Core) -> Call {
    if m.count == 0 {
        return Call::Decode(m.fetch.wrapping_add(4));
    }
    needed(m.entries[0].state, 0)
}

// the call that an entry in this state needs, now and then at any position; a further call where no entry is in the state
fn for_entry(m: &Core, x: u32, state: State) -> Call {
    let position = if x % 32 == 0 {
        Some((x / 64 % 80) as usize)
    } else {
        position_of(m, x / 64, x % 4 != 0, state)
    };
    match position {
        Some(position) => needed(state, position),
        None => further(m),
    }
}

// A call for the machine, mostly one that is not refused: where the window is full seldom decode, where the oldest is not
// completed seldom commit. The match is of a weight, which is no kind.
pub fn chosen(m: &Core, program: &[u8], registers: &[u32; 32], seed: u32) -> Call {
    let pick = draw(seed, 1);
    let x = draw(seed, 2);
    let full = m.count == m.setup.window;
    let seldom = pick / 16 % 16 == 0;
    match pick % 16 {
        0..=7 if full && !seldom => for_entry(m, x, State::Waits),
        0..=7 => Call::Decode(guess(program, m.fetch, registers, draw(seed, 3))),
        8..=10 => for_entry(m, x, State::Waits),
        11..=13 => for_entry(m, x, State::Issued),
        _ if m.entries[0].state != State::Completed && !seldom => for_entry(m, x, State::Issued),
        _ => Call::Commit,
    }
}
