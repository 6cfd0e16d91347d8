// What document 01 says of a machine between calls, whatever they were.
use isa::Instruction;
use renaming::Core;
use tables::{Entry, GeneralMap, State};

// "The general map's register is zero while valid is clear."
fn map_rests(map: &GeneralMap) -> bool {
    map.mappings
        .iter()
        .all(|mapping| mapping.valid || mapping.register == 0)
}

// "A waiting entry's values and result are zero"
fn waits_with_zeros(e: &Entry) -> bool {
    e.state != State::Waits || (e.first == 0 && e.second == 0 && e.result == 0)
}

// "Where decode found no instruction, the entry keeps operation 0 with zero fields": completed with cause 1 or 4.
fn instruction_rests(e: &Entry) -> bool {
    let entered = e.state == State::Completed && (e.stop.cause == 1 || e.stop.cause == 4);
    e.instruction.operation != 0 || (entered && e.instruction == Instruction::default())
}

// a cause only in a completed entry
fn cause_rests(e: &Entry) -> bool {
    e.stop.cause == 0 || e.state == State::Completed
}

fn entry_rests(e: &Entry) -> bool {
    waits_with_zeros(e) && instruction_rests(e) && cause_rests(e)
}

// "a place past the last entry is all zeros"
fn entries_rest(m: &Core) -> bool {
    m.entries.iter().enumerate().all(|(k, e)| {
        if k < m.count as usize {
            entry_rests(e)
        } else {
            *e == Entry::default()
        }
    })
}

pub fn rests(m: &Core) -> bool {
    map_rests(&m.map) && entries_rest(m)
}
