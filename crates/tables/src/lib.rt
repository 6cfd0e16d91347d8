// The tables that the renaming calls are made of: pools of free numbers, the general map, operands, entries.
#![tactic(auto)]

pub mod entries;
pub mod free_list;
pub mod general_map;
pub mod operands;
pub mod table;

use execution::Stop;
use isa::Instruction;

// The places of a table of registers or of names: 0, which is nobody's, and 1 to 95. Zero means none in every field too: any
// number may stand in a machine, so that none is an Option, and what document 01 says of zero is said of these numbers.
pub const PLACES: usize = 96;

// A pool of numbers as a chain: a head, and for each free number the next. It serves registers and names.
// Document 01 has the chain, and the machine has no heap.
#[derive(Clone, Copy, Debug, PartialEq, Eq, Default)]
pub struct FreeList {
    pub head: u8,
    pub link: [u8; PLACES],
}

// What the general map holds for a logical register. The default is none.
#[derive(Clone, Copy, Debug, PartialEq, Eq, Default)]
pub struct Mapping {
    pub name: u8,
    pub register: u8,
    pub valid: bool,
}

// For each logical register a name, a register and a valid bit.
#[derive(Clone, Copy, Debug, PartialEq, Eq, Default)]
pub struct GeneralMap {
    pub mappings: [Mapping; 32],
}

// An operand is zero, waiting on a name, or ready with a name and a register: document 01's three cases, no Option.
#[derive(Clone, Copy, Debug, PartialEq, Eq, Default)]
pub enum Operand {
    #[default]
    Zero,
    Waiting(u8),
    Ready(u8, u8),
}

// Waiting, issued or completed.
#[derive(Clone, Copy, Debug, PartialEq, Eq, Default)]
pub enum State {
    #[default]
    Waits,
    Issued,
    Completed,
}

// An instruction in the window; 40 bytes. The default is a place past the last entry, all zeros.
#[derive(Clone, Copy, Debug, PartialEq, Eq, Default)]
pub struct Entry {
    pub instruction: Instruction,
    pub address: u32,
    pub predicted: u32,
    pub first: u32,
    pub second: u32,
    pub result: u32,
    pub left: Operand,
    pub right: Operand,
    pub destination: u8,
    pub name: u8,
    pub previous: u8,
    pub state: State,
    pub stop: Stop,
}
