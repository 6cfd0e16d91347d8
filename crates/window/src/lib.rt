// The Window level: a renaming core driven call by call. The work of each call is in a crate of its own.
#![tactic(auto)]

pub mod calling;
pub mod draining;
pub mod making;
pub mod numbering;
pub mod reporting;
pub mod setting;

pub use execution::Stop;
pub use isa::Instruction;
pub use ranges::Setup;
use renaming::Core;
pub use tables::{Entry, FreeList, GeneralMap, Mapping, Operand, State};

// The machine, from set-up to report: its methods are all that a buyer calls of this level.
#[derive(Clone, Copy)]
pub struct Machine {
    pub core: Core,
}

// A call, by its guess or position.
#[derive(Clone, Copy, Debug, PartialEq, Eq)]
pub enum Call {
    Decode(u32),
    Issue(usize),
    Complete(usize),
    Commit,
}

// The machine after a set-up or a call, with 0 or a refusal: no Result, since document 01 names a machine and a number,
// and a refused call hands the machine back.
#[derive(Clone, Copy)]
pub struct Answer {
    pub machine: Machine,
    pub number: u8,
}

// The machine after a drain, how many calls were accepted, and 0 or the refusal that ended it, as in `Answer`.
#[derive(Clone, Copy)]
pub struct Drained {
    pub machine: Machine,
    pub calls: u8,
    pub number: u8,
}

// The committed registers, element 0 being 0, with 0 or refusal 5: no Result, since document 01 has a refused report "with all
// values 0".
#[derive(Clone, Copy)]
pub struct Report {
    pub registers: [u32; 32],
    pub number: u8,
}
