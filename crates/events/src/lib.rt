// The events of a schedule: as calls, made on a machine in place, and counted.
#![tactic(auto)]

pub mod calling;
pub mod counting;
pub mod playing;

pub use calling::call_of;
pub use playing::play;

// How many calls were accepted and refused, how many commits were made without a halt, how many registers were stolen and
// how many entries dropped. No invariant bounds them, since each event adds to them and only the number of records ends that:
// what adds says how small they must be.
#[derive(Clone, Copy, Debug, Default, PartialEq, Eq)]
pub struct Counts {
    pub accepted: u32,
    pub refused: u32,
    pub committed: u32,
    pub steals: u32,
    pub dropped: u32,
}
