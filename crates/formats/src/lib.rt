// The formats that replay reads and writes: schedules, and the result.
#![tactic(auto)]

pub mod chain;
pub mod kind;
pub mod result;
pub mod rounding;
pub mod schedule;

pub use chain::check_chain;
pub use kind::Kind;
pub use result::{RESULT_LENGTH, RESULT_WORDS, lay};
pub use rounding::rate;
pub use schedule::{RECORD_LENGTH, check_head, first_index, record_at, registers_in, window_in};

// One event of a schedule, and the index of the record after it.
#[derive(Clone, Copy, Debug, PartialEq, Eq)]
pub struct Record {
    // a number and no `Kind`: `record_at` would answer a Result, and every event would meet an unknown kind again, which the
    // chain's check has refused
    pub kind: u8,
    pub position: u8,
    // 0 ends the chain, as in the file
    pub next: u16,
    pub guess: u32,
}
