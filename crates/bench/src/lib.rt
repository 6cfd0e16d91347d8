// The Bench level: schedules replayed, with counts.
#![tactic(auto)]

pub mod replaying;
pub mod words;

use events::Counts;
pub use replaying::replay;

// What a replay came to: the counts, committed × 1000 ÷ accepted, the halt cause (0 none), the next address and the
// committed registers.
#[derive(Clone, Copy, Debug, Default, PartialEq, Eq)]
pub struct Replayed {
    pub counts: Counts,
    pub rate: u32,
    // 0 for none, as the result has it
    pub halt: u32,
    pub next: u32,
    pub registers: [u32; 32],
}
