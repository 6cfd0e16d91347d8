// The machine at rest, as our crates hold it: its state, set-up, refusals 5 and 6, drops and the committed registers. A buyer
// holds it as `window::Machine`; all that is public here is inner.
#![tactic(auto)]

pub mod changing;
pub mod dropping;
pub mod halting;
pub mod lending;
pub mod placing;
pub mod range;
pub mod reporting;
pub mod setting;

use execution::Stop;
use ranges::sizes::MOST_ENTRIES;
pub use ranges::{Dimensions, Setup};
use tables::{Entry, FreeList, GeneralMap, PLACES};

// The core: all that document 01's machine holds, under 4 KB, by value. Every number may be any: refusal 5 answers those out
// of range, so none of them is kept from a machine by an invariant. What needs few entries says so, and what needs one, or one
// at a position, too: a type for that would have to lend the core, which each of these functions changes. There is no heap:
// the entries are an array with a count.
#[derive(Clone, Copy, Debug, PartialEq, Eq, Default)]
pub struct Core {
    pub setup: Setup,
    pub count: u8,
    pub entries: [Entry; MOST_ENTRIES],
    pub map: GeneralMap,
    pub physical: [u8; PLACES],
    pub values: [u32; PLACES],
    pub free_registers: FreeList,
    pub free_names: FreeList,
    pub fetch: u32,
    pub next: u32,
    pub halt: Stop,
}
