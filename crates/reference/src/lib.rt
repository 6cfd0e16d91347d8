// The Reference level: instructions executed one after the other. Registers and address are taken and handed back apart, as
// document 01 has them.
#![tactic(auto)]

pub mod lengths;
pub mod operands;
pub mod program;
pub mod registers;
pub mod running;
pub mod stepping;

use execution::Stop;
pub use operands::{destination_of, first_source, second_source};
pub use program::fetch;
use refusals::Refusal;
pub use running::run;
pub use stepping::step;

// The state after one step; at a stop or a refusal it is as given. Document 01 wants it back in both cases, so that stop and
// refusal stand beside it and no Result does; a stop has document 01's number, as in a machine.
#[derive(Clone, Copy, Debug, PartialEq, Eq, Default)]
pub struct Stepped {
    pub registers: [u32; 32],
    pub address: u32,
    pub stop: Stop,
    pub refusal: Option<Refusal>,
}

// The state after a run, and how many steps were made; stop and refusal as after a step.
#[derive(Clone, Copy, Debug, PartialEq, Eq)]
pub struct Ran {
    pub registers: [u32; 32],
    pub address: u32,
    pub steps: u16,
    pub stop: Stop,
    pub refusal: Option<Refusal>,
}
