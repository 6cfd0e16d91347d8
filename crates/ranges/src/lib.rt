// Numbers in range: what refusals 1 to 5 look at, apart from the machine that holds them.
#![tactic(auto)]

pub mod entries;
pub mod sizes;
pub mod table;

// The four sizes as a caller asks for them. No generic for these and a machine's: they have no method in common.
#[derive(Clone, Copy, Debug, PartialEq, Eq, Default)]
pub struct Dimensions {
    pub window: u32,
    pub registers: u32,
    pub program: usize,
    pub bytes: usize,
}

// Window W, registers N, and the lengths of program and data, as a machine holds them: any numbers (refusal 5), so that no
// invariant bounds them, and what needs a small window says so.
#[derive(Clone, Copy, Debug, PartialEq, Eq, Default)]
pub struct Setup {
    pub window: u8,
    pub registers: u8,
    pub program: u16,
    pub bytes: u16,
}
