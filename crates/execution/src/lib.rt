// What an instruction does, by itself. The in-order step and the renaming core are made of these same pieces.
#![tactic(auto)]

pub mod actions;
pub mod arithmetic;
pub mod executing;
pub mod memory;
pub mod roles;

ghost use Rattle.std.specs.Prelude.{◌≡◌, leb};
ghost use Rattle.execution.specs.Causes.{cause_number};
ghost use Rattle.execution.specs.Execute as Execute;

pub use executing::execute;
pub use memory::{second_value, store};

// The arithmetic functions, by the manual's names.
#[derive(Clone, Copy, Debug, PartialEq, Eq)]
pub enum Alu {
    Add,
    Sub,
    Sll,
    Slt,
    Sltu,
    Xor,
    Srl,
    Sra,
    Or,
    And,
}

// The conditions of branches.
#[derive(Clone, Copy, Debug, PartialEq, Eq)]
pub enum Condition {
    Eq,
    Ne,
    Lt,
    Ge,
    Ltu,
    Geu,
}

// Upper: the constant in bits 31–12; UpperAddress: that, added to the address. Immediate: the second operand is the
// constant. Fence: nothing is computed, and the result is 0.
#[derive(Clone, Copy, Debug, PartialEq, Eq)]
pub enum Computation {
    Upper,
    UpperAddress,
    Jump,
    JumpRegister,
    Branch(Condition),
    Immediate(Alu),
    Register(Alu),
    Fence,
}

// What an operation does: a load or a store by its size in bytes, which is added to addresses, so that an enum of sizes would be
// turned back at each use; a stop by its cause.
#[derive(Clone, Copy, Debug, PartialEq, Eq)]
pub enum Action {
    Computes(Computation),
    LoadsSigned(u8),
    LoadsUnsigned(u8),
    Stores(u8),
    Stops(Cause),
}

// Why an instruction is not made: one variant for each cause, with document 01's number.
#[derive(Clone, Copy, Debug, PartialEq, Eq)]
pub enum Cause {
    Illegal = 1,
    EnvironmentCall = 2,
    Breakpoint = 3,
    // a fetch address outside the program or not a multiple of 4
    Fetch = 4,
    // a taken branch or jump to a target not a multiple of 4
    Target = 5,
    // bytes that are misaligned or leave the data
    Load = 6,
    Store = 7,
}

// A cause's number, 0 for none. A number and no Cause, since it stands in a machine, whose cause may be out of range
// (refusal 5).
#[derive(Clone, Copy, Debug, PartialEq, Eq, Default)]
pub struct Stop {
    pub cause: u8,
}

impl Stop {
    pub const NONE: Stop = Stop { cause: 0 };

    // Whether the number is a cause's, or 0. Inner: refusal 5 uses it.
    pub fn is_in_range(self) -> bool
        ensures { result ≡ leb self.cause 7 }
    {
        self.cause <= Cause::Store as u8
    }
}

impl From<Cause> for Stop {
    ghost from_gives = { λ cause stop. stop ≡ Execute.stop (cause_number cause) };

    fn from(cause: Cause) -> Stop {
        Stop { cause: cause as u8 }
    }
}

// What an instruction is executed with: its address, its constant as a word, and the two values read.
#[derive(Clone, Copy, Debug, PartialEq, Eq)]
pub struct Inputs {
    pub address: u32,
    pub constant: u32,
    pub first: u32,
    pub second: u32,
}

// What an instruction comes to that does not stop.
#[derive(Clone, Copy, Debug, PartialEq, Eq)]
pub struct Executed {
    pub result: u32,
    pub next: u32,
}
