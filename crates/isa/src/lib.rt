// RV32I: instruction words read and written.
#![tactic(auto)]

pub mod encoder;
pub mod fields;
pub mod limits;
pub mod listing;
pub mod operation;
pub mod placing;
pub mod reader;
pub mod table;

pub use encoder::{accepts, encode};
pub use listing::{FENCE, LAST};
pub use reader::read;

// The manual's formats. Shift: an I format whose constant is a shift amount, with bits 31–25 fixed. Whole: a word
// without fields. What goes by formats is a match with an arm for each, so that the check names each that lacks a new one, or a
// static with an element for each.
#[derive(Clone, Copy, Debug, PartialEq, Eq)]
pub enum Format {
    R,
    I,
    S,
    B,
    U,
    J,
    Shift,
    Whole,
}

// Operation numbers are 1 to `LAST`, the places in `LISTING`; a field that the operation lacks is 0. The default is operation 0 with
// zero fields.
#[derive(Clone, Copy, Debug, PartialEq, Eq, Default)]
pub struct Instruction {
    // a number and no enum: refusal 5 answers an operation that the encoder refuses, so a machine can hold one
    pub operation: u8,
    pub rd: u8,
    pub rs1: u8,
    pub rs2: u8,
    pub constant: i32,
}
