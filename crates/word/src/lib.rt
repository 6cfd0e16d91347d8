// 32-bit words: parts, two's complement, arithmetic, bytes in memory.
#![tactic(auto)]

pub mod arithmetic;
pub mod bytes;
pub mod fields;
pub mod signed;

pub use arithmetic::{add, less_signed, shift_left, shift_right, shift_right_signed, sub};
pub use bytes::{load, store};
pub use fields::field;
pub use signed::{extend, to_signed, to_word};
