ghost use Rattle.std.specs.Prelude.{◌≡◌, ◌<◌};
ghost use Rattle.isa.specs.Encodes as Encodes;

use crate::{Format, Instruction};

// Registers from 0 up to these limits, the constant from low to high and a multiple of step. No plainer as a struct: these are
// the numbers of document 01 in a row for each format, and a struct's literals would take eight lines each.
#[tactic(auto, unfolding(crate::specs::Encodes::within))]
fn within(i: Instruction, rd: u8, rs1: u8, rs2: u8, low: i32, high: i32, step: u32) -> bool
    requires { 0 < step }
    ensures { result ≡ Encodes.within (Encodes.limits rd rs1 rs2 low high step) i }
{
    let c = i.constant;
    (i.rd <= rd)
        & (i.rs1 <= rs1)
        & (i.rs2 <= rs2)
        & (low <= c)
        & (c <= high)
        & (c.cast_unsigned() % step == 0)
}

// whether the fields lie in the format's ranges. Inner: `encode` and refusal 5 use it.
pub fn in_range(format: Format, i: Instruction) -> bool
    ensures { result ≡ Encodes.within (Encodes.limits_of format) i }
{
    match format {
        Format::R => within(i, 31, 31, 31, 0, 0, 1),
        Format::I => within(i, 31, 31, 0, -2_048, 2_047, 1),
        Format::S => within(i, 0, 31, 31, -2_048, 2_047, 1),
        Format::B => within(i, 0, 31, 31, -4_096, 4_094, 2),
        Format::U => within(i, 31, 0, 0, 0, 1_048_575, 1),
        Format::J => within(i, 31, 0, 0, -1_048_576, 1_048_574, 2),
        Format::Shift => within(i, 31, 31, 0, 0, 31, 1),
        Format::Whole => within(i, 0, 0, 0, 0, 0, 1),
    }
}
