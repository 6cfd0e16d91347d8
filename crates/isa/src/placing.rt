ghost use Rattle.std.specs.Prelude.{◌≡◌, true, ◌+◌, ◌*◌, ◌^◌, ◌<◌};
ghost use Rattle.isa.specs.Encodes.{constant_part, word_of, accepted};

use crate::{Format, Instruction, listing};

// the constant's bits at the format's places
#[tactic(auto, unfolding(crate::specs::Encodes::constant_part))]
fn constant_part(format: Format, c: u32) -> u32
    ensures { result ≡ constant_part format c }
{
    match format {
        Format::I => word::field(c, 0, 12) * 0x10_0000,
        Format::S => word::field(c, 5, 7) * 0x200_0000 + word::field(c, 0, 5) * 0x80,
        Format::B => {
            word::field(c, 12, 1) * 0x8000_0000
                + word::field(c, 5, 6) * 0x200_0000
                + word::field(c, 1, 4) * 0x100
                + word::field(c, 11, 1) * 0x80
        }
        Format::U => word::field(c, 0, 20) * 0x1000,
        Format::J => {
            word::field(c, 20, 1) * 0x8000_0000
                + word::field(c, 1, 10) * 0x20_0000
                + word::field(c, 11, 1) * 0x10_0000
                + word::field(c, 12, 8) * 0x1000
        }
        Format::Shift => word::field(c, 0, 5) * 0x10_0000,
        Format::R | Format::Whole => 0,
    }
}

// the word of an instruction that the encoder accepts. Inner: `encode` uses it.
#[tactic(auto, unfolding(crate::specs::Encodes::word_of), using(crate::proofs::Accepted::accepted_fits))]
pub fn write(i: Instruction) -> u32
    requires { accepted i ≡ true }
    ensures { result ≡ word_of i }
{
    let constant = constant_part(listing::format(i.operation), i.constant.cast_unsigned());
    listing::fixed(i.operation)
        + i.rd as u32 * 0x80
        + i.rs1 as u32 * 0x8000
        + i.rs2 as u32 * 0x10_0000
        + constant
}
