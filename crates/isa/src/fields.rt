ghost use Rattle.std.specs.Prelude.{◌≡◌, ◌<◌};
ghost use Rattle.word.specs.Field as Field;
ghost use Rattle.isa.specs.Reads.{constant_of, fields_of};

use crate::{Format, Instruction};

// the register number from bit low on
fn register(word: u32, low: u32) -> u8
    requires { low < 32 }
    ensures { result ≡ Field.field word low 5 }
{
    word::field(word, low, 5) as u8
}

// the format's constant
#[tactic(auto, unfolding(crate::specs::Reads::constant_of))]
fn constant(format: Format, word: u32) -> i32
    ensures { result ≡ constant_of format word }
{
    match format {
        Format::I => word::extend(0x800, word::field(word, 20, 12)),
        Format::S => {
            let n = word::field(word, 25, 7) * 0x20 + word::field(word, 7, 5);
            word::extend(0x800, n)
        }
        Format::B => {
            let n = word::field(word, 31, 1) * 0x1000
                + word::field(word, 7, 1) * 0x800
                + word::field(word, 25, 6) * 0x20
                + word::field(word, 8, 4) * 2;
            word::extend(0x1000, n)
        }
        Format::U => word::field(word, 12, 20) as i32,
        Format::J => {
            let n = word::field(word, 31, 1) * 0x10_0000
                + word::field(word, 12, 8) * 0x1000
                + word::field(word, 20, 1) * 0x800
                + word::field(word, 21, 10) * 2;
            word::extend(0x10_0000, n)
        }
        Format::Shift => word::field(word, 20, 5) as i32,
        Format::R | Format::Whole => 0,
    }
}

// the instruction in the word, by its format. Inner: `read` uses it.
#[tactic(auto, unfolding(crate::specs::Reads::fields_of))]
pub fn fields(format: Format, operation: u8, word: u32) -> Instruction
    ensures { result ≡ fields_of format operation word }
{
    let rd = register(word, 7);
    let rs1 = register(word, 15);
    let rs2 = register(word, 20);
    let bare = Instruction {
        operation,
        constant: constant(format, word),
        ..Instruction::default()
    };
    match format {
        Format::R => Instruction {
            rd,
            rs1,
            rs2,
            ..bare
        },
        Format::I | Format::Shift => Instruction { rd, rs1, ..bare },
        Format::S | Format::B => Instruction { rs1, rs2, ..bare },
        Format::U | Format::J => Instruction { rd, ..bare },
        Format::Whole => bare,
    }
}
