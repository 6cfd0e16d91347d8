// The manual's listing by operation number: the format and the fixed bits.
ghost use Rattle.std.specs.Prelude.{◌≡◌};
ghost use Rattle.isa.specs.Listing.{format_of, fixed_of};

use crate::Format;

pub const LAST: u8 = 40;

// "ECALL and EBREAK share an entry" of the table, which is ECALL's number
pub const ECALL: u8 = 38;

pub const EBREAK: u8 = 39;

pub const FENCE: u8 = 40;

static LISTING: [(Format, u32); LAST as usize + 1] = [
    (Format::Whole, 0x0), // 0 is no operation
    (Format::U, 0x37), // 1 LUI
    (Format::U, 0x17), // 2 AUIPC
    (Format::J, 0x6f), // 3 JAL
    (Format::I, 0x67), // 4 JALR
    (Format::B, 0x63), // 5 BEQ
    (Format::B, 0x1063), // 6 BNE
    (Format::B, 0x4063), // 7 BLT
    (Format::B, 0x5063), // 8 BGE
    (Format::B, 0x6063), // 9 BLTU
    (Format::B, 0x7063), // 10 BGEU
    (Format::I, 0x3), // 11 LB
    (Format::I, 0x1003), // 12 LH
    (Format::I, 0x2003), // 13 LW
    (Format::I, 0x4003), // 14 LBU
    (Format::I, 0x5003), // 15 LHU
    (Format::S, 0x23), // 16 SB
    (Format::S, 0x1023), // 17 SH
    (Format::S, 0x2023), // 18 SW
    (Format::I, 0x13), // 19 ADDI
    (Format::I, 0x2013), // 20 SLTI
    (Format::I, 0x3013), // 21 SLTIU
    (Format::I, 0x4013), // 22 XORI
    (Format::I, 0x6013), // 23 ORI
    (Format::I, 0x7013), // 24 ANDI
    (Format::Shift, 0x1013), // 25 SLLI
    (Format::Shift, 0x5013), // 26 SRLI
    (Format::Shift, 0x4000_5013), // 27 SRAI
    (Format::R, 0x33), // 28 ADD
    (Format::R, 0x4000_0033), // 29 SUB
    (Format::R, 0x1033), // 30 SLL
    (Format::R, 0x2033), // 31 SLT
    (Format::R, 0x3033), // 32 SLTU
    (Format::R, 0x4033), // 33 XOR
    (Format::R, 0x5033), // 34 SRL
    (Format::R, 0x4000_5033), // 35 SRA
    (Format::R, 0x6033), // 36 OR
    (Format::R, 0x7033), // 37 AND
    (Format::Whole, 0x73), // 38 ECALL
    (Format::Whole, 0x10_0073), // 39 EBREAK
    (Format::I, 0xf), // 40 FENCE
];

// the operation's row, and that of 0 above the last
fn row(operation: u8) -> (Format, u32)
    ensures format { result.0 ≡ format_of operation }
    ensures fixed { result.1 ≡ fixed_of operation }
{
    LISTING
        .get(operation as usize)
        .copied()
        .unwrap_or(LISTING[0])
}

// Inner: `read` and `encode` use it.
pub fn format(operation: u8) -> Format
    ensures { result ≡ format_of operation }
{
    row(operation).0
}

// Inner: `read` and `encode` use it.
pub fn fixed(operation: u8) -> u32
    ensures { result ≡ fixed_of operation }
{
    row(operation).1
}
