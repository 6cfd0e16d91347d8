// The operations that the reader and the encoder have, by their numbers.

// From number 1 on. The files already hold the M extension (41 to 48), which is not legal yet: today a word of such an
// operation is tested as an illegal word, in words.bin and in legal.bin alike. When these operations come, their names come
// here.
pub const NAMES: [&str; 40] = [
    "LUI", "AUIPC", "JAL", "JALR", "BEQ", "BNE", "BLT", "BGE", "BLTU", "BGEU", "LB", "LH", "LW",
    "LBU", "LHU", "SB", "SH", "SW", "ADDI", "SLTI", "SLTIU", "XORI", "ORI", "ANDI", "SLLI", "SRLI",
    "SRAI", "ADD", "SUB", "SLL", "SLT", "SLTU", "XOR", "SRL", "SRA", "OR", "AND", "ECALL",
    "EBREAK", "FENCE",
];

pub const LAST_OPERATION: usize = NAMES.len();

// whether the number is that of one of these operations
pub fn is_known(number: u32) -> bool {
    (1..=LAST_OPERATION).contains(&(number as usize))
}
