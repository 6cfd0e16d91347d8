// Every operation with its fields at and beyond document 01's limits.
use crate::cases::Case;
use crate::limits::above;
use crate::samples::instruction;
use isa::Instruction;

// registers from 0 up to these; under and over: the nearest constants out of range; odd: where constants must be even an odd
// one between the limits, otherwise a further one out of range
#[derive(Clone, Copy)]
pub struct Limits {
    rd: u8,
    rs1: u8,
    rs2: u8,
    low: i32,
    under: i32,
    high: i32,
    over: i32,
    odd: i32,
}

// constants from 0: of LUI and AUIPC 20 bits, of a shift 0 to 31, of the rest none
const UPPER: Limits = Limits {
    rd: 31,
    rs1: 0,
    rs2: 0,
    low: 0,
    under: -1,
    high: 1_048_575,
    over: 1_048_576,
    odd: -1_048_576,
};

const SHIFT: Limits = Limits {
    rd: 31,
    rs1: 31,
    rs2: 0,
    low: 0,
    under: -1,
    high: 31,
    over: 32,
    odd: 63,
};

const REGISTERS: Limits = Limits {
    rd: 31,
    rs1: 31,
    rs2: 31,
    low: 0,
    under: -1,
    high: 0,
    over: 1,
    odd: 3,
};

const NO_FIELDS: Limits = Limits {
    rd: 0,
    rs1: 0,
    rs2: 0,
    ..REGISTERS
};

const JUMP: Limits = Limits {
    rd: 31,
    rs1: 0,
    rs2: 0,
    low: -1_048_576,
    under: -1_048_578,
    high: 1_048_574,
    over: 1_048_576,
    odd: -1,
};

const BRANCH: Limits = Limits {
    rd: 0,
    rs1: 31,
    rs2: 31,
    low: -4_096,
    under: -4_098,
    high: 4_094,
    over: 4_096,
    odd: 4_093,
};

const STORE: Limits = Limits {
    rd: 0,
    rs1: 31,
    rs2: 31,
    low: -2_048,
    under: -2_049,
    high: 2_047,
    over: 2_048,
    odd: 2_049,
};

const IMMEDIATE: Limits = Limits {
    rd: 31,
    rs2: 0,
    ..STORE
};

// By the manual's listing, FENCE last: from which operation to which the limits are these.
pub const LISTING: [(u8, u8, Limits); 11] = [
    (1, 2, UPPER),
    (3, 3, JUMP),
    (4, 4, IMMEDIATE),
    (5, 10, BRANCH),
    (11, 15, IMMEDIATE),
    (16, 18, STORE),
    (19, 24, IMMEDIATE),
    (25, 27, SHIFT),
    (28, 37, REGISTERS),
    (38, 39, NO_FIELDS),
    (40, 40, IMMEDIATE),
];

impl Limits {
    // Three that are taken, six with a register and five with a constant out of range.
    pub fn cases(self, operation: u8) -> [Case<Instruction>; 14] {
        let l = self;
        [
            (false, l.rd, l.rs1, l.rs2, l.high),
            (false, l.rd, l.rs1, l.rs2, l.low),
            (false, 0, 0, 0, 0),
            (true, above(l.rd), l.rs1, l.rs2, l.high),
            (true, 255, 0, 0, 0),
            (true, l.rd, above(l.rs1), l.rs2, l.low),
            (true, 0, 255, 0, 0),
            (true, l.rd, l.rs1, above(l.rs2), l.high),
            (true, 0, 0, 255, 0),
            (true, l.rd, l.rs1, l.rs2, l.under),
            (true, l.rd, l.rs1, l.rs2, l.over),
            (true, 0, 0, 0, l.odd),
            (true, 0, 0, 0, 2_147_483_647),
            (true, 0, 0, 0, -2_147_483_648),
        ]
        .map(|(refused, rd, rs1, rs2, constant)| {
            Case::refused_if(refused, instruction(operation, rd, rs1, rs2, constant))
        })
    }
}
