// Entries as a machine may hold them, and machines with such entries.
use execution::Stop;
use isa::Instruction;
use renaming::Core;
use std::array;
use tables::{Entry, Operand, State};

pub const STATES: [State; 3] = [State::Waits, State::Issued, State::Completed];

pub fn instruction(operation: u8, rd: u8, rs1: u8, rs2: u8, constant: i32) -> Instruction {
    Instruction {
        operation,
        rd,
        rs1,
        rs2,
        constant,
    }
}

// A place past the last entry, all zeros. Each number is written here and below: a test that took one from the code's default
// would not see it change.
pub const EMPTY: Entry = Entry {
    instruction: Instruction {
        operation: 0,
        rd: 0,
        rs1: 0,
        rs2: 0,
        constant: 0,
    },
    address: 0,
    predicted: 0,
    first: 0,
    second: 0,
    result: 0,
    left: Operand::Zero,
    right: Operand::Zero,
    destination: 0,
    name: 0,
    previous: 0,
    state: State::Waits,
    stop: Stop { cause: 0 },
};

// A waiting ADDI x1, x2, 5.
pub fn plain() -> Entry {
    Entry {
        instruction: instruction(19, 1, 2, 0, 5),
        address: 0,
        predicted: 4,
        first: 0,
        second: 0,
        result: 0,
        left: Operand::Ready(2, 2),
        right: Operand::Zero,
        destination: 1,
        name: 32,
        previous: 1,
        state: State::Waits,
        stop: Stop { cause: 0 },
    }
}

// an issued LW x3, 4(x1)
fn load() -> Entry {
    Entry {
        instruction: instruction(13, 3, 1, 0, 4),
        left: Operand::Waiting(32),
        destination: 3,
        previous: 3,
        first: 0xffff_fff0,
        second: 0x8000_0000,
        state: State::Issued,
        ..plain()
    }
}

// without a destination
fn without_destination(instruction: Instruction, left: Operand, right: Operand) -> Entry {
    Entry {
        instruction,
        left,
        right,
        predicted: 4,
        ..EMPTY
    }
}

// a completed SW x5, 0(x6) to the first data word
fn store() -> Entry {
    Entry {
        state: State::Completed,
        ..without_destination(
            instruction(18, 0, 6, 5, 0),
            Operand::Ready(6, 6),
            Operand::Ready(5, 5),
        )
    }
}

// completed with a cause, and this operation
fn stopped(operation: u8, cause: u8) -> Entry {
    Entry {
        state: State::Completed,
        stop: Stop { cause },
        ..without_destination(
            instruction(operation, 0, 0, 0, 0),
            Operand::Zero,
            Operand::Zero,
        )
    }
}

// a waiting BEQ x7, x1, -8
fn branch() -> Entry {
    without_destination(
        instruction(5, 0, 7, 1, -8),
        Operand::Ready(7, 7),
        Operand::Waiting(32),
    )
}

// Entries of every kind in all 64 places; the window is full.
pub fn filled(m: &Core) -> Core {
    let samples = [
        plain(),
        load(),
        store(),
        stopped(0, 1),
        stopped(0, 4),
        stopped(38, 2),
        stopped(39, 3),
        branch(),
    ];
    Core {
        count: m.setup.window,
        entries: array::from_fn(|k| samples[k % samples.len()]),
        ..*m
    }
}
