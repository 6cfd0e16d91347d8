// Damage to an entry at either end of the window, and the same entry past the count.
use crate::cases::{Case, Expected};
use crate::instruction_cases::LISTING;
use crate::judging::Trial;
use crate::limits::{about, names_of};
use crate::samples::{STATES, instruction, plain};
use crate::store_cases;
use crate::table_damage::put;
use execution::Stop;
use isa::Instruction;
use renaming::Core;
use tables::{Entry, Operand, State};

// with the entry below the count, and with the count just below the entry
fn at_place(t: &mut Trial, at: u8, case: Case<Entry>) {
    let mut changed = t.machine;
    put(&mut changed.entries, at as usize, case.value);
    if at < changed.count {
        t.judge(&changed, case.expected);
        changed.count = at;
    }
    t.judge(&changed, Expected::Ignored);
}

// at the oldest place and at the last of the window
fn at_ends(t: &mut Trial, case: Case<Entry>) {
    at_place(t, 0, case);
    let window = t.machine.setup.window;
    if window > 1 {
        at_place(t, window - 1, case);
    }
}

fn with(e: Entry, state: State, cause: u8) -> Entry {
    Entry {
        state,
        stop: Stop { cause },
        ..e
    }
}

// in three states, completed with this cause
fn in_states(t: &mut Trial, cause: u8, case: Case<Entry>) {
    for state in STATES {
        let cause = if state == State::Completed { cause } else { 0 };
        at_ends(t, case.map(|e| with(e, state, cause)));
    }
}

pub fn instructions(t: &mut Trial) {
    let e = plain();
    for (first, last, limits) in LISTING {
        for operation in first..=last {
            for case in limits.cases(operation) {
                in_states(t, 1, case.map(|instruction| Entry { instruction, ..e }));
            }
        }
    }
}

// an operation without fields, or with one of them not 0
fn fields(operation: u8) -> [Instruction; 6] {
    [
        instruction(operation, 0, 0, 0, 0),
        instruction(operation, 1, 0, 0, 0),
        instruction(operation, 0, 1, 0, 0),
        instruction(operation, 0, 0, 1, 0),
        instruction(operation, 0, 0, 0, 1),
        instruction(operation, 0, 0, 0, -1),
    ]
}

// in three states, with causes 0 to 7: operation 0 with zero fields passes completed with cause 1 or 4
fn illegal(t: &mut Trial, illegal: Instruction) {
    let entry = Entry {
        instruction: illegal,
        ..plain()
    };
    let is_zero = illegal == instruction(0, 0, 0, 0, 0);
    for state in STATES {
        for cause in 0..8 {
            let passes = is_zero && state == State::Completed && (cause == 1 || cause == 4);
            at_ends(t, Case::refused_if(!passes, with(entry, state, cause)));
        }
    }
}

// Four operations that are none, six choices of fields.
pub fn no_instruction(t: &mut Trial) {
    for operation in [0, 41, 128, 255] {
        for instruction in fields(operation) {
            illegal(t, instruction);
        }
    }
}

// Destination, name and previous name, in three states.
pub fn numbers(t: &mut Trial) {
    let e = plain();
    for case in about(31) {
        in_states(t, 0, case.map(|destination| Entry { destination, ..e }));
    }
    for case in about(names_of(&t.machine)) {
        in_states(t, 0, case.map(|name| Entry { name, ..e }));
        in_states(t, 0, case.map(|previous| Entry { previous, ..e }));
    }
}

// the left operand or the right one, in three states
fn operand(t: &mut Trial, case: Case<Operand>) {
    let e = Entry {
        left: Operand::Zero,
        right: Operand::Zero,
        ..plain()
    };
    in_states(t, 0, case.map(|left| Entry { left, ..e }));
    in_states(t, 0, case.map(|right| Entry { right, ..e }));
}

// Waiting on a name; ready with a name; ready with a register.
pub fn operands(t: &mut Trial) {
    let names = names_of(&t.machine);
    let registers = t.machine.setup.registers;
    for case in about(names) {
        operand(t, case.map(Operand::Waiting));
        operand(t, case.map(|name| Operand::Ready(name, registers)));
    }
    for case in about(registers) {
        operand(t, case.map(|register| Operand::Ready(names, register)));
    }
}

// Causes 0 to 9 and 255 in three states.
pub fn causes(t: &mut Trial) {
    for cause in [0, 1, 2, 3, 4, 5, 6, 7, 8, 9, 255] {
        for state in STATES {
            let refused = cause > 7 || (state != State::Completed && cause != 0);
            at_ends(t, Case::refused_if(refused, with(plain(), state, cause)));
        }
    }
}

// in three states and with cause 7: a store beyond the data is refused where it is completed without a cause
fn in_endings(t: &mut Trial, e: Entry, stores_beyond: bool) {
    for (state, cause, refused) in [
        (State::Waits, 0, false),
        (State::Issued, 0, false),
        (State::Completed, 7, false),
        (State::Completed, 0, stores_beyond),
    ] {
        at_ends(t, Case::refused_if(refused, with(e, state, cause)));
    }
}

pub fn stores(t: &mut Trial) {
    let bytes = t.machine.setup.bytes;
    for access in store_cases::accesses() {
        for place in store_cases::places(bytes, access.size) {
            in_endings(t, access.entry(place), access.stores_beyond(place, bytes));
        }
    }
}

// What 5 does not look at, in three states.
pub fn words(t: &mut Trial) {
    let e = plain();
    let expected = Expected::Ignored;
    for word in [2, 0x8000_0000, 0xffff_ffff] {
        for value in [
            Entry { address: word, ..e },
            Entry {
                predicted: word,
                ..e
            },
            Entry { first: word, ..e },
            Entry { second: word, ..e },
            Entry { result: word, ..e },
        ] {
            in_states(t, 0, Case { value, expected });
        }
    }
}
