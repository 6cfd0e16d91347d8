// Machines that no list reaches: a machine with some of its numbers changed. Mostly to numbers in range, so that refusal 5 does not
// answer them all. The matches are of weights, which are no kinds: how often each number is changed.
use crate::chance::draw;
use crate::{chance, programs};
use execution::Stop;
use isa::Instruction;
use renaming::Core;
use tables::{Entry, FreeList, Mapping, Operand, State};

// now and then one above the limit, or any
fn number(limit: u8, x: u32) -> u8 {
    match x % 64 {
        0 => limit.saturating_add(1),
        1 => (x / 64 % 256) as u8,
        2..=13 => 0,
        _ => (x / 64 % (u32::from(limit) + 1)) as u8,
    }
}

// mostly a multiple of 4 near 0
fn address(x: u32) -> u32 {
    match x % 8 {
        0 => x.wrapping_mul(0x0101_0101),
        1 => x / 8 % 256,
        _ => x / 8 % 64 * 4,
    }
}

// past the end of a table nothing is put
fn put<T: Copy>(table: &mut [T], at: u32, value: T) {
    if let Some(place) = table.get_mut(at as usize) {
        *place = value;
    }
}

// a head or a link, so that a chain may lead anywhere, around, or nowhere
fn change_pool(pool: &mut FreeList, limit: u8, x: u32, y: u32) {
    let value = number(limit, y);
    match x % 4 {
        0 => pool.head = value,
        1 => pool.head = 0,
        _ => put(&mut pool.link, x / 4 % 96, value),
    }
}

fn change_mapping(mapping: &mut Mapping, names: u8, registers: u8, x: u32, y: u32) {
    match x % 4 {
        0 => mapping.name = number(names, y),
        1 => mapping.register = number(registers, y),
        2 => mapping.valid = !mapping.valid,
        _ => {
            *mapping = Mapping {
                name: number(names, y),
                register: number(registers, y / 64),
                valid: true,
            };
        }
    }
}

fn operand(names: u8, registers: u8, x: u32, y: u32) -> Operand {
    match x % 4 {
        0 => Operand::Zero,
        1 => Operand::Waiting(number(names, y)),
        _ => Operand::Ready(number(names, y), number(registers, x / 4)),
    }
}

// a state with any cause that may stand beside it, now and then with another
fn change_state(e: &mut Entry, x: u32) {
    let cause = number(7, x / 8);
    (e.state, e.stop) = match x % 8 {
        0 | 1 => (State::Waits, Stop::default()),
        2 | 3 => (State::Issued, Stop::default()),
        4..=6 => (
            State::Completed,
            Stop {
                cause: if x / 8 % 2 == 0 { 0 } else { cause },
            },
        ),
        _ => (State::Waits, Stop { cause }),
    };
}

// another instruction, none, or one with a field that may be out of range
fn change_instruction(i: &mut Instruction, x: u32, y: u32) {
    match x % 8 {
        0 => *i = Instruction::default(),
        1 => i.operation = (y % 64) as u8,
        2 => i.rd = number(31, y),
        3 => i.constant = i.constant.wrapping_add((y % 16).cast_signed()),
        4 | 5 => *i = programs::read_memory(x ^ y),
        _ => *i = programs::read(x ^ y),
    }
}

// entry, names and registers as the machine has them
fn change_entry(e: &mut Entry, names: u8, registers: u8, x: u32, y: u32) {
    match x % 16 {
        0 => e.left = operand(names, registers, x / 16, y),
        1 => e.right = operand(names, registers, x / 16, y),
        2 => e.destination = number(31, y),
        3 => e.name = number(names, y),
        4 => e.previous = number(names, y),
        5 => e.predicted = address(y),
        6 => e.address = address(y),
        7 => e.first = address(y),
        8 => e.second = y.wrapping_mul(0x0101_0101),
        9 => e.result = y.wrapping_mul(0x0101_0101),
        10 | 11 => change_instruction(&mut e.instruction, x / 16, y),
        _ => change_state(e, y),
    }
}

// what stands in no table
fn change_rest(m: &mut Core, x: u32, y: u32) {
    match x % 16 {
        0 => m.setup.window = 1 + (y % 64) as u8,
        1 => m.setup.registers = 32 + (y % 64) as u8,
        2 => m.setup.program = (y % 65 * 4) as u16,
        3 => m.setup.bytes = (y % 65) as u16,
        4 => m.setup.bytes = (y % 0x1_0000) as u16,
        5 => m.halt = Stop {
            cause: number(7, y),
        },
        6..=8 => m.fetch = address(y),
        9 | 10 => m.next = address(y),
        _ => m.count = number(m.setup.window, y),
    }
}

// One number of the machine is changed, or an entry stands in two places.
fn change(m: &mut Core, seed: u32) {
    let names = m.setup.window.saturating_add(31);
    let registers = m.setup.registers;
    let x = draw(seed, 1);
    let y = draw(seed, 2);
    // a place of the window, or one past it
    let place = draw(seed, 3) % (u32::from(m.count) + 2) % 64;
    match draw(seed, 4) % 24 {
        0 | 1 => put(&mut m.physical, x % 96, number(registers, y)),
        2 => put(&mut m.values, x % 96, y.wrapping_mul(0x0101_0101)),
        3 | 4 => change_pool(&mut m.free_registers, registers, x, y),
        5 | 6 => change_pool(&mut m.free_names, names, x, y),
        7 | 8 => change_mapping(
            &mut m.map.mappings[(x / 4 % 32) as usize],
            names,
            registers,
            x,
            y,
        ),
        9 | 10 => change_rest(m, x, y),
        11 => {
            let entry = m.entries[(x % 64) as usize];
            put(&mut m.entries, place, entry);
        }
        12 => fill_zeros(m, x, y),
        _ => change_entry(&mut m.entries[place as usize], names, registers, x, y),
    }
}

// index 0 of each table is filled
fn fill_zeros(m: &mut Core, x: u32, y: u32) {
    let any = (x % 256) as u8;
    m.physical[0] = any;
    m.values[0] = y;
    m.free_registers.link[0] = any;
    m.free_names.link[0] = any;
    m.map.mappings[0] = Mapping {
        name: any,
        register: any,
        valid: y % 2 == 0,
    };
}

// The machine with some changes, one after the other; mostly not halted.
pub fn changed(m: &Core, seed: u32) -> Core {
    let mut changed = *m;
    if draw(seed, 5) % 8 != 0 {
        changed.halt = Stop::default();
    }
    let mut seed = seed;
    for _ in 0..=draw(seed, 0) % 8 {
        seed = chance::next(seed);
        change(&mut changed, seed);
    }
    changed
}

// A copy of the machine with one number out of range. The match is of a weight, which is no kind: each number has the same.
pub fn damaged(m: &Core, k: u32) -> Core {
    let mut d = *m;
    match k % 8 {
        0 => d.count = 65,
        1 => d.free_names.head = 96,
        2 => d.free_registers.head = 96,
        3 => d.physical[1] = 96,
        4 => d.map.mappings[31].name = 96,
        5 => d.map.mappings[1].register = 96,
        6 => d.free_registers.link[32] = 255,
        _ => d.free_names.link[32] = 255,
    }
    d
}
