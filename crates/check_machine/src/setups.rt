// Set-ups over the corners of the four numbers.
use crate::judging;
use crate::samples::EMPTY;
use refusals::Refusal;
use renaming::{Core, Dimensions};
use tables::FreeList;
use vectors::Tally;
use window::Machine;

const WINDOWS: [u32; 7] = [0, 1, 2, 63, 64, 65, 4_294_967_295];

const REGISTERS: [u32; 8] = [0, 31, 32, 33, 94, 95, 96, 4_294_967_295];

const PROGRAMS: [usize; 8] = [0, 3, 4, 6, 8, 16_380, 16_384, 16_388];

const BYTES: [usize; 4] = [0, 1, 16_384, 16_385];

// the number after k where a pool of 32 to last lies in rising order
fn rising(k: usize, last: usize) -> usize {
    if 32 <= k && k < last { k + 1 } else { 0 }
}

// a pool with this head, 32 to last in rising order
fn rises(pool: &FreeList, head: usize, last: usize) -> bool {
    pool.head as usize == head
        && pool
            .link
            .iter()
            .enumerate()
            .all(|(k, next)| *next as usize == rising(k, last))
}

// each of the first n numbers is its own index, and those after them are 0
fn own(table: &[u8], n: usize) -> bool {
    table.iter().enumerate().all(|(k, number)| *number as usize == if k < n { k } else { 0 })
}

// the tables of a fresh machine where n is 32, of a machine of zeros where n and the sizes are 0
fn tables(m: &Core, n: usize, sizes: Dimensions) -> bool {
    m.entries.iter().all(|e| *e == EMPTY)
        && m.map.mappings.iter().enumerate().all(|(k, mapping)| {
            let number = if k < n { k } else { 0 };
            mapping.name as usize == number
                && mapping.register as usize == number
                && mapping.valid == (1 <= k && k < n)
        })
        && own(&m.physical, n)
        && m.values.iter().all(|value| *value == 0)
        && rises(&m.free_registers, n, sizes.registers as usize)
        && rises(&m.free_names, n, 31 + sizes.window as usize)
}

// what stands in no table
fn numbers(m: &Core, sizes: Dimensions) -> bool {
    let held = Dimensions {
        window: m.setup.window.into(),
        registers: m.setup.registers.into(),
        program: m.setup.program.into(),
        bytes: m.setup.bytes.into(),
    };
    held == sizes && m.count == 0 && m.fetch == 0 && m.next == 0 && m.halt.cause == 0
}

// a machine of zeros, which 5 refuses
fn is_zero(m: &Core) -> bool {
    let none = Dimensions {
        window: 0,
        registers: 0,
        program: 0,
        bytes: 0,
    };
    numbers(m, none) && tables(m, 0, none) && judging::is_refused(m)
}

// document 01's refusal of them, with its number, which is written here: a test that took it from the enum would not see a
// wrong one
fn refusal(sizes: Dimensions) -> Option<(Refusal, u8)> {
    if !(1..=64).contains(&sizes.window) {
        Some((Refusal::WindowSize, 1))
    } else if !(32..=95).contains(&sizes.registers) {
        Some((Refusal::RegisterCount, 2))
    } else if sizes.program == 0 || sizes.program > 16_384 || sizes.program % 4 != 0 {
        Some((Refusal::ProgramLength, 3))
    } else if sizes.bytes > 16_384 {
        Some((Refusal::DataLength, 4))
    } else {
        None
    }
}

fn is_fresh(m: &Core, sizes: Dimensions) -> bool {
    numbers(m, sizes)
        && tables(m, 32, sizes)
        && judging::passes(m)
        && Machine { core: *m }.report().registers == [0; 32]
}

// whether set-up answers as document 01 says, with a fresh machine or one of zeros
fn is_right(sizes: Dimensions) -> bool {
    let Dimensions {
        window,
        registers,
        program,
        bytes,
    } = sizes;
    let answer = Machine::set_up(window, registers, program, bytes);
    let m = answer.machine.core;
    match refusal(sizes) {
        None => answer.number == 0 && is_fresh(&m, sizes),
        Some((refusal, number)) => {
            answer.number == number && Core::set_up(sizes).err() == Some(refusal) && is_zero(&m)
        }
    }
}

// how many should be refused by 1 to 4, at 0 how many should be accepted; and how many did otherwise
#[derive(Default, Drop)]
struct Counts {
    by: [u64; 5],
    tally: Tally,
}

impl Counts {
    fn count(&mut self, sizes: Dimensions) {
        let number = refusal(sizes).map_or(0, |(_, number)| number);
        vectors::count(&mut self.by, number as usize);
        self.tally.told(is_right(sizes));
    }
}

fn every() -> Counts {
    let mut counts = Counts::default();
    for window in WINDOWS {
        for registers in REGISTERS {
            for program in PROGRAMS {
                for bytes in BYTES {
                    counts.count(Dimensions {
                        window,
                        registers,
                        program,
                        bytes,
                    });
                }
            }
        }
    }
    counts
}

pub fn test(rt: &impl Print) {
    let counts = every();
    let _ = println!(rt; "set-ups {}", counts.tally.tested);
    for (number, refused) in counts.by.iter().enumerate().skip(1) {
        let _ = println!(rt; "refused by {number} {refused}");
    }
    let _ = println!(rt; "accepted {}", counts.by[0]);
    let _ = println!(rt; "differ {}", counts.tally.differ);
}
