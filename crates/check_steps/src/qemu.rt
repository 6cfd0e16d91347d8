// Single steps as QEMU makes them. A record has eight words: word, address, a, b, next, what, where, value.
use execution::Stop;
use reference::Stepped;
use std::fs::File;
use std::rt::Files;
use std::{array, io};
use vectors::Tally;

const STRIDE: u32 = 2_654_435_761;

const RECORD: usize = 32;

// as many bytes as a step accepts
const ROOM: usize = 16_384;

// What the step does besides going on to the next address: a register gets a value, or it stops by a cause, or the data get
// a value at a place, or nothing. `Option<Effect>` would be no plainer: nothing is one of the file's four cases.
#[derive(Clone, Copy)]
enum Effect {
    Writes { register: usize, value: u32 },
    Stops(u8),
    Stores { place: u32, value: u32 },
    Nothing,
}

// What the record says of the step, and the state before it.
#[derive(Clone, Copy)]
struct Question {
    word: u32,
    registers: [u32; 32],
    address: u32,
    next: u32,
    effect: Effect,
}

// by the record's words what, where and value
fn effect_of(record: &[u8; RECORD]) -> Effect {
    let what = vectors::word(record, 20);
    let value = vectors::word(record, 28);
    match what {
        1..=31 => Effect::Writes {
            register: what as usize,
            value,
        },
        33..=63 => Effect::Stops((what - 32) as u8),
        64 => Effect::Stores {
            place: vectors::word(record, 24),
            value,
        },
        _ => Effect::Nothing,
    }
}

// register i holds i * STRIDE, then the word's two source fields name those that hold b and a
fn registers(word: u32, a: u32, b: u32) -> [u32; 32] {
    let mut values = array::from_fn(|i| (i as u32).wrapping_mul(STRIDE));
    values[(word >> 20 & 31) as usize] = b;
    values[(word >> 15 & 31) as usize] = a;
    values[0] = 0;
    values
}

fn asked(record: &[u8; RECORD]) -> Question {
    let word = vectors::word(record, 0);
    Question {
        word,
        registers: registers(word, vectors::word(record, 8), vectors::word(record, 12)),
        address: vectors::word(record, 4),
        next: vectors::word(record, 16),
        effect: effect_of(record),
    }
}

// the state after the step
fn told(q: Question) -> Stepped {
    // by a name: an array moved straight from field to field gets no proof
    let registers = q.registers;
    let mut after = Stepped {
        registers,
        address: q.next,
        stop: Stop { cause: 0 },
        refusal: None,
    };
    match q.effect {
        Effect::Writes { register, value } => {
            if let Some(place) = after.registers.get_mut(register) {
                *place = value;
            }
        }
        Effect::Stops(cause) => after.stop.cause = cause,
        Effect::Stores { .. } | Effect::Nothing => (),
    }
    after
}

// the four bytes from an index on become the word's, unless they leave the slice
fn put(bytes: &mut [u8], at: usize, word: u32) {
    let Some(rest) = bytes.get_mut(at..) else {
        return;
    };
    if let Some(place) = rest.first_chunk_mut() {
        *place = word.to_le_bytes();
    }
}

// Program, data, and what the data should be after a step; own.rt says why it has a struct of its own.
#[derive(Drop)]
struct Memories {
    program: [u8; ROOM],
    data: [u8; ROOM],
    want: [u8; ROOM],
}

// byte i is the highest byte of i * STRIDE
fn fill(data: &mut [u8]) {
    for (i, byte) in (0..).zip(data.iter_mut()) {
        *byte = STRIDE.wrapping_mul(i).to_be_bytes()[0];
    }
}

impl Memories {
    fn new() -> Self {
        let mut data = [0; ROOM];
        fill(&mut data);
        Self {
            program: [0; ROOM],
            data,
            want: data,
        }
    }

    // Makes the step and compares; afterwards the data are as wanted.
    fn is_step_right(&mut self, q: Question) -> bool {
        let after = reference::step(&self.program, &mut self.data, q.registers, q.address);
        let same = self.data == self.want;
        if !same {
            vectors::lay(&mut self.data, 0, &self.want);
        }
        same && after == told(q)
    }

    // The same with the question's word and store laid out; the data are left as they came.
    fn is_right(&mut self, q: Question) -> bool {
        put(&mut self.program, q.address as usize, q.word);
        let Effect::Stores { place, value } = q.effect else {
            return self.is_step_right(q);
        };
        let place = place as usize;
        let kept = vectors::word(&self.want, place);
        put(&mut self.want, place, value);
        let right = self.is_step_right(q);
        put(&mut self.want, place, kept);
        put(&mut self.data, place, kept);
        right
    }
}

pub fn test<R: Files<File = File> + Print + Eprint>(rt: &R) -> io::Result<()> {
    let mut memories = Memories::new();
    // the steps that stop, by cause
    let mut stops = [0; 8];
    let tested = Tally::of_file::<RECORD, _, _>(rt, "steps.bin", |bytes| {
        let Some(record) = bytes.as_array() else {
            return false;
        };
        let q = asked(record);
        if let Effect::Stops(cause) = q.effect {
            vectors::count(&mut stops, cause as usize);
        }
        memories.is_right(q)
    });
    let Some(tally) = tested? else {
        return Ok(());
    };
    let _ = tally.print(rt, "steps");
    for (cause, count) in stops.iter().enumerate().skip(1) {
        let _ = println!(rt; "cause {cause} {count}");
    }
    Ok(())
}
