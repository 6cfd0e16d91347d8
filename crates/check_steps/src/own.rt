// Steps and runs as the documents have them, where QEMU is no witness. A record has eleven words (program length and place,
// data length and place, address, call, n; address, steps, cause and refusal after it), 16 bytes each of program, of data
// and of data after it from 44 on, and the registers before and after it from 92 and 220 on.
use reference::{Ran, Stepped};
use refusals::Refusal;
use std::fs::File;
use std::io;
use std::rt::Files;
use vectors::Tally;

const RECORD: usize = 348;

type Record = [u8; RECORD];

// more than the 16,384 bytes that a step accepts, so that too many can be lent
const ROOM: usize = 16_400;

// What a step or a run hands back, in the record's words; a step tells no number of steps. Cause and refusal are numbers, as the
// file has them: a test that took them from an enum would not see it change.
#[derive(Clone, Copy, PartialEq)]
struct Answer {
    registers: [u32; 32],
    address: u32,
    steps: u32,
    cause: u32,
    refusal: u32,
}

// 0 for none
fn number(refusal: Option<Refusal>) -> u32 {
    refusal.map_or(0, u32::from)
}

impl From<Stepped> for Answer {
    fn from(after: Stepped) -> Self {
        // by a name: an array moved straight from field to field gets no proof
        let registers = after.registers;
        Self {
            registers,
            address: after.address,
            steps: 0,
            cause: after.stop.cause.into(),
            refusal: number(after.refusal),
        }
    }
}

impl From<Ran> for Answer {
    fn from(after: Ran) -> Self {
        // by a name: an array moved straight from field to field gets no proof
        let registers = after.registers;
        Self {
            registers,
            address: after.address,
            steps: after.steps.into(),
            cause: after.stop.cause.into(),
            refusal: number(after.refusal),
        }
    }
}

// what the record says
fn told(record: &Record) -> Answer {
    Answer {
        registers: vectors::registers(record, 220),
        address: vectors::word(record, 28),
        steps: vectors::word(record, 32),
        cause: vectors::word(record, 36),
        refusal: vectors::word(record, 40),
    }
}

// the call that the record asks for: 0 a step, 1 a run of at most n steps
fn called(record: &Record, program: &[u8], data: &mut [u8]) -> Answer {
    let registers = vectors::registers(record, 92);
    let address = vectors::word(record, 16);
    if vectors::word(record, 20) == 0 {
        return reference::step(program, data, registers, address).into();
    }
    let n = (vectors::word(record, 24) & 0xffff) as u16;
    reference::run(program, data, registers, address, n).into()
}

// Program, data, and what the data should be afterwards. No struct shared with qemu.rt is plainer: only the three field names
// would be common.
#[derive(Drop)]
struct Memories {
    program: [u8; ROOM],
    data: [u8; ROOM],
    want: [u8; ROOM],
}

impl Memories {
    // the record's 16 bytes of program, of data, and of data afterwards, at their places
    fn lay_out(&mut self, record: &Record) {
        let program_place = vectors::word(record, 4) as usize;
        let data_place = vectors::word(record, 12) as usize;
        vectors::lay(&mut self.program, program_place, &record[44..60]);
        vectors::lay(&mut self.data, data_place, &record[60..76]);
        vectors::lay(&mut self.want, data_place, &record[76..92]);
    }

    // lends as much of program and data as the record says
    fn is_right(&mut self, record: &Record) -> bool {
        self.lay_out(record);
        let p = self.program.len().min(vectors::word(record, 0) as usize);
        let d = self.data.len().min(vectors::word(record, 8) as usize);
        let data = &mut self.data[..];
        let answer = called(record, &self.program[..p], &mut data[..d]);
        answer == told(record) && self.data == self.want
    }
}

pub fn test<R: Files<File = File> + Print + Eprint>(rt: &R) -> io::Result<()> {
    let mut memories = Memories {
        program: [0; ROOM],
        data: [0; ROOM],
        want: [0; ROOM],
    };
    let tested = Tally::of_file::<RECORD, _, _>(rt, "own.bin", |bytes| {
        let Some(record) = bytes.as_array() else {
            return false;
        };
        memories.is_right(record)
    });
    let Some(tally) = tested? else {
        return Ok(());
    };
    let _ = tally.print(rt, "own");
    Ok(())
}
