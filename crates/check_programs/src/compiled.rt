// Compiled programs. A record has the program's length, the address, steps and cause after the run, the registers after it,
// the program, the data, and the data after the run, from 0, 4, 8, 12, 16, 144, 1,168 and 5,264 on.
use execution::Stop;
use refusals::Refusal;
use std::fs::File;
use std::io;
use std::rt::Files;
use vectors::Tally;

const RECORD: usize = 9_360;

type Record = [u8; RECORD];

const DATA: usize = 4_096;

const PIECE: u16 = 1_000;

const PIECES: u32 = 1_000;

// Where the run is; it is made in pieces, to see that each goes on where the one before ended. As `Ran`, with the steps of many
// runs: a run goes on from these, so no Result.
#[derive(Clone, Copy, PartialEq, Default)]
struct Progress {
    registers: [u32; 32],
    address: u32,
    steps: u64,
    stop: Stop,
    refusal: Option<Refusal>,
}

impl Progress {
    fn has_ended(&self) -> bool {
        self.stop != Stop::default() || self.refusal.is_some()
    }

    fn go_on(&mut self, program: &[u8], data: &mut [u8]) {
        let ran = reference::run(program, data, self.registers, self.address, PIECE);
        // by a name: an array moved straight from field to field gets no proof
        let registers = ran.registers;
        *self = Self {
            registers,
            address: ran.address,
            steps: self.steps.wrapping_add(ran.steps.into()),
            stop: ran.stop,
            refusal: ran.refusal,
        };
    }
}

// from address 0, with zeros in the registers, until a stop or a refusal
fn run(program: &[u8], data: &mut [u8]) -> Progress {
    let mut progress = Progress::default();
    for _ in 0..PIECES {
        progress.go_on(program, data);
        if progress.has_ended() {
            break;
        }
    }
    progress
}

// the record's program
fn program(record: &Record) -> &[u8] {
    let place = &record[144..1168];
    let length = place.len().min(vectors::word(record, 0) as usize);
    &place[..length]
}

// the record's data
fn data_before(record: &Record) -> &[u8] {
    &record[1168..5264]
}

// what the data should be after the run
fn data_after(record: &Record) -> &[u8] {
    &record[5264..]
}

// what the record says of the run; none where it has a number that no run gives
fn told(record: &Record) -> Option<Progress> {
    Some(Progress {
        registers: vectors::registers(record, 16),
        address: vectors::word(record, 4),
        steps: vectors::word(record, 8).into(),
        stop: Stop {
            cause: vectors::word(record, 12).try_into().ok()?,
        },
        refusal: None,
    })
}

pub fn test<R: Files<File = File> + Print + Eprint>(rt: &R) -> io::Result<()> {
    let mut data = [0; DATA];
    let mut steps = 0u64;
    let tested = Tally::of_file::<RECORD, _, _>(rt, "compiled.bin", |bytes| {
        let Some(record) = bytes.as_array() else {
            return false;
        };
        vectors::lay(&mut data, 0, data_before(record));
        let progress = run(program(record), &mut data);
        vectors::add(&mut steps, progress.steps);
        told(record) == Some(progress) && &data[..] == data_after(record)
    });
    let Some(tally) = tested? else {
        return Ok(());
    };
    let _ = tally.print(rt, "compiled");
    let _ = println!(rt; "steps {steps}");
    Ok(())
}
