// words.bin: records of word (4 bytes), operation, rd, rs1, rs2 (1 each), constant (4).
use crate::operations;
use crate::operations::{LAST_OPERATION, NAMES};
use isa::Instruction;
use std::fs::File;
use std::io;
use std::rt::Files;
use vectors::Tally;

// one count for each operation, and one at 0 for illegal words
const COUNTS: usize = LAST_OPERATION + 1;

const RECORD: usize = 12;

// the instruction that the record tells, none for an illegal word
fn instruction(record: &[u8; RECORD]) -> Option<Instruction> {
    if !operations::is_known(record[4] as u32) {
        return None;
    }
    Some(Instruction {
        operation: record[4],
        rd: record[5],
        rs1: record[6],
        rs2: record[7],
        constant: vectors::word(record, 8).cast_signed(),
    })
}

// whether this instruction is written as the word
fn writes(word: u32, i: Instruction) -> bool {
    let made = isa::encode(
        i.operation as u32,
        i.rd as u32,
        i.rs1 as u32,
        i.rs2 as u32,
        i.constant,
    );
    made == Ok(word)
}

// whether the word is read as what the record tells, and that written as the word
fn holds(word: u32, told: Option<Instruction>) -> bool {
    isa::read(word) == told && told.is_none_or(|i| writes(word, i))
}

fn print_counts(rt: &impl Print, counts: &[u64; COUNTS]) {
    for (name, count) in NAMES.iter().zip(&counts[1..]) {
        let _ = println!(rt; "{name} {count}");
    }
    let _ = println!(rt; "illegal {}", counts[0]);
}

pub fn test<R: Files<File = File> + Print + Eprint>(rt: &R) -> io::Result<()> {
    let mut counts = [0; COUNTS];
    let tested = Tally::of_file::<RECORD, _, _>(rt, "words.bin", |bytes| {
        let Some(record) = bytes.as_array() else {
            return false;
        };
        let told = instruction(record);
        let number = told.unwrap_or_default().operation;
        vectors::count(&mut counts, number as usize);
        holds(vectors::word(record, 0), told)
    });
    let Some(tally) = tested? else {
        return Ok(());
    };
    print_counts(rt, &counts);
    let _ = tally.print_with_first(rt, "words");
    Ok(())
}
