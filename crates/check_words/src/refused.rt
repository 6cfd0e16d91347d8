// refused.bin: records of operation, rd, rs1, rs2, constant (4 bytes each), one of them out of range.
use std::fs::File;
use std::io;
use std::rt::Files;
use vectors::Tally;

const RECORD: usize = 20;

// Document 01's number of the refusal, and not taken from the enum: a test that took it from there would not see it change.
const NO_ENCODING: u32 = 30;

fn is_refused(record: &[u8]) -> bool {
    let made = isa::encode(
        vectors::word(record, 0),
        vectors::word(record, 4),
        vectors::word(record, 8),
        vectors::word(record, 12),
        vectors::word(record, 16).cast_signed(),
    );
    made.map_err(u32::from) == Err(NO_ENCODING)
}

pub fn test<R: Files<File = File> + Print + Eprint>(rt: &R) -> io::Result<()> {
    let Some(tally) = Tally::of_file::<RECORD, _, _>(rt, "refused.bin", is_refused)? else {
        return Ok(());
    };
    let _ = tally.print_with_first(rt, "refusals");
    Ok(())
}
