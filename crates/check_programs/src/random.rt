// Random programs. A record has the program, data bytes 256 to 511, then registers, address, steps, cause and data bytes
// 0 to 511 after the run, from 0, 256, 512, 640, 644, 648 and 652 on.
use execution::Stop;
use reference::Ran;
use std::fs::File;
use std::io;
use std::rt::Files;
use vectors::Tally;

const RECORD: usize = 1_164;

type Record = [u8; RECORD];

// as many data bytes as a run accepts
const DATA: usize = 16_384;

const MOST: u16 = 65_535;

// what the record says of the run; none where it has a number that no run gives
fn told(record: &Record) -> Option<Ran> {
    Some(Ran {
        registers: vectors::registers(record, 512),
        address: vectors::word(record, 640),
        steps: vectors::word(record, 644).try_into().ok()?,
        stop: Stop {
            cause: vectors::word(record, 648).try_into().ok()?,
        },
        refusal: None,
    })
}

// the data hold a copy of the program, then the record's data bytes, then zeros
fn run(record: &Record, data: &mut [u8]) -> Ran {
    vectors::lay(data, 0, &record[..512]);
    reference::run(&record[..256], data, [0; 32], 0, MOST)
}

// the data's first bytes after the run; zeros come after these
fn data_after(record: &Record) -> &[u8] {
    &record[652..]
}

pub fn test<R: Files<File = File> + Print + Eprint>(rt: &R) -> io::Result<()> {
    let mut data = [0; DATA];
    let mut want = [0; DATA];
    let mut steps = 0u64;
    let tested = Tally::of_file::<RECORD, _, _>(rt, "programs.bin", |bytes| {
        let Some(record) = bytes.as_array() else {
            return false;
        };
        let ran = run(record, &mut data);
        vectors::lay(&mut want, 0, data_after(record));
        vectors::add(&mut steps, ran.steps.into());
        told(record) == Some(ran) && data == want
    });
    let Some(tally) = tested? else {
        return Ok(());
    };
    let _ = tally.print(rt, "programs");
    let _ = println!(rt; "steps {steps}");
    Ok(())
}
