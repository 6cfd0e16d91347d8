// legal.bin: a bit for each of 131,072 patterns, whether QEMU runs its word; the lowest bit of a byte comes first.
use crate::operations;
use std::io;
use std::rt::Files;
use vectors::Tally;

const PATTERNS: u32 = 131_072;

// the bytes that hold them
const BYTES: usize = 16_384;

// the i-th pattern's word: bits 31-25, 14-12 and 6-0 from i; rd 1, rs1 2, rs2 3
fn pattern(i: u32) -> u32 {
    i / 1024 % 128 << 25 | 3 << 20 | 2 << 15 | i / 128 % 8 << 12 | 1 << 7 | i % 128
}

// its operation where that is one of 41 to 48, the M extension
fn later(i: u32) -> Option<u32> {
    if i % 128 == 0x33 && i / 1024 % 128 == 1 {
        Some(41 + i / 128 % 8)
    } else {
        None
    }
}

fn holds(i: u32, runs: bool) -> bool {
    let known = later(i).is_none_or(operations::is_known);
    isa::read(pattern(i)).is_some() == (runs && known)
}

// the patterns whose bits these bytes have
fn tally(bytes: &[u8]) -> Tally {
    let bits = bytes
        .iter()
        .flat_map(|byte| (0..8).map(move |bit| byte >> bit & 1 == 1));
    let mut tally = Tally::default();
    for (i, runs) in (0..PATTERNS).zip(bits) {
        tally.told(holds(i, runs));
    }
    tally
}

pub fn test<R: Files + Print + Eprint>(rt: &R) -> io::Result<()> {
    let Some(mut file) = vectors::opened(rt, "legal.bin")? else {
        return Ok(());
    };
    // a byte past these is neither read nor waited for
    let mut bytes = [0; BYTES];
    let end = vectors::fill(&mut file, &mut bytes);
    drop(file);
    let _ = tally(&bytes[..end]).print_with_first(rt, "patterns");
    Ok(())
}
