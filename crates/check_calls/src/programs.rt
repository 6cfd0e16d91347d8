// Programs and data from a seed: arithmetic on few registers, now and then a FENCE with any fields, loads and stores over small
// data, short branches and jumps, and now and then an instruction that stops. The matches are of weights, which are no kinds: how
// often each instruction comes.
use crate::chance::draw;
use isa::Instruction;

// the word, or 0 where there is none
fn encoded(operation: u32, rd: u32, rs1: u32, rs2: u32, constant: u32) -> u32 {
    isa::encode(operation, rd, rs1, rs2, constant.cast_signed()).unwrap_or(0)
}

// mostly one of the first eight
fn register(x: u32) -> u32 {
    if x % 8 < 6 { x / 8 % 8 } else { x / 8 % 32 }
}

fn computing(s: u32, kind: u32) -> u32 {
    let rd = register(draw(s, 2));
    let rs1 = register(draw(s, 3));
    let x = draw(s, 4);
    match kind {
        0..=17 => encoded(19 + x % 6, rd, rs1, 0, (x / 64 % 64).wrapping_sub(16)),
        18 | 19 => encoded(40, rd, rs1, 0, (x / 64 % 4096).wrapping_sub(2048)),
        20..=30 => encoded(28 + x % 10, rd, rs1, register(x / 16), 0),
        31..=34 => encoded(25 + x % 3, rd, rs1, 0, x / 64 % 32),
        _ => encoded(1 + x % 2, rd, 0, 0, x / 64 % 4096),
    }
}

// mostly x0
fn base(x: u32) -> u32 {
    if x % 4 < 3 { 0 } else { register(x / 4) }
}

// mostly a multiple of 4 in the data
fn offset(x: u32) -> u32 {
    if x % 8 < 7 {
        x / 8 % 11 * 4
    } else {
        x / 8 % 80
    }
}

fn memory(s: u32, kind: u32) -> u32 {
    let base = base(draw(s, 2));
    let other = register(draw(s, 3));
    let x = draw(s, 4);
    let at = offset(draw(s, 5));
    match kind {
        0..=42 => encoded(11 + x % 5, other, base, 0, at),
        _ => encoded(16 + x % 3, 0, base, other, at),
    }
}

// now and then no multiple of 4
fn slip(x: u32) -> u32 {
    if x % 12 == 0 { 2 } else { 0 }
}

fn jumping(s: u32, kind: u32) -> u32 {
    let one = register(draw(s, 2));
    let other = register(draw(s, 3));
    let x = draw(s, 4);
    let slip = slip(draw(s, 5));
    let away = (x / 8 % 16 * 4).wrapping_add(slip).wrapping_sub(20);
    let to = (x / 8 % 24 * 4 + x / 1024 % 2).wrapping_add(slip);
    match kind {
        0..=56 => encoded(5 + x / 128 % 6, 0, one, other, away),
        57 | 58 => encoded(3, one, 0, 0, away),
        _ => encoded(4, one, base(draw(s, 6)), 0, to),
    }
}

// ECALL, EBREAK, or one of three illegal words
fn ending(s: u32, kind: u32) -> u32 {
    match (kind, draw(s, 2) % 3) {
        (61, _) => encoded(38, 0, 0, 0, 0),
        (62, _) => encoded(39, 0, 0, 0, 0),
        (_, 0) => 0,
        (_, 1) => 0xffff_ffff,
        _ => 0x0210_9093,
    }
}

fn instruction(seed: u32, k: u32) -> u32 {
    let s = draw(seed, k);
    let kind = draw(s, 1) % 64;
    match kind {
        0..=36 => computing(s, kind),
        37..=48 => memory(s, kind),
        49..=60 => jumping(s, kind),
        _ => ending(s, kind),
    }
}

// The instruction of a seed; one of none where its word is illegal.
pub fn read(seed: u32) -> Instruction {
    isa::read(instruction(seed, 0)).unwrap_or_default()
}

// A load or a store of a seed.
pub fn read_memory(seed: u32) -> Instruction {
    let kind = 37 + draw(seed, 0) % 12;
    isa::read(memory(draw(seed, 1), kind)).unwrap_or_default()
}

// each four bytes become a word's, the lowest first
fn fill<F: Fn(u32) -> u32>(buffer: &mut [u8], word: F)
    requires { F.IsAlwaysCallable word }
{
    for (k, bytes) in buffer.chunks_mut(4).enumerate() {
        let word = word((k % 4096) as u32);
        vectors::lay(bytes, 0, &word.to_le_bytes());
    }
}

pub fn fill_program(buffer: &mut [u8], seed: u32) {
    fill(buffer, |k| instruction(seed, k));
}

pub fn fill_data(buffer: &mut [u8], seed: u32) {
    fill(buffer, |k| draw(seed, k) << 8);
}
