// What the test programs share: files of records, words and registers in them, bytes laid out, tests counted.
#![tactic(auto)]

mod files;
mod records;
mod tally;

ghost use Rattle.std.specs.Prelude.{◌≡◌, ◌↔◌, IsTrue, true, ℕ, ◌+◌, ◌*◌, ◌^◌, ◌<◌, length, get_or};
ghost use Rattle.vectors.specs.Records.{word_at, Laid};

pub use files::{contents, fill, opened};
use std::array;
pub use tally::{Tally, add, count};

// the byte at an index, 0 past the end; apart from that of `formats`, which a test is not to take from the code
fn byte(bytes: &[u8], at: usize) -> u8
    ensures { result ≡ get_or bytes.now at 0 }
{
    bytes.get(at).copied().unwrap_or(0)
}

// The little-endian word from an index on; bytes past the end count as 0.
pub fn word(bytes: &[u8], at: usize) -> u32
    requires { at < 2 ^ 32 }
    ensures { result ≡ word_at bytes.now at }
{
    u32::from_le_bytes([
        byte(bytes, at),
        byte(bytes, at + 1),
        byte(bytes, at + 2),
        byte(bytes, at + 3),
    ])
}

// 32 words from an index on.
pub fn registers(bytes: &[u8], at: usize) -> [u32; 32]
    requires { at < 2 ^ 31 }
    ensures { (k : ℕ) → k < 32 → get_or result k 0 ≡ word_at bytes.now (at + 4 * k) }
{
    array::from_fn(|k| word(bytes, at + 4 * k))
}

// The buffer gets the bytes from a place on, and zeros elsewhere.
pub fn lay(buffer: &mut [u8], place: usize, bytes: &[u8])
    ensures { (k : ℕ) → k < length buffer.old → Laid bytes.now place k (get_or buffer.new k 0) }
{
    buffer.fill(0);
    if place < buffer.len() {
        let end = bytes.len().min(buffer.len() - place);
        buffer[place..place + end].copy_from_slice(&bytes[..end]);
    }
}
