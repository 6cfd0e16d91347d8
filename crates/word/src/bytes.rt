ghost use Rattle.std.specs.Prelude.{◌≡◌, ◌+◌, ◌^◌, ◌<◌, ◌≤◌, length};
ghost use Rattle.word.specs.Bytes.{number, byte_of, put};

// the byte at an index, or 0 from the end of those that are looked at
fn byte(bytes: &[u8], at: usize, end: usize) -> u32
    requires { end ≤ length bytes.now }
    ensures looked_at { at < end → result ≡ byte_of bytes.now at }
    ensures others { end ≤ at → result ≡ 0 }
    ensures small { result < 256 }
{
    if at < end { bytes[at] as u32 } else { 0 }
}

// The number in size bytes from at on. Without a loop, so that a load of four bytes is one of the processor's. Inner: the crates
// above use it.
pub fn load(bytes: &[u8], at: usize, size: usize) -> u32
    requires { (at + size ≤ length bytes.now) × (size ≤ 4) }
    ensures { (result ≡ number (byte_of bytes.now) at size) × (result < 256 ^ size) }
{
    let end = at + size;
    byte(bytes, at, end)
        + byte(bytes, at + 1, end) * 0x100
        + byte(bytes, at + 2, end) * 0x1_0000
        + byte(bytes, at + 3, end) * 0x100_0000
}

// the lowest size bytes of value from at on. By index, since std says of what `iter_mut` lent out no more than the length.
// Inner: the crates above use it.
pub fn store(bytes: &mut [u8], at: usize, size: usize, value: u32)
    requires { at + size ≤ length bytes.old }
    ensures { bytes.new ≡ put bytes.old at size value }
{
    let mut rest = value;
    for k in 0..size {
        bytes[at + k] = (rest % 256) as u8;
        rest /= 256;
    }
}
