ghost use Rattle.std.specs.Prelude.{◌≡◌, ◌%◌};
ghost use Rattle.word.specs.Arithmetic.{sum, difference, shift_left, shift_right, shift_right_signed, less_signed};

// Inner: the crates above use it.
pub fn add(a: u32, b: u32) -> u32
    ensures { result ≡ sum a b }
{
    a.wrapping_add(b)
}

// Inner: the crates above use it.
pub fn sub(a: u32, b: u32) -> u32
    ensures { result ≡ difference a b }
{
    a.wrapping_sub(b)
}

// by the lowest five bits of the count. Inner: the crates above use it.
pub fn shift_left(a: u32, count: u32) -> u32
    ensures { result ≡ shift_left a (count % 32) }
{
    a.wrapping_shl(count)
}

// by the lowest five bits of the count. Inner: the crates above use it.
pub fn shift_right(a: u32, count: u32) -> u32
    ensures { result ≡ shift_right a (count % 32) }
{
    a.wrapping_shr(count)
}

// by the lowest five bits of the count; the sign bit fills the places that become free. Inner: the crates above use it.
pub fn shift_right_signed(a: u32, count: u32) -> u32
    ensures { result ≡ shift_right_signed a (count % 32) }
{
    a.cast_signed().wrapping_shr(count).cast_unsigned()
}

// Inner: the crates above use it.
pub fn less_signed(a: u32, b: u32) -> bool
    ensures { result ≡ less_signed a b }
{
    a.cast_signed() < b.cast_signed()
}
