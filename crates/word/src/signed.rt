ghost use Rattle.std.specs.Prelude.{◌≡◌, ◌+◌, ◌^◌, ◌<◌, ◌≤◌};
ghost use Rattle.word.specs.Signed as Signed;

// the word, read as signed. Inner: the crates above use it.
pub fn to_signed(word: u32) -> i32
    ensures { result ≡ Signed.signed word }
{
    word.cast_signed()
}

// the word of a signed number. Inner: the crates above use it.
pub fn to_word(number: i32) -> u32
    ensures { result ≡ Signed.word_of number }
{
    number.cast_unsigned()
}

// n below 2 * half, read as signed. Inner: the crates above use it.
#[tactic(auto, unfolding(crate::specs::Signed::extend))]
pub fn extend(half: u32, n: u32) -> i32
    requires { (n < half + half) × (half ≤ 2 ^ 30) }
    ensures { result ≡ Signed.extend half n }
{
    if n < half {
        n as i32
    } else {
        n as i32 - half as i32 - half as i32
    }
}
