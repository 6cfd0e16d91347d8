ghost use Rattle.std.specs.Prelude.{◌≡◌, ◌^◌, ◌<◌};
ghost use Rattle.word.specs.Field as Field;

// count bits of word from bit low on. Inner: the crates above use it.
#[tactic(auto, unfolding(crate::specs::Field::field))]
pub fn field(word: u32, low: u32, count: u32) -> u32
    requires { (low < 32) × (count < 32) }
    ensures { (result ≡ Field.field word low count) × (result < 2 ^ count) }
{
    (word >> low) % (1 << count)
}
