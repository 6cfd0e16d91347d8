ghost use Rattle.std.specs.Prelude.{◌≡◌, length};
ghost use Rattle.formats.specs.Result.{result_length, result_bytes};

pub const RESULT_WORDS: usize = 39;

pub const RESULT_LENGTH: usize = 4 * RESULT_WORDS;

// the words in the lent bytes, each with its lowest byte first. Inner: replay uses it.
pub fn lay(words: [u32; RESULT_WORDS], res: &mut [u8])
    requires { length res.old ≡ result_length }
    ensures { res.new ≡ result_bytes words }
{
    res.copy_from_slice(words.map(u32::to_le_bytes).as_flattened());
}
