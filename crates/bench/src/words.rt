ghost use Rattle.std.specs.Prelude.{◌≡◌};
ghost use Rattle.bench.specs.Replay.{words_of};

use crate::Replayed;
use formats::RESULT_WORDS;

impl Replayed {
    // the words of the result: register 0 has none. No plainer by one table for both: the result has words without names, the
    // lines that `replay` prints have names.
    pub(crate) fn words(&self) -> [u32; RESULT_WORDS]
        ensures { result ≡ words_of self.now }
    {
        let counts = self.counts;
        let mut words = [0; RESULT_WORDS];
        words[..8].copy_from_slice(&[
            counts.accepted,
            counts.refused,
            counts.committed,
            counts.steals,
            counts.dropped,
            self.rate,
            self.halt,
            self.next,
        ]);
        words[8..].copy_from_slice(&self.registers[1..]);
        words
    }
}
