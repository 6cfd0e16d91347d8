// The operation number by bit 30, bits 14–12 and bits 6–2 of a word, without a search over the listing.
ghost use Rattle.std.specs.Prelude.{◌≡◌, ◌<◌};
ghost use Rattle.isa.specs.Table.{entry_of, index_of};

// "a fixed table of 512 entries indexed by those nine bits" (document 02), 0 where no operation's fixed bits agree. A line for bit
// 30 and bits 14–12, in it a number for each value of bits 6–2.
#[rattlefmt::skip]
const OPERATIONS: [u8; 512] = [
    11,  0,  0, 40, 19,  2,  0,  0, 16,  0,  0,  0, 28,  1,  0,  0,  0,  0,  0,  0,  0,  0,  0,  0,  5,  4,  0,  3, 38,  0,  0,  0, // 0, 0
    12,  0,  0,  0, 25,  2,  0,  0, 17,  0,  0,  0, 30,  1,  0,  0,  0,  0,  0,  0,  0,  0,  0,  0,  6,  0,  0,  3,  0,  0,  0,  0, // 0, 1
    13,  0,  0,  0, 20,  2,  0,  0, 18,  0,  0,  0, 31,  1,  0,  0,  0,  0,  0,  0,  0,  0,  0,  0,  0,  0,  0,  3,  0,  0,  0,  0, // 0, 2
     0,  0,  0,  0, 21,  2,  0,  0,  0,  0,  0,  0, 32,  1,  0,  0,  0,  0,  0,  0,  0,  0,  0,  0,  0,  0,  0,  3,  0,  0,  0,  0, // 0, 3
    14,  0,  0,  0, 22,  2,  0,  0,  0,  0,  0,  0, 33,  1,  0,  0,  0,  0,  0,  0,  0,  0,  0,  0,  7,  0,  0,  3,  0,  0,  0,  0, // 0, 4
    15,  0,  0,  0, 26,  2,  0,  0,  0,  0,  0,  0, 34,  1,  0,  0,  0,  0,  0,  0,  0,  0,  0,  0,  8,  0,  0,  3,  0,  0,  0,  0, // 0, 5
     0,  0,  0,  0, 23,  2,  0,  0,  0,  0,  0,  0, 36,  1,  0,  0,  0,  0,  0,  0,  0,  0,  0,  0,  9,  0,  0,  3,  0,  0,  0,  0, // 0, 6
     0,  0,  0,  0, 24,  2,  0,  0,  0,  0,  0,  0, 37,  1,  0,  0,  0,  0,  0,  0,  0,  0,  0,  0, 10,  0,  0,  3,  0,  0,  0,  0, // 0, 7
    11,  0,  0, 40, 19,  2,  0,  0, 16,  0,  0,  0, 29,  1,  0,  0,  0,  0,  0,  0,  0,  0,  0,  0,  5,  4,  0,  3,  0,  0,  0,  0, // 1, 0
    12,  0,  0,  0,  0,  2,  0,  0, 17,  0,  0,  0,  0,  1,  0,  0,  0,  0,  0,  0,  0,  0,  0,  0,  6,  0,  0,  3,  0,  0,  0,  0, // 1, 1
    13,  0,  0,  0, 20,  2,  0,  0, 18,  0,  0,  0,  0,  1,  0,  0,  0,  0,  0,  0,  0,  0,  0,  0,  0,  0,  0,  3,  0,  0,  0,  0, // 1, 2
     0,  0,  0,  0, 21,  2,  0,  0,  0,  0,  0,  0,  0,  1,  0,  0,  0,  0,  0,  0,  0,  0,  0,  0,  0,  0,  0,  3,  0,  0,  0,  0, // 1, 3
    14,  0,  0,  0, 22,  2,  0,  0,  0,  0,  0,  0,  0,  1,  0,  0,  0,  0,  0,  0,  0,  0,  0,  0,  7,  0,  0,  3,  0,  0,  0,  0, // 1, 4
    15,  0,  0,  0, 27,  2,  0,  0,  0,  0,  0,  0, 35,  1,  0,  0,  0,  0,  0,  0,  0,  0,  0,  0,  8,  0,  0,  3,  0,  0,  0,  0, // 1, 5
     0,  0,  0,  0, 23,  2,  0,  0,  0,  0,  0,  0,  0,  1,  0,  0,  0,  0,  0,  0,  0,  0,  0,  0,  9,  0,  0,  3,  0,  0,  0,  0, // 1, 6
     0,  0,  0,  0, 24,  2,  0,  0,  0,  0,  0,  0,  0,  1,  0,  0,  0,  0,  0,  0,  0,  0,  0,  0, 10,  0,  0,  3,  0,  0,  0,  0, // 1, 7
];

// the nine bits as a number
fn index(word: u32) -> usize
    ensures number { result ≡ index_of word }
    ensures within { result < 512 }
{
    let bit = word::field(word, 30, 1);
    let middle = word::field(word, 12, 3);
    let low = word::field(word, 2, 5);
    (bit * 256 + middle * 32 + low) as usize
}

// The table's number for a word. Inner: `find` uses it.
#[tactic(auto, using(crate::proofs::TableLaws::entry_right))]
pub fn entry(word: u32) -> u8
    ensures { result ≡ entry_of (index_of word) }
{
    OPERATIONS[index(word)]
}
