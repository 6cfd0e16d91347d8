ghost use Rattle.std.specs.Prelude.{◌≡◌, ◌≤◌, IfSome, eqb};
ghost use Rattle.isa.specs.Listing.{last, format_of, fixed_of};
ghost use Rattle.isa.specs.Reads.{fixed_part, found, operation_of};

use crate::{Format, listing, table};

// The bits that a format fixes, in the formats' order. A static, and no match with the parts of the word in its arms: that is a jump
// more in every step (docs/SPEED.md).
static MASKS: [u32; 8] = [
    0xfe00_707f, // R
    0x707f, // I
    0x707f, // S
    0x707f, // B
    0x7f, // U
    0x7f, // J
    0xfe00_707f, // Shift
    0xffff_ffff, // Whole
];

// the word with zeros in its format's fields
#[tactic(auto, using(crate::proofs::Masks::long, crate::proofs::Masks::short, crate::proofs::Masks::opcode, crate::proofs::Masks::whole), unfolding(crate::specs::Reads::fixed_part))]
fn fixed_part(format: Format, word: u32) -> u32
    ensures { result ≡ fixed_part format word }
{
    word & MASKS[format as usize]
}

// whether the word has the operation's fixed bits: those that the table goes by and the remaining ones
fn matches(operation: u8, word: u32) -> bool
    ensures { result ≡ eqb (fixed_part (format_of operation) word) (fixed_of operation) }
{
    fixed_part(listing::format(operation), word) == listing::fixed(operation)
}

// The operation whose fixed bits the word has: its entry in the table, or EBREAK, which has no entry of its own.
// Inner: `read` uses it.
#[tactic(auto, using(crate::proofs::TableLaws::entry_most, crate::proofs::TableLaws::entry_found, crate::proofs::TableLaws::ebreak_found, crate::proofs::TableLaws::none_found))]
pub fn find(word: u32) -> Option<u8>
    ensures operation { result ≡ found (operation_of word) }
    ensures listed { IfSome result (λ n. n ≤ last) }
{
    let entry = table::entry(word);
    if (entry != 0) & matches(entry, word) {
        return Some(entry);
    }
    if (entry == listing::ECALL) & matches(listing::EBREAK, word) {
        return Some(listing::EBREAK);
    }
    None
}
