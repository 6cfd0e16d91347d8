// The numbers that document 01 lets a machine hold.
use crate::cases::Case;
use renaming::Core;

// The highest name, 31 + W.
pub fn names_of(m: &Core) -> u8 {
    m.setup.window.saturating_add(31)
}

pub fn above(limit: u8) -> u8 {
    limit.saturating_add(1)
}

// None, the limit, one above it, and 255.
pub fn about(limit: u8) -> [Case<u8>; 4] {
    [0, limit, above(limit), 255].map(|n| Case::refused_if(n > limit, n))
}
