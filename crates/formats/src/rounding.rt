ghost use Rattle.std.specs.Prelude.{◌≡◌, ◌<◌, ◌^◌};
ghost use Rattle.formats.specs.Rate.{nearest, rate_of};

use std::cmp::Ordering;

// Committed × 1000 ÷ accepted, an exact half to the even neighbour; 0 if none accepted. In 64 bits, since the product of 1000 and a
// number of 32 bits needs more than 32. Inner: replay uses it.
pub fn rate(committed: u32, accepted: u32) -> u64
    ensures { result ≡ rate_of committed accepted }
{
    if accepted == 0 {
        return 0;
    }
    rounded(u64::from(committed) * 1_000, u64::from(accepted))
}

// a ÷ b
fn rounded(a: u64, b: u64) -> u64
    requires { (0 < b) × (b < 2 ^ 32) × (a < 2 ^ 63) }
    ensures { result ≡ nearest a b }
{
    let below = a / b;
    match (2 * (a % b)).cmp(&b) {
        Ordering::Less => below,
        Ordering::Greater => below + 1,
        // the even one of the two
        Ordering::Equal => below + below % 2,
    }
}
