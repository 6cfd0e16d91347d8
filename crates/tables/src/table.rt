// Tables by number: what stands under 0, or beyond the table, reads as none and is never written.
ghost use Rattle.std.specs.Prelude.{◌≡◌};
ghost use Rattle.tables.specs.Table.{look_under, store_under};

// What stands under a number, or none. Inner: the calls use it.
pub fn look_under<T: Copy, const N: usize>(none: T, table: &[T; N], n: u8) -> T
    ensures { result ≡ look_under none table.now n }
{
    let at = n as usize;
    if at == 0 {
        return none;
    }
    if at < N { table[at] } else { none }
}

// Inner: the calls use it.
pub fn store_under<T: Copy, const N: usize>(table: &mut [T; N], n: u8, value: T)
    ensures { table.new ≡ store_under table.old n value }
{
    let at = n as usize;
    if at != 0 {
        if at < N {
            table[at] = value;
        }
    }
}
