// What refusal 5 looks at in the tables. Tests are joined without early exit, so that loops are made of wide instructions.
ghost use Rattle.std.specs.Prelude.{◌≡◌, ◌<◌, length};
ghost use Rattle.ranges.specs.Tables as Tables;
ghost use Rattle.ranges.specs.Sizes.{last_logical};
ghost use Rattle.tables.specs.GeneralMap.{unmapped};

use tables::GeneralMap;

// The numbers at 1 to count are at most the limit. Inner: refusal 5 uses it.
pub fn within(limit: u8, count: u8, table: &[u8]) -> bool
    requires { count < length table.now }
    ensures { result ≡ Tables.within limit 1 count table.now }
{
    let mut good = true;
    for n in &table[1..count as usize + 1] {
        good &= *n <= limit;
    }
    good
}

// The mappings of registers 1 to 31 have a name and a register that are at most these. Inner: refusal 5 uses it.
pub fn mappings_within(last_name: u8, last_register: u8, map: &GeneralMap) -> bool
    ensures { result ≡ Tables.every_from (Tables.mapping_within last_name last_register) unmapped 1 last_logical map.now.mappings }
{
    let mut good = true;
    for mapping in &map.mappings[1..] {
        good &= (mapping.name <= last_name) & (mapping.register <= last_register);
    }
    good
}
