// Refusal 5: whether every number of a machine is in range.
ghost use Rattle.std.specs.Prelude.{◌≡◌, ◌≤◌};
ghost use Rattle.renaming.specs.Range as Range;
ghost use Rattle.ranges.specs.Sizes.{most_entries, most_registers};

use crate::Core;
use ranges::{entries, table};

impl Core {
    fn entries_in_range(&self) -> bool
        requires count { self.now.count ≤ most_entries }
        requires window { self.now.setup.window ≤ most_entries }
        ensures { result ≡ Range.entries_in_range self.now.setup self.now.count self.now.entries }
    {
        let setup = self.setup;
        self.entries[..self.count as usize]
            .iter()
            .all(|e| entries::entry_in_range(setup, e))
    }

    // Heads and links of the pools, the physical map, the general map, the halt's cause. Tests are joined without early exit, as in
    // `ranges`.
    #[tactic(auto, unfolding(ranges::specs::Tables::tables_within))]
    fn tables_in_range(&self) -> bool
        requires window { self.now.setup.window ≤ most_entries }
        requires registers { self.now.setup.registers ≤ most_registers }
        ensures { result ≡ Range.tables_in_range self.now }
    {
        let registers = self.setup.registers;
        let names = self.setup.last_name();
        (self.free_registers.head <= registers)
            & table::within(registers, registers, &self.free_registers.link)
            & (self.free_names.head <= names)
            & table::within(names, names, &self.free_names.link)
            & table::within(registers, names, &self.physical)
            & table::mappings_within(names, registers, &self.map)
            & self.halt.is_in_range()
    }

    // Whether refusal 5 does not apply. Inner: the calls and the report use it.
    pub fn in_range(&self) -> bool
        ensures { result ≡ Range.machine_in_range self.now }
    {
        if !self.setup.is_in_range() {
            return false;
        }
        if self.setup.window < self.count {
            return false;
        }
        self.tables_in_range() & self.entries_in_range()
    }
}
