ghost use Rattle.std.specs.Prelude.{◌≡◌, ◌≤◌};
ghost use Rattle.renaming.specs.Report as Reports;
ghost use Rattle.ranges.specs.Sizes.{most_entries};

use crate::Core;
use tables::table;

impl Core {
    // the values of the logical registers, by the general map
    fn mapped_values(&self) -> [u32; 32]
        ensures { result ≡ Reports.values_in self.now }
    {
        let mut registers = [0u32; 32];
        for r in 0..32u8 {
            registers[r as usize] = table::look_under(0, &self.values, self.map.shown(r).register);
        }
        registers
    }

    // The committed registers, element 0 being 0. Inner: the report and replay use it.
    pub fn committed_values(&self) -> [u32; 32]
        requires { self.now.count ≤ most_entries }
        ensures { result ≡ Reports.committed_values self.now }
    {
        let mut empty = *self;
        empty.drop_to(0);
        empty.mapped_values()
    }
}
