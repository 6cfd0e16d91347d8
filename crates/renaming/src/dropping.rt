ghost use Rattle.std.specs.Prelude.{◌≡◌, ◌≤◌, ◌<◌};
ghost use Rattle.renaming.specs.Drop as Drop;
ghost use Rattle.ranges.specs.Sizes.{most_entries};

use crate::Core;
use tables::{Entry, Mapping, table};

impl Core {
    // The youngest entry's register, then its name, are freed, and the previous name returns.
    #[tactic(auto, unfolding(crate::specs::Drop::drop_youngest))]
    fn drop_youngest(&mut self)
        requires some { 0 < self.old.count }
        requires few { self.old.count ≤ most_entries }
        ensures { self.new ≡ Drop.drop_youngest self.old }
    {
        self.count -= 1;
        let at = self.count as usize;
        let e = self.entries[at];
        self.entries[at] = Entry::default();
        self.free_registers.free(e.held(&self.physical));
        table::store_under(&mut self.physical, e.name, 0);
        self.free_names.free(e.name);
        let back = table::look_under(0, &self.physical, e.previous);
        let returned = Mapping {
            name: e.previous,
            register: back,
            valid: back != 0,
        };
        self.map.set(e.destination, returned);
    }

    // The oldest entries alone, so many: with position + 1 kept, all younger than the position are dropped. Inner: the calls
    // and the report use it.
    pub fn drop_to(&mut self, kept: u8)
        requires { self.old.count ≤ most_entries }
        ensures { self.new ≡ Drop.drop_to kept self.old }
    {
        // no index is counted: each turn lowers the count itself
        while kept < self.count {
            self.drop_youngest();
        }
    }
}
