ghost use Rattle.std.specs.Prelude.{◌≡◌};
ghost use Rattle.tables.specs.FreeList.{taken, freed};

use crate::{FreeList, table};

impl FreeList {
    // Takes the head out of the chain; an empty chain stays. Inner: the calls use it.
    pub fn take(&mut self)
        ensures { self.new ≡ taken self.old }
    {
        let head = self.head;
        self.head = table::look_under(0, &self.link, head);
        table::store_under(&mut self.link, head, 0);
    }

    // Puts a number at the head, and nothing for 0. Inner: the calls use it.
    pub fn free(&mut self, n: u8)
        ensures { self.new ≡ freed n self.old }
    {
        table::store_under(&mut self.link, n, self.head);
        if n != 0 {
            self.head = n;
        }
    }
}
