// A change that all entries of the window undergo alike.
ghost use Rattle.std.specs.Prelude.{◌≡◌, ◌≤◌};
ghost use Rattle.renaming.specs.Changes as Changes;
ghost use Rattle.ranges.specs.Sizes.{most_entries};
ghost use Rattle.tables.specs.Entry.{wake_entry, sleep_entry};
ghost use Rattle.tables.specs.declared.Entry.{Entry};

use crate::Core;
use tables::Entry;

// What happens to one entry.
pub trait Change {
    ghost becomes: { Self → Entry → Entry };

    fn apply(&self, e: &mut Entry)
        ensures { e.new ≡ becomes self.now e.old };
}

// Operands on a name become ready with a register.
#[derive(Clone, Copy)]
pub struct Wake {
    pub name: u8,
    pub register: u8,
}

// Operands on a name are waiting again.
#[derive(Clone, Copy)]
pub struct Sleep {
    pub name: u8,
}

impl Change for Wake {
    ghost becomes = { λ w. wake_entry w.name w.register };

    fn apply(&self, e: &mut Entry) {
        e.wake(self.name, self.register);
    }
}

impl Change for Sleep {
    ghost becomes = { λ s. sleep_entry s.name };

    fn apply(&self, e: &mut Entry) {
        e.sleep(self.name);
    }
}

impl Core {
    // Inner: theft and complete use it.
    pub fn change_all<C: Change>(&mut self, change: &C)
        requires { self.old.count ≤ most_entries }
        ensures { self.new ≡ Changes.change_all (C.becomes change.now) self.old }
    {
        for k in 0..self.count as usize {
            change.apply(&mut self.entries[k]);
        }
    }
}
