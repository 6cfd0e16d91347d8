// Theft: the youngest entry that holds a register loses it.
#![tactic(auto)]

ghost use Rattle.std.specs.Prelude.{◌≡◌, ◌≤◌, ◌<◌};
ghost use Rattle.stealing.specs.Steal as Steal;
ghost use Rattle.ranges.specs.Sizes.{most_entries};

use renaming::Core;
use renaming::changing::Sleep;
use tables::{Mapping, table};

// The youngest entry that holds a register, if it is younger than the caller; else the caller's position. Inner: complete
// uses it. Document 01 ("The form to use in each place") wants "a loop that yields the victim's position by break, or the
// caller's position": so no search by an iterator, and a number and no Option.
pub fn victim(core: &Core, position: usize) -> usize
    requires inside { position < core.now.count }
    requires few { core.now.count ≤ most_entries }
    ensures { result ≡ Steal.victim_of core.now position }
{
    let mut k = core.count as usize - 1;
    loop {
        if k <= position {
            break position;
        }
        if core.entries[k].held(&core.physical) != 0 {
            break k;
        }
        k -= 1;
    }
}

// The victim waits again, and its name has no register any more. Inner: complete uses it.
#[tactic(auto, unfolding(crate::specs::Steal::robbed))]
pub fn rob(core: &mut Core, victim: usize)
    requires inside { victim < core.old.count }
    requires few { core.old.count ≤ most_entries }
    ensures { core.new ≡ Steal.robbed victim core.old }
{
    let e = core.entries[victim];
    core.entries[victim].wait();
    let lost = Mapping {
        name: e.name,
        register: 0,
        valid: false,
    };
    core.map.learn(e.destination, lost);
    table::store_under(&mut core.physical, e.name, 0);
    core.change_all(&Sleep { name: e.name });
}
