// Every physical register and every name is in exactly one place: in the pool, committed, or with one entry. And what document 01
// says of the numbers that are in a pool, and of those that are not.
use renaming::Core;
use tables::{FreeList, PLACES};

// how often each number was seen; 0 is nobody's
#[derive(Clone, Copy)]
struct Seen {
    counts: [u8; PLACES],
}

impl Seen {
    fn add(&mut self, number: u8) {
        if number != 0
            && let Some(count) = self.counts.get_mut(number as usize)
        {
            *count = count.saturating_add(1);
        }
    }

    // Along the chain; whether it ends within 96 numbers.
    fn walk(&mut self, pool: &FreeList) -> bool {
        let mut at = pool.head;
        for _ in 0..PLACES {
            if at == 0 {
                return true;
            }
            self.add(at);
            at = pool.link.get(at as usize).copied().unwrap_or(0);
        }
        at == 0
    }

    // "The link of a number outside its pool is zero": of one that a walk along the chain has not seen.
    fn links_rest(&self, pool: &FreeList) -> bool {
        let mut links = pool.link.iter().zip(&self.counts);
        links.all(|(link, count)| *count != 0 || *link == 0)
    }

    // "zero once the name is freed": of the names that a walk along the chain has seen
    fn names_rest(&self, physical: &[u8; PLACES]) -> bool {
        let mut registers = physical.iter().zip(&self.counts);
        registers.all(|(register, count)| *count == 0 || *register == 0)
    }

    // Whether 1 to last were seen once each, the others never.
    fn is_each_once(&self, last: usize) -> bool {
        self.counts
            .iter()
            .enumerate()
            .skip(1)
            .all(|(k, count)| *count == u8::from(k <= last))
    }
}

// Whether every number is accounted for.
pub fn holds(m: &Core) -> bool {
    let Some(entries) = m.entries.get(..m.count as usize) else {
        return false;
    };
    let mut registers = Seen {
        counts: [0; PLACES],
    };
    let mut names = registers;
    let ends = registers.walk(&m.free_registers) && names.walk(&m.free_names);
    let rest = registers.links_rest(&m.free_registers)
        && names.links_rest(&m.free_names)
        && names.names_rest(&m.physical);
    for e in entries {
        registers.add(e.held(&m.physical));
        names.add(e.name);
    }
    let mut empty = *m;
    empty.drop_to(0);
    for mapping in &empty.map.mappings[1..] {
        registers.add(mapping.register);
        names.add(mapping.name);
    }
    ends && rest
        && registers.is_each_once(m.setup.registers as usize)
        && names.is_each_once(m.setup.window as usize + 31)
}
