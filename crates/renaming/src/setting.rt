ghost use Rattle.std.specs.Prelude.{◌≡◌, ◌≤◌, ◌++◌, map, replicate};
ghost use Rattle.renaming.specs.Core as Machines;
ghost use Rattle.renaming.specs.SetUp.{own_numbers, own_mapping, rising_next, rising_pool, fresh_machine, set_up_of, set_up_answer};
ghost use Rattle.ranges.specs.Sizes.{setup_of, most_entries};

use crate::Core;
use ranges::{Dimensions, Setup};
use refusals::Refusal;
use std::array;
use tables::{FreeList, GeneralMap, Mapping, PLACES};

// the number after k in a pool of 32 to last
fn successor(k: usize, last: u8) -> u8
    ensures { result ≡ rising_next last k }
{
    if (32 <= k) & (k < last as usize) {
        (k + 1) as u8
    } else {
        0
    }
}

// a pool of 32 to last, in rising order
fn rising(last: u8) -> FreeList
    ensures { result ≡ rising_pool last }
{
    let link = array::from_fn(|k| successor(k, last));
    FreeList { head: 32, link }
}

// the logical registers, written out as in the definition, which the contracts are then met by computing
const OWN: [u8; 32] = [
    0, 1, 2, 3, 4, 5, 6, 7, 8, 9, 10, 11, 12, 13, 14, 15, 16, 17, 18, 19, 20, 21, 22, 23, 24, 25,
    26, 27, 28, 29, 30, 31,
];

// name r has register r, and the names after them none
fn own_registers() -> [u8; PLACES]
    ensures { result ≡ own_numbers ++ replicate most_entries 0 }
{
    let mut table = [0; PLACES];
    table[..32].copy_from_slice(&OWN);
    table
}

// logical r has name r and register r, x0 none
fn own_mappings() -> [Mapping; 32]
    ensures { result ≡ map own_mapping own_numbers }
{
    OWN.map(|r| Mapping {
        name: r,
        register: r,
        valid: r != 0,
    })
}

impl Core {
    // The machine of a refused set-up: the default, under the name of document 01's "machine of zeros". Inner: `window` uses it.
    pub fn zeros() -> Core
        ensures { result ≡ Machines.zero_machine }
    {
        Core::default()
    }

    // A machine of zeros becomes that of sizes that were accepted, in place. Inner: `window` and replay use it.
    pub fn begin(&mut self, setup: Setup)
        requires zeros { self.old ≡ Machines.zero_machine }
        requires few { setup.window ≤ most_entries }
        ensures { self.new ≡ fresh_machine setup }
    {
        self.setup = setup;
        self.map = GeneralMap {
            mappings: own_mappings(),
        };
        self.physical = own_registers();
        self.free_registers = rising(setup.registers);
        self.free_names = rising(setup.last_name());
    }

    // A fresh machine for a window of 1 to 64 entries, 32 to 95 physical registers and these lengths of program and
    // data; refused by 1 to 4. Inner: tests use it; `window` and replay begin a machine where it is to be, since a Result that holds
    // one is copied.
    pub fn set_up(asked: Dimensions) -> Result<Core, Refusal>
        ensures { set_up_answer result ≡ set_up_of (setup_of asked.window asked.registers asked.program asked.bytes) }
    {
        let setup = Setup::try_from(asked)?;
        let mut core = Core::zeros();
        core.begin(setup);
        Ok(core)
    }
}
