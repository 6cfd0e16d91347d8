// Damage to every place of a table. Index 0 and the places past a table's last are not looked at.
use crate::cases::Expected;
use crate::judging::Trial;
use crate::limits::{above, names_of};
use renaming::Core;
use tables::{Mapping, PLACES};

// How many places a table has, the last of them that is looked at, and the highest number that may stand there.
#[derive(Clone, Copy)]
struct Table {
    places: usize,
    last: u8,
    limit: u8,
}

// Past the end of a table nothing is put.
pub fn put<T: Copy>(table: &mut [T], at: usize, value: T) {
    if let Some(place) = table.get_mut(at) {
        *place = value;
    }
}

// at each place a number at the limit, one above it, and 255; the places from 1 to the last are looked at
fn places<F: Fn(&mut Core, usize, u8)>(t: &mut Trial, table: Table, set: F)
    requires { F.IsAlwaysCallable set }
{
    for at in 0..table.places {
        let beyond = if 1 <= at && at <= table.last as usize {
            Expected::Refused
        } else {
            Expected::Ignored
        };
        let numbers = [above(table.limit), 255];
        t.change(Expected::InRange, |m| set(m, at, table.limit));
        t.each(beyond, &numbers, |m, n| set(m, at, n));
    }
}

// the same in a pool's links, or in the table of each name's register
fn links<F: Fn(&mut Core, usize, u8)>(t: &mut Trial, limit: u8, last: u8, set: F)
    requires { F.IsAlwaysCallable set }
{
    let table = Table {
        places: PLACES,
        last,
        limit,
    };
    places(t, table, set);
}

pub fn register_links(t: &mut Trial) {
    let registers = t.machine.setup.registers;
    links(t, registers, registers, |c, at, n| {
        put(&mut c.free_registers.link, at, n);
    });
}

pub fn name_links(t: &mut Trial) {
    let names = names_of(&t.machine);
    links(t, names, names, |c, at, n| {
        put(&mut c.free_names.link, at, n);
    });
}

pub fn physical(t: &mut Trial) {
    let registers = t.machine.setup.registers;
    let names = names_of(&t.machine);
    links(t, registers, names, |c, at, n| {
        put(&mut c.physical, at, n);
    });
}

// one mapping of the general map changed
fn remap<F: FnOnce(&mut Mapping)>(m: &mut Core, at: usize, change: F)
    requires { F.IsAlwaysCallable change }
{
    if let Some(mapping) = m.map.mappings.get_mut(at) {
        change(mapping);
    }
}

// the same in the general map, also while the valid bit is clear
fn maps<F: Fn(&mut Core, usize, u8)>(t: &mut Trial, limit: u8, set: F)
    requires { F.IsAlwaysCallable set }
{
    let table = Table {
        places: 32,
        last: 31,
        limit,
    };
    places(t, table, &set);
    places(t, table, |c, at, n| {
        remap(c, at, |mapping| mapping.valid = false);
        set(c, at, n);
    });
}

pub fn map_names(t: &mut Trial) {
    let names = names_of(&t.machine);
    maps(
        t,
        names,
        |c, at, n| remap(c, at, |mapping| mapping.name = n),
    );
}

pub fn map_registers(t: &mut Trial) {
    let registers = t.machine.setup.registers;
    maps(t, registers, |c, at, n| {
        remap(c, at, |mapping| mapping.register = n);
    });
}

pub fn valid_bits(t: &mut Trial) {
    let m = t.machine;
    for at in 0..m.map.mappings.len() {
        t.change(Expected::Ignored, |c| {
            remap(c, at, |mapping| mapping.valid = !mapping.valid);
        });
    }
}

pub fn values(t: &mut Trial) {
    for at in 0..PLACES {
        t.change(Expected::Ignored, |c| put(&mut c.values, at, 0xffff_ffff));
    }
}
