// Stores at and beyond the end of the data, aligned or not.
use crate::samples::{instruction, plain};
use isa::Instruction;
use tables::Entry;

// Where a store goes: to first + constant, wrapping at 2^32, which is the address.
#[derive(Clone, Copy)]
pub struct Place {
    first: u32,
    constant: i32,
    address: u32,
}

// Ten places, about the last address at which the store's bytes stay in the data.
pub fn places(bytes: u16, size: u32) -> [Place; 10] {
    let last = u32::from(bytes).wrapping_sub(size);
    let after = last.wrapping_add(1);
    [
        (last, 0, last),
        (after, 0, after),
        (after, -1, last),
        (last, 1, after),
        (0, 0, 0),
        (1, 0, 1),
        (0, -1, 0xffff_ffff),
        (0xffff_ffff, 1, 0),
        (0xffff_fffc, 0, 0xffff_fffc),
        (0x8000_0000, 0, 0x8000_0000),
    ]
    .map(|(first, constant, address)| Place {
        first,
        constant,
        address,
    })
}

// A store or a load of this many bytes.
#[derive(Clone, Copy)]
pub struct Access {
    instruction: Instruction,
    is_store: bool,
    pub size: u32,
}

fn store(operation: u8, size: u32) -> Access {
    Access {
        instruction: instruction(operation, 0, 2, 2, 0),
        is_store: true,
        size,
    }
}

// SB, SH, SW, and LW, which is no store.
pub fn accesses() -> [Access; 4] {
    let load = Access {
        instruction: instruction(13, 1, 2, 0, 0),
        is_store: false,
        size: 4,
    };
    [store(16, 1), store(17, 2), store(18, 4), load]
}

impl Access {
    // An entry with it.
    pub fn entry(self, place: Place) -> Entry {
        Entry {
            instruction: Instruction {
                constant: place.constant,
                ..self.instruction
            },
            first: place.first,
            ..plain()
        }
    }

    // Whether it is a store whose bytes leave the data.
    pub fn stores_beyond(self, place: Place, bytes: u16) -> bool {
        self.is_store && u64::from(place.address) + u64::from(self.size) > u64::from(bytes)
    }
}
