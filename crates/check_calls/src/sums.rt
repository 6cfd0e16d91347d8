// Sums over all that a machine holds, over bytes and over numbers: what the second opinion, which holds the same in its own
// way, makes of its own. `harness/opinion` has the order of the numbers once more.
use isa::Instruction;
use renaming::Core;
use tables::{Entry, FreeList, Mapping, Operand, State};

// FNV-1a's numbers, over numbers in place of bytes.
const START: u64 = 0xcbf2_9ce4_8422_2325;

const FACTOR: u64 = 0x0000_0100_0000_01b3;

#[derive(Clone, Copy)]
pub struct Sum {
    pub value: u64,
}

impl Sum {
    pub fn start() -> Sum {
        Sum { value: START }
    }

    pub fn add(&mut self, number: u64) {
        self.value = (self.value ^ number).wrapping_mul(FACTOR);
    }

    fn byte(&mut self, number: u8) {
        self.add(u64::from(number));
    }

    pub fn word(&mut self, number: u32) {
        self.add(u64::from(number));
    }

    pub fn bytes(&mut self, bytes: &[u8]) {
        for byte in bytes {
            self.byte(*byte);
        }
    }

    pub fn words(&mut self, words: &[u32]) {
        for word in words {
            self.word(*word);
        }
    }

    // its case, 0 zero, 1 waiting, 2 ready, then name and register, 0 where it has none
    fn operand(&mut self, o: Operand) {
        let numbers = match o {
            Operand::Zero => [0, 0, 0],
            Operand::Waiting(name) => [1, name, 0],
            Operand::Ready(name, register) => [2, name, register],
        };
        self.bytes(&numbers);
    }

    fn instruction(&mut self, i: Instruction) {
        self.bytes(&[i.operation, i.rd, i.rs1, i.rs2]);
        self.word(i.constant.cast_unsigned());
    }

    fn entry(&mut self, e: &Entry) {
        self.instruction(e.instruction);
        self.word(e.address);
        self.operand(e.left);
        self.operand(e.right);
        self.bytes(&[e.destination, e.name, e.previous]);
        self.words(&[e.predicted, e.first, e.second, e.result]);
        let state = match e.state {
            State::Waits => 0,
            State::Issued => 1,
            State::Completed => 2,
        };
        self.bytes(&[state, e.stop.cause]);
    }

    fn entries(&mut self, entries: &[Entry]) {
        for e in entries {
            self.entry(e);
        }
    }

    fn mappings(&mut self, mappings: &[Mapping]) {
        for mapping in mappings {
            self.bytes(&[mapping.name, mapping.register, u8::from(mapping.valid)]);
        }
    }

    fn pool(&mut self, pool: &FreeList) {
        self.byte(pool.head);
        self.bytes(&pool.link);
    }
}

// Of a machine, every number of it.
pub fn of_machine(m: &Core) -> u64 {
    let mut sum = Sum::start();
    sum.bytes(&[m.setup.window, m.setup.registers]);
    sum.words(&[u32::from(m.setup.program), u32::from(m.setup.bytes)]);
    sum.byte(m.count);
    sum.entries(&m.entries);
    sum.mappings(&m.map.mappings);
    sum.bytes(&m.physical);
    sum.words(&m.values);
    sum.pool(&m.free_registers);
    sum.pool(&m.free_names);
    sum.words(&[m.fetch, m.next]);
    sum.byte(m.halt.cause);
    sum.value
}

pub fn of_bytes(bytes: &[u8]) -> u64 {
    let mut sum = Sum::start();
    sum.bytes(bytes);
    sum.value
}
