// The in-order run beside a machine.
use execution::Stop;
use reference::Stepped;
use renaming::Core;
use window::Machine;

// As the last step left it; the default is address 0, with zeros in the registers.
#[derive(Clone, Copy, Default)]
pub struct Ordered {
    pub last: Stepped,
}

impl Ordered {
    pub fn has_ended(&self) -> bool {
        self.last.stop != Stop::default() || self.last.refusal.is_some()
    }

    // One step further.
    pub fn step(&mut self, program: &[u8], data: &mut [u8]) {
        self.last = reference::step(program, data, self.last.registers, self.last.address);
    }

    // Whether report, next address and halt are as the in-order run has them. A report's number is document 01's, 0 for none.
    pub fn agrees(&self, m: &Core) -> bool {
        let machine = Machine { core: *m };
        let report = machine.report();
        report.number == 0
            && report.registers == self.last.registers
            && m.next == self.last.address
            && m.halt == self.last.stop
            && self.last.refusal.is_none()
    }
}
