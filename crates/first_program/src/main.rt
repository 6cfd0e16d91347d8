// A first program: one instruction goes through the window, call by call.
#![tactic(auto)]

use window::Machine;

// ADDI x1, x0, 5
const PROGRAM: [u8; 4] = [0x93, 0x00, 0x50, 0x00];

// the machine after the calls that commit the first instruction; each call answers with the next machine and 0 or a refusal
fn first_committed(fresh: Machine, program: &[u8], data: &mut [u8]) -> Machine {
    let decoded = fresh.decode(program, data, 4);
    let machine = decoded.machine;
    let issued = machine.issue(program, data, 0);
    let machine = issued.machine;
    let completed = machine.complete(program, data, 0);
    let machine = completed.machine;
    let committed = machine.commit(program, data);
    committed.machine
}

fn main() {
    let program = PROGRAM;
    let mut data = [0u8; 0];
    // a window of 2 entries, 32 physical registers
    let set = Machine::set_up(2, 32, 4, 0);
    let fresh = set.machine;
    let machine = first_committed(fresh, &program, &mut data);
    let report = machine.report();
    if report.registers[1] == 5 {
        io::write_all(1, b"x1 is 5\n");
    }
}
