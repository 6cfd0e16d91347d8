ghost use Rattle.std.specs.Prelude.{◌≡◌};
ghost use Rattle.reference.specs.Step as Step;

use crate::{Stepped, lengths, operands, program, registers};
use execution::{Cause, Inputs, Stop, actions, executing, memory};
use isa::Instruction;

// one instruction on lent registers and data: the next address, or the cause of a stop, which leaves them.
// The action is looked up once, where it is first needed, and handed on: so a step has one jump for it (docs/SPEED.md).
fn make(
    i: Instruction,
    data: &mut [u8],
    registers: &mut [u32; 32],
    address: u32,
) -> Result<u32, Cause>
    ensures { Step.step_with i (Step.state registers.old address «data».old) ≡ Step.advanced result (Step.state registers.new address «data».new) }
{
    let constant = word::to_word(i.constant);
    let first = registers::read(registers, operands::first_source(i));
    let operand = registers::read(registers, operands::second_source(i));
    let at = word::add(first, constant);
    let action = actions::action(i.operation);
    let second = memory::second_by(action, data, at, operand);
    let given = Inputs {
        address,
        constant,
        first,
        second,
    };
    let executed = executing::perform(action, data.len(), given)?;
    memory::store_by(action, data, at, second);
    registers::write(registers, operands::destination_of(i), executed.result);
    Ok(executed.next)
}

// One step on lent registers and data: the next address, or the cause of a stop, which leaves them.
// Inner: step and run use it.
pub fn advance(
    program: &[u8],
    data: &mut [u8],
    registers: &mut [u32; 32],
    address: u32,
) -> Result<u32, Cause>
    ensures { Step.step_of program.now (Step.state registers.old address «data».old) ≡ Step.advanced result (Step.state registers.new address «data».new) }
{
    let i = program::fetch(program, address)?;
    make(i, data, registers, address)
}

// One instruction in order: registers and address after it, or as given with a stop or a refusal.
pub fn step(program: &[u8], data: &mut [u8], registers: [u32; 32], address: u32) -> Stepped
    ensures { Step.stepped_of program.now (Step.state registers address «data».old) ≡ record { answer = Step.stepped result; memory = «data».new } }
{
    let mut values = registers;
    if let Err(refusal) = lengths::check_lent(program, data) {
        return Stepped {
            registers: values,
            address,
            stop: Stop::NONE,
            refusal: Some(refusal),
        };
    }
    match advance(program, data, &mut values, address) {
        Ok(next) => Stepped {
            registers: values,
            address: next,
            stop: Stop::NONE,
            refusal: None,
        },
        Err(cause) => Stepped {
            registers: values,
            address,
            stop: cause.into(),
            refusal: None,
        },
    }
}
