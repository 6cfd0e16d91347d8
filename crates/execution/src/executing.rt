ghost use Rattle.std.specs.Prelude.{◌≡◌};
ghost use Rattle.word.specs.Arithmetic.{sum};
ghost use Rattle.isa.specs.Reads.{choose};
ghost use Rattle.execution.specs.Causes.{cause_number};
ghost use Rattle.execution.specs.Execute as Execute;
ghost use Rattle.execution.specs.Execute.{outcome};
ghost use Rattle.execution.specs.Memory as Memory;

use crate::{Action, Cause, Computation, Condition, Executed, Inputs, actions, arithmetic, memory};
use isa::Instruction;

fn onward(address: u32) -> u32
    ensures { result ≡ Execute.onward address }
{
    word::add(address, 4)
}

fn goes(value: u32, next: u32) -> Executed
    ensures { result ≡ record { result = value; next = next } }
{
    Executed {
        result: value,
        next,
    }
}

fn jumps(given: Inputs, value: u32, target: u32) -> Result<Executed, Cause>
    ensures { outcome given.address result ≡ Execute.jumps given.address value target }
{
    if target % 4 != 0 {
        return Err(Cause::Target);
    }
    Ok(goes(value, target))
}

fn branches(condition: Condition, given: Inputs) -> Result<Executed, Cause>
    ensures { outcome given.address result ≡ Execute.performed (Computation.Branch condition) given.address given.constant given.first given.second }
{
    if arithmetic::holds(condition, given.first, given.second) {
        jumps(given, 0, word::add(given.address, given.constant))
    } else {
        Ok(goes(0, onward(given.address)))
    }
}

// a load or a store, which stops with this cause where its bytes cannot be accessed
fn accesses(
    bytes: usize,
    size: u8,
    cause: Cause,
    given: Inputs,
    value: u32,
) -> Result<Executed, Cause>
    ensures { outcome given.address result ≡ choose (Memory.accessible bytes (sum given.first given.constant) size) (Execute.goes value (Execute.onward given.address)) (Execute.stops given.address (cause_number cause)) }
{
    let at = word::add(given.first, given.constant);
    if !memory::accessible(bytes, at, size) {
        return Err(cause);
    }
    Ok(goes(value, onward(given.address)))
}

// what a computation comes to
fn computes(computation: Computation, given: Inputs) -> Result<Executed, Cause>
    ensures { outcome given.address result ≡ Execute.performed computation given.address given.constant given.first given.second }
{
    let next = onward(given.address);
    let value = match computation {
        Computation::Jump => {
            return jumps(given, next, word::add(given.address, given.constant));
        }
        Computation::JumpRegister => {
            return jumps(given, next, word::add(given.first, given.constant) / 2 * 2);
        }
        Computation::Branch(condition) => return branches(condition, given),
        Computation::Upper => word::shift_left(given.constant, 12),
        Computation::UpperAddress => {
            word::add(given.address, word::shift_left(given.constant, 12))
        }
        Computation::Immediate(function) => {
            arithmetic::compute(function, given.first, given.constant)
        }
        Computation::Register(function) => {
            arithmetic::compute(function, given.first, given.second)
        }
        Computation::Fence => 0,
    };
    Ok(goes(value, next))
}

// what an action comes to. Inner: the step uses it.
#[tactic(auto, unfolding(crate::specs::Execute::executed_by))]
pub fn perform(action: Action, bytes: usize, given: Inputs) -> Result<Executed, Cause>
    ensures { outcome given.address result ≡ Execute.executed_by action bytes given.address given.constant given.first given.second }
{
    match action {
        Action::Computes(computation) => computes(computation, given),
        Action::LoadsSigned(size) | Action::LoadsUnsigned(size) => {
            accesses(bytes, size, Cause::Load, given, given.second)
        }
        Action::Stores(size) => accesses(bytes, size, Cause::Store, given, 0),
        Action::Stops(cause) => Err(cause),
    }
}

// Result and next address of an instruction, or the cause of its stop, from its address and the two values read.
// Inner: the step and the calls use it.
pub fn execute(
    bytes: usize,
    i: Instruction,
    address: u32,
    first: u32,
    second: u32,
) -> Result<Executed, Cause>
    ensures { outcome address result ≡ Execute.executed bytes i address first second }
{
    let given = Inputs {
        address,
        constant: word::to_word(i.constant),
        first,
        second,
    };
    perform(actions::action(i.operation), bytes, given)
}
