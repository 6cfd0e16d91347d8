// What the renaming core asks of an instruction.
ghost use Rattle.std.specs.Prelude.{◌≡◌};
ghost use Rattle.execution.specs.Execute.{stop_for};
ghost use Rattle.execution.specs.Roles as Roles;

use crate::{Action, Cause, Computation, actions};
use isa::Instruction;

// Inner: the step and the calls use it.
#[tactic(auto, unfolding(crate::specs::Roles::loads_by))]
pub fn is_load(i: Instruction) -> bool
    ensures { result ≡ Roles.loads i }
{
    matches!(
        actions::action(i.operation),
        Action::LoadsSigned(_) | Action::LoadsUnsigned(_)
    )
}

// Inner: the step and the calls use it.
#[tactic(auto, unfolding(crate::specs::Roles::stores_by))]
pub fn is_store(i: Instruction) -> bool
    ensures { result ≡ Roles.stores i }
{
    matches!(actions::action(i.operation), Action::Stores(_))
}

// the cause with which ECALL and EBREAK stop, none for all that execute. Inner: decode uses it.
#[tactic(auto, unfolding(crate::specs::Roles::stop_by))]
pub fn stop_at_once(i: Instruction) -> Option<Cause>
    ensures { stop_for result ≡ Roles.stop_at_once i }
{
    match actions::action(i.operation) {
        Action::Stops(cause) => Some(cause),
        _ => None,
    }
}

// the guess for branches and JALR, the target for JAL, else the address after. Inner: the step and the calls use it.
#[tactic(auto, unfolding(crate::specs::Roles::predicted_by))]
pub fn predicted_next(i: Instruction, address: u32, guess: u32) -> u32
    ensures { result ≡ Roles.predicted_next i address guess }
{
    match actions::action(i.operation) {
        Action::Computes(Computation::Jump) => word::add(address, word::to_word(i.constant)),
        Action::Computes(Computation::JumpRegister | Computation::Branch(_)) => guess,
        _ => word::add(address, 4),
    }
}
