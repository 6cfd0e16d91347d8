// Drain: the calls that commit position 0, until none is left.
ghost use Rattle.std.specs.Prelude.{◌≡◌, ◌*◌};
ghost use Rattle.refusals.specs.Numbers.{number_of};
ghost use Rattle.window.specs.Calls as Calls;
ghost use Rattle.window.specs.Drain as Drain;
ghost use Rattle.window.specs.Handed as Handed;

use crate::{Call, Drained, Machine, making};
use refusals::Refusal;
use renaming::Core;
use tables::State;

// no entry is left, or the machine halted
fn is_idle(core: &Core) -> bool
    ensures { result ≡ Drain.idle core.now }
{
    (core.count == 0) | core.is_halted()
}

// the call that position 0 needs next
fn needed(core: &Core) -> Call
    ensures { result ≡ Calls.needed_of core.now }
{
    match core.entries[0].state {
        State::Waits => Call::Issue(0),
        State::Issued => Call::Complete(0),
        State::Completed => Call::Commit,
    }
}

// the calls accepted are counted from 0 on, in a lent number, so that `?` ends the drain with the count as it stands
fn drain(core: &mut Core, program: &[u8], data: &mut [u8], calls: &mut u8) -> Result<(), Refusal>
    requires { calls.old ≡ 0 }
    ensures { Drain.drain_of program.now (Calls.world_of core.old «data».old)
        ≡ record { world = Calls.world_of core.new «data».new; calls = calls.new; number = number_of result } }
{
    core.lent(program, data)?;
    let budget = 3 * core.count;
    for _ in 0..budget {
        if is_idle(core) {
            return Ok(());
        }
        making::make(core, needed(core), program, data)?;
        *calls += 1;
    }
    Ok(())
}

impl Machine {
    // Commits the entries one by one, until none is left or the machine halts; ends at a refused call with its number.
    pub fn drain(mut self, program: &[u8], data: &mut [u8]) -> Drained
        ensures { Drain.drain_of program.now (Handed.world self «data».old) ≡ Handed.drained result «data».new }
    {
        let mut calls = 0;
        let outcome = drain(&mut self.core, program, data, &mut calls);
        Drained {
            machine: self,
            calls,
            number: refusals::number_of(&outcome),
        }
    }
}
