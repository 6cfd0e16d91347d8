// A call by its name.
ghost use Rattle.std.specs.Prelude.{◌≡◌, ◌≤◌};
ghost use Rattle.std.specs.Result.{IfOk};
ghost use Rattle.isa.specs.Reads.{choose};
ghost use Rattle.refusals.specs.Numbers.{number_of};
ghost use Rattle.ranges.specs.Sizes.{most_entries};
ghost use Rattle.window.specs.Calls as Calls;
ghost use Rattle.window.specs.Handed as Handed;

use crate::{Answer, Call, Machine};
use refusals::Refusal;
use renaming::Core;

// The call, where 5 and 6 do not apply; whether it stole a register. Inner: this crate and replay's loop use it.
pub fn make_within(
    core: &mut Core,
    call: Call,
    program: &[u8],
    data: &mut [u8],
) -> Result<bool, Refusal>
    requires window { core.old.setup.window ≤ most_entries }
    requires count { core.old.count ≤ most_entries }
    ensures made { Calls.made_by core.new «data».new (number_of result) ≡ Calls.make_within program.now call (Calls.world_of core.old «data».old) }
    ensures stole { IfOk result (λ stole. choose stole 1 0 ≡ Calls.stolen call core.old) }
{
    match call {
        Call::Decode(guess) => decoding::decode_within(core, program, guess)?,
        Call::Issue(position) => issuing::issue_within(core, data, position)?,
        Call::Complete(position) => return completing::complete_within(core, position),
        Call::Commit => committing::commit_within(core, data)?,
    }
    Ok(false)
}

// 5 and 6, then the call
pub(crate) fn make(
    core: &mut Core,
    call: Call,
    program: &[u8],
    data: &mut [u8],
) -> Result<(), Refusal>
    ensures { Calls.made_by core.new «data».new (number_of result) ≡ Calls.make program.now call (Calls.world_of core.old «data».old) }
{
    core.lent(program, data)?;
    make_within(core, call, program, data)?;
    Ok(())
}

impl Machine {
    // A call is made: as the method of its name, with its guess or position.
    pub fn make(mut self, call: Call, program: &[u8], data: &mut [u8]) -> Answer
        ensures { Calls.make program.now call (Handed.world self «data».old) ≡ Handed.made result «data».new }
    {
        let outcome = make(&mut self.core, call, program, data);
        self.answered(outcome)
    }
}
