// The four calls, for any machine value and any lent bytes: 5 and 6 are met here. A function that takes the call as a
// closure would be no shorter than `lent` with `?`, and commit lends the data to both. Program and data are lent apart, as
// document 01 has them.
ghost use Rattle.std.specs.Prelude.{◌≡◌};
ghost use Rattle.renaming.specs.Answer.{answer};
ghost use Rattle.decoding.specs.Decode as Decode;
ghost use Rattle.issuing.specs.Issue as Issue;
ghost use Rattle.completing.specs.Complete as Complete;
ghost use Rattle.committing.specs.Commit as Commit;
ghost use Rattle.window.specs.Handed as Handed;

use crate::{Answer, Machine};
use refusals::Refusal;
use renaming::Core;

fn decode(core: &mut Core, program: &[u8], data: &[u8], guess: u32) -> Result<(), Refusal>
    ensures { answer core.new result ≡ Decode.decode_of program.now «data».now guess core.old }
{
    core.lent(program, data)?;
    decoding::decode_within(core, program, guess)
}

fn issue(core: &mut Core, program: &[u8], data: &[u8], position: usize) -> Result<(), Refusal>
    ensures { answer core.new result ≡ Issue.issue_of program.now «data».now position core.old }
{
    core.lent(program, data)?;
    issuing::issue_within(core, data, position)
}

fn complete(core: &mut Core, program: &[u8], data: &[u8], position: usize) -> Result<(), Refusal>
    ensures { answer core.new result ≡ Complete.complete_of program.now «data».now position core.old }
{
    core.lent(program, data)?;
    completing::complete_within(core, position)?;
    Ok(())
}

fn commit(core: &mut Core, program: &[u8], data: &mut [u8]) -> Result<(), Refusal>
    ensures { Commit.commit_of program.now «data».old core.old ≡ record { answer = answer core.new result; memory = «data».new } }
{
    core.lent(program, data)?;
    committing::commit_within(core, data)
}

impl Machine {
    // The instruction at the fetch address enters the window, the guess being where a branch or JALR is thought to go.
    pub fn decode(mut self, program: &[u8], data: &[u8], guess: u32) -> Answer
        ensures { Handed.answer result ≡ Decode.decode_of program.now «data».now guess self.core }
    {
        let outcome = decode(&mut self.core, program, data, guess);
        self.answered(outcome)
    }

    // The entry at a position reads its operands, and a load the data.
    pub fn issue(mut self, program: &[u8], data: &[u8], position: usize) -> Answer
        ensures { Handed.answer result ≡ Issue.issue_of program.now «data».now position self.core }
    {
        let outcome = issue(&mut self.core, program, data, position);
        self.answered(outcome)
    }

    // The entry at a position finds its result and next address, and takes or steals a register.
    pub fn complete(mut self, program: &[u8], data: &[u8], position: usize) -> Answer
        ensures { Handed.answer result ≡ Complete.complete_of program.now «data».now position self.core }
    {
        let outcome = complete(&mut self.core, program, data, position);
        self.answered(outcome)
    }

    // The oldest entry leaves the window: a store writes the data, an entry with a cause halts the machine.
    pub fn commit(mut self, program: &[u8], data: &mut [u8]) -> Answer
        ensures { Commit.commit_of program.now «data».old self.core ≡ record { answer = Handed.answer result; memory = «data».new } }
    {
        let outcome = commit(&mut self.core, program, data);
        self.answered(outcome)
    }
}
