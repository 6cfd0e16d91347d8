// Issue: an entry reads its operands.
#![tactic(auto)]

ghost use Rattle.std.specs.Prelude.{◌≡◌, ◌≤◌, ◌<◌};
ghost use Rattle.refusals.specs.Numbers.{number_of};
ghost use Rattle.ranges.specs.Sizes.{most_entries};
ghost use Rattle.renaming.specs.Answer.{answer};
ghost use Rattle.issuing.specs.Issue as Issue;

use execution::roles;
use refusals::Refusal;
use renaming::Core;
use tables::State;

// one of the oldest n entries is a store
fn store_below(core: &Core, n: usize) -> bool
    requires { n ≤ most_entries }
    ensures { result ≡ Issue.store_below n core.now.entries }
{
    core.entries[..n]
        .iter()
        .any(|e| roles::is_store(e.instruction))
}

// 10 halted; 12 no entry there; 13 entry not waiting; 14 operand not ready; 15 load with an older store in the window
#[tactic(auto, unfolding(crate::specs::Issue::issue_refusal, renaming::specs::Call::entry_refusal, reference::specs::Step::first), using(refusals::proofs::Laws::number_some, refusals::proofs::Laws::handed_on))]
fn check(core: &Core, position: usize) -> Result<(), Refusal>
    requires { core.now.count ≤ most_entries }
    ensures { number_of result ≡ Issue.issue_refusal position core.now }
{
    core.check_entry(position, State::Waits)?;
    let e = &core.entries[position];
    if !e.is_ready() {
        return Err(Refusal::OperandNotReady);
    }
    if roles::is_load(e.instruction) && store_below(core, position) {
        return Err(Refusal::OlderStore);
    }
    Ok(())
}

// the entry reads its operands, and a load its data
#[tactic(auto, unfolding(crate::specs::Issue::issued))]
fn issue(core: &mut Core, data: &[u8], position: usize)
    requires few { core.old.count ≤ most_entries }
    requires there { position < core.old.count }
    ensures { core.new ≡ Issue.issued «data».now position core.old }
{
    let e = &core.entries[position];
    let first = e.left.value_in(&core.values);
    let operand = e.right.value_in(&core.values);
    let second = execution::second_value(e.instruction, data, first, operand);
    core.entries[position].issue(first, second);
}

// Issue, where 5 and 6 do not apply. Inner: `window` uses it.
#[tactic(auto, unfolding(crate::specs::Issue::issue_within), using(refusals::proofs::Laws::number_some, refusals::proofs::Laws::handed_on, renaming::proofs::RefusalLaws::answered_refused, renaming::proofs::RefusalLaws::answered_next, crate::proofs::IssueLaws::has_entry))]
pub fn issue_within(core: &mut Core, data: &[u8], position: usize) -> Result<(), Refusal>
    requires { core.old.count ≤ most_entries }
    ensures { answer core.new result ≡ Issue.issue_within «data».now position core.old }
{
    check(core, position)?;
    issue(core, data, position);
    Ok(())
}
