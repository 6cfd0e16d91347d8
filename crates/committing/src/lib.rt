// Commit: the oldest entry leaves the window.
#![tactic(auto)]

ghost use Rattle.std.specs.Prelude.{◌≡◌, ◌≤◌, ◌<◌};
ghost use Rattle.renaming.specs.Answer.{answer};
ghost use Rattle.renaming.specs.Setters.{with_entries};
ghost use Rattle.committing.specs.Commit as Commit;
ghost use Rattle.ranges.specs.Sizes.{most_entries};

use execution::Stop;
use refusals::Refusal;
use renaming::Core;
use tables::{Entry, State, table};

// all entries one place down
fn move_down(core: &mut Core)
    requires some { 0 < core.old.count }
    requires few { core.old.count ≤ most_entries }
    ensures { core.new ≡ with_entries (Commit.move_down core.old.count core.old.entries) core.old }
{
    let count = core.count as usize;
    core.entries.copy_within(1..count, 0);
    core.entries[count - 1] = Entry::default();
}

// the oldest entry leaves: the previous name and its register are free
#[tactic(auto, unfolding(crate::specs::Commit::retired))]
fn retire(core: &mut Core)
    requires some { 0 < core.old.count }
    requires few { core.old.count ≤ most_entries }
    ensures { core.new ≡ Commit.retired core.old }
{
    let e = core.entries[0];
    move_down(core);
    core.count -= 1;
    let register = table::look_under(0, &core.physical, e.previous);
    core.free_registers.free(register);
    core.free_names.free(e.previous);
    table::store_under(&mut core.physical, e.previous, 0);
    core.next = e.predicted;
}

// every entry leaves, and the machine halts
#[tactic(auto, unfolding(crate::specs::Commit::halted_by))]
fn stop_with(core: &mut Core, stop: Stop)
    requires { core.old.count ≤ most_entries }
    ensures { core.new ≡ Commit.stopped_with stop core.old }
{
    core.drop_to(0);
    core.halt = stop;
}

// Commit, where 5 and 6 do not apply. Inner: `window` uses it.
#[tactic(auto, unfolding(crate::specs::Commit::commit_within, crate::specs::Commit::commit_refusal, renaming::specs::Call::entry_refusal))]
pub fn commit_within(core: &mut Core, data: &mut [u8]) -> Result<(), Refusal>
    requires { core.old.count ≤ most_entries }
    ensures { Commit.commit_within «data».old core.old ≡ record { answer = answer core.new result; memory = «data».new } }
{
    core.check_entry(0, State::Completed)?;
    let e = core.entries[0];
    if e.stop != Stop::NONE {
        stop_with(core, e.stop);
    } else {
        execution::store(e.instruction, data, e.first, e.second);
        retire(core);
    }
    Ok(())
}
