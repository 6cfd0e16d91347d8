// Complete: an entry gets its result and a register, free or stolen.
#![tactic(auto)]

ghost use Rattle.std.specs.Prelude.{◌≡◌, true, false, not, ◌&&◌, ◌≤◌, ◌<◌, IfOk, IfErr};
ghost use Rattle.refusals.specs.Numbers.{number};
ghost use Rattle.renaming.specs.Answer.{answer};
ghost use Rattle.execution.specs.Execute.{outcome};
ghost use Rattle.renaming.specs.Changes.{entry_at};
ghost use Rattle.completing.specs.Complete as Complete;
ghost use Rattle.completing.specs.Complete.{needs_register, none_free};
ghost use Rattle.stealing.specs.Steal.{no_victim};
ghost use Rattle.ranges.specs.Sizes.{most_entries};

use execution::{Cause, Executed};
use refusals::Refusal;
use renaming::Core;
use renaming::changing::Wake;
use tables::{Mapping, State, table};

// what the values read come to
fn execute_at(core: &Core, position: usize) -> Result<Executed, Cause>
    requires inside { position < core.now.count }
    requires few { core.now.count ≤ most_entries }
    ensures { outcome (entry_at core.now position).address result ≡ Complete.outcome_at core.now position }
{
    let e = &core.entries[position];
    execution::execute(
        core.setup.bytes as usize,
        e.instruction,
        e.address,
        e.first,
        e.second,
    )
}

// the free register with which an entry goes on, or the victim's, which is robbed
#[tactic(auto, using(stealing::proofs::StealLaws::victim_within, stealing::proofs::StealLaws::robbed_count))]
fn supply(core: &mut Core, position: usize) -> Result<u8, Refusal>
    requires inside { position < core.old.count }
    requires few { core.old.count ≤ most_entries }
    ensures many { core.new.count ≡ core.old.count }
    ensures supplied { IfOk result (λ register. (none_free core.old && no_victim core.old position ≡ false) × (register ≡ Complete.register_for core.old position) × (core.new ≡ Complete.supplied_for core.old position)) }
    ensures refused { IfErr result (λ refusal. (number refusal ≡ 16) × (none_free core.old && no_victim core.old position ≡ true) × (core.new ≡ core.old)) }
{
    if core.free_registers.head != 0 {
        return Ok(core.free_registers.head);
    }
    let holder = stealing::victim(core, position);
    if holder == position {
        return Err(Refusal::NoRegister);
    }
    let register = core.entries[holder].held(&core.physical);
    stealing::rob(core, holder);
    Ok(register)
}

// the entry is completed with a register, which gets the result
#[tactic(auto, unfolding(crate::specs::Complete::learned))]
fn learn(core: &mut Core, position: usize, register: u8, value: u32)
    requires inside { position < core.old.count }
    requires few { core.old.count ≤ most_entries }
    ensures { core.new ≡ Complete.learned position register value core.old }
{
    let e = core.entries[position];
    core.entries[position].complete(value);
    core.free_registers.take();
    table::store_under(&mut core.values, register, value);
    table::store_under(&mut core.physical, e.name, register);
    let gained = Mapping {
        name: e.name,
        register,
        valid: true,
    };
    core.map.learn(e.destination, gained);
    core.change_all(&Wake {
        name: e.name,
        register,
    });
}

// A destination gets a register for the result; Ok(true) where it was stolen.
#[tactic(auto, using(crate::proofs::CompleteLaws::learned_count))]
fn give(core: &mut Core, position: usize, value: u32) -> Result<bool, Refusal>
    requires inside { position < core.old.count }
    requires few { core.old.count ≤ most_entries }
    ensures many { core.new.count ≡ core.old.count }
    ensures given { IfOk result (λ stole. (Complete.register_refusal position core.old ≡ 0) × (stole ≡ (Complete.has_destination core.old position && none_free core.old)) × (core.new ≡ Complete.registered position value core.old)) }
    ensures refused { IfErr result (λ refusal. (number refusal ≡ Complete.register_refusal position core.old) × (core.new ≡ core.old)) }
{
    if core.entries[position].destination == 0 {
        core.entries[position].complete(0);
        return Ok(false);
    }
    let stole = core.free_registers.head == 0;
    let register = supply(core, position)?;
    learn(core, position, register, value);
    Ok(stole)
}

// where the prediction was wrong, all younger entries are dropped and fetch goes to the actual next address
#[tactic(auto, unfolding(crate::specs::Complete::redirected, crate::specs::Complete::refetched))]
fn redirect(core: &mut Core, position: usize, next: u32)
    requires inside { position < core.old.count }
    requires few { core.old.count ≤ most_entries }
    ensures { core.new ≡ Complete.redirected position next core.old }
{
    if next == core.entries[position].predicted {
        return;
    }
    core.drop_to((position + 1) as u8);
    core.entries[position].predicted = next;
    core.fetch = next;
}

// Complete, where 5 and 6 do not apply; Ok(true) where a register was stolen. Inner: `window` uses it.
pub fn complete_within(core: &mut Core, position: usize) -> Result<bool, Refusal>
    requires { core.old.count ≤ most_entries }
    ensures answer { answer core.new result ≡ Complete.complete_within position core.old }
    ensures stole { IfOk result (λ stole. stole ≡ (needs_register core.old position && none_free core.old)) }
{
    core.check_entry(position, State::Issued)?;
    match execute_at(core, position) {
        Err(cause) => {
            core.entries[position].end(cause.into());
            Ok(false)
        }
        Ok(executed) => {
            let stole = give(core, position, executed.result)?;
            redirect(core, position, executed.next);
            Ok(stole)
        }
    }
}
