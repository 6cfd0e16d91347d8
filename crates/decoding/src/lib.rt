// Decode: an instruction enters the window.
#![tactic(auto)]

mod entering;

ghost use Rattle.std.specs.Prelude.{◌≡◌, ◌<◌, ◌≤◌};
ghost use Rattle.refusals.specs.Numbers.{number_of};
ghost use Rattle.ranges.specs.Sizes.{most_entries};
ghost use Rattle.renaming.specs.Answer.{answer};
ghost use Rattle.decoding.specs.Decode as Decode;

use refusals::Refusal;
use renaming::Core;
use tables::{Entry, Mapping};

// 10 halted; 11 window full
#[tactic(auto, unfolding(crate::specs::Decode::decode_refusal, reference::specs::Step::first))]
fn check(core: &Core) -> Result<(), Refusal>
    ensures { number_of result ≡ Decode.decode_refusal core.now }
{
    if core.is_halted() {
        return Err(Refusal::Halted);
    }
    if core.setup.window <= core.count {
        return Err(Refusal::WindowFull);
    }
    Ok(())
}

// the destination's name is shown, not valid, and taken from the pool
#[tactic(auto, using(crate::proofs::DecodeLaws::renamed_none))]
fn rename(core: &mut Core, destination: u8, name: u8)
    requires { name ≡ Decode.name_for core.old destination }
    ensures { core.new ≡ Decode.renamed destination name core.old }
{
    let renamed = Mapping {
        name,
        register: 0,
        valid: false,
    };
    core.map.set(destination, renamed);
    if destination != 0 {
        core.free_names.take();
    }
}

// the entry enters, and fetch goes where it is predicted to go
#[tactic(auto, unfolding(crate::specs::Decode::enter))]
fn enter(core: &mut Core, e: Entry)
    requires room { core.old.count < most_entries }
    requires name { e.name ≡ Decode.name_for core.old e.destination }
    ensures { core.new ≡ Decode.enter e core.old }
{
    rename(core, e.destination, e.name);
    core.entries[core.count as usize] = e;
    core.count += 1;
    core.fetch = e.predicted;
}

// Decode, where 5 and 6 do not apply. Inner: `window` uses it.
#[tactic(auto, unfolding(crate::specs::Decode::decode_within), using(refusals::proofs::Laws::number_some, refusals::proofs::Laws::handed_on, renaming::proofs::RefusalLaws::answered_refused, renaming::proofs::RefusalLaws::answered_next, crate::proofs::DecodeLaws::has_place))]
pub fn decode_within(core: &mut Core, program: &[u8], guess: u32) -> Result<(), Refusal>
    requires { core.old.setup.window ≤ most_entries }
    ensures { answer core.new result ≡ Decode.decode_within program.now guess core.old }
{
    check(core)?;
    let e = entering::entry_for(core, program, guess);
    enter(core, e);
    Ok(())
}
