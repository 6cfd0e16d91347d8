ghost use Rattle.std.specs.Prelude.{◌≡◌};
ghost use Rattle.std.specs.Result.{IfOk};
ghost use Rattle.refusals.specs.Numbers.{number_of};
ghost use Rattle.renaming.specs.SetUp.{fresh_machine};
ghost use Rattle.events.specs.Play.{Ready, played_of};
ghost use Rattle.bench.specs.Replay as Replay;

use crate::Replayed;
use reference::lengths;
use refusals::Refusal;
use renaming::{Core, Dimensions, Setup};
use window::Machine;

// The sizes of the set-up; or the first refusal, before any event. No machine yet: it takes 3 KB, and a refusal needs none.
#[tactic(auto, unfolding(crate::specs::Replay::replay_refusal, reference::specs::Step::first), using(refusals::proofs::Laws::handed_on))]
fn begun(program: &[u8], data: &[u8], schedule: &[u8], size: usize) -> Result<Setup, Refusal>
    ensures number { number_of result ≡ Replay.replay_refusal program.now «data».now schedule.now size }
    ensures ready { IfOk result (λ setup. Ready (fresh_machine setup) program.now «data».now schedule.now) }
{
    lengths::check_lent(program, data)?;
    if size != formats::RESULT_LENGTH {
        return Err(Refusal::ResultLength);
    }
    formats::check_head(schedule)?;
    let setup = Setup::try_from(Dimensions {
        window: formats::window_in(schedule) as u32,
        registers: formats::registers_in(schedule) as u32,
        program: program.len(),
        bytes: data.len(),
    })?;
    formats::check_chain(schedule)?;
    Ok(setup)
}

// all events, and what they come to
fn figures(setup: Setup, program: &[u8], data: &mut [u8], schedule: &[u8]) -> Replayed
    requires { Ready (fresh_machine setup) program.now «data».old schedule.now }
    ensures figures { result ≡ Replay.figures_of (played_of program.now «data».old schedule.now) }
    ensures memory { «data».new ≡ (played_of program.now «data».old schedule.now).world.memory }
{
    let mut core = Core::zeros();
    core.begin(setup);
    let counts = events::play(&mut core, program, data, schedule);
    let report = Machine { core }.report();
    // by a name: an array moved straight from field to field gets no proof
    let registers = report.registers;
    Replayed {
        counts,
        // at most 1,000, since calls that were committed were accepted
        rate: formats::rate(counts.committed, counts.accepted) as u32,
        halt: core.halt.cause.into(),
        next: core.next,
        registers,
    }
}

// Makes the events of a schedule on a fresh machine, writes the data as its stores do, and the words to the result; at a
// refusal nothing lent changes.
#[tactic(auto, unfolding(crate::specs::Replay::replay_of))]
pub fn replay(
    program: &[u8],
    data: &mut [u8],
    schedule: &[u8],
    res: &mut [u8],
) -> Result<Replayed, Refusal>
    ensures { Replay.replay_of program.now «data».old schedule.now res.old ≡ record { answer = Replay.answer result; memory = «data».new; result = res.new } }
{
    let setup = begun(program, data, schedule, res.len())?;
    let found = figures(setup, program, data, schedule);
    formats::lay(found.words(), res);
    Ok(found)
}
