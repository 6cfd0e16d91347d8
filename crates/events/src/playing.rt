// All the events of a schedule, one after the other, on a machine in place.
ghost use Rattle.std.specs.Prelude.{◌≡◌};
ghost use Rattle.renaming.specs.Call.{lent_refusal};
ghost use Rattle.events.specs.Counts.{played};
ghost use Rattle.events.specs.Numbers.{Small, played_by};
ghost use Rattle.events.specs.Play as Play;

use crate::{Counts, call_of};
use formats::Record;
use renaming::Core;
use window::making;

// One event: its call is made, and counted.
fn make_event(core: &mut Core, counts: &mut Counts, program: &[u8], data: &mut [u8], r: Record)
    requires lent { lent_refusal core.old program.now «data».old ≡ 0 }
    requires small { Small 100_000_000 counts.old }
    ensures { played_by core.new «data».new counts.new ≡ played program.now r (played_by core.old «data».old counts.old) }
{
    let call = call_of(r);
    let entries = core.count;
    match making::make_within(core, call, program, data) {
        Ok(stole) => counts.accept(call, entries, stole, core),
        Err(_) => counts.refuse(),
    }
}

// Makes every event of a schedule on the machine of its set-up, and counts them. No iterator of records for this and for
// `formats::check_chain`: the check marks records and ends at the first refusal, and this walk does neither. Inner: `bench`
// calls it.
pub fn play(core: &mut Core, program: &[u8], data: &mut [u8], schedule: &[u8]) -> Counts
    requires { Play.Ready core.old program.now «data».old schedule.now }
    ensures { played_by core.new «data».new result ≡ Play.played_of program.now «data».old schedule.now }
{
    let mut counts = Counts::default();
    let mut index = formats::first_index(schedule) as usize;
    // no chain has more events than there are records
    for _turn in 0..schedule.len() / formats::RECORD_LENGTH {
        if index == 0 {
            break;
        }
        let r = formats::record_at(schedule, index);
        make_event(core, &mut counts, program, data, r);
        index = r.next as usize;
    }
    counts
}
