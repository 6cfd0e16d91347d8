ghost use Rattle.std.specs.Prelude.{◌≡◌, true, length};
ghost use Rattle.refusals.specs.Numbers.{number_of};
ghost use Rattle.formats.specs.Schedule.{schedule_fits};
ghost use Rattle.formats.specs.Chain as Chain;

use crate::{Kind, Record, schedule};
use refusals::Refusal;

const MOST_RECORDS: usize = schedule::LONGEST / schedule::RECORD_LENGTH;

// refusal 24 for the kind, 25 for a field that must be zero
fn check_record(r: Record) -> Result<(), Refusal>
    ensures { number_of result ≡ Chain.record_refusal r }
{
    let unwanted = match Kind::try_from(r.kind)? {
        Kind::Decode => r.position != 0,
        Kind::Issue | Kind::Complete => r.guess != 0,
        Kind::Commit => (r.position != 0) | (r.guess != 0),
    };
    if unwanted {
        return Err(Refusal::FieldNotZero);
    }
    Ok(())
}

// The first refusal along the chain, 22 to 25. A record met is marked, so that one reached twice is seen: in an array, since
// there is no heap, and no schedule has more than MOST_RECORDS. No chain has more turns than records. Inner: replay uses it.
pub fn check_chain(schedule: &[u8]) -> Result<(), Refusal>
    requires { schedule_fits (length schedule.now) ≡ true }
    ensures { number_of result ≡ Chain.schedule_refusal schedule.now }
{
    let records = schedule.len() / schedule::RECORD_LENGTH;
    let mut met = [false; MOST_RECORDS];
    let mut index = schedule::first_index(schedule) as usize;
    for _ in 0..records {
        if index == 0 {
            return Ok(());
        }
        if records <= index {
            return Err(Refusal::NextBeyondFile);
        }
        if met[index] {
            return Err(Refusal::RecordReachedTwice);
        }
        let r = schedule::record_at(schedule, index);
        check_record(r)?;
        met[index] = true;
        index = r.next as usize;
    }
    Ok(())
}
