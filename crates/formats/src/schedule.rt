ghost use Rattle.std.specs.Prelude.{◌≡◌, ◌+◌, ◌*◌, ◌≤◌, length};
ghost use Rattle.refusals.specs.Numbers.{number_of};
ghost use Rattle.word.specs.Bytes.{byte_of};
ghost use Rattle.formats.specs.Schedule as Schedule;

use crate::Record;
use refusals::Refusal;

pub const RECORD_LENGTH: usize = 8;

pub const LONGEST: usize = 65_536;

// The record at an index; replay calls it once an event. By `load`: tried by index and `from_le_bytes`, of the schedule and of
// a slice of it, and an event takes 1.1 ns more both times (25.1 for 24.0 at W 1). Inner: replay uses it.
#[tactic(auto, unfolding(crate::specs::Schedule::record_at))]
pub fn record_at(schedule: &[u8], index: usize) -> Record
    requires { Schedule.record_length * index + Schedule.record_length ≤ length schedule.now }
    ensures { result ≡ Schedule.record_at schedule.now index }
{
    let at = RECORD_LENGTH * index;
    Record {
        kind: word::load(schedule, at, 1) as u8,
        position: word::load(schedule, at + 1, 1) as u8,
        next: word::load(schedule, at + 2, 2) as u16,
        guess: word::load(schedule, at + 4, 4),
    }
}

// refusal 20 for the length, 21 for record 0. Inner: replay uses it.
#[tactic(auto, unfolding(crate::specs::Schedule::head_refusal, reference::specs::Step::first, word::specs::Bytes::number))]
pub fn check_head(schedule: &[u8]) -> Result<(), Refusal>
    ensures { number_of result ≡ Schedule.head_refusal schedule.now }
{
    let bytes = schedule.len();
    let fits = (1 <= bytes) & (bytes <= LONGEST) & (bytes % RECORD_LENGTH == 0);
    if !fits {
        return Err(Refusal::ScheduleLength);
    }
    let kind = schedule[0];
    let zeros = u32::from_le_bytes([schedule[5], schedule[6], schedule[7], 0]);
    let formed = (kind == 0) & (zeros == 0);
    if !formed {
        return Err(Refusal::FirstRecord);
    }
    Ok(())
}

// a byte of record 0, 0 where the schedule has none
fn byte(schedule: &[u8], at: usize) -> u8
    ensures { result ≡ byte_of schedule.now at }
{
    schedule.get(at).copied().unwrap_or(0)
}

// W, out of record 0; each of its parts has a function and none needs a struct, since the chain reads the first index and
// set-up the other two. Inner: replay uses it.
#[tactic(auto, unfolding(word::specs::Bytes::number))]
pub fn window_in(schedule: &[u8]) -> u8
    ensures { result ≡ Schedule.window_in schedule.now }
{
    byte(schedule, 1)
}

// N, out of record 0. Inner: replay uses it.
#[tactic(auto, unfolding(word::specs::Bytes::number))]
pub fn registers_in(schedule: &[u8]) -> u8
    ensures { result ≡ Schedule.registers_in schedule.now }
{
    byte(schedule, 4)
}

// where the chain starts, 0 where there is none. Inner: replay uses it.
#[tactic(auto, unfolding(word::specs::Bytes::number))]
pub fn first_index(schedule: &[u8]) -> u16
    ensures { result ≡ Schedule.first_index schedule.now }
{
    u16::from_le_bytes([byte(schedule, 2), byte(schedule, 3)])
}
