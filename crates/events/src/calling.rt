ghost use Rattle.std.specs.Prelude.{◌≡◌};
ghost use Rattle.events.specs.Counts.{call_by};

use formats::{Kind, Record};
use window::Call;

// The call of an event, by its kind. The kinds of a schedule are checked before any event, so that none is unknown. Inner:
// replay's loop uses it.
#[tactic(auto, unfolding(crate::specs::Counts::call_by))]
pub fn call_of(r: Record) -> Call
    ensures { result ≡ call_by r }
{
    match Kind::try_from(r.kind) {
        Ok(Kind::Decode) => Call::Decode(r.guess),
        Ok(Kind::Issue) => Call::Issue(r.position as usize),
        Ok(Kind::Complete) => Call::Complete(r.position as usize),
        Ok(Kind::Commit) | Err(_) => Call::Commit,
    }
}
