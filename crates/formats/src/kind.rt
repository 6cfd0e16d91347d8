// The kinds of events.

ghost use Rattle.formats.specs.Kind.{KindIs};

use refusals::Refusal;

// One variant for each kind, with document 01's number.
#[derive(Clone, Copy, Debug, PartialEq, Eq)]
pub enum Kind {
    Decode = 1,
    Issue = 2,
    Complete = 3,
    Commit = 4,
}

// A record's number as a kind, or refusal 24.
impl TryFrom<u8> for Kind {
    type Error = Refusal;

    ghost try_from_gives = { KindIs };

    fn try_from(number: u8) -> Result<Kind, Refusal> {
        match number {
            1 => Ok(Kind::Decode),
            2 => Ok(Kind::Issue),
            3 => Ok(Kind::Complete),
            4 => Ok(Kind::Commit),
            _ => Err(Refusal::UnknownKind),
        }
    }
}
