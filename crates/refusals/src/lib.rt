// The numbered refusals: why a call, a step, a set-up, a schedule or an encoding is not made.
#![tactic(auto)]

ghost use Rattle.std.specs.Prelude.{◌≡◌};
ghost use Rattle.refusals.specs.Numbers.{number, number_of as number_in};

// One variant for each refusal, with document 01's number.
#[derive(Clone, Copy, Debug, PartialEq, Eq)]
pub enum Refusal {
    WindowSize = 1,
    RegisterCount = 2,
    ProgramLength = 3,
    DataLength = 4,
    // a number in the machine is out of range
    OutOfRange = 5,
    // a lent length differs from set-up
    LentLength = 6,
    Halted = 10,
    WindowFull = 11,
    NoEntry = 12,
    WrongState = 13,
    OperandNotReady = 14,
    OlderStore = 15,
    NoRegister = 16,
    ScheduleLength = 20,
    FirstRecord = 21,
    NextBeyondFile = 22,
    RecordReachedTwice = 23,
    UnknownKind = 24,
    FieldNotZero = 25,
    ResultLength = 26,
    // the encoder's: a number or field out of range
    Encoding = 30,
}

impl From<Refusal> for u8 {
    ghost from_gives = { λ refusal n. n ≡ number refusal };

    fn from(refusal: Refusal) -> u8 {
        refusal as u8
    }
}

// as C takes it: `From` names its target, so each width has its own
impl From<Refusal> for u32 {
    ghost from_gives = { λ refusal n. n ≡ number refusal };

    fn from(refusal: Refusal) -> u32 {
        refusal as u32
    }
}

// 0 for what is accepted, else the refusal's number. Inner: `window` and the functions for C use it.
pub fn number_of<T>(outcome: &Result<T, Refusal>) -> u8
    ensures { result ≡ number_in outcome.now }
{
    match outcome {
        Ok(_) => 0,
        Err(refusal) => (*refusal).into(),
    }
}
