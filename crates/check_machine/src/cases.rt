// What is tried, and what is expected of it.

// Refused by 5 for a number out of range; or to pass, with numbers in range, or with one that 5 does not look at.
#[derive(Clone, Copy)]
pub enum Expected {
    Refused,
    InRange,
    Ignored,
}

impl Expected {
    pub fn refused_if(out_of_range: bool) -> Expected {
        if out_of_range {
            Expected::Refused
        } else {
            Expected::InRange
        }
    }
}

// A number, an instruction or an entry, and what is expected of a machine that holds it.
#[derive(Clone, Copy)]
pub struct Case<T> {
    pub value: T,
    pub expected: Expected,
}

impl<T> Case<T> {
    pub fn refused_if(out_of_range: bool, value: T) -> Case<T> {
        Case {
            value,
            expected: Expected::refused_if(out_of_range),
        }
    }

    // The same expected of what is made of the value.
    pub fn map<U, F: FnOnce(T) -> U>(self, make: F) -> Case<U>
        requires { F.IsAlwaysCallable make }
    {
        let Case { value, expected } = self;
        Case {
            value: make(value),
            expected,
        }
    }
}
