ghost use Rattle.std.specs.Prelude.{◌≡◌};
ghost use Rattle.tables.specs.Operand as Operands;

use crate::{Operand, PLACES, table};

impl Operand {
    // Ready with this register where it is on this name. Inner: the calls use it.
    pub fn wake(&mut self, name: u8, register: u8)
        ensures { self.new ≡ Operands.wake name register self.old }
    {
        match *self {
            Operand::Waiting(n) | Operand::Ready(n, _) if n == name => {
                *self = Operand::Ready(n, register);
            }
            _ => {}
        }
    }

    // Waiting again where it is on this name. Inner: the calls use it.
    pub fn sleep(&mut self, name: u8)
        ensures { self.new ≡ Operands.sleep name self.old }
    {
        match *self {
            Operand::Ready(n, _) if n == name => *self = Operand::Waiting(n),
            _ => {}
        }
    }

    // Inner: the calls use it.
    pub fn is_ready(self) -> bool
        ensures { result ≡ Operands.is_ready self }
    {
        !matches!(self, Operand::Waiting(_))
    }

    // The value that it reads. Inner: issue uses it.
    pub fn value_in(self, values: &[u32; PLACES]) -> u32
        ensures { result ≡ Operands.value_of values.now self }
    {
        match self {
            Operand::Zero | Operand::Waiting(_) => 0,
            Operand::Ready(_, register) => table::look_under(0, values, register),
        }
    }
}
