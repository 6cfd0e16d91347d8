ghost use Rattle.std.specs.Prelude.{◌≡◌};
ghost use Rattle.execution.specs.Execute as Execute;

use crate::{Alu, Condition};

// Inner: the step and the calls use it.
pub fn compute(function: Alu, a: u32, b: u32) -> u32
    ensures { result ≡ Execute.compute function a b }
{
    match function {
        Alu::Add => word::add(a, b),
        Alu::Sub => word::sub(a, b),
        Alu::Sll => word::shift_left(a, b % 32),
        Alu::Slt => word::less_signed(a, b) as u32,
        Alu::Sltu => (a < b) as u32,
        Alu::Xor => a ^ b,
        Alu::Srl => word::shift_right(a, b % 32),
        Alu::Sra => word::shift_right_signed(a, b % 32),
        Alu::Or => a | b,
        Alu::And => a & b,
    }
}

// Inner: the step and the calls use it.
pub fn holds(condition: Condition, a: u32, b: u32) -> bool
    ensures { result ≡ Execute.holds condition a b }
{
    match condition {
        Condition::Eq => a == b,
        Condition::Ne => a != b,
        Condition::Lt => word::less_signed(a, b),
        Condition::Ge => !word::less_signed(a, b),
        Condition::Ltu => a < b,
        Condition::Geu => a >= b,
    }
}
