// The logical registers that an instruction reads and writes, 0 for none.
ghost use Rattle.std.specs.Prelude.{◌≡◌};
ghost use Rattle.reference.specs.Step.{used, first_source, second_source, destination};

use isa::Instruction;

// the register in a field, none for FENCE, which has its fields and uses none
#[tactic(auto, unfolding(crate::specs::Step::used))]
fn used(i: Instruction, register: u8) -> u8
    ensures { result ≡ used i register }
{
    if i.operation == isa::FENCE {
        0
    } else {
        register
    }
}

// Inner: the step and decode use it.
pub fn first_source(i: Instruction) -> u8
    ensures { result ≡ first_source i }
{
    used(i, i.rs1)
}

// Inner: the step and decode use it.
pub fn second_source(i: Instruction) -> u8
    ensures { result ≡ second_source i }
{
    used(i, i.rs2)
}

// Inner: the step and decode use it.
pub fn destination_of(i: Instruction) -> u8
    ensures { result ≡ destination i }
{
    used(i, i.rd)
}
