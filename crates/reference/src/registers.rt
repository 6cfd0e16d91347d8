ghost use Rattle.std.specs.Prelude.{◌≡◌};
ghost use Rattle.reference.specs.Step.{read_register, write_register};

// x0 reads 0. Not by the tables' look-up: that crate is a layer above, and its zero is document 01's of tables. Inner: step and
// run use it.
#[tactic(auto, unfolding(crate::specs::Step::read_register))]
pub fn read(registers: &[u32; 32], r: u8) -> u32
    ensures { result ≡ read_register registers.now r }
{
    if r == 0 {
        return 0;
    }
    registers.get(r as usize).copied().unwrap_or(0)
}

// writing x0 does nothing. Inner: step and run use it.
#[tactic(auto, unfolding(crate::specs::Step::write_register))]
pub fn write(registers: &mut [u32; 32], r: u8, value: u32)
    ensures { registers.new ≡ write_register registers.old r value }
{
    if (r != 0) & (r < 32) {
        registers[r as usize] = value;
    }
}
