ghost use Rattle.std.specs.Prelude.{◌≡◌};
ghost use Rattle.tables.specs.GeneralMap.{shown, operand_in, mapped, learned};

use crate::{GeneralMap, Mapping, Operand, table};

impl GeneralMap {
    // What it holds for a logical register; x0 has no name. Inner: the calls use it.
    pub fn shown(&self, logical: u8) -> Mapping
        ensures { result ≡ shown self.now logical }
    {
        table::look_under(Mapping::default(), &self.mappings, logical)
    }

    // What an instruction that reads the logical register gets: zero for x0, ready if valid. Inner: decode uses it.
    pub fn operand(&self, logical: u8) -> Operand
        ensures { result ≡ operand_in self.now logical }
    {
        let shown = self.shown(logical);
        if logical == 0 {
            Operand::Zero
        } else if shown.valid {
            Operand::Ready(shown.name, shown.register)
        } else {
            Operand::Waiting(shown.name)
        }
    }

    // Inner: the calls use it.
    pub fn set(&mut self, logical: u8, mapping: Mapping)
        ensures { self.new ≡ mapped logical mapping self.old }
    {
        table::store_under(&mut self.mappings, logical, mapping);
    }

    // A name's register and valid bit, only if it still shows the name. Inner: the calls use it.
    pub fn learn(&mut self, logical: u8, mapping: Mapping)
        ensures { self.new ≡ learned logical mapping self.old }
    {
        if self.shown(logical).name == mapping.name {
            self.set(logical, mapping);
        }
    }
}
