// Units: each command takes one, and so does each turn of a loop.
ghost use Rattle.std.specs.Prelude.{◌≡◌, ◌+◌, ◌≤◌, OnOk};
ghost use Rattle.tclv_engine.specs.Answers.{Answers, KeepsStack, IsCalm, returned};
ghost use Rattle.tclv_engine.specs.Units as spec;

use crate::endings::End;
use crate::machine::Machine;

impl<W> Machine<W> {
    /// Takes a unit, or stops where none is left.
    pub fn take_unit(&mut self) -> Result<(), End>
        ensures answer { Answers spec.take_unit returned self.old result self.new }
        ensures stack { KeepsStack self.old.values.store.stack result self.new.values.store.stack }
        ensures calm { IsCalm result }
        ensures units { self.new.units ≤ self.old.units }
        ensures one { OnOk result (self.new.units + 1 ≡ self.old.units) }
        ensures own { self.new.own ≡ self.old.own }
    {
        if self.units == 0 {
            return Err(End::Budget);
        }
        self.units -= 1;
        Ok(())
    }
}
