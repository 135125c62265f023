// Variables that are set are found, and unset.

use crate::clearing::clear;
use crate::faults::VarFault;
use crate::parts::Content;
use crate::places::Place;
use crate::tables::Tables;
use tclv_value::Store;

impl Tables {
    ghost use Rattle.std.specs.Prelude.{◌≡◌};
    ghost use Rattle.std.specs.Option.{option_copied};
    ghost use Rattle.std.specs.FinMap as map;
    ghost use Rattle.tclv_value.specs.View.{KeepsMade};
    ghost use Rattle.tclv_vars.specs.Table.{table_of};
    ghost use Rattle.tclv_vars.specs.Unset.{held_at, held_element, variable, is_held, unset, left_unset};

    // The cell, where it holds something.
    fn held_at(&self, missing: VarFault, cell: u64) -> Result<u64, VarFault>
        ensures { result ≡ held_at missing (map.get self.now.cells.map cell) cell }
    {
        match self.cells.get(cell) {
            None => Err(missing),
            Some(_) => Ok(cell),
        }
    }

    fn held_element(&self, cell: u64, index: &[u8]) -> Result<u64, VarFault>
        ensures { result ≡ held_element self.now.cells.map (map.get self.now.cells.map cell) index.now }
    {
        match self.cells.get(cell) {
            None => Err(VarFault::NoVariable),
            Some(Content::Plain) => Err(VarFault::NotArray),
            Some(Content::Array(elements)) => match elements.get(index) {
                Some(element) => self.held_at(VarFault::NoElement, element),
                None => Err(VarFault::NoElement),
            },
        }
    }

    // The cell of a variable or of an element that is set. The faults are those of `Vars::unset`.
    fn variable(&self, at: Place, name: &[u8], index: Option<&[u8]>) -> Result<u64, VarFault>
        ensures { result ≡ variable (table_of self.now) at name.now (option_copied index.entry) }
    {
        let home = self.scopes.home(at);
        match self.scopes.slot(home, name) {
            None => Err(VarFault::NoVariable),
            Some(slot) => match index {
                None => self.held_at(VarFault::NoVariable, slot.cell),
                Some(i) => self.held_element(slot.cell, i),
            },
        }
    }

    /// Empties the cell of a variable or of an element that is set. The faults are those of
    /// `Vars::unset`, and after each all is as before.
    pub fn unset(
        &mut self,
        store: &mut Store,
        at: Place,
        name: &[u8],
        index: Option<&[u8]>,
    ) -> Result<(), VarFault>
        ensures answer { result ≡ is_held (variable (table_of self.old) at name.now (option_copied index.entry)) }
        ensures unset { table_of self.new ≡ unset (table_of self.old) at name.now (option_copied index.entry) }
        ensures texts { store.new.cells ≡ left_unset store.old.cells (table_of self.old) at name.now (option_copied index.entry) }
        ensures stack { store.new.stack ≡ store.old.stack }
        ensures keeps { KeepsMade store.old store.new }
    {
        match self.variable(at, name, index) {
            Ok(cell) => {
                clear(&mut self.cells, store, cell);
                Ok(())
            }
            Err(fault) => Err(fault),
        }
    }
}
