// Links: second names of variables.

use crate::faults::VarFault;
use crate::parts::Slot;
use crate::places::{Home, Place, Root};
use crate::tables::Tables;

impl Tables {
    ghost use Rattle.std.specs.Prelude.{◌≡◌, ◌≤◌};
    ghost use Rattle.std.specs.Option.{option_copied};
    ghost use Rattle.tclv_vars.specs.Scoping.{slot_of};
    ghost use Rattle.tclv_vars.specs.Sound.{Sound};
    ghost use Rattle.tclv_vars.specs.Table.{table_of, locate};
    ghost use Rattle.tclv_vars.specs.Links.{root_home, is_variable, link_to, linked, Leaves};

    // Where the other name of a link stands.
    fn root_home(&self, root: Root) -> Result<Home, VarFault>
        ensures { result ≡ root_home self.now.scopes root }
    {
        match root {
            Root::Space(space) => Ok(Home::Of(space)),
            Root::Level(level) => {
                let here = self.scopes.level();
                if here < level {
                    return Err(VarFault::NoLevel);
                }
                let frame = self.scopes.above(here - level);
                Ok(self.scopes.home_of(frame))
            }
        }
    }

    // Whether the name there is a variable that is no link.
    fn is_variable(&self, home: Home, name: &[u8]) -> bool
        ensures { result ≡ is_variable self.now.cells.map (slot_of self.now.scopes home name.now) }
    {
        match self.scopes.slot(home, name) {
            None => false,
            Some(slot) => slot.own && self.cells.get(slot.cell).is_some(),
        }
    }

    // The local name there becomes a second name of the other's cell, which is made where there is none.
    fn link_names(
        &mut self,
        here: Home,
        local: &[u8],
        other: Home,
        name: &[u8],
        index: Option<&[u8]>,
    ) -> Result<(), VarFault>
        requires room { 1 ≤ self.old.cells.room }
        requires sound { Sound (table_of self.old) }
        ensures { Leaves (link_to here local.now (locate (table_of self.old) other name.now (option_copied index.entry)))
            (table_of self.old) result (table_of self.new) }
    {
        let lacked = self.missing_in(other, name, index);
        let (cell, fresh) = self.locate(other, name, index)?;
        match self.scopes.put(here, local, Slot { cell, own: false }) {
            Ok(()) => Ok(()),
            Err(_) => {
                if fresh {
                    self.take_back_in(other, name, index, lacked);
                }
                Err(VarFault::NoMemory)
            }
        }
    }

    /// Makes the local name a link. The faults are those of `Vars::link`, and after each all is as
    /// before.
    pub fn link(
        &mut self,
        local: &[u8],
        root: Root,
        name: &[u8],
        index: Option<&[u8]>,
    ) -> Result<(), VarFault>
        requires sound { Sound (table_of self.old) }
        ensures { Leaves (linked (table_of self.old) local.now root name.now (option_copied index.entry)) (table_of self.old) result (table_of self.new) }
    {
        self.cells.reserve(1)?;
        let other = self.root_home(root)?;
        let here = self.scopes.home(Place::Frame);
        if self.is_variable(here, local) {
            return Err(VarFault::LinkExists);
        }
        self.link_names(here, local, other, name, index)
    }
}
