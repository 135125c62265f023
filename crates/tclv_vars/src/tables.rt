// Names, cells and arrays.

use crate::clearing::clear_names;
use crate::faults::VarFault;
use crate::parts::{Content, Slot};
use crate::places::{Home, Missing, Place};
use crate::scopes::Scopes;
use std::alloc::Global;
use tclv_names::{Names, Numbered};
use tclv_text::NoMemory;
use tclv_value::Store;

#[derive(Drop)]
pub struct Tables {
    pub(crate) alloc: Global,
    pub(crate) scopes: Scopes,
    pub(crate) cells: Numbered<Content>,
    pub(crate) next: u64,
}

impl Tables {
    ghost use Rattle.std.specs.Prelude.{◌≡◌, ◌≤◌, ◌+◌, nat_lt, if◌then◌else◌, Ok, Err, IfOk, OnOk, OnErr};
    ghost use Rattle.std.specs.Option.{option_copied};
    ghost use Rattle.std.specs.FinMap as map;
    ghost use Rattle.tclv_value.specs.View.{KeepsMade};
    ghost use Rattle.tclv_vars.specs.Clearing.{ended, without_names, Apart};
    ghost use Rattle.tclv_vars.specs.Undo.{missing, missing_slot, missing_element, last_dropped, emptied_element, without_index, without_element, emptied_slot, without_array, cells_dropped, undone};
    ghost use Rattle.tclv_vars.specs.declared.faults.VarFault.TheVariants.{NoLevel};
    ghost use Rattle.tclv_vars.specs.Scoping.{home, slot_of, last_names, level_of, at_level, at_frame};
    ghost use Rattle.tclv_vars.specs.Table.{table_of, at_scopes, begun, no_variables, read, plain_at, read_element, locate, locate_element, set_cell, HoldsArray, elements_of, new_name, new_array, new_element, Gives, write};

    /// No variable, and the global frame.
    pub fn new(alloc: Global) -> Result<Tables, NoMemory>
        ensures { IfOk result (λ t. table_of t ≡ no_variables) }
    {
        let scopes = Scopes::new(alloc)?;
        Ok(Tables {
            alloc,
            scopes,
            cells: Numbered::new(alloc),
            next: 0,
        })
    }

    // The cell, where it is set to a value.
    fn plain_at(&self, missing: VarFault, cell: u64) -> Result<u64, VarFault>
        ensures { result ≡ plain_at missing (map.get self.now.cells.map cell) cell }
    {
        match self.cells.get(cell) {
            None => Err(missing),
            Some(Content::Plain) => Ok(cell),
            Some(Content::Array(_)) => Err(VarFault::IsArray),
        }
    }

    fn read_element(&self, cell: u64, index: &[u8]) -> Result<u64, VarFault>
        ensures { result ≡ read_element self.now.cells.map (map.get self.now.cells.map cell) index.now }
    {
        match self.cells.get(cell) {
            None => Err(VarFault::NoVariable),
            Some(Content::Plain) => Err(VarFault::NotArray),
            Some(Content::Array(elements)) => match elements.get(index) {
                Some(element) => self.plain_at(VarFault::NoElement, element),
                None => Err(VarFault::NoElement),
            },
        }
    }

    /// The cell of a variable that is set, or of an element. The faults are those of `Vars::read`.
    pub fn read(&self, at: Place, name: &[u8], index: Option<&[u8]>) -> Result<u64, VarFault>
        ensures { result ≡ read (table_of self.now) at name.now (option_copied index.entry) }
    {
        let home = self.scopes.home(at);
        match self.scopes.slot(home, name) {
            None => Err(VarFault::NoVariable),
            Some(slot) => match index {
                None => self.plain_at(VarFault::NoVariable, slot.cell),
                Some(i) => self.read_element(slot.cell, i),
            },
        }
    }

    // A name that isn't there gets the next cell.
    fn add_name(&mut self, home: Home, name: &[u8]) -> Result<(u64, bool), VarFault>
        ensures named { Gives (Ok (new_name (table_of self.old) home name.now)) (table_of self.old) result (table_of self.new) }
        ensures room { self.new.cells.room ≡ self.old.cells.room }
    {
        let cell = self.next;
        if cell == u64::MAX {
            return Err(VarFault::NoMemory);
        }
        self.scopes.put(home, name, Slot { cell, own: true })?;
        self.next = cell + 1;
        Ok((cell, true))
    }

    // A name that isn't there gets an array with one element.
    fn add_array(&mut self, home: Home, name: &[u8], index: &[u8]) -> Result<(u64, bool), VarFault>
        requires room { 1 ≤ self.old.cells.room }
        ensures named { Gives (Ok (new_array (table_of self.old) home name.now index.now)) (table_of self.old) result (table_of self.new) }
        ensures room { self.old.cells.room ≤ self.new.cells.room + 1 }
    {
        let cell = self.next;
        if cell >= u64::MAX - 1 {
            return Err(VarFault::NoMemory);
        }
        let mut elements = Names::new(self.alloc);
        elements.put(self.alloc, index, cell + 1)?;
        self.scopes.put(home, name, Slot { cell, own: true })?;
        self.cells.put(cell, Content::Array(elements));
        self.next = cell + 2;
        Ok((cell + 1, true))
    }

    // A cell that isn't set gets an array with one element.
    fn begin_array(&mut self, cell: u64, index: &[u8]) -> Result<(u64, bool), VarFault>
        requires room { 1 ≤ self.old.cells.room }
        ensures made { Gives (Ok (new_element (table_of self.old) cell map.empty index.now)) (table_of self.old) result (table_of self.new) }
        ensures room { self.old.cells.room ≤ self.new.cells.room + 1 }
    {
        let element = self.next;
        if element == u64::MAX {
            return Err(VarFault::NoMemory);
        }
        let mut elements = Names::new(self.alloc);
        elements.put(self.alloc, index, element)?;
        self.cells.put(cell, Content::Array(elements));
        self.next = element + 1;
        Ok((element, true))
    }

    // The array in the cell gets one more element.
    fn grow_array(&mut self, cell: u64, index: &[u8]) -> Result<(u64, bool), VarFault>
        requires array { HoldsArray (map.get self.old.cells.map cell) }
        ensures made { Gives (Ok (new_element (table_of self.old) cell (elements_of (map.get self.old.cells.map cell)) index.now))
            (table_of self.old) result (table_of self.new) }
        ensures room { self.new.cells.room ≡ self.old.cells.room }
    {
        let element = self.next;
        if element == u64::MAX {
            return Err(VarFault::NoMemory);
        }
        let Content::Array(mut elements) = self.cells.replace(cell, Content::Plain) else {
            unreachable!()
        };
        let done = elements.put(self.alloc, index, element);
        self.cells.replace(cell, Content::Array(elements));
        let Ok(()) = done else {
            return Err(VarFault::NoMemory);
        };
        self.next = element + 1;
        Ok((element, true))
    }

    // The cell of the element, which is made where there is none.
    fn locate_element(&mut self, cell: u64, index: &[u8]) -> Result<(u64, bool), VarFault>
        requires room { 1 ≤ self.old.cells.room }
        ensures found { Gives (locate_element (table_of self.old) cell (map.get self.old.cells.map cell) index.now) (table_of self.old) result
            (table_of self.new) }
        ensures room { self.old.cells.room ≤ self.new.cells.room + 1 }
    {
        match self.cells.get(cell) {
            None => self.begin_array(cell, index),
            Some(Content::Plain) => Err(VarFault::NotArray),
            Some(Content::Array(elements)) => match elements.get(index) {
                Some(element) => Ok((element, false)),
                None => self.grow_array(cell, index),
            },
        }
    }

    /// The cell of a name and an index, which is made where there is none, and whether it was made.
    pub(crate) fn locate(
        &mut self,
        home: Home,
        name: &[u8],
        index: Option<&[u8]>,
    ) -> Result<(u64, bool), VarFault>
        requires room { 1 ≤ self.old.cells.room }
        ensures found { Gives (locate (table_of self.old) home name.now (option_copied index.entry)) (table_of self.old) result (table_of self.new) }
        ensures room { self.old.cells.room ≤ self.new.cells.room + 1 }
    {
        match self.scopes.slot(home, name) {
            None => match index {
                None => self.add_name(home, name),
                Some(i) => self.add_array(home, name, i),
            },
            Some(slot) => match index {
                None => Ok((slot.cell, false)),
                Some(i) => self.locate_element(slot.cell, i),
            },
        }
    }

    // The cell counts as set.
    fn set(&mut self, cell: u64) -> Result<(u64, bool), VarFault>
        requires room { 1 ≤ self.old.cells.room }
        ensures set { Gives (set_cell (table_of self.old) cell (map.get self.old.cells.map cell)) (table_of self.old) result (table_of self.new) }
    {
        match self.cells.get(cell) {
            None => {
                self.cells.put(cell, Content::Plain);
                Ok((cell, true))
            }
            Some(Content::Plain) => Ok((cell, false)),
            Some(Content::Array(_)) => Err(VarFault::IsArray),
        }
    }

    /// The cell of a variable that is to be set, which is made where there is none. The faults are
    /// those of `Vars::write`, and after each all is as before.
    pub fn write(
        &mut self,
        at: Place,
        name: &[u8],
        index: Option<&[u8]>,
    ) -> Result<(u64, bool), VarFault>
        ensures written { Gives (write (table_of self.old) at name.now (option_copied index.entry)) (table_of self.old) result (table_of self.new) }
    {
        self.cells.reserve(2)?;
        let home = self.scopes.home(at);
        let (cell, fresh) = self.locate(home, name, index)?;
        if fresh {
            self.cells.put(cell, Content::Plain);
            Ok((cell, true))
        } else {
            self.set(cell)
        }
    }

    /// Lends the frames and their names.
    pub fn scopes(&self) -> &Scopes
        ensures { result.now ≡ self.now.scopes }
    {
        &self.scopes
    }

    /// Puts a new frame on the others, which is current then. After `NoMemory` all is as before.
    pub fn push_frame(&mut self, space: u64, local: bool) -> Result<(), NoMemory>
        ensures pushed { OnOk result (table_of self.new ≡ begun (table_of self.old) space local) }
        ensures refused { OnErr result (table_of self.new ≡ table_of self.old) }
    {
        self.scopes.push(space, local)
    }

    /// Ends the last frame, with the cells of its own names. Its caller is current then.
    pub fn pop_frame(&mut self, store: &mut Store)
        requires apart { Apart self.old.cells.map (last_names self.old.scopes) }
        ensures ended { table_of self.new ≡ ended (table_of self.old) }
        ensures texts { store.new.cells ≡ without_names store.old.cells self.old.cells.map (last_names self.old.scopes) }
        ensures stack { store.new.stack ≡ store.old.stack }
        ensures keeps { KeepsMade store.old store.new }
    {
        let mut names = self.scopes.pop_names();
        clear_names(&mut self.cells, store, &mut names);
        self.scopes.keep(names);
    }

    /// Makes the frame of that level current, and gives the number of the one that was. `NoLevel`, and
    /// nothing changes, where the level is above the current one.
    pub fn use_level(&mut self, level: usize) -> Result<usize, VarFault>
        ensures answer { result ≡ (if nat_lt (level_of self.old.scopes self.old.scopes.current) level then Err NoLevel else Ok self.old.scopes.current) }
        ensures current { table_of self.new ≡ at_scopes (table_of self.old) (at_level self.old.scopes level) }
    {
        match self.scopes.use_level(level) {
            Some(before) => Ok(before),
            None => Err(VarFault::NoLevel),
        }
    }

    /// Makes the frame of this number current.
    pub fn use_frame(&mut self, frame: usize)
        ensures { table_of self.new ≡ at_scopes (table_of self.old) (at_frame self.old.scopes frame) }
    {
        self.scopes.use_frame(frame);
    }

    fn missing_element(&self, cell: u64, index: &[u8]) -> Missing
        ensures { result ≡ missing_element (map.get self.now.cells.map cell) index.now }
    {
        match self.cells.get(cell) {
            None => Missing::Array,
            Some(Content::Plain) => Missing::Value,
            Some(Content::Array(elements)) => match elements.get(index) {
                Some(_) => Missing::Value,
                None => Missing::Element,
            },
        }
    }

    /// What of a variable isn't there, so that a write makes it.
    pub fn missing(&self, at: Place, name: &[u8], index: Option<&[u8]>) -> Missing
        ensures { result ≡ missing (table_of self.now) at name.now (option_copied index.entry) }
    {
        self.missing_in(self.scopes.home(at), name, index)
    }

    /// The same of a name that stands there.
    pub(crate) fn missing_in(&self, home: Home, name: &[u8], index: Option<&[u8]>) -> Missing
        ensures { result ≡ missing_slot (table_of self.now) home (slot_of self.now.scopes home name.now) (option_copied index.entry) }
    {
        match self.scopes.slot(home, name) {
            None => {
                if self.scopes.has_names(home) {
                    Missing::Name
                } else {
                    Missing::Names
                }
            }
            Some(slot) => match index {
                None => Missing::Value,
                Some(i) => self.missing_element(slot.cell, i),
            },
        }
    }

    // The cell that was given out last holds nothing, and its number is free.
    fn drop_last(&mut self)
        ensures { table_of self.new ≡ last_dropped (table_of self.old) }
    {
        let cell = self.next.saturating_sub(1);
        self.cells.take_out(cell);
        self.next = cell;
    }

    fn drop_cells(&mut self, index: Option<&[u8]>)
        ensures { table_of self.new ≡ cells_dropped (table_of self.old) (option_copied index.entry) }
    {
        match index {
            None => self.drop_last(),
            Some(_) => {
                self.drop_last();
                self.drop_last();
            }
        }
    }

    fn empty_element(&mut self, cell: u64, index: &[u8])
        ensures { table_of self.new ≡ emptied_element (table_of self.old) (map.get self.old.cells.map cell) index.now }
    {
        match self.cells.get(cell) {
            None => {}
            Some(Content::Plain) => {}
            Some(Content::Array(elements)) => match elements.get(index) {
                Some(element) => {
                    self.cells.take_out(element);
                }
                None => {}
            },
        }
    }

    fn take_value(&mut self, home: Home, name: &[u8], index: Option<&[u8]>)
        ensures { table_of self.new ≡ emptied_slot (table_of self.old) (slot_of self.old.scopes home name.now) (option_copied index.entry) }
    {
        match self.scopes.slot(home, name) {
            None => {}
            Some(slot) => match index {
                None => {
                    self.cells.take_out(slot.cell);
                }
                Some(i) => self.empty_element(slot.cell, i),
            },
        }
    }

    fn cut_array(&mut self, cell: u64, index: &[u8])
        requires array { HoldsArray (map.get self.old.cells.map cell) }
        ensures { table_of self.new ≡ without_index (table_of self.old) cell (map.get self.old.cells.map cell) index.now }
    {
        let Content::Array(mut elements) = self.cells.replace(cell, Content::Plain) else {
            unreachable!()
        };
        elements.take_out(index);
        self.cells.replace(cell, Content::Array(elements));
    }

    fn take_index(&mut self, cell: u64, index: &[u8])
        ensures { table_of self.new ≡ without_index (table_of self.old) cell (map.get self.old.cells.map cell) index.now }
    {
        match self.cells.get(cell) {
            None => {}
            Some(Content::Plain) => {}
            Some(Content::Array(_)) => self.cut_array(cell, index),
        }
    }

    fn take_element(&mut self, home: Home, name: &[u8], index: Option<&[u8]>)
        ensures { table_of self.new ≡ without_element (table_of self.old) (slot_of self.old.scopes home name.now) (option_copied index.entry) }
    {
        match self.scopes.slot(home, name) {
            None => {}
            Some(slot) => match index {
                None => {}
                Some(i) => self.take_index(slot.cell, i),
            },
        }
    }

    fn take_array(&mut self, home: Home, name: &[u8])
        ensures { table_of self.new ≡ without_array (table_of self.old) (slot_of self.old.scopes home name.now) }
    {
        match self.scopes.slot(home, name) {
            None => {}
            Some(slot) => {
                self.cells.take_out(slot.cell);
            }
        }
    }

    /// Takes a write back: what was missing before it is missing again.
    pub fn take_back(&mut self, at: Place, name: &[u8], index: Option<&[u8]>, missing: Missing)
        ensures { table_of self.new ≡ undone missing (table_of self.old) (home self.old.scopes at) name.now (option_copied index.entry) }
    {
        let home = self.scopes.home(at);
        self.take_back_in(home, name, index, missing);
    }

    /// The same of a name that stands there.
    pub(crate) fn take_back_in(
        &mut self,
        home: Home,
        name: &[u8],
        index: Option<&[u8]>,
        missing: Missing,
    )
        ensures { table_of self.new ≡ undone missing (table_of self.old) home name.now (option_copied index.entry) }
    {
        match missing {
            Missing::Value => self.take_value(home, name, index),
            Missing::Element => {
                self.drop_last();
                self.take_element(home, name, index);
            }
            Missing::Array => {
                self.drop_last();
                self.take_array(home, name);
            }
            Missing::Name => {
                self.scopes.take_name(home, name);
                self.drop_cells(index);
            }
            Missing::Names => {
                self.scopes.take_space(home);
                self.drop_cells(index);
            }
        }
    }
}
