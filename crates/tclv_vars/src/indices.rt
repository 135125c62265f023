// The indices of arrays.

use crate::faults::VarFault;
use crate::parts::Content;
use crate::places::Place;
use crate::tables::Tables;
use std::alloc::Global;
use std::marker::Model;
use tclv_names::Names;
use tclv_text::{NoMemory, Text};

/// The indices of an array, each once and sorted by code points: a list of texts.
#[derive(Drop)]
pub struct Indices {
    texts: Vec<Text>,
}

impl Model for Indices {
    ghost use Rattle.std.specs.Prelude.{ℕ, List};

    ghost Value = { List (List ℕ) };

    ghost view = { λ a. a.texts.items };
}

impl Indices {
    ghost use Rattle.std.specs.Prelude.{◌≡◌};

    /// Lends them in order.
    pub fn as_slice(&self) -> &[Text]
        ensures { result.now ≡ self.now }
    {
        self.texts.as_slice()
    }

    /// Gives them in order.
    pub fn into_texts(self) -> Vec<Text>
        ensures { result.items ≡ self }
    {
        let Indices { texts } = self;
        texts
    }
}

impl Tables {
    ghost use Rattle.std.specs.Prelude.{◌≡◌, length, IsTrue, IfOk};
    ghost use Rattle.tclv_text.specs.Texts.{IsText};
    ghost use Rattle.tclv_names.specs.Keyed.{Text as Name};
    ghost use Rattle.tclv_vars.specs.Sound.{Sound};
    ghost use Rattle.tclv_vars.specs.Table.{table_of};
    ghost use Rattle.tclv_vars.specs.Indices.{is_set, names_of, array_names, count_of, Lists};

    // How many of these elements are set.
    fn count_set(&self, elements: &Names<u64>) -> usize
        ensures { result ≡ length (names_of self.now.cells.map elements.now) }
    {
        elements.count_in(&self.cells)
    }

    /// How many indices an array has. The faults are those of `Vars::array_size`.
    pub fn array_size(&self, at: Place, name: &[u8]) -> Result<usize, VarFault>
        ensures { result ≡ count_of (array_names (table_of self.now) at name.now) }
    {
        let home = self.scopes.home(at);
        match self.scopes.slot(home, name) {
            None => Err(VarFault::NoVariable),
            Some(slot) => match self.cells.get(slot.cell) {
                None => Err(VarFault::NoVariable),
                Some(Content::Plain) => Err(VarFault::NotArray),
                Some(Content::Array(elements)) => Ok(self.count_set(elements)),
            },
        }
    }

    // Whether the index is that of an element that is set.
    fn is_set(&self, elements: &Names<u64>, index: &[u8]) -> bool
        ensures { result ≡ is_set self.now.cells.map elements.now index.now }
    {
        match elements.get(index) {
            Some(cell) => self.cells.get(cell).is_some(),
            None => false,
        }
    }

    // The indices of these elements that are set.
    fn names_of(&self, alloc: Global, elements: &Names<u64>) -> Result<Indices, NoMemory>
        requires texts { (i : Name) → IsTrue (is_set self.now.cells.map elements.now i) → IsText i }
        ensures { IfOk result (λ r. r ≡ names_of self.now.cells.map elements.now) }
    {
        let names = elements.names(alloc)?;
        let mut texts = Vec::new(alloc);
        for name in names {
            if self.is_set(elements, name.as_slice()) {
                texts.push(Text::new(name))?;
            }
        }
        Ok(Indices { texts })
    }

    /// The indices of an array. The faults are those of `Vars::array_names`.
    pub fn array_names(&self, alloc: Global, at: Place, name: &[u8]) -> Result<Indices, VarFault>
        requires sound { Sound (table_of self.now) }
        ensures { Lists (array_names (table_of self.now) at name.now) result }
    {
        let home = self.scopes.home(at);
        match self.scopes.slot(home, name) {
            None => Err(VarFault::NoVariable),
            Some(slot) => match self.cells.get(slot.cell) {
                None => Err(VarFault::NoVariable),
                Some(Content::Plain) => Err(VarFault::NotArray),
                Some(Content::Array(elements)) => Ok(self.names_of(alloc, elements)?),
            },
        }
    }
}
