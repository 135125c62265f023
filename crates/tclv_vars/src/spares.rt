// Name tables that are kept for the frames to come.

use crate::parts::Slot;
use std::alloc::Global;
use std::marker::Model;
use tclv_names::Names;
use tclv_text::NoMemory;

/// Name tables without names, of frames that ended. Contracts see how many there are.
#[derive(Drop)]
pub struct Spares {
    tables: Vec<Names<Slot>>,
}

impl Model for Spares {
    ghost use Rattle.std.specs.Prelude.{◌≡◌, ℕ, length};
    ghost use Rattle.std.specs.FinMap as map;
    ghost use Rattle.std.specs.List.{All};

    ghost Value = { ℕ };

    ghost view = { λ a. length a.tables.items };

    ghost invariant = { λ a. All (λ names. names ≡ map.empty) a.tables.items };
}

impl Spares {
    ghost use Rattle.std.specs.Prelude.{◌≡◌, ◌-◌};
    ghost use Rattle.std.specs.FinMap as map;

    /// No table.
    pub fn new(alloc: Global) -> Spares
        ensures none { result ≡ 0 }
    {
        Spares {
            tables: Vec::new(alloc),
        }
    }

    /// Makes room for `more` tables. Those that are there stay.
    pub fn reserve(&mut self, more: usize) -> Result<(), NoMemory>
        ensures same { self.new ≡ self.old }
    {
        let Ok(()) = self.tables.reserve(more) else {
            return Err(NoMemory);
        };
        Ok(())
    }

    /// A table without names: one that was kept, or else a new one. Takes no memory.
    pub fn take(&mut self, alloc: Global) -> Names<Slot>
        ensures empty { result ≡ map.empty }
        ensures fewer { self.new ≡ self.old - 1 }
    {
        match self.tables.pop() {
            Some(names) => names,
            None => Names::new(alloc),
        }
    }

    /// Keeps a table without names, where there is room for it. Takes no memory.
    pub fn keep(&mut self, names: Names<Slot>)
        requires empty { names ≡ map.empty }
    {
        if self.tables.len() < self.tables.capacity() {
            let Ok(()) = self.tables.push(names) else {
                unreachable!()
            };
        }
    }
}
