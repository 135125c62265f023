// A table by name.

use crate::by_number::Numbered;
use indexmap::IndexMap;
use std::alloc::Global;
use std::marker::Model;
use tclv_text::NoMemory;

/// A table by name, where a name is any bytes. A slice finds a name, and that takes no memory.
#[derive(Drop)]
pub struct Names<X> {
    table: IndexMap<Vec<u8>, X>,
}

impl<X> Model for Names<X> {
    ghost use Rattle.std.specs.Coded.{coded_ℕ, coded_list};
    ghost use Rattle.std.specs.FinMap.{code};
    ghost use Rattle.tclv_names.specs.Keyed.{Named, keyed};

    ghost Value = { Named X };

    ghost coded = { code (coded_list coded_ℕ) X.code };

    ghost view = { λ a. keyed (λ k. k.items) a.table.entries };
}

impl<X: Copy> Names<X> {
    ghost use Rattle.std.specs.Prelude.{◌≡◌, ◌<◌, map as mapped, Some, OnOk, OnErr, IfOk, IfSome, IfNone};
    ghost use Rattle.std.specs.FinMap as map;

    /// What the name has, `None` exactly where it isn't there.
    pub fn get(&self, name: &[u8]) -> Option<X>
        ensures value { result ≡ map.get self.now name.now }
    {
        match self.table.get(name) {
            Some(x) => Some(*x),
            None => None,
        }
    }

    /// Takes the name out. Where it isn't there nothing changes.
    pub fn take_out(&mut self, name: &[u8])
        ensures { self.new ≡ map.remove self.old name.now }
    {
        self.table.swap_remove(name);
    }

    /// Takes some entry out, `None` exactly where there is none.
    pub fn pop(&mut self) -> Option<(Vec<u8>, X)>
        ensures entry { IfSome result (λ p. Some p.1 ≡ map.get self.old p.0.items) }
        ensures rest { IfSome result (λ p. self.new ≡ map.remove self.old p.0.items) }
        ensures fewer { IfSome result (λ p. map.len self.new < map.len self.old) }
        ensures empty { IfNone result (self.old ≡ map.empty) }
        ensures left { IfNone result (self.new ≡ map.empty) }
    {
        let Some((name, x)) = self.table.pop() else {
            return None;
        };
        Some((name, x))
    }

    /// The names, in the order of their bytes.
    pub fn names(&self, alloc: Global) -> Result<Vec<Vec<u8>>, NoMemory>
        ensures { IfOk result (λ r. mapped (λ k. k.items) r.items ≡ map.keys self.now) }
    {
        let mut names = Vec::new(alloc);
        for name in self.table.keys() {
            let copy = Vec::from_slice(alloc, name.as_slice())?;
            names.push(copy)?;
        }
        names.sort_unstable();
        Ok(names)
    }
}

impl<X> Names<X> {
    ghost use Rattle.std.specs.Prelude.{◌≡◌, OnOk, OnErr};
    ghost use Rattle.std.specs.FinMap as map;
    ghost use Rattle.std.specs.Option.{option_copied};

    /// A table without names.
    pub fn new(alloc: Global) -> Self
        ensures empty { result ≡ map.empty }
    {
        Names {
            table: IndexMap::new(alloc),
        }
    }

    /// Lends what the name has, `None` exactly where it isn't there.
    pub fn lend(&self, name: &[u8]) -> Option<&X>
        ensures value { option_copied result ≡ map.get self.now name.now }
    {
        self.table.get(name)
    }

    /// Gives the name `x`, in place of what it had, which is dropped. After `NoMemory` the table is as
    /// before.
    pub fn put(&mut self, alloc: Global, name: &[u8], x: X) -> Result<(), NoMemory>
    where
        X: Drop,
        ensures put { OnOk result (self.new ≡ map.insert self.old name.now x) }
        ensures refused { OnErr result (self.new ≡ self.old) }
    {
        let Ok(key) = Vec::from_slice(alloc, name) else {
            return Err(NoMemory);
        };
        let Ok(_) = self.table.insert(key, x) else {
            return Err(NoMemory);
        };
        Ok(())
    }
}

impl Names<u64> {
    ghost use Rattle.std.specs.Prelude.{◌≡◌, length, is_some};
    ghost use Rattle.std.specs.List.{filter};
    ghost use Rattle.std.specs.FinMap as map;
    ghost use Rattle.tclv_names.specs.Keyed.{values_of};

    /// How many of the names have a number that stands in the table. Takes no memory.
    pub fn count_in<Y>(&self, table: &Numbered<Y>) -> usize
        ensures { result ≡ length (filter (λ n. is_some (map.get table.now.map n)) (values_of self.now)) }
    {
        let mut count = 0usize;
        for (_, number) in self.table.iter() {
            if table.get(*number).is_some() {
                count += 1;
            }
        }
        count
    }
}
