// A table by number.

use indexmap::IndexMap;
use std::alloc::Global;
use std::marker::Model;
use std::mem;
use tclv_text::NoMemory;

/// A table by number, which tells how many more entries fit without memory.
#[derive(Drop)]
pub struct Numbered<X> {
    table: IndexMap<u64, X>,
}

impl<X> Model for Numbered<X> {
    ghost use Rattle.indexmap.specs.IndexMap.{spare};
    ghost use Rattle.tclv_names.specs.Keyed.{Roomy, roomy_code, keyed};

    ghost Value = { Roomy X };

    ghost coded = { roomy_code X.code };

    ghost view = { λ a. record { map = keyed (λ k. k) a.table.entries; room = spare a.table } };
}

impl<X> Numbered<X> {
    ghost use Rattle.std.specs.Prelude.{◌≡◌, ◌<◌, ◌≤◌, ◌+◌, OnOk, OnErr, IfOk, Some, IsSome, IfSome};
    ghost use Rattle.std.specs.Option.{option_copied};
    ghost use Rattle.std.specs.FinMap as finite;

    /// A table without numbers.
    pub fn new(alloc: Global) -> Self
        ensures empty { result.map ≡ finite.empty }
    {
        Numbered {
            table: IndexMap::new(alloc),
        }
    }

    /// Makes room for `more` numbers. The entries stay, after `NoMemory` too.
    pub fn reserve(&mut self, more: usize) -> Result<(), NoMemory>
        ensures same { self.new.map ≡ self.old.map }
        ensures room { OnOk result (more ≤ self.new.room) }
    {
        let Ok(()) = self.table.reserve(more) else {
            return Err(NoMemory);
        };
        Ok(())
    }

    /// Lends what the number has, `None` exactly where it isn't there.
    pub fn get(&self, number: u64) -> Option<&X>
        ensures value { option_copied result ≡ finite.get self.now.map number }
    {
        self.table.get(&number)
    }

    /// Gives the number `x`, in place of what it had. There is room, so it takes no memory.
    pub fn put(&mut self, number: u64, x: X)
    where
        X: Drop,
        requires room { 0 < self.old.room }
        ensures put { self.new.map ≡ finite.insert self.old.map number x }
        ensures room { self.old.room ≤ self.new.room + 1 }
    {
        let Ok(_) = self.table.insert(number, x) else {
            unreachable!()
        };
    }

    /// Gives a number that is there `x`, and answers what it had.
    pub fn replace(&mut self, number: u64, x: X) -> X
        requires there { IsSome (finite.get self.old.map number) }
        ensures was { Some result ≡ finite.get self.old.map number }
        ensures put { self.new.map ≡ finite.insert self.old.map number x }
        ensures room { self.new.room ≡ self.old.room }
    {
        let Some(place) = self.table.get_mut(&number) else {
            unreachable!()
        };
        mem::replace(place, x)
    }

    /// Takes the number out, and gives what it had, `None` exactly where it wasn't there.
    pub fn take_out(&mut self, number: u64) -> Option<X>
        ensures value { result ≡ finite.get self.old.map number }
        ensures removed { self.new.map ≡ finite.remove self.old.map number }
        ensures room { self.old.room ≤ self.new.room }
    {
        self.table.swap_remove(&number)
    }
}
