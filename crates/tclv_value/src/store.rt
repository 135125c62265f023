// The store, and its calls.
ghost use Rattle.std.specs.Prelude.{◌≡◌, ◌≢◌, ◌↔◌, ◌-◌, ◌<◌, ◌≤◌, ◌++◌, [], ◌∷◌, length, take, false, Ok, IsTrue, IsSome, IfSome, OnOk, OnErr, IfOk, IfErr, slice_set, slice_index_or};
ghost use Rattle.std.specs.Str.{chars};
ghost use Rattle.std.specs.FinMap as finite;
ghost use Rattle.tclv_text.specs.Texts.{IsText};
ghost use Rattle.tclv_text.specs.Numbers.{whole, whole_text};

mod leftovers;
mod lists;
mod paths;
mod replacing;
mod ways;

use crate::faults::ValueFault;
use crate::forms::{Form, Forms};
use crate::numbers::whole_of;
use crate::places::{At, object_at};
use indexmap::IndexMap;
use std::alloc::Global;
use std::marker::Model;
use tclv_heap::{Heap, ObjId};
use tclv_text::{NoMemory, Stats, Text};

/// A stack of texts and cells with texts.
///
/// A place that is handed in is there: a place of the stack below its height, or a cell that has a
/// text. Texts are lent and taken as UTF-8.
#[derive(Drop)]
pub struct Store {
    alloc: Global,
    heap: Heap<Forms>,
    stack: Vec<ObjId>,
    cells: IndexMap<u64, ObjId>,
}

impl Model for Store {
    ghost use Rattle.tclv_value.specs.View.{View, view_code};

    ghost Value = { View };

    ghost coded = { view_code };

    ghost use Rattle.tclv_value.specs.Places.{view_of, IsPlaced};

    ghost view = { λ s. view_of s.heap.graph s.heap.stats s.stack.items s.cells.entries };

    ghost invariant = { λ s. IsPlaced s.heap.graph s.stack.items s.cells.entries };
}

impl Store {
    ghost use Rattle.tclv_value.specs.declared.places.At.TheVariants.{Stack, Cell};
    ghost use Rattle.tclv_value.specs.View.{HasPlace, text_at, made_at, IsMade, KeepsMade, KeepsMadeBut, StaysMade};
    ghost use Rattle.tclv_value.specs.Answers.{RefusesWhole};
    ghost use Rattle.tclv_value.specs.ListObjects.{KeepsCells};

    /// A store with an empty stack and no cell.
    pub fn new(alloc: Global) -> Store
        ensures stack { result.stack ≡ [] }
        ensures cells { result.cells ≡ finite.empty }
    {
        Store {
            alloc,
            heap: Heap::new(alloc, Forms),
            stack: Vec::new(alloc),
            cells: IndexMap::new(alloc),
        }
    }

    /// Pushes a copy of a text, given as UTF-8. It is made. After `NoMemory` the stack is as before.
    pub fn push_text(&mut self, text: &[u8]) -> Result<(), NoMemory>
        requires { IsText text.now }
        ensures pushed { OnOk result (self.new.stack ≡ self.old.stack ++ chars text.now ∷ []) }
        ensures made { OnOk result (IsMade self.new (Stack (length self.old.stack))) }
        ensures refused { OnErr result (self.new.stack ≡ self.old.stack) }
        ensures cells { self.new.cells ≡ self.old.cells }
        ensures keeps { KeepsMade self.old self.new }
    {
        let bytes = Vec::from_slice(self.alloc, text)?;
        self.stack.reserve(1)?;
        let id = self.heap.make_text_object(Text::new(bytes))?;
        self.stack.push_reserved(id);
        Ok(())
    }

    /// Pushes the decimal text of a number. It is not made yet. After `NoMemory` the stack is as
    /// before.
    pub fn push_whole(&mut self, n: i64) -> Result<(), NoMemory>
        ensures pushed { OnOk result (self.new.stack ≡ self.old.stack ++ whole_text n ∷ []) }
        ensures made { OnOk result (made_at self.new (Stack (length self.old.stack)) ≡ false) }
        ensures refused { OnErr result (self.new.stack ≡ self.old.stack) }
        ensures cells { self.new.cells ≡ self.old.cells }
        ensures keeps { KeepsMade self.old self.new }
    {
        self.stack.reserve(1)?;
        let id = self.heap.make_form_object(Form::Whole(n), 1)?;
        self.stack.push_reserved(id);
        Ok(())
    }

    /// Pushes the text of a place, which is shared and not copied. It is made where that is. After
    /// `NoMemory` the stack is as before.
    pub fn push_copy(&mut self, from: At) -> Result<(), NoMemory>
        requires { HasPlace self.old from }
        ensures pushed { OnOk result (self.new.stack ≡ self.old.stack ++ text_at self.old from ∷ []) }
        ensures made { OnOk result
            (made_at self.new (Stack (length self.old.stack)) ≡ made_at self.old from) }
        ensures refused { OnErr result (self.new.stack ≡ self.old.stack) }
        ensures cells { self.new.cells ≡ self.old.cells }
        ensures keeps { KeepsMade self.old self.new }
    {
        let id = object_at(self.stack.as_slice(), &self.cells, from);
        self.stack.reserve(1)?;
        self.heap.share(id);
        self.stack.push_reserved(id);
        Ok(())
    }

    /// Gives a place of the stack the text of another place, which is shared and not copied. Takes
    /// no memory.
    pub fn copy_over(&mut self, from: At, to: usize)
        requires from { HasPlace self.old from }
        requires to { to < length self.old.stack }
        ensures stack { self.new.stack ≡ slice_set self.old.stack to (text_at self.old from) }
        ensures made { made_at self.new (Stack to) ≡ made_at self.old from }
        ensures cells { self.new.cells ≡ self.old.cells }
        ensures keeps { KeepsMadeBut self.old (Stack to) self.new }
        ensures objects { KeepsCells self.old self.new }
    {
        let copied = object_at(self.stack.as_slice(), &self.cells, from);
        let old = self.stack[to];
        self.heap.share(copied);
        self.stack[to] = copied;
        self.heap.release(old);
    }

    /// What the store takes its memory from.
    pub fn allocator(&self) -> Global {
        self.alloc
    }

    /// How many texts the stack has. Takes no memory.
    pub fn height(&self) -> usize
        ensures { result ≡ length self.now.stack }
    {
        self.stack.len()
    }

    /// Takes texts off the stack, so many as are asked for, which are there. Takes no memory.
    pub fn pop(&mut self, n: usize)
        requires { n ≤ length self.old.stack }
        ensures popped { self.new.stack ≡ take (length self.old.stack - n) self.old.stack }
        ensures cells { self.new.cells ≡ self.old.cells }
        ensures keeps { KeepsMade self.old self.new }
        ensures objects { KeepsCells self.old self.new }
    {
        for _gone in 0..n {
            self.pop_one();
        }
    }

    // Takes the top text off the stack.
    fn pop_one(&mut self)
        requires { 0 < length self.old.stack }
        ensures popped { self.new.stack ≡ take (length self.old.stack - 1) self.old.stack }
        ensures cells { self.new.cells ≡ self.old.cells }
        ensures keeps { KeepsMade self.old self.new }
        ensures objects { KeepsCells self.old self.new }
    {
        if let Some(id) = self.stack.pop() {
            self.heap.release(id);
        }
    }

    /// Moves the top text of the stack into a cell, whose old text goes, if it has one. After
    /// `NoMemory` the stack and the cells are as before.
    pub fn put_cell(&mut self, cell: u64) -> Result<(), NoMemory>
        requires { 0 < length self.old.stack }
        ensures popped { OnOk result
            (self.new.stack ≡ take (length self.old.stack - 1) self.old.stack) }
        ensures put { OnOk result (self.new.cells ≡ finite.insert self.old.cells cell
            (text_at self.old (Stack (length self.old.stack - 1)))) }
        ensures made { OnOk result
            (made_at self.new (Cell cell) ≡ made_at self.old (Stack (length self.old.stack - 1))) }
        ensures refused { OnErr result
            ((self.new.stack ≡ self.old.stack) × (self.new.cells ≡ self.old.cells)) }
        ensures keeps { KeepsMadeBut self.old (Cell cell) self.new }
        ensures refused_keeps { OnErr result (KeepsMade self.old self.new) }
    {
        let top = self.stack[self.stack.len() - 1];
        let old = self.cells.insert(cell, top)?;
        self.stack.pop();
        if let Some(old) = old {
            self.heap.release(old);
        }
        Ok(())
    }

    /// Takes a cell away, with its text. Where it is not there, nothing changes. Takes no memory.
    pub fn drop_cell(&mut self, cell: u64)
        ensures stack { self.new.stack ≡ self.old.stack }
        ensures cells { self.new.cells ≡ finite.remove self.old.cells cell }
        ensures keeps { KeepsMade self.old self.new }
    {
        if let Some(id) = self.cells.swap_remove(&cell) {
            self.heap.release(id);
        }
    }

    /// Whether a cell has a text. Takes no memory.
    pub fn has_cell(&self, cell: u64) -> bool
        ensures { IsTrue result ↔ HasPlace self.now (Cell cell) }
    {
        self.cells.contains_key(&cell)
    }

    /// Makes the text of a place, so that `text` lends it. No text changes.
    pub fn make_text(&mut self, at: At) -> Result<(), NoMemory>
        requires { HasPlace self.old at }
        ensures made { OnOk result (IsMade self.new at) }
        ensures stack { self.new.stack ≡ self.old.stack }
        ensures cells { self.new.cells ≡ self.old.cells }
        ensures stays { StaysMade self.old self.new }
        ensures refused { OnErr result (KeepsMade self.old self.new) }
    {
        let id = object_at(self.stack.as_slice(), &self.cells, at);
        self.heap.make_string(id)
    }

    /// Lends the text of a place as UTF-8, where it is made. Takes no memory.
    pub fn text(&self, at: At) -> Option<&[u8]>
        requires { HasPlace self.now at }
        ensures text { IfSome result (λ text.
            IsText text.now × (chars text.now ≡ text_at self.now at)) }
        ensures made { IsSome result ↔ IsMade self.now at }
    {
        let id = object_at(self.stack.as_slice(), &self.cells, at);
        self.heap.text(id)
    }

    /// The whole number of 64 bits that the text of a place is, as `tclv_text::whole` reads it. No
    /// text changes.
    ///
    /// Refuses with `NotWhole`, `TooLarge` or `FloatForm` where `tclv_text::whole` does. (Tcl:
    /// expr(n), "Operands".)
    pub fn whole(&mut self, at: At) -> Result<i64, ValueFault>
        requires { HasPlace self.old at }
        ensures number { IfOk result (λ n. whole (text_at self.old at) ≡ Ok n) }
        ensures refused { IfErr result (λ fault. RefusesWhole fault (whole (text_at self.old at))) }
        ensures stack { self.new.stack ≡ self.old.stack }
        ensures cells { self.new.cells ≡ self.old.cells }
        ensures stays { StaysMade self.old self.new }
    {
        let id = object_at(self.stack.as_slice(), &self.cells, at);
        whole_of(&mut self.heap, id)
    }

    // Where the store's memory comes from.
    pub(crate) fn alloc(&self) -> Global {
        self.alloc
    }

    /// How much work the store did.
    pub fn stats(&self) -> Stats
        ensures { result ≡ self.now.stats }
    {
        self.heap.stats()
    }
}
