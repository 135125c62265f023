// Elements of a place's list that give way to the top of the stack.
ghost use Rattle.std.specs.Prelude.{◌≡◌, ◌<◌, ◌≤◌, ◌-◌, ℕ, List, length, Some, IsOkAnd, OnOk, OnErr, IfErr};
ghost use Rattle.std.specs.Result.{ForOk};
ghost use Rattle.tclv_text.specs.Elements.{elements};
ghost use Rattle.tclv_text.specs.Quotes.{list_text};
ghost use Rattle.tclv_forms.specs.Lists.{spliced};
ghost use Rattle.tclv_heap.specs.Counters.{raised};
ghost use Rattle.tclv_heap.specs.Stands.{deepest};
ghost use Rattle.tclv_value.specs.View.{text_at, id_of};
ghost use Rattle.tclv_value.specs.Stacks.{top};
ghost use Rattle.tclv_value.specs.Changes.{IsUnder, KeepsTexts, Puts};
ghost use Rattle.tclv_value.specs.Kept.{list_at};
ghost use Rattle.tclv_value.specs.Lists.{RefusesList, replaced};
ghost use Rattle.tclv_value.specs.ListObjects.{IsListAt, IsAloneAt, IsShallow, IsNewAt, ChangesAt, SharesBetween, Retells, depth_at};
ghost use Rattle.tclv_value.specs.declared.places.At.TheVariants.{Stack};

use super::Store;
use crate::faults::ValueFault;
use crate::places::{At, object_at, put_object, top_objects};
use crate::replacing::{copy_with, next_with, replace_values};
use tclv_text::NoMemory;

impl Store {
    /// Takes the top `n` texts, and puts them, the lowest first, in place of the elements from `from`
    /// up to but not including `to`, counted from 0, of the list that the text of `at` is. The place
    /// gets the list's canonical text. The texts are shared and not copied; one that is 50 deep is made
    /// first. Where no other holder has the object of the place, that object is changed in place, and at
    /// the list's end in time that doesn't grow with the list; else the place gets a copy, which shares
    /// the elements.
    ///
    /// Refuses with `NotList` exactly where the text is no list. After a refusal every place has the
    /// text that it had. (Tcl: lreplace(n), linsert(n).)
    pub fn list_replace(&mut self, at: At, from: u64, to: u64, n: usize) -> Result<(), ValueFault>
        requires place { IsUnder self.old n at }
        requires order { from ≤ to }
        requires within { ForOk (elements (text_at self.old at)) (λ ts. to ≤ length ts) }
        ensures replaced { OnOk result (IsOkAnd (elements (text_at self.old at)) (λ ts.
            Puts self.old n at (list_text (replaced ts from to (top n self.old.stack))) self.new)) }
        ensures refused { IfErr result (λ fault. RefusesList fault (text_at self.old at)) }
        ensures kept { OnErr result (KeepsTexts self.old self.new) }
        ensures changed { OnOk result (ChangesAt self.old at self.new) }
        ensures shares { OnOk result (SharesBetween self.old at from to n self.new) }
    {
        self.keep_list_at(at)?;
        self.make_shallow(n)?;
        if self.is_alone(at) {
            self.replace_in_place(at, from as usize, to as usize, n)?;
            return Ok(());
        }
        self.replace_in_copy(at, from as usize, to as usize, n)?;
        Ok(())
    }

    // Puts the top texts in place of elements of the list of a place, in place: its object is kept as a
    // list, and no other holder has it.
    fn replace_in_place(&mut self, at: At, from: usize, to: usize, n: usize) -> Result<(), NoMemory>
        requires place { IsUnder self.old n at }
        requires list { IsListAt self.old at }
        requires alone { IsAloneAt self.old at }
        requires shallow { IsShallow n self.old }
        requires order { from ≤ to }
        requires within { ForOk (elements (text_at self.old at)) (λ ts. to ≤ length ts) }
        ensures replaced { OnOk result (IsOkAnd (elements (text_at self.old at)) (λ ts.
            Puts self.old n at (list_text (replaced ts from to (top n self.old.stack))) self.new)) }
        ensures kept { OnErr result (KeepsTexts self.old self.new) }
        ensures same { OnOk result (id_of self.new at ≡ id_of self.old at) }
        ensures listed { OnOk result (IsListAt self.new at) }
        ensures elements { OnOk result ((ids : List ℕ) → list_at self.old.graph (id_of self.old at) ≡ Some ids
            → list_at self.new.graph (id_of self.new at) ≡ Some (spliced ids from to (top n self.old.stack_ids))) }
        ensures stats { self.new.stats ≡ self.old.stats }
    {
        let low = self.stack.len() - n;
        let id = object_at(self.stack.as_slice(), &self.cells, at);
        let values = top_objects(self.stack.as_slice(), n);
        let next = next_with(&self.heap, self.alloc, id, from, to, values)?;
        replace_values(&mut self.heap, id, from, to, values, next);
        self.stack.truncate(low);
        Ok(())
    }

    // Puts the top texts in place of elements of the list of a place, whose object is kept as a list and
    // has other holders: the place gets a copy, which shares the elements.
    fn replace_in_copy(&mut self, at: At, from: usize, to: usize, n: usize) -> Result<(), NoMemory>
        requires place { IsUnder self.old n at }
        requires list { IsListAt self.old at }
        requires shallow { IsShallow n self.old }
        requires order { from ≤ to }
        requires within { ForOk (elements (text_at self.old at)) (λ ts. to ≤ length ts) }
        ensures replaced { OnOk result (IsOkAnd (elements (text_at self.old at)) (λ ts.
            Puts self.old n at (list_text (replaced ts from to (top n self.old.stack))) self.new)) }
        ensures kept { OnErr result (KeepsTexts self.old self.new) }
        ensures fresh { OnOk result (IsNewAt self.old self.new at) }
        ensures listed { OnOk result (IsListAt self.new at) }
        ensures elements { OnOk result ((ids : List ℕ) → list_at self.old.graph (id_of self.old at) ≡ Some ids
            → list_at self.new.graph (id_of self.new at) ≡ Some (spliced ids from to (top n self.old.stack_ids))) }
        ensures stats { OnOk result ((ids : List ℕ) → list_at self.old.graph (id_of self.old at) ≡ Some ids
            → self.new.stats ≡ record self.old.stats { copied = raised self.old.stats.copied (length ids) }) }
    {
        let low = self.stack.len() - n;
        let id = object_at(self.stack.as_slice(), &self.cells, at);
        let values = top_objects(self.stack.as_slice(), n);
        let (copy, next) = copy_with(&mut self.heap, self.alloc, id, from, to, values)?;
        replace_values(&mut self.heap, copy, from, to, values, next);
        self.stack.truncate(low);
        let old = put_object(&mut self.stack, &mut self.cells, at, copy);
        self.heap.release(old);
        Ok(())
    }

    // Makes the text of each of the top `n` that is 50 deep, so that it may be a part.
    fn make_shallow(&mut self, n: usize) -> Result<(), NoMemory>
        requires { n ≤ length self.old.stack }
        ensures shallow { OnOk result (IsShallow n self.new) }
        ensures kept { KeepsTexts self.old self.new }
        ensures retells { Retells self.old self.new }
        ensures shallow_before { IsShallow n self.old → self.new ≡ self.old }
    {
        let low = self.stack.len() - n;
        for k in 0..n {
            self.make_shallow_at(low + k)?;
        }
        Ok(())
    }

    // Makes the text of a place of the stack where it is 50 deep.
    fn make_shallow_at(&mut self, i: usize) -> Result<(), NoMemory>
        requires { i < length self.old.stack }
        ensures shallow { OnOk result (depth_at self.new (Stack i) < deepest) }
        ensures kept { KeepsTexts self.old self.new }
        ensures retells { Retells self.old self.new }
        ensures shallow_before { depth_at self.old (Stack i) < deepest → self.new ≡ self.old }
    {
        let id = self.stack[i];
        if self.heap.depth(id) < 50 {
            return Ok(());
        }
        self.heap.make_string(id)
    }
}
