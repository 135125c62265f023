// A value that is put at the end of a path of indices into a list.
ghost use Rattle.std.specs.Prelude.{◌≡◌, ◌≢◌, ◌↔◌, ◌+◌, ◌-◌, ◌<◌, ◌≤◌, [], ◌∷◌, ℕ, List, length, take, Ok, Some, IsTrue, IsSome, IsOk, IsOkAnd, OnOk, OnErr, IfOk, IfErr};
ghost use Rattle.tclv_heap.specs.Stands.{deepest};
ghost use Rattle.tclv_text.specs.Elements.{elements};
ghost use Rattle.tclv_text.specs.Quotes.{list_text};
ghost use Rattle.tclv_value.specs.View.{HasPlace, IsMade, KeepsMade, text_at, id_of};
ghost use Rattle.tclv_value.specs.Stacks.{top};
ghost use Rattle.tclv_value.specs.Changes.{IsUnder, KeepsTexts, Puts};
ghost use Rattle.tclv_value.specs.ListObjects.{IsListAt, IsAloneAt, IsNewAt, depth_at, KeepsPlaces, KeepsLists, ObjectsStay};
ghost use Rattle.tclv_value.specs.SetObjects.{SetsInPlace, SetsInCopy, MakesListAt, SetsWithoutWork, CopiesElements, NeedsNoMemory, IsOpenAt, SetsAlong};
ghost use Rattle.tclv_value.specs.Setting.{copied_more};
ghost use Rattle.tclv_value.specs.Paths.{put_at, step, set_path, RefusesPath, NamesElement};
ghost use Rattle.tclv_value.specs.declared.faults.ValueFault.{ValueFault};
ghost use Rattle.tclv_value.specs.declared.faults.ValueFault.TheVariants as fault;
ghost use Rattle.tclv_value.specs.declared.places.At.{At};
ghost use Rattle.tclv_value.specs.declared.places.At.TheVariants.{Stack};

use super::Store;
use crate::faults::ValueFault;
use crate::list_paths::place_of;
use crate::places::{At, object_at, put_object};
use crate::setting::{change_in_place, copy_with};
use tclv_text::NoMemory;

impl Store {
    /// Takes the top text, which is the value, and the `path` texts below it, which are indices as
    /// `tclv_text::index_of` reads them, the lowest of them used first. Puts the value at the end of
    /// that path into the list that the text of `at` is: each index but the last leads to an element,
    /// which is read as a list in turn. An index that is the length of its list stands for a new
    /// element behind the last one, which is empty at first. The place gets the canonical text, and
    /// so does each list on the path.
    ///
    /// With one index the object of the place is changed where no other holder has it, in time that
    /// doesn't grow with the list; else the place gets a copy, which shares the other elements. With more
    /// indices the objects of the path are changed where none of them has another holder, in time that
    /// doesn't grow with their lists; else the lists are read from their texts and written anew.
    ///
    /// Refuses, at the first list from the outer one on where there is a cause: with `NotList` exactly
    /// where the text there is no list, then with `BadIndex` exactly where the index has no form of
    /// one, then with `OutOfRange` exactly where it is below 0 or above the length. After a refusal
    /// every place has the text that it had. (Tcl: lset(n).)
    pub fn list_set(&mut self, at: At, path: usize) -> Result<(), ValueFault>
        requires path { 0 < path }
        requires place { IsUnder self.old (path + 1) at }
        ensures set { OnOk result (IsOkAnd
            (set_path 0 (text_at self.old at) (take path (top (path + 1) self.old.stack))
            (text_at self.old (Stack (length self.old.stack - 1))))
            (λ text. Puts self.old (path + 1) at text self.new)) }
        ensures refused { IfErr result (λ fault. RefusesPath fault
            (set_path 0 (text_at self.old at) (take path (top (path + 1) self.old.stack))
            (text_at self.old (Stack (length self.old.stack - 1))))) }
        ensures kept { OnErr result (KeepsTexts self.old self.new) }
        ensures same { OnOk result (SetsInPlace self.old at path self.new) }
        ensures fresh { OnOk result (SetsInCopy self.old at path self.new) }
        ensures listed { OnOk result (MakesListAt path at self.new) }
        ensures counters { OnOk result (SetsWithoutWork self.old at path self.new) }
        ensures copies { OnOk result (CopiesElements self.old at path self.new) }
        ensures memory { IfErr result (λ why. NeedsNoMemory self.old at path why) }
        ensures along { OnOk result (SetsAlong self.old at path self.new) }
        ensures opens { IfErr result (λ why. IsOpenAt self.old at path → why ≡ fault.NoMemory) }
    {
        if path == 1 {
            return self.set_one(at);
        }
        self.set_deep(at, path)
    }

    // Puts the top text, which is the value, at the place that the text below it names, which is the
    // one index of a path.
    fn set_one(&mut self, at: At) -> Result<(), ValueFault>
        requires { IsUnder self.old 2 at }
        ensures set { OnOk result (IsOkAnd
            (set_path 0 (text_at self.old at) (text_at self.old (Stack (length self.old.stack - 2)) ∷ [])
            (text_at self.old (Stack (length self.old.stack - 1))))
            (λ text. Puts self.old 2 at text self.new)) }
        ensures refused { IfErr result (λ why. RefusesPath why
            (set_path 0 (text_at self.old at) (text_at self.old (Stack (length self.old.stack - 2)) ∷ [])
            (text_at self.old (Stack (length self.old.stack - 1))))) }
        ensures kept { OnErr result (KeepsTexts self.old self.new) }
        ensures same { OnOk result (IsAloneAt self.old at ↔ (id_of self.new at ≡ id_of self.old at)) }
        ensures fresh { OnOk result (IsListAt self.old at → (IsAloneAt self.old at → ⊥)
            → IsNewAt self.old self.new at) }
        ensures listed { OnOk result (IsListAt self.new at) }
        ensures counters { OnOk result (IsListAt self.old at → IsAloneAt self.old at
            → IsMade self.old (Stack (length self.old.stack - 2))
            → depth_at self.old (Stack (length self.old.stack - 1)) < deepest
            → self.new.stats ≡ self.old.stats) }
        ensures copies { OnOk result (IsListAt self.old at → (IsAloneAt self.old at → ⊥)
            → IsMade self.old (Stack (length self.old.stack - 2))
            → depth_at self.old (Stack (length self.old.stack - 1)) < deepest
            → IsOkAnd (elements (text_at self.old at)) (λ ts.
            self.new.stats ≡ copied_more self.old.stats (length ts))) }
        ensures memory { IfErr result (λ why. IsListAt self.old at → IsAloneAt self.old at
            → IsMade self.old (Stack (length self.old.stack - 2))
            → depth_at self.old (Stack (length self.old.stack - 1)) < deepest
            → NamesElement (text_at self.old at) (text_at self.old (Stack (length self.old.stack - 2)))
            → why ≢ fault.NoMemory) }
        ensures opens { IfErr result (λ why. IsOpenAt self.old at 1 → why ≡ fault.NoMemory) }
    {
        let alone = self.is_alone(at);
        self.keep_list_at(at)?;
        let height = self.height();
        let index = At::Stack(height - 2);
        self.write_text(index)?;
        let place = self.place_in(at, index)?;
        self.make_top_shallow()?;
        self.change_at(at, place, alone)?;
        self.drop_top(2);
        Ok(())
    }

    // Makes the text of a place.
    pub(super) fn write_text(&mut self, at: At) -> Result<(), NoMemory>
        requires { HasPlace self.old at }
        ensures made { OnOk result (IsMade self.new at) }
        ensures kept { KeepsTexts self.old self.new }
        ensures places { KeepsPlaces self.old self.new }
        ensures lists { (place : At) → HasPlace self.old place → IsListAt self.old place → IsListAt self.new place }
        ensures alone { (place : At) → HasPlace self.old place → IsAloneAt self.old place → IsAloneAt self.new place }
        ensures there { ObjectsStay self.old self.new }
        ensures made_before { IsMade self.old at → self.new ≡ self.old }
        ensures memory { IsMade self.old at → IsOk result }
    {
        if self.text(at).is_some() {
            return Ok(());
        }
        let id = object_at(self.stack.as_slice(), &self.cells, at);
        self.heap.make_string(id)
    }

    // The place that an index, whose text is made, lets the list of a place be written at, whose object is
    // kept as a list.
    fn place_in(&self, at: At, index: At) -> Result<usize, ValueFault>
        requires place { HasPlace self.now at }
        requires list { IsListAt self.now at }
        requires index { HasPlace self.now index }
        requires made { IsMade self.now index }
        ensures place { IfOk result (λ k. IsOkAnd (elements (text_at self.now at)) (λ ts.
            step 0 (text_at self.now at) (text_at self.now index) ≡ Ok (ts, k))) }
        ensures refused { IfErr result (λ why.
            RefusesPath why (step 0 (text_at self.now at) (text_at self.now index))) }
        ensures within { IfOk result (λ k. IsOkAnd (elements (text_at self.now at)) (λ ts. k ≤ length ts)) }
        ensures memory { IfErr result (λ why. why ≢ fault.NoMemory) }
        ensures opens { IfErr result (λ why. 2 ≤ length self.now.stack
            → index ≡ Stack (length self.now.stack - 2) → IsOpenAt self.now at 1 → ⊥) }
    {
        let len = self.kept_len(at) as usize;
        place_of(self.made_text(index), len, 0)
    }

    // Puts the top text, which stays, at a place of the list of a place, whose object is kept as one: in
    // place where no other holder has it, and in a copy else.
    fn change_at(&mut self, at: At, place: usize, alone: bool) -> Result<(), NoMemory>
        requires place { IsUnder self.old 1 at }
        requires list { IsListAt self.old at }
        requires alone { IsTrue alone → IsAloneAt self.old at }
        requires within { IsOkAnd (elements (text_at self.old at)) (λ ts. place ≤ length ts) }
        requires shallow { depth_at self.old (Stack (length self.old.stack - 1)) < deepest }
        ensures changed { OnOk result (IsOkAnd (elements (text_at self.old at)) (λ ts.
            Puts self.old 0 at
            (list_text (put_at ts place (text_at self.old (Stack (length self.old.stack - 1))))) self.new)) }
        ensures kept { OnErr result (KeepsTexts self.old self.new) }
        ensures same { OnOk result (IsTrue alone → id_of self.new at ≡ id_of self.old at) }
        ensures another { OnOk result ((IsTrue alone → ⊥) → id_of self.new at ≢ id_of self.old at) }
        ensures fresh { OnOk result ((IsTrue alone → ⊥) → IsNewAt self.old self.new at) }
        ensures listed { OnOk result (IsListAt self.new at) }
        ensures stats { IsTrue alone → self.new.stats ≡ self.old.stats }
        ensures copies { OnOk result ((IsTrue alone → ⊥) → IsOkAnd (elements (text_at self.old at)) (λ ts.
            self.new.stats ≡ copied_more self.old.stats (length ts))) }
        ensures memory { IsTrue alone
            → IsOkAnd (elements (text_at self.old at)) (λ ts. place < length ts) → IsOk result }
    {
        if alone {
            return self.change_alone(at, place);
        }
        self.change_copy(at, place)
    }

    fn change_alone(&mut self, at: At, place: usize) -> Result<(), NoMemory>
        requires place { IsUnder self.old 1 at }
        requires list { IsListAt self.old at }
        requires alone { IsAloneAt self.old at }
        requires within { IsOkAnd (elements (text_at self.old at)) (λ ts. place ≤ length ts) }
        requires shallow { depth_at self.old (Stack (length self.old.stack - 1)) < deepest }
        ensures changed { OnOk result (IsOkAnd (elements (text_at self.old at)) (λ ts.
            Puts self.old 0 at
            (list_text (put_at ts place (text_at self.old (Stack (length self.old.stack - 1))))) self.new)) }
        ensures kept { OnErr result (self.new ≡ self.old) }
        ensures same { id_of self.new at ≡ id_of self.old at }
        ensures listed { OnOk result (IsListAt self.new at) }
        ensures stats { self.new.stats ≡ self.old.stats }
        ensures memory { IsOkAnd (elements (text_at self.old at)) (λ ts. place < length ts)
            → IsOk result }
    {
        let id = object_at(self.stack.as_slice(), &self.cells, at);
        let value = self.stack[self.stack.len() - 1];
        change_in_place(&mut self.heap, self.alloc, id, place, value)
    }

    fn change_copy(&mut self, at: At, place: usize) -> Result<(), NoMemory>
        requires place { IsUnder self.old 1 at }
        requires list { IsListAt self.old at }
        requires within { IsOkAnd (elements (text_at self.old at)) (λ ts. place ≤ length ts) }
        requires shallow { depth_at self.old (Stack (length self.old.stack - 1)) < deepest }
        ensures changed { OnOk result (IsOkAnd (elements (text_at self.old at)) (λ ts.
            Puts self.old 0 at
            (list_text (put_at ts place (text_at self.old (Stack (length self.old.stack - 1))))) self.new)) }
        ensures kept { OnErr result (KeepsTexts self.old self.new) }
        ensures another { OnOk result (id_of self.new at ≢ id_of self.old at) }
        ensures fresh { OnOk result (IsNewAt self.old self.new at) }
        ensures listed { OnOk result (IsListAt self.new at) }
        ensures copies { OnOk result (IsOkAnd (elements (text_at self.old at)) (λ ts.
            self.new.stats ≡ copied_more self.old.stats (length ts))) }
    {
        let id = object_at(self.stack.as_slice(), &self.cells, at);
        let value = self.stack[self.stack.len() - 1];
        let copy = copy_with(&mut self.heap, self.alloc, id, place, value)?;
        let old = put_object(&mut self.stack, &mut self.cells, at, copy);
        self.heap.release(old);
        Ok(())
    }

    // Takes texts off the stack, so many as are asked for, which are there.
    pub(super) fn drop_top(&mut self, n: usize)
        requires { n ≤ length self.old.stack }
        ensures popped { self.new.stack ≡ take (length self.old.stack - n) self.old.stack }
        ensures cells { self.new.cells ≡ self.old.cells }
        ensures keeps { KeepsMade self.old self.new }
        ensures lists { KeepsLists self.old n self.new }
    {
        for _gone in 0..n {
            self.drop_one();
        }
    }

    // Takes the top text off the stack.
    fn drop_one(&mut self)
        requires { 0 < length self.old.stack }
        ensures popped { self.new.stack ≡ take (length self.old.stack - 1) self.old.stack }
        ensures cells { self.new.cells ≡ self.old.cells }
        ensures keeps { KeepsMade self.old self.new }
        ensures lists { KeepsLists self.old 1 self.new }
    {
        if let Some(id) = self.stack.pop() {
            self.heap.release(id);
        }
    }
}
