// Lists over their forms: a text is read once, and kept as a list of objects.
ghost use Rattle.std.specs.Prelude.{◌≡◌, ◌↔◌, ◌<◌, ◌≤◌, ◌-◌, ◌++◌, ◌∷◌, [], ℕ, List, length, Some, IsTrue, IsSome, IsOk, IsOkAnd, IfSome, OnOk, OnErr, IfOk, IfErr, slice_get, slice_index, option_to_list};
ghost use Rattle.std.specs.Str.{chars};
ghost use Rattle.tclv_text.specs.Texts.{IsText};
ghost use Rattle.tclv_text.specs.Elements.{elements};
ghost use Rattle.tclv_value.specs.View.{HasPlace, text_at, id_of, StaysMade};
ghost use Rattle.tclv_text.specs.Quotes.{list_text};
ghost use Rattle.tclv_heap.specs.Stands.{deepest};
ghost use Rattle.tclv_value.specs.Stacks.{top};
ghost use Rattle.tclv_value.specs.Changes.{IsUnder, KeepsTexts, Gathers, Puts};
ghost use Rattle.tclv_value.specs.Kept.{list_at};
ghost use Rattle.tclv_value.specs.Lists.{RefusesList};
ghost use Rattle.tclv_value.specs.ListObjects.{IsListAt, IsAloneAt, SharesTop, SharesElement, ChangesAt, Retells, IsNewAt, IsElementMade, count_at, depth_at, ObjectsStay, KeepsPlaces};
ghost use Rattle.tclv_value.specs.ListObjects.{ReadsAt, CopiesAt, CopiesNone, OnlyWrites, CopiesShared, KeepsObjects, IsTold};
ghost use Rattle.tclv_value.specs.Setting.{copied_more};
ghost use Rattle.tclv_value.specs.Paths.{RefusesStep};
ghost use Rattle.tclv_value.specs.declared.places.At.{At};
ghost use Rattle.tclv_value.specs.declared.places.At.TheVariants.{Stack};

use super::Store;
use crate::appending::{append_value, copy_list, next_list};
use crate::faults::ValueFault;
use crate::forms::Form;
use crate::kept_lists::{depth_over, element_of, keep_list, length_of, made_element};
use crate::places::{At, object_at, put_object};
use tclv_forms::ListForm;
use tclv_text::NoMemory;

impl Store {
    // Sees to it that the object of a place is kept as a list.
    pub(super) fn keep_list_at(&mut self, at: At) -> Result<(), ValueFault>
        requires { HasPlace self.old at }
        ensures list { OnOk result (IsListAt self.new at) }
        ensures refused { IfErr result (λ fault. RefusesList fault (text_at self.old at)) }
        ensures kept { KeepsTexts self.old self.new }
        ensures places { KeepsPlaces self.old self.new }
        ensures unread { IsListAt self.old at → self.new ≡ self.old }
        ensures stay { OnOk result (ObjectsStay self.old self.new) }
        ensures count { OnOk result (count_at self.new at ≡ count_at self.old at) }
        ensures alone { OnOk result (IsAloneAt self.old at → IsAloneAt self.new at) }
        ensures memory { IsListAt self.old at → IsOk result }
        ensures step { IfErr result (λ why. RefusesStep why (text_at self.old at)) }
        ensures read { OnOk result (ReadsAt self.old at self.new) }
        ensures copied { OnOk result (CopiesNone self.old self.new) }
    {
        let id = object_at(self.stack.as_slice(), &self.cells, at);
        keep_list(&mut self.heap, self.alloc, id)
    }

    // How many elements the list of a place has, whose object is kept as one.
    pub(super) fn kept_len(&self, at: At) -> u64
        requires place { HasPlace self.now at }
        requires list { IsListAt self.now at }
        ensures text { IsOkAnd (elements (text_at self.now at)) (λ ts. result ≡ length ts) }
        ensures ids { (ids : List ℕ) → list_at self.now.graph (id_of self.now at) ≡ Some ids
            → result ≡ length ids }
        ensures told { IsTold self.now }
    {
        let id = object_at(self.stack.as_slice(), &self.cells, at);
        length_of(&self.heap, id)
    }

    // Adds the top text to the list of a place, in place: its object is kept as a list, and no other
    // holder has it.
    fn append_in_place(&mut self, at: At) -> Result<(), NoMemory>
        requires place { IsUnder self.old 1 at }
        requires list { IsListAt self.old at }
        requires alone { IsAloneAt self.old at }
        requires shallow { depth_at self.old (Stack (length self.old.stack - 1)) < deepest }
        ensures appended { OnOk result (IsOkAnd (elements (text_at self.old at)) (λ ts.
            Puts self.old 1 at (list_text (ts ++ top 1 self.old.stack)) self.new)) }
        ensures kept { OnErr result (KeepsTexts self.old self.new) }
        ensures same { OnOk result (id_of self.new at ≡ id_of self.old at) }
        ensures elements { OnOk result ((ids : List ℕ) → list_at self.old.graph (id_of self.old at) ≡ Some ids
            → list_at self.new.graph (id_of self.old at)
            ≡ Some (ids ++ id_of self.old (Stack (length self.old.stack - 1)) ∷ [])) }
        ensures listed { OnOk result (IsListAt self.new at) }
        ensures stats { self.new.stats ≡ self.old.stats }
    {
        let id = object_at(self.stack.as_slice(), &self.cells, at);
        let next = next_list(&self.heap, self.alloc, id)?;
        match self.stack.pop() {
            Some(value) => append_value(&mut self.heap, id, value, next),
            None => unreachable!(),
        }
        Ok(())
    }

    // Adds the top text to the list of a place, whose object is kept as a list and has other holders: the
    // place gets a copy, which shares the elements.
    fn append_to_copy(&mut self, at: At) -> Result<(), NoMemory>
        requires place { IsUnder self.old 1 at }
        requires list { IsListAt self.old at }
        requires shallow { depth_at self.old (Stack (length self.old.stack - 1)) < deepest }
        ensures appended { OnOk result (IsOkAnd (elements (text_at self.old at)) (λ ts.
            Puts self.old 1 at (list_text (ts ++ top 1 self.old.stack)) self.new)) }
        ensures kept { OnErr result (KeepsTexts self.old self.new) }
        ensures fresh { OnOk result (IsNewAt self.old self.new at) }
        ensures listed { OnOk result (IsListAt self.new at) }
        ensures copies { OnOk result (IsOkAnd (elements (text_at self.old at)) (λ ts.
            self.new.stats ≡ copied_more self.old.stats (length ts))) }
        ensures stats { OnOk result ((ids : List ℕ) → list_at self.old.graph (id_of self.old at) ≡ Some ids
            → self.new.stats ≡ copied_more self.old.stats (length ids)) }
    {
        let id = object_at(self.stack.as_slice(), &self.cells, at);
        let (copy, next) = copy_list(&mut self.heap, self.alloc, id)?;
        match self.stack.pop() {
            Some(value) => append_value(&mut self.heap, copy, value, next),
            None => unreachable!(),
        }
        let old = put_object(&mut self.stack, &mut self.cells, at, copy);
        self.heap.release(old);
        Ok(())
    }

    // Pushes an element of the list of a place, whose object is kept as one.
    fn push_kept(&mut self, at: At, k: u64) -> Result<bool, NoMemory>
        requires place { HasPlace self.old at }
        requires list { IsListAt self.old at }
        ensures found { IfOk result (λ found.
            IsOkAnd (elements (text_at self.old at)) (λ ts. IsTrue found ↔ (k < length ts))) }
        ensures pushed { OnOk result (IsOkAnd (elements (text_at self.old at)) (λ ts.
            self.new.stack ≡ self.old.stack ++ option_to_list (slice_get ts k))) }
        ensures cells { self.new.cells ≡ self.old.cells }
        ensures stays { StaysMade self.old self.new }
        ensures kept { OnErr result (KeepsTexts self.old self.new) }
        ensures shares { OnOk result (SharesElement self.old at k self.new) }
    {
        let id = object_at(self.stack.as_slice(), &self.cells, at);
        match element_of(&self.heap, id, k) {
            Some(element) => {
                self.stack.reserve(1)?;
                self.heap.share(element);
                self.stack.push_reserved(element);
                Ok(true)
            }
            None => Ok(false),
        }
    }

    /// How many elements the list has that the text of a place is. No text changes.
    ///
    /// Refuses with `NotList` exactly where the text is no list, as `tclv_text::split_list` does.
    /// (Tcl: llength(n).)
    pub fn list_len(&mut self, at: At) -> Result<u64, ValueFault>
        requires { HasPlace self.old at }
        ensures len { IfOk result (λ n.
            IsOkAnd (elements (text_at self.old at)) (λ ts. n ≡ length ts)) }
        ensures refused { IfErr result (λ fault. RefusesList fault (text_at self.old at)) }
        ensures kept { KeepsTexts self.old self.new }
        ensures list { OnOk result (IsListAt self.new at) }
        ensures unread { IsListAt self.old at → self.new ≡ self.old }
        ensures objects { OnOk result (KeepsObjects self.old at self.new) }
    {
        self.keep_list_at(at)?;
        Ok(self.kept_len(at))
    }

    /// Pushes the element at a place of the list that the text of `at` is, counted from 0. It says
    /// whether there is one: at the list's length and behind it there is none, and nothing is pushed.
    ///
    /// The element is shared and not copied: its object is the one that is pushed. The place's object is
    /// kept as a list afterwards, and where it was one before no counter rises.
    ///
    /// Refuses with `NotList` exactly where the text is no list. After a refusal every place has the
    /// text that it had. (Tcl: lindex(n).)
    pub fn push_element(&mut self, at: At, k: u64) -> Result<bool, ValueFault>
        requires { HasPlace self.old at }
        ensures found { IfOk result (λ found.
            IsOkAnd (elements (text_at self.old at)) (λ ts. IsTrue found ↔ (k < length ts))) }
        ensures pushed { OnOk result (IsOkAnd (elements (text_at self.old at)) (λ ts.
            self.new.stack ≡ self.old.stack ++ option_to_list (slice_get ts k))) }
        ensures cells { self.new.cells ≡ self.old.cells }
        ensures stays { StaysMade self.old self.new }
        ensures refused { IfErr result (λ fault. RefusesList fault (text_at self.old at)) }
        ensures kept { OnErr result (KeepsTexts self.old self.new) }
        ensures shares { OnOk result (SharesElement self.old at k self.new) }
    {
        self.keep_list_at(at)?;
        let found = self.push_kept(at, k)?;
        Ok(found)
    }

    /// Sees to it that `element_text` lends the text of an element of the list that the text of `at` is,
    /// counted from 0. It says whether there is such an element. No text changes.
    ///
    /// Refuses with `NotList` exactly where the text is no list. (Tcl: lindex(n).)
    pub fn make_element(&mut self, at: At, k: u64) -> Result<bool, ValueFault>
        requires { HasPlace self.old at }
        ensures found { IfOk result (λ found.
            IsOkAnd (elements (text_at self.old at)) (λ ts. IsTrue found ↔ (k < length ts))) }
        ensures made { IfOk result (λ found. IsTrue found → IsElementMade self.new at k) }
        ensures refused { IfErr result (λ fault. RefusesList fault (text_at self.old at)) }
        ensures kept { KeepsTexts self.old self.new }
    {
        self.keep_list_at(at)?;
        let found = self.make_kept(at, k)?;
        Ok(found)
    }

    // Makes the text of an element of the list of a place, whose object is kept as one.
    fn make_kept(&mut self, at: At, k: u64) -> Result<bool, NoMemory>
        requires place { HasPlace self.old at }
        requires list { IsListAt self.old at }
        ensures found { IfOk result (λ found.
            IsOkAnd (elements (text_at self.old at)) (λ ts. IsTrue found ↔ (k < length ts))) }
        ensures made { IfOk result (λ found. IsTrue found → IsElementMade self.new at k) }
        ensures kept { KeepsTexts self.old self.new }
    {
        let id = object_at(self.stack.as_slice(), &self.cells, at);
        match element_of(&self.heap, id, k) {
            Some(element) => {
                self.heap.make_string(element)?;
                Ok(true)
            }
            None => Ok(false),
        }
    }

    /// Lends the text of an element of the list that the text of `at` is, counted from 0, as UTF-8.
    ///
    /// `None` exactly where the place's object is not kept as a list, or the list has no such element, or
    /// the element's text is not made. Takes no memory.
    pub fn element_text(&self, at: At, k: u64) -> Option<&[u8]>
        requires { HasPlace self.now at }
        ensures text { IfSome result (λ text. IsText text.now
            × IsOkAnd (elements (text_at self.now at)) (λ ts. Some (chars text.now) ≡ slice_get ts k)) }
        ensures made { IsSome result ↔ IsElementMade self.now at k }
    {
        let id = object_at(self.stack.as_slice(), &self.cells, at);
        made_element(&self.heap, id, k)
    }

    /// Takes the top text, and adds it as the last element to the list that the text of `at` is. The
    /// place gets the list's canonical text. Where no other holder has the object of the place, that
    /// object is changed in place, in time that doesn't grow with the list; else the place gets a copy,
    /// which shares the elements.
    ///
    /// Refuses with `NotList` exactly where the text is no list. After a refusal every place has the
    /// text that it had. (Tcl: lappend(n).)
    pub fn list_append(&mut self, at: At) -> Result<(), ValueFault>
        requires { IsUnder self.old 1 at }
        ensures appended { OnOk result (IsOkAnd (elements (text_at self.old at)) (λ ts.
            Puts self.old 1 at (list_text (ts ++ top 1 self.old.stack)) self.new)) }
        ensures refused { IfErr result (λ fault. RefusesList fault (text_at self.old at)) }
        ensures kept { OnErr result (KeepsTexts self.old self.new) }
        ensures same { OnOk result (IsListAt self.old at → IsAloneAt self.old at
            → id_of self.new at ≡ id_of self.old at) }
        ensures fresh { OnOk result (IsListAt self.old at → (IsAloneAt self.old at → ⊥)
            → depth_at self.old (Stack (length self.old.stack - 1)) < deepest
            → IsNewAt self.old self.new at) }
        ensures listed { OnOk result (IsListAt self.new at) }
        ensures changed { OnOk result (ChangesAt self.old at self.new) }
        ensures counters { OnOk result (IsListAt self.old at → IsAloneAt self.old at
            → depth_at self.old (Stack (length self.old.stack - 1)) < deepest
            → self.new.stats ≡ self.old.stats) }
        ensures shared { OnOk result (CopiesShared self.old at self.new) }
        ensures read { OnOk result (ReadsAt self.old at self.new) }
        ensures copied { OnOk result (CopiesAt self.old at self.new) }
    {
        self.keep_list_at(at)?;
        self.make_top_shallow()?;
        if self.is_alone(at) {
            self.append_in_place(at)?;
            return Ok(());
        }
        self.append_to_copy(at)?;
        Ok(())
    }

    /// Makes one text of the top `n`: the canonical text of their list, the lowest of them first. Of
    /// none it is the empty text. The texts are shared, and the list's text isn't made, unless one of them
    /// is 50 deep. After `NoMemory` every place has the text that it had. (Tcl:
    /// list(n).)
    pub fn push_list(&mut self, n: usize) -> Result<(), NoMemory>
        requires { n ≤ length self.old.stack }
        ensures gathered { OnOk result
            (Gathers self.old n (list_text (top n self.old.stack)) self.new) }
        ensures kept { OnErr result (KeepsTexts self.old self.new) }
        ensures shares { OnOk result (SharesTop self.old n self.new) }
    {
        let low = self.stack.len() - n;
        let Some(depth) = depth_over(&self.heap, &self.stack.as_slice()[low..]) else {
            return self.push_list_text(n);
        };
        let list = ListForm::from_slice(self.alloc, &self.stack.as_slice()[low..])?;
        self.stack.reserve(1)?;
        let id = self.heap.make_form_object(Form::List(list), depth)?;
        self.stack.truncate(low);
        self.stack.push_reserved(id);
        Ok(())
    }

    // Whether one holder alone has the object of a place.
    pub(super) fn is_alone(&self, at: At) -> bool
        requires { HasPlace self.now at }
        ensures { IsTrue result ↔ IsAloneAt self.now at }
    {
        let id = object_at(self.stack.as_slice(), &self.cells, at);
        self.heap.count(id) == 1
    }

    // Makes the text of the top of the stack where it is 50 deep, so that it may be a part.
    pub(super) fn make_top_shallow(&mut self) -> Result<(), NoMemory>
        requires { 0 < length self.old.stack }
        ensures shallow { OnOk result
            (depth_at self.new (Stack (length self.old.stack - 1)) < deepest) }
        ensures kept { KeepsTexts self.old self.new }
        ensures places { KeepsPlaces self.old self.new }
        ensures lists { (place : At) → HasPlace self.old place → IsListAt self.old place → IsListAt self.new place }
        ensures alone { (place : At) → HasPlace self.old place → IsAloneAt self.old place → IsAloneAt self.new place }
        ensures there { ObjectsStay self.old self.new }
        ensures shallow_before { depth_at self.old (Stack (length self.old.stack - 1)) < deepest
            → self.new ≡ self.old }
        ensures memory { depth_at self.old (Stack (length self.old.stack - 1)) < deepest
            → IsOk result }
        ensures retells { Retells self.old self.new }
        ensures written { OnlyWrites self.old self.new }
    {
        let id = self.stack[self.stack.len() - 1];
        if self.heap.depth(id) < 50 {
            return Ok(());
        }
        self.heap.make_string(id)
    }
}
