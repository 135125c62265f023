// The heap: its objects, and the calls that make, hold, change and read them.
ghost use Rattle.std.specs.Prelude.{◌≡◌, ◌∷◌, ◌++◌, [], ◌<◌, ◌≤◌, ◌+◌, ◌≢◌, ℕ, List, map, length, cond, Option, Some, None, IsSome, IfSome, IfNone, IfOk, OnOk, OnErr, slice_set};
ghost use Rattle.std.specs.Str.{chars};
ghost use Rattle.tclv_text.specs.Texts.{IsText};

use crate::copies::{copy_object, share_parts};
use crate::counting::points_read;
use crate::ids::{ObjId, Object};
use crate::release::{release_form, release_one};
use crate::strings::{extend_text, make_text};
use crate::table::Types;
use slab::Slab;
use std::alloc::Global;
use std::marker::Model;
use std::mem;
use tclv_text::{NoMemory, Stats, Text};

/// Objects with counts, whose forms are those of one table of types.
///
/// Each id that is handed in is one of an object that is there. To release an object, and to hand
/// it over as a part of a form, takes a holder outside the graph, one for each time.
#[derive(Drop)]
pub struct Heap<T: Types> {
    alloc: Global,
    types: T,
    objects: Slab<Object<T::Form>>,
    stats: Stats,
}

impl<T: Types> Model for Heap<T> {
    ghost use Rattle.tclv_heap.specs.Graph.{View};

    ghost Value = { View T T.Form };

    ghost use Rattle.tclv_heap.specs.Stands.{IsSound};

    ghost view = { λ h. record { types = h.types; graph = h.objects.slots; stats = h.stats } };

    ghost invariant = { λ h. IsSound T.table h.objects.slots };
}

impl<T: Types> Heap<T> {
    ghost use Rattle.tclv_heap.specs.declared.ids.Object.{Object};
    ghost use Rattle.tclv_heap.specs.Graph.{at, new_object, counted_up, retexted, Updates, Adds, HasOutside, held, occurs, stuck, form_parts, parts_at, count_in, text_in, form_in, depth_in, Takes, Leads};
    ghost use Rattle.tclv_heap.specs.Counters.{raised, text_size, Writes};
    ghost use Rattle.tclv_heap.specs.Dying.{Releases};
    ghost use Rattle.tclv_heap.specs.Holders.{Passes};
    ghost use Rattle.tclv_heap.specs.Stands.{stands, said_by, FitsDepth, depth_of, Tells, TellsBelow, Keeps, SaysSameBut, HasText, HasForm, Duplicates, Retexted, IsSound, IsClosed};
    ghost use Rattle.tclv_heap.specs.Open.{IsOpen, IsClosedBut, IsUntold, IsBelow, SaysSameBelow, SaysByForm};

    /// A heap without objects, over this table of types.
    pub fn new(alloc: Global, types: T) -> Heap<T>
        ensures empty { result ≡ record { types = types; graph = []; stats = Stats.ZERO } }
        ensures sound { IsSound T.table result.graph }
    {
        Heap {
            alloc,
            types,
            objects: Slab::new(alloc),
            stats: Stats::ZERO,
        }
    }

    /// Lends the table of types that `new` was given.
    pub fn types(&self) -> &T
        ensures { result.now ≡ self.now.types }
    {
        &self.types
    }

    /// Makes an object of a text, without a form, with one holder outside. The text is dropped
    /// where memory runs out.
    pub fn make_text_object(&mut self, text: Text) -> Result<ObjId, NoMemory>
        ensures made { IfOk result (λ id.
            Adds T.table.parts self.old.graph id (new_object (Some text) None 0) self.new.graph) }
        ensures stands { IfOk result (λ id. stands T.table self.new.graph id ≡ text) }
        ensures holders { IfOk result (λ id.
            Passes T.table.parts self.old.graph [] self.new.graph (id ∷ [])) }
        ensures keeps { Keeps T.table self.old.graph self.new.graph }
        ensures rest { self.new ≡ record self.old { graph = self.new.graph } }
        ensures refused { OnErr result (self.new ≡ self.old) }
    {
        self.insert(Some(text), None, 0)
    }

    /// Makes an object of a form that spells, without a text, with one holder outside. The parts of
    /// the form pass from the caller to the object; where memory runs out they stay with the caller.
    /// The depth is from 1 to 50 and above that of each part.
    pub fn make_form_object(&mut self, form: T::Form, depth: u64) -> Result<ObjId, NoMemory>
        requires spells { T.table.Spells form }
        requires takes { Takes T.table.parts self.old.graph (T.table.parts form) }
        requires depth { FitsDepth T.table self.old.graph form depth }
        ensures made { IfOk result (λ id.
            Adds T.table.parts self.old.graph id (new_object None (Some form) depth) self.new.graph) }
        ensures stands { IfOk result (λ id. stands T.table self.new.graph id
            ≡ T.table.spelled form (map (stands T.table self.old.graph) (T.table.parts form))) }
        ensures holders { IfOk result (λ id.
            Passes T.table.parts self.old.graph (T.table.parts form) self.new.graph (id ∷ [])) }
        ensures keeps { Keeps T.table self.old.graph self.new.graph }
        ensures rest { self.new ≡ record self.old { graph = self.new.graph } }
        ensures refused { OnErr result (self.new ≡ self.old) }
    {
        self.insert(None, Some(form), depth)
    }

    // Makes an object, with one holder outside.
    fn insert(
        &mut self,
        text: Option<Text>,
        form: Option<T::Form>,
        depth: u64,
    ) -> Result<ObjId, NoMemory>
        requires takes { Takes T.table.parts self.old.graph (form_parts T.table.parts form) }
        requires spoken { text ≡ None → (f : T.Form) × (form ≡ Some f) × T.table.Spells f }
        requires fits { (s : List ℕ) (f : T.Form) → text ≡ Some s → form ≡ Some f
            → T.table.Fits s f (map (stands T.table self.old.graph) (T.table.parts f)) }
        requires depth { (f : T.Form) → form ≡ Some f → FitsDepth T.table self.old.graph f depth }
        requires plain { form ≡ None → depth ≡ 0 }
        ensures made { IfOk result (λ id.
            Adds T.table.parts self.old.graph id (new_object text form depth) self.new.graph) }
        ensures stands { IfOk result (λ id. stands T.table self.new.graph id
            ≡ said_by T.table text form (stands T.table self.old.graph)) }
        ensures holders { IfOk result (λ id. Passes T.table.parts
            self.old.graph (form_parts T.table.parts form) self.new.graph (id ∷ [])) }
        ensures keeps { Keeps T.table self.old.graph self.new.graph }
        ensures rest { self.new ≡ record self.old { graph = self.new.graph } }
        ensures refused { OnErr result (self.new ≡ self.old) }
    {
        let key = self.objects.insert(Object::new(text, form, depth))?;
        Ok(ObjId(key))
    }

    /// Adds a holder outside: the count rises by one, unless it stands at the greatest `u64`.
    pub fn share(&mut self, id: ObjId)
        requires { IsSome (at self.old.graph id) }
        ensures shared { (n : Object T.Form) → at self.old.graph id ≡ Some n
            → Updates self.old.graph self.new.graph id (Some (counted_up n 1)) }
        ensures holders { Passes T.table.parts self.old.graph [] self.new.graph (id ∷ []) }
        ensures keeps { Keeps T.table self.old.graph self.new.graph }
        ensures rest { self.new ≡ record self.old { graph = self.new.graph } }
    {
        let object = &mut self.objects[id.0];
        object.count = object.count.saturating_add(1);
    }

    /// Takes a holder outside away: the count falls by one, unless it stands at the greatest `u64`.
    /// At 0 the object goes and its parts are released. It takes no memory at any depth, and time in
    /// the number of objects that go and of their parts.
    pub fn release(&mut self, id: ObjId)
        requires { HasOutside T.table.parts self.old.graph id 1 }
        ensures released { Releases T.table.parts self.old.graph (id ∷ []) self.new.graph }
        ensures holders { Passes T.table.parts self.old.graph (id ∷ []) self.new.graph [] }
        ensures keeps { Keeps T.table self.old.graph self.new.graph }
        ensures rest { self.new ≡ record self.old { graph = self.new.graph } }
    {
        release_one(&self.types, &mut self.objects, id);
    }

    /// Gives an object that has its text a form that fits this text. The parts of the form, which
    /// don't lead to the object, pass from the caller to the object; those of the form that it had
    /// are released. The depth is from 1 to 50 and above that of each part.
    pub fn set_form(&mut self, id: ObjId, form: T::Form, depth: u64)
        requires has_text { IsSome (text_in (at self.old.graph id)) }
        requires fits { (s : List ℕ) → text_in (at self.old.graph id) ≡ Some s
            → T.table.Fits s form (map (stands T.table self.old.graph) (T.table.parts form)) }
        requires takes { Takes T.table.parts self.old.graph (T.table.parts form) }
        requires apart { (p : ℕ) → 0 < occurs p (T.table.parts form)
            → Leads T.table.parts self.old.graph p id → ⊥ }
        requires depth { FitsDepth T.table self.old.graph form depth }
        ensures set { (n : Object T.Form) → at self.old.graph id ≡ Some n → Releases T.table.parts
            (slice_set self.old.graph id (Some (record n { form = Some form; depth = depth })))
            (form_parts T.table.parts n.form) self.new.graph }
        ensures stays { HasOutside T.table.parts self.old.graph id 1 → IsSome (at self.new.graph id) }
        ensures rest_stays { (n : Object T.Form) → at self.old.graph id ≡ Some n
            → form_parts T.table.parts n.form ≡ [] → self.new.graph
            ≡ slice_set self.old.graph id (Some (record n { form = Some form; depth = depth })) }
        ensures holders { Passes T.table.parts self.old.graph (T.table.parts form) self.new.graph [] }
        ensures keeps { Keeps T.table self.old.graph self.new.graph }
        ensures rest { self.new ≡ record self.old { graph = self.new.graph; stats = self.new.stats } }
        ensures read { self.new.stats ≡ record self.old.stats {
          read = raised self.old.stats.read
              (cond (T.table.counts form) (text_size (at self.old.graph id)) 0);
        } }
    {
        let object = &mut self.objects[id.0];
        let read = points_read(&self.types, &object.text, &form);
        object.depth = depth;
        let old = mem::replace(&mut object.form, Some(form));
        release_form(&self.types, &mut self.objects, &old);
        self.stats.read = self.stats.read.saturating_add(read);
    }

    /// Makes the text of an object: what its form spells. Where parts have no texts, theirs are made
    /// too. The object, and each that it leads to, has a text or a form. After `NoMemory` no text is
    /// made.
    pub fn make_string(&mut self, id: ObjId) -> Result<(), NoMemory>
        requires there { IsSome (at self.old.graph id) }
        requires told { TellsBelow T.table.parts self.old.graph id }
        ensures made { OnOk result
            (text_in (at self.new.graph id) ≡ Some (stands T.table self.old.graph id)) }
        ensures retexts { Retexted T.table (Leads T.table.parts self.old.graph id)
            self.old.graph self.new.graph }
        ensures holders { Passes T.table.parts self.old.graph [] self.new.graph [] }
        ensures keeps { Keeps T.table self.old.graph self.new.graph }
        ensures rest { self.new ≡ record self.old {
          graph = self.new.graph;
          stats = record self.old.stats { spelled = self.new.stats.spelled };
        } }
        ensures spelled { OnOk result (Writes self.old.graph self.new.graph
            self.old.stats.spelled self.new.stats.spelled) }
        ensures refused { OnErr result (self.new ≡ self.old) }
    {
        let written = make_text(&self.types, self.alloc, &mut self.objects, id)?;
        self.stats.spelled = self.stats.spelled.saturating_add(written);
        Ok(())
    }

    /// Makes a copy of an object, with one holder outside. It has the form once more, whose parts are
    /// shared, with the same kept depth, and a copy of the text exactly where no form spells.
    pub fn duplicate(&mut self, id: ObjId) -> Result<ObjId, NoMemory>
        requires there { IsSome (at self.old.graph id) }
        requires told { Tells self.old.graph id }
        ensures duplicated { IfOk result (λ c.
            (m : Object T.Form) × Duplicates T.table self.old.graph id c m self.new.graph) }
        ensures holders { IfOk result (λ c.
            Passes T.table.parts self.old.graph [] self.new.graph (c ∷ [])) }
        ensures keeps { Keeps T.table self.old.graph self.new.graph }
        ensures rest { self.new ≡ record self.old { graph = self.new.graph; stats = self.new.stats } }
        ensures copied { OnOk result (self.new.stats ≡ record self.old.stats {
          copied
              = raised self.old.stats.copied (length (parts_at T.table.parts self.old.graph id));
        }) }
        ensures refused { OnErr result (self.new ≡ self.old) }
    {
        let object = &self.objects[id.0];
        let depth = object.depth;
        let (text, form) = copy_object(&self.types, self.alloc, object)?;
        self.objects.reserve(1)?;
        let parts = share_parts(&self.types, &mut self.objects, &form);
        self.stats.copied = self.stats.copied.saturating_add(parts);
        let key = self.objects.insert_reserved(Object::new(text, form, depth));
        Ok(ObjId(key))
    }

    /// Takes the form out of an object that nothing else holds, and its text away: no other object is
    /// open, and none that leads down to this one has a text. The parts pass to the caller. The object
    /// is open until `put_form`: it has neither text nor form, and what those that lead down to it
    /// stand for is not spoken of. Takes no memory.
    pub fn take_form(&mut self, id: ObjId) -> T::Form
        requires formed { IsSome (form_in (at self.old.graph id)) }
        requires alone { count_in (at self.old.graph id) ≡ 1 }
        requires closed { IsClosed self.old.graph }
        requires untold { IsUntold T.table.parts self.old.graph id }
        ensures form { form_in (at self.old.graph id) ≡ Some result }
        ensures taken { (n : Object T.Form) → at self.old.graph id ≡ Some n
            → Updates self.old.graph self.new.graph id
            (Some (record n { text = None; form = None; depth = 0 })) }
        ensures holders { Passes T.table.parts self.old.graph [] self.new.graph (T.table.parts result) }
        ensures says { SaysSameBelow T.table id self.old.graph self.new.graph }
        ensures sound { IsSound T.table self.new.graph }
        ensures closed { IsClosedBut self.new.graph id }
        ensures rest { self.new ≡ record self.old { graph = self.new.graph } }
    {
        let object = &mut self.objects[id.0];
        object.text = None;
        object.depth = 0;
        match object.form.take() {
            Some(form) => form,
            None => unreachable!(),
        }
    }

    /// Gives the open object a form that spells. The parts of the form, which don't lead to the object,
    /// pass from the caller to the object. The depth is from 1 to 50, above that of each part and below
    /// that of each object that holds this one. Those that lead down to it have no text. Takes no memory.
    pub fn put_form(&mut self, id: ObjId, form: T::Form, depth: u64)
        requires opened { IsOpen (at self.old.graph id) }
        requires spells { T.table.Spells form }
        requires takes { Takes T.table.parts self.old.graph (T.table.parts form) }
        requires apart { (p : ℕ) → 0 < occurs p (T.table.parts form)
            → Leads T.table.parts self.old.graph p id → ⊥ }
        requires depth { FitsDepth T.table self.old.graph form depth }
        requires below { IsBelow T.table.parts self.old.graph id depth }
        requires untold { IsUntold T.table.parts self.old.graph id }
        ensures put { (n : Object T.Form) → at self.old.graph id ≡ Some n
            → Updates self.old.graph self.new.graph id
            (Some (record n { form = Some form; depth = depth })) }
        ensures stands { stands T.table self.new.graph id
            ≡ T.table.spelled form (map (stands T.table self.old.graph) (T.table.parts form)) }
        ensures above { SaysByForm T.table self.new.graph }
        ensures holders { Passes T.table.parts self.old.graph (T.table.parts form) self.new.graph [] }
        ensures says { SaysSameBelow T.table id self.old.graph self.new.graph }
        ensures sound { IsSound T.table self.new.graph }
        ensures closed { IsClosedBut self.old.graph id → IsClosed self.new.graph }
        ensures rest { self.new ≡ record self.old { graph = self.new.graph } }
    {
        let object = &mut self.objects[id.0];
        object.form = Some(form);
        object.depth = depth;
    }

    /// Adds the text of another object to that of one that one holder alone has, which is outside. Both
    /// have their texts. The form of the first goes, and its parts are released. No counter rises. After
    /// `NoMemory` everything is as before.
    pub fn add_text(&mut self, id: ObjId, more: ObjId) -> Result<(), NoMemory>
        requires text { IsSome (text_in (at self.old.graph id)) }
        requires more { IsSome (text_in (at self.old.graph more)) }
        requires other { more ≢ id }
        requires alone { count_in (at self.old.graph id) ≡ 1 }
        requires free { held T.table.parts self.old.graph id ≡ 0 }
        ensures text { OnOk result (HasText T.table self.new.graph id
            (stands T.table self.old.graph id ++ stands T.table self.old.graph more)) }
        ensures added { OnOk result ((n : Object T.Form) → at self.old.graph id ≡ Some n
            → Releases T.table.parts (slice_set self.old.graph id (Some (retexted n
            (stands T.table self.old.graph id ++ stands T.table self.old.graph more))))
            (form_parts T.table.parts n.form) self.new.graph) }
        ensures says { SaysSameBut T.table id self.old.graph self.new.graph }
        ensures holders { Passes T.table.parts self.old.graph [] self.new.graph [] }
        ensures sound { IsSound T.table self.new.graph }
        ensures closed { IsClosed self.old.graph → IsClosed self.new.graph }
        ensures rest { self.new ≡ record self.old { graph = self.new.graph } }
        ensures refused { OnErr result (self.new ≡ self.old) }
    {
        let form = extend_text(&mut self.objects, id, more)?;
        release_form(&self.types, &mut self.objects, &form);
        Ok(())
    }

    /// How many holders the object has: parts, and holders outside.
    pub fn count(&self, id: ObjId) -> u64
        requires { IsSome (at self.now.graph id) }
        ensures value { result ≡ count_in (at self.now.graph id) }
        ensures counted { result ≢ stuck → held T.table.parts self.now.graph id ≤ result }
    {
        self.objects[id.0].count
    }

    /// How deep objects without a text nest from this one on: 0 where the text is made, else the
    /// kept depth.
    pub fn depth(&self, id: ObjId) -> u64
        requires { IsSome (at self.now.graph id) }
        ensures { result ≡ depth_of (at self.now.graph id) }
    {
        let object = &self.objects[id.0];
        if object.text.is_some() {
            0
        } else {
            object.depth
        }
    }

    /// The depth that was kept with the form, and 0 without a form.
    pub fn form_depth(&self, id: ObjId) -> u64
        requires { IsSome (at self.now.graph id) }
        ensures value { result ≡ depth_in (at self.now.graph id) }
        ensures plain { form_in (at self.now.graph id) ≡ None → result ≡ 0 }
    {
        self.objects[id.0].depth
    }

    /// Lends the text as UTF-8, where it is made.
    pub fn text(&self, id: ObjId) -> Option<&[u8]>
        requires { IsSome (at self.now.graph id) }
        ensures some { IfSome result (λ text.
            IsText text.now × HasText T.table self.now.graph id (chars text.now)) }
        ensures none { IfNone result (text_in (at self.now.graph id) ≡ None) }
    {
        match &self.objects[id.0].text {
            Some(text) => Some(text.bytes()),
            None => None,
        }
    }

    /// Lends the form, where the object has one.
    pub fn form(&self, id: ObjId) -> Option<&T::Form>
        requires { IsSome (at self.now.graph id) }
        ensures some { IfSome result (λ form. HasForm T.table self.now.graph id form.now) }
        ensures none { IfNone result (form_in (at self.now.graph id) ≡ None) }
    {
        self.objects[id.0].form.as_ref()
    }

    /// How much work the heap did so far.
    pub fn stats(&self) -> Stats
        ensures { result ≡ self.now.stats }
    {
        self.stats
    }
}

#[cfg(test)]
mod tests;
