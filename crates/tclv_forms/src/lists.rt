// Lists of objects.
ghost use Rattle.std.specs.Prelude.{◌≡◌, ◌+◌, ◌-◌, ◌<◌, ◌≤◌, ◌∷◌, ◌++◌, [], length, IsTrue, ◌↔◌, IsOk, IfOk, OnOk, OnErr, slice_index, slice_set};
ghost use Rattle.tclv_forms.specs.Lists.{spliced, between};

use std::alloc::Global;
use std::marker::Model;
use tclv_heap::ObjId;
use tclv_text::NoMemory;

/// A list of objects. Contracts see the objects, and how many more the list takes without memory.
#[derive(Drop)]
pub struct ListForm {
    items: Vec<ObjId>,
}

impl Model for ListForm {
    ghost use Rattle.tclv_forms.specs.Lists.{Items, items_code};
    ghost use Rattle.std.specs.Prelude.{◌-◌};

    ghost Value = { Items };

    ghost coded = { items_code };

    ghost view = { λ l. record { ids = l.items.items; room = l.items.cap - l.items.len } };
}

impl ListForm {
    /// The empty list.
    pub fn new(alloc: Global) -> ListForm
        ensures { result.ids ≡ [] }
    {
        ListForm {
            items: Vec::new(alloc),
        }
    }

    /// The empty list with room for so many objects.
    pub fn with_room(alloc: Global, room: usize) -> Result<ListForm, NoMemory>
        ensures ids { IfOk result (λ l. l.ids ≡ []) }
        ensures room { IfOk result (λ l. room ≤ l.room) }
    {
        let items = Vec::with_capacity(alloc, room)?;
        Ok(ListForm { items })
    }

    /// The list of these objects.
    pub fn from_slice(alloc: Global, ids: &[ObjId]) -> Result<ListForm, NoMemory>
        ensures { IfOk result (λ l. l.ids ≡ ids.now) }
    {
        let items = Vec::from_slice(alloc, ids)?;
        Ok(ListForm { items })
    }

    /// How many objects it has. Takes no memory.
    pub fn len(&self) -> usize
        ensures { result ≡ length self.now.ids }
    {
        self.items.len()
    }

    /// The object at a place, counted from 0, below the length. Takes no memory.
    pub fn at(&self, k: usize) -> ObjId
        requires { k < length self.now.ids }
        ensures { result ≡ slice_index self.now.ids k }
    {
        self.items[k]
    }

    /// Whether one more object needs no memory.
    pub fn has_room(&self) -> bool
        ensures { IsTrue result ↔ (0 < self.now.room) }
    {
        self.has_room_for(1)
    }

    /// Whether so many more objects need no memory.
    pub fn has_room_for(&self, more: usize) -> bool
        ensures { IsTrue result ↔ (more ≤ self.now.room) }
    {
        more <= self.items.capacity() - self.items.len()
    }

    /// Adds an object at the end. Where there is room it needs no memory. After `NoMemory` the list is
    /// as before.
    pub fn push(&mut self, id: ObjId) -> Result<(), NoMemory>
        ensures pushed { OnOk result (self.new.ids ≡ self.old.ids ++ id ∷ []) }
        ensures room { 0 < self.old.room → IsOk result }
        ensures fills { self.old.room ≤ self.new.room + 1 }
        ensures refused { OnErr result (self.new.ids ≡ self.old.ids) }
    {
        self.items.push(id)?;
        Ok(())
    }

    /// Puts an object at a place, counted from 0, below the length, and gives back the one that was
    /// there. Takes no memory.
    pub fn set(&mut self, k: usize, id: ObjId) -> ObjId
        requires { k < length self.old.ids }
        ensures old { result ≡ slice_index self.old.ids k }
        ensures set { self.new.ids ≡ slice_set self.old.ids k id }
    {
        let old = self.items[k];
        self.items[k] = id;
        old
    }

    /// Adds objects at the end, in order. Where there is room for all of them it needs no memory. After
    /// `NoMemory` the list is as before.
    pub fn extend(&mut self, ids: &[ObjId]) -> Result<(), NoMemory>
        ensures extended { OnOk result (self.new.ids ≡ self.old.ids ++ ids.now) }
        ensures room { length ids.now ≤ self.old.room → IsOk result }
        ensures refused { OnErr result (self.new.ids ≡ self.old.ids) }
    {
        self.items.extend_from_slice(ids)?;
        Ok(())
    }

    /// Puts objects in place of those from `from` up to but not including `to`, counted from 0, which are
    /// added to `out`. `from` is at most `to`, and `to` at most the length. After `NoMemory` both are as
    /// before.
    pub fn splice(
        &mut self,
        from: usize,
        to: usize,
        put: &[ObjId],
        out: &mut Vec<ObjId>,
    ) -> Result<(), NoMemory>
        requires order { from ≤ to }
        requires within { to ≤ length self.old.ids }
        ensures spliced { OnOk result (self.new.ids ≡ spliced self.old.ids from to put.now) }
        ensures out { OnOk result (out.new.items ≡ out.old.items ++ between self.old.ids from to) }
        ensures refused { OnErr result (self.new.ids ≡ self.old.ids) }
        ensures kept { OnErr result (out.new.items ≡ out.old.items) }
    {
        let next = self.replaced(*self.items.allocator(), from, to, put)?;
        out.extend_from_slice(&self.items[from..to])?;
        *self = next;
        Ok(())
    }

    /// A list with the same objects, but for these in place of those from `from` up to but not including
    /// `to`, counted from 0. `from` is at most `to`, and `to` at most the length.
    pub fn replaced(
        &self,
        alloc: Global,
        from: usize,
        to: usize,
        put: &[ObjId],
    ) -> Result<ListForm, NoMemory>
        requires order { from ≤ to }
        requires within { to ≤ length self.now.ids }
        ensures { IfOk result (λ l. l.ids ≡ spliced self.now.ids from to put.now) }
    {
        let mut items = Vec::from_slice(alloc, &self.items[..from])?;
        items.extend_from_slice(put)?;
        items.extend_from_slice(&self.items[to..])?;
        Ok(ListForm { items })
    }

    /// The same list once more, with room for `more` objects.
    pub fn copy(&self, alloc: Global, more: usize) -> Result<ListForm, NoMemory>
        ensures ids { IfOk result (λ l. l.ids ≡ self.now.ids) }
        ensures room { IfOk result (λ l. more ≤ l.room) }
    {
        let mut items = Vec::from_slice(alloc, self.items.as_slice())?;
        items.reserve(more)?;
        Ok(ListForm { items })
    }
}
