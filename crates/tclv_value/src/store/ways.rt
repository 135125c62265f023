// A value that is put at the end of a path of more than one index.
ghost use Rattle.std.specs.Prelude.{◌≡◌, ◌+◌, ◌-◌, ◌<◌, ◌≤◌, ℕ, List, length, take, Ok, IsTrue, IsOkAnd, OnOk, OnErr, IfSome, IfNone, IfOk, IfErr};
ghost use Rattle.tclv_heap.specs.Stands.{deepest};
ghost use Rattle.tclv_value.specs.View.{HasPlace, text_at, id_of};
ghost use Rattle.tclv_value.specs.Stacks.{top};
ghost use Rattle.tclv_value.specs.Changes.{IsUnder, KeepsTexts, Grows, Puts};
ghost use Rattle.tclv_value.specs.ListObjects.{IsListAt};
ghost use Rattle.tclv_value.specs.Paths.{set_path, RefusesPath};
ghost use Rattle.tclv_value.specs.SetObjects.{IsOpenAt, SetsAlong};
ghost use Rattle.tclv_value.specs.Ways.{Opens, text_along};
ghost use Rattle.tclv_value.specs.declared.faults.ValueFault.TheVariants as fault;
ghost use Rattle.tclv_value.specs.declared.places.At.TheVariants.{Stack};

use super::Store;
use crate::faults::ValueFault;
use crate::list_paths::place_of;
use crate::places::{At, index_objects, object_at};
use crate::ways::{Way, change_along, find_way};
use tclv_text::NoMemory;

impl Store {
    // Puts the top text, which is the value, at the end of the path of the texts below it: in place
    // where the way is open, also where lists on it are read only now, and by texts else.
    pub(super) fn set_deep(&mut self, at: At, path: usize) -> Result<(), ValueFault>
        requires path { 0 < path }
        requires place { IsUnder self.old (path + 1) at }
        ensures set { OnOk result (IsOkAnd
            (set_path 0 (text_at self.old at) (take path (top (path + 1) self.old.stack))
            (text_at self.old (Stack (length self.old.stack - 1))))
            (λ text. Puts self.old (path + 1) at text self.new)) }
        ensures refused { IfErr result (λ fault. RefusesPath fault
            (set_path 0 (text_at self.old at) (take path (top (path + 1) self.old.stack))
            (text_at self.old (Stack (length self.old.stack - 1))))) }
        ensures kept { OnErr result (KeepsTexts self.old self.new) }
        ensures along { OnOk result (SetsAlong self.old at path self.new) }
        ensures opens { IfErr result (λ why. IsOpenAt self.old at path → why ≡ fault.NoMemory) }
    {
        if self.set_along(at, path)? {
            return Ok(());
        }
        self.write_indices(path)?;
        self.read_along(at, path);
        if self.set_along(at, path)? {
            return Ok(());
        }
        self.set_by_texts(at, path)
    }

    // Makes the texts of the indices of a path, which stand below the top text.
    fn write_indices(&mut self, path: usize) -> Result<(), NoMemory>
        requires { path + 1 ≤ length self.old.stack }
        ensures { KeepsTexts self.old self.new }
    {
        let low = self.height() - 1 - path;
        for k in 0..path {
            self.write_text(At::Stack(low + k))?;
        }
        Ok(())
    }

    // As `set_deep`, where the way is open. Else nothing changes, and the answer is no.
    fn set_along(&mut self, at: At, path: usize) -> Result<bool, NoMemory>
        requires path { 0 < path }
        requires place { IsUnder self.old (path + 1) at }
        ensures set { IfOk result (λ done. IsTrue done → IsOkAnd
            (set_path 0 (text_at self.old at) (take path (top (path + 1) self.old.stack))
            (text_at self.old (Stack (length self.old.stack - 1))))
            (λ text. Puts self.old (path + 1) at text self.new)) }
        ensures same { IfOk result (λ done. IsTrue done → id_of self.new at ≡ id_of self.old at) }
        ensures listed { IfOk result (λ done. IsTrue done → IsListAt self.new at) }
        ensures finds { IfOk result (λ done. IsOpenAt self.old at path → IsTrue done) }
        ensures stats { self.new.stats ≡ self.old.stats }
        ensures kept { IfOk result (λ done. (IsTrue done → ⊥) → self.new ≡ self.old) }
        ensures refused { OnErr result (self.new ≡ self.old) }
    {
        let n = self.texts_of(path);
        let Some(way) = self.way_of(at, path)? else {
            return Ok(false);
        };
        self.go_along(at, way);
        self.drop_top(n);
        Ok(true)
    }

    // How many texts a path and the value above it are.
    fn texts_of(&self, path: usize) -> usize
        requires { path + 1 ≤ length self.now.stack }
        ensures { result ≡ path + 1 }
    {
        let low = self.height() - 1 - path;
        self.height() - low
    }

    // The way that the indices below the top text lead from a place on, where the top text can be put
    // at its end in place.
    fn way_of(&self, at: At, path: usize) -> Result<Option<Way>, NoMemory>
        requires path { 0 < path }
        requires place { IsUnder self.now (path + 1) at }
        ensures none { IfOk result (λ found. IfNone found (IsOpenAt self.now at path → ⊥)) }
        ensures way { IfOk result (λ found. IfSome found (λ way.
            Opens self.now.graph way.next (id_of self.now (Stack (length self.now.stack - 1))) deepest
            (id_of self.now at) way.places.items
            × ((x : List ℕ)
            → set_path 0 (text_at self.now at) (take path (top (path + 1) self.now.stack)) x
            ≡ Ok (text_along self.now.graph (id_of self.now at) way.places.items x)))) }
    {
        let id = object_at(self.stack.as_slice(), &self.cells, at);
        let value = self.stack[self.stack.len() - 1];
        let indices = index_objects(self.stack.as_slice(), path);
        find_way(&self.heap, self.alloc, id, indices, value)
    }

    // Puts the top text, which stays, at the end of a way from a place on, in place.
    fn go_along(&mut self, at: At, way: Way)
        requires place { IsUnder self.old 1 at }
        requires opens { Opens self.old.graph way.next
            (id_of self.old (Stack (length self.old.stack - 1))) deepest (id_of self.old at) way.places.items }
        ensures changed { Puts self.old 0 at (text_along self.old.graph (id_of self.old at) way.places.items
            (text_at self.old (Stack (length self.old.stack - 1)))) self.new }
        ensures same { id_of self.new at ≡ id_of self.old at }
        ensures listed { IsListAt self.new at }
        ensures stats { self.new.stats ≡ self.old.stats }
    {
        let id = object_at(self.stack.as_slice(), &self.cells, at);
        let value = self.stack[self.stack.len() - 1];
        let places = way.places;
        change_along(
            &mut self.heap,
            self.alloc,
            id,
            places.as_slice(),
            value,
            way.next,
            50,
        );
    }

    // Reads the lists on a path, as far as it leads to elements. No text changes.
    fn read_along(&mut self, at: At, path: usize)
        requires { IsUnder self.old (path + 1) at }
        ensures { KeepsTexts self.old self.new }
    {
        let height = self.height();
        let _read = self.read_levels(at, path);
        self.pop(self.height() - height);
    }

    // Reads the list of a place, and pushes the element that the first index of a path names, and then
    // that list's element, and so on.
    fn read_levels(&mut self, at: At, path: usize) -> Result<(), ValueFault>
        requires { IsUnder self.old (path + 1) at }
        ensures { Grows self.old self.new }
    {
        let low = self.height() - 1 - path;
        let mut list = at;
        for k in 0..path {
            self.read_level(list, low + k)?;
            list = At::Stack(self.height() - 1);
        }
        Ok(())
    }

    // Reads the list of a place, and pushes the element that an index names.
    fn read_level(&mut self, list: At, index: usize) -> Result<(), ValueFault>
        requires list { HasPlace self.old list }
        requires index { index < length self.old.stack }
        ensures grows { Grows self.old self.new }
        ensures pushed { OnOk result (length self.old.stack < length self.new.stack) }
    {
        let len = self.list_len(list)?;
        let place = self.place_at(index, len)?;
        if self.push_element(list, place)? {
            Ok(())
        } else {
            Err(ValueFault::BadIndex)
        }
    }

    // The place that a text names in a list of so many elements, where it is made.
    fn place_at(&self, index: usize, len: u64) -> Result<u64, ValueFault>
        requires { index < length self.now.stack }
    {
        match self.text(At::Stack(index)) {
            Some(text) => Ok(place_of(text, len as usize, 0)? as u64),
            None => Err(ValueFault::BadIndex),
        }
    }
}
