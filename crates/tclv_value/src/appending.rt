// Elements that are added to list objects in place.
ghost use Rattle.std.specs.Prelude.{◌≡◌, ◌<◌, ◌+◌, ◌++◌, ◌∷◌, [], ℕ, List, map, length, max, Ok, Some, IsSome, IfOk, OnOk, OnErr};
ghost use Rattle.tclv_text.specs.Elements.{elements};
ghost use Rattle.tclv_heap.specs.Counters.{raised};
ghost use Rattle.tclv_heap.specs.Holders.{Passes};
ghost use Rattle.tclv_heap.specs.Graph.{at, form_in, depth_in, parts_at};
ghost use Rattle.tclv_heap.specs.Stands.{IsClosed, IsSound, Keeps, deepest, depth_of};
ghost use Rattle.tclv_value.specs.Appending.{HasRoom, CanAppend, CopiesList, Appended};
ghost use Rattle.tclv_value.specs.Forms.{form_table};
ghost use Rattle.tclv_value.specs.Kept.{list_in, list_at, HasList};
ghost use Rattle.tclv_value.specs.Places.{text_of, TextsStay};
ghost use Rattle.tclv_value.specs.declared.forms.Form.{Form};

use crate::forms::{Form, Forms};
use crate::kept_lists::kept_list;
use std::alloc::Global;
use tclv_forms::ListForm;
use tclv_heap::{Heap, ObjId};
use tclv_text::NoMemory;

/// A list with the object's elements and with room for one more, unless the object's own list has room.
pub(crate) fn next_list(
    heap: &Heap<Forms>,
    alloc: Global,
    id: ObjId,
) -> Result<Option<ListForm>, NoMemory>
    requires { IsSome (list_at heap.now.graph id) }
    ensures room { IfOk result (λ next. (f : Form) → form_in (at heap.now.graph id) ≡ Some f
        → HasRoom next f) }
    ensures elements { (ids : List ℕ) → list_at heap.now.graph id ≡ Some ids
        → elements (text_of heap.now.graph id) ≡ Ok (map (text_of heap.now.graph) ids) }
{
    let Some(list) = kept_list(heap, id) else {
        unreachable!()
    };
    if list.has_room() {
        return Ok(None);
    }
    let next = list.copy(alloc, list.len().max(4))?;
    Ok(Some(next))
}

/// Makes a copy of an object that is kept as a list, with one holder outside, and a longer list as
/// `next_list` does. The elements are shared. After `NoMemory` the copy is gone.
pub(crate) fn copy_list(
    heap: &mut Heap<Forms>,
    alloc: Global,
    id: ObjId,
) -> Result<(ObjId, Option<ListForm>), NoMemory>
    requires list { IsSome (list_at heap.old.graph id) }
    requires closed { IsClosed heap.old.graph }
    requires sound { IsSound form_table heap.old.graph }
    ensures copied { IfOk result (λ c. CopiesList heap.old.graph id heap.new.graph c.0) }
    ensures room { IfOk result (λ c. (f : Form) → form_in (at heap.new.graph c.0) ≡ Some f
        → HasRoom c.1 f) }
    ensures elements { (f : Form) × (ids : List ℕ) × HasList heap.old.graph id f ids }
    ensures holders { OnErr result (Passes form_table.parts heap.old.graph [] heap.new.graph []) }
    ensures keeps { Keeps form_table heap.old.graph heap.new.graph }
    ensures texts { TextsStay heap.old.graph heap.new.graph }
    ensures counted { OnOk result (heap.new.stats ≡ record heap.old.stats {
      copied
          = raised heap.old.stats.copied (length (parts_at form_table.parts heap.old.graph id));
    }) }
{
    match kept_list(heap, id) {
        Some(_) => {}
        None => unreachable!(),
    }
    let copy = heap.duplicate(id)?;
    match next_list(heap, alloc, copy) {
        Ok(next) => Ok((copy, next)),
        Err(error) => {
            heap.release(copy);
            Err(error)
        }
    }
}

/// Adds a value to an object's list, in place. Takes no memory.
pub(crate) fn append_value(heap: &mut Heap<Forms>, id: ObjId, value: ObjId, next: Option<ListForm>)
    requires can { CanAppend heap.old.graph id value }
    requires room { (f : Form) → form_in (at heap.old.graph id) ≡ Some f → HasRoom next f }
    ensures appended { Appended heap.old.graph id value heap.new.graph }
    ensures rest { heap.new ≡ record heap.old { graph = heap.new.graph } }
{
    let depth = depth_with(heap, id, value);
    let old = heap.take_form(id);
    let list = longer(next, old, value);
    heap.put_form(id, Form::List(list), depth);
}

/// The depth of an object's list with one more element, which is less than 50 deep.
pub(crate) fn depth_with(heap: &Heap<Forms>, id: ObjId, value: ObjId) -> u64
    requires id { IsSome (at heap.now.graph id) }
    requires value { IsSome (at heap.now.graph value) }
    requires shallow { depth_of (at heap.now.graph value) < deepest }
    ensures { result
        ≡ max (depth_in (at heap.now.graph id)) (depth_of (at heap.now.graph value) + 1) }
{
    let own = heap.form_depth(id);
    let above = heap.depth(value) + 1;
    own.max(above)
}

/// The list with one more element. There is room for it.
pub(crate) fn longer(next: Option<ListForm>, old: Form, value: ObjId) -> ListForm
    requires { HasRoom next old }
    ensures { (ids : List ℕ) → list_in (Some old) ≡ Some ids → result.ids ≡ ids ++ value ∷ [] }
{
    match next {
        Some(list) => pushed(list, value),
        None => match old {
            Form::List(list) => pushed(list, value),
            Form::Whole(_) => unreachable!(),
        },
    }
}

// The list, which has room, with one more element.
fn pushed(mut list: ListForm, value: ObjId) -> ListForm
    requires { 0 < list.room }
    ensures { result.ids ≡ list.ids ++ value ∷ [] }
{
    match list.push(value) {
        Ok(()) => list,
        Err(_) => unreachable!(),
    }
}
