// Elements of list objects that give way to other values, in place.
ghost use Rattle.std.specs.Prelude.{◌≡◌, ◌<◌, ◌≤◌, ◌+◌, ◌++◌, [], ℕ, List, map, length, max, Ok, Some, None, IsSome, IfOk, IfSome, OnOk, OnErr};
ghost use Rattle.std.specs.Result.{ForOk};
ghost use Rattle.tclv_text.specs.Elements.{elements};
ghost use Rattle.tclv_forms.specs.Lists.{spliced, between};
ghost use Rattle.tclv_heap.specs.Counters.{raised};
ghost use Rattle.tclv_heap.specs.Holders.{Holders, Passes};
ghost use Rattle.tclv_heap.specs.Graph.{at, occurs, form_in, depth_in, parts_at};
ghost use Rattle.tclv_heap.specs.Stands.{IsClosed, IsSound, Keeps, deepest, depth_of};
ghost use Rattle.tclv_value.specs.Appending.{CopiesList};
ghost use Rattle.tclv_value.specs.Forms.{form_table};
ghost use Rattle.tclv_value.specs.Kept.{list_in, list_at, HasList, IsAbove};
ghost use Rattle.tclv_value.specs.Places.{text_of, TextsStay};
ghost use Rattle.tclv_value.specs.Replacing.{IsNext, gone_from, CanReplace, Loses, Replaced};
ghost use Rattle.tclv_value.specs.declared.forms.Form.{Form};
ghost use Rattle.tclv_value.specs.declared.forms.Form.TheVariants as form;

use crate::forms::{Form, Forms};
use crate::kept_lists::{depth_over, kept_list};
use std::alloc::Global;
use tclv_forms::ListForm;
use tclv_heap::{Heap, ObjId};
use tclv_text::NoMemory;

/// The list that an object's list becomes where values stand in place of the elements from `from` up to
/// `to`, or none where they come behind its last element and it has room for them itself.
pub(crate) fn next_with(
    heap: &Heap<Forms>,
    alloc: Global,
    id: ObjId,
    from: usize,
    to: usize,
    values: &[ObjId],
) -> Result<Option<ListForm>, NoMemory>
    requires list { IsSome (list_at heap.now.graph id) }
    requires order { from ≤ to }
    requires within { ForOk (elements (text_of heap.now.graph id)) (λ ts. to ≤ length ts) }
    ensures next { IfOk result (λ next. (f : Form) → form_in (at heap.now.graph id) ≡ Some f
        → IsNext f from to values.now next) }
    ensures elements { (ids : List ℕ) → list_at heap.now.graph id ≡ Some ids
        → elements (text_of heap.now.graph id) ≡ Ok (map (text_of heap.now.graph) ids) }
{
    match kept_list(heap, id) {
        Some(list) => next_list(list, alloc, from, to, values),
        None => unreachable!(),
    }
}

// The list that a list becomes.
fn next_list(
    list: &ListForm,
    alloc: Global,
    from: usize,
    to: usize,
    values: &[ObjId],
) -> Result<Option<ListForm>, NoMemory>
    requires order { from ≤ to }
    requires within { to ≤ length list.now.ids }
    ensures { IfOk result (λ next. IsNext (form.List list.now) from to values.now next) }
{
    if from < list.len() {
        let next = list.replaced(alloc, from, to, values)?;
        return Ok(Some(next));
    }
    if list.has_room_for(values.len()) {
        return Ok(None);
    }
    let mut next = list.copy(alloc, list.len().max(values.len()).max(4))?;
    next.extend(values)?;
    Ok(Some(next))
}

/// Makes a copy of an object that is kept as a list, with one holder outside, and the list that its list
/// becomes, as `next_with` does. The elements are shared. After `NoMemory` the copy is gone.
pub(crate) fn copy_with(
    heap: &mut Heap<Forms>,
    alloc: Global,
    id: ObjId,
    from: usize,
    to: usize,
    values: &[ObjId],
) -> Result<(ObjId, Option<ListForm>), NoMemory>
    requires list { IsSome (list_at heap.old.graph id) }
    requires order { from ≤ to }
    requires within { ForOk (elements (text_of heap.old.graph id)) (λ ts. to ≤ length ts) }
    requires closed { IsClosed heap.old.graph }
    requires sound { IsSound form_table heap.old.graph }
    ensures copied { IfOk result (λ c. CopiesList heap.old.graph id heap.new.graph c.0) }
    ensures next { IfOk result (λ c. (f : Form) → form_in (at heap.new.graph c.0) ≡ Some f
        → IsNext f from to values.now c.1) }
    ensures elements { (f : Form) × (ids : List ℕ) × HasList heap.old.graph id f ids }
    ensures holders { OnErr result (Passes form_table.parts heap.old.graph [] heap.new.graph []) }
    ensures keeps { Keeps form_table heap.old.graph heap.new.graph }
    ensures texts { TextsStay heap.old.graph heap.new.graph }
    ensures counted { OnOk result (heap.new.stats ≡ record heap.old.stats {
      copied
          = raised heap.old.stats.copied (length (parts_at form_table.parts heap.old.graph id));
    }) }
{
    match kept_list(heap, id) {
        Some(_) => {}
        None => unreachable!(),
    }
    let copy = heap.duplicate(id)?;
    match next_of_copy(heap, alloc, copy, from, to, values) {
        Ok(next) => Ok((copy, next)),
        Err(error) => {
            heap.release(copy);
            Err(error)
        }
    }
}

// As `next_with`, of an object that is a copy.
fn next_of_copy(
    heap: &Heap<Forms>,
    alloc: Global,
    id: ObjId,
    from: usize,
    to: usize,
    values: &[ObjId],
) -> Result<Option<ListForm>, NoMemory>
    requires list { IsSome (list_at heap.now.graph id) }
    requires order { from ≤ to }
    requires within { (ids : List ℕ) → list_at heap.now.graph id ≡ Some ids → to ≤ length ids }
    ensures { IfOk result (λ next. (f : Form) → form_in (at heap.now.graph id) ≡ Some f
        → IsNext f from to values.now next) }
{
    match kept_list(heap, id) {
        Some(list) => next_list(list, alloc, from, to, values),
        None => unreachable!(),
    }
}

/// Puts values in place of elements of an object's list, in place. Takes no memory.
pub(crate) fn replace_values(
    heap: &mut Heap<Forms>,
    id: ObjId,
    from: usize,
    to: usize,
    values: &[ObjId],
    next: Option<ListForm>,
)
    requires can { CanReplace heap.old.graph id values.now }
    requires order { from ≤ to }
    requires within { (ids : List ℕ) → list_at heap.old.graph id ≡ Some ids → to ≤ length ids }
    requires next { (f : Form) → form_in (at heap.old.graph id) ≡ Some f
        → IsNext f from to values.now next }
    ensures replaced { Replaced heap.old.graph id from to values.now heap.new.graph }
    ensures rest { heap.new ≡ record heap.old { graph = heap.new.graph } }
{
    let depth = depth_with_all(heap, id, values);
    let old = heap.take_form(id);
    let (list, gone) = exchanged(next, old, from, to, values);
    heap.put_form(id, Form::List(list), depth);
    release_gone(heap, &gone, from, to);
}

// The depth of an object's list with these values, each of which is less than 50 deep.
fn depth_with_all(heap: &Heap<Forms>, id: ObjId, values: &[ObjId]) -> u64
    requires id { IsSome (at heap.now.graph id) }
    requires values { (p : ℕ) → 0 < occurs p values.now → IsSome (at heap.now.graph p) }
    requires shallow { (p : ℕ) → 0 < occurs p values.now → depth_of (at heap.now.graph p) < deepest }
    ensures { (above : ℕ) × IsAbove heap.now.graph values.now above
        × (result ≡ max (depth_in (at heap.now.graph id)) above) }
{
    match depth_over(heap, values) {
        Some(above) => heap.form_depth(id).max(above),
        None => unreachable!(),
    }
}

// The list with the values in place of elements, and the old list where that one is another.
fn exchanged(
    next: Option<ListForm>,
    old: Form,
    from: usize,
    to: usize,
    values: &[ObjId],
) -> (ListForm, Option<ListForm>)
    requires next { IsNext old from to values.now next }
    requires order { from ≤ to }
    requires within { (ids : List ℕ) → list_in (Some old) ≡ Some ids → to ≤ length ids }
    ensures list { (ids : List ℕ) → list_in (Some old) ≡ Some ids
        → result.0.ids ≡ spliced ids from to values.now }
    ensures gone { (ids : List ℕ) → list_in (Some old) ≡ Some ids
        → gone_from result.1 from to ≡ between ids from to }
    ensures within { IfSome result.1 (λ gone. to ≤ length gone.ids) }
{
    match old {
        Form::List(list) => match next {
            Some(next) => (next, Some(list)),
            None => (extended(list, values), None),
        },
        Form::Whole(_) => unreachable!(),
    }
}

// The list, which has room, with these elements behind its last one.
fn extended(mut list: ListForm, values: &[ObjId]) -> ListForm
    requires { length values.now ≤ list.room }
    ensures { result.ids ≡ list.ids ++ values.now }
{
    match list.extend(values) {
        Ok(()) => list,
        Err(_) => unreachable!(),
    }
}

// Takes a holder of each object away from `from` up to `to` of a list, if there is one.
fn release_gone(heap: &mut Heap<Forms>, gone: &Option<ListForm>, from: usize, to: usize)
    requires order { from ≤ to }
    requires within { IfSome gone.now (λ list. to ≤ length list.ids) }
    requires holders { (ids : List ℕ)
        × Holders form_table.parts heap.old.graph (gone_from gone.now from to ++ ids) }
    requires sound { IsSound form_table heap.old.graph }
    ensures lost { Loses heap.old.graph (gone_from gone.now from to) heap.new.graph }
    ensures rest { heap.new ≡ record heap.old { graph = heap.new.graph } }
{
    let Some(list) = gone else {
        return;
    };
    for k in 0..to - from {
        heap.release(list.at(from + k));
    }
}
