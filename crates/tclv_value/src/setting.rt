// Elements of list objects that are set, in place.
ghost use Rattle.std.specs.Prelude.{◌≡◌, ◌+◌, ◌<◌, ◌≤◌, [], ℕ, List, length, max, Some, IsSome, IsOk, IsOkAnd, IfSome, IfOk, OnOk, OnErr, slice_get};
ghost use Rattle.tclv_heap.specs.Holders.{Passes};
ghost use Rattle.tclv_value.specs.Forms.{form_table};
ghost use Rattle.tclv_value.specs.Places.{text_of, TextsStay};
ghost use Rattle.tclv_text.specs.Elements.{elements};
ghost use Rattle.tclv_text.specs.Quotes.{list_text};
ghost use Rattle.tclv_forms.specs.Lists.{Items};
ghost use Rattle.tclv_heap.specs.Graph.{at, form_in, depth_in, HasOutside};
ghost use Rattle.tclv_heap.specs.Stands.{IsClosed, IsSound, Keeps, deepest, depth_of};
ghost use Rattle.tclv_value.specs.Appending.{CanAppend};
ghost use Rattle.tclv_value.specs.Kept.{list_in, list_at, IsAbove, IsOutside};
ghost use Rattle.tclv_value.specs.Paths.{put_at};
ghost use Rattle.tclv_value.specs.Setting.{CanSwap, Swaps, CanChange, ListChanged, MakesList, LetsGo, HasRoomAt, SetsElement, text_with, copied_more};
ghost use Rattle.tclv_value.specs.Ways.{LeavesOthers};
ghost use Rattle.tclv_value.specs.declared.forms.Form.TheVariants as form;

use crate::appending::{copy_list, depth_with, longer, next_list};
use crate::forms::{Form, Forms};
use crate::kept_lists::length_of;
use std::alloc::Global;
use tclv_forms::ListForm;
use tclv_heap::{Heap, ObjId};
use tclv_text::NoMemory;

/// Puts a value at a place of an object's list, in place. At the list's length the value is added. The
/// holder of the element that was there goes, and the value gets one more. After `NoMemory` everything
/// is as before. Below the length no memory is needed.
pub(crate) fn change_in_place(
    heap: &mut Heap<Forms>,
    alloc: Global,
    id: ObjId,
    place: usize,
    value: ObjId,
) -> Result<(), NoMemory>
    requires can { CanChange heap.old.graph id value }
    requires within { IsOkAnd (elements (text_of heap.old.graph id)) (λ ts. place ≤ length ts) }
    ensures changed { OnOk result (IsOkAnd (elements (text_of heap.old.graph id)) (λ ts.
        ListChanged heap.old.graph id (list_text (put_at ts place (text_of heap.old.graph value)))
        heap.new.graph)) }
    ensures refused { OnErr result (heap.new ≡ heap.old) }
    ensures stats { heap.new.stats ≡ heap.old.stats }
    ensures memory { IsOkAnd (elements (text_of heap.old.graph id)) (λ ts. place < length ts)
        → IsOk result }
{
    let len = length_of(heap, id);
    let next = room_at(heap, alloc, id, place, len)?;
    change_with(heap, alloc, id, place, value, next);
    Ok(())
}

/// Makes a copy of an object that is kept as a list, with a value at a place, and with one holder
/// outside. The other elements are shared. After `NoMemory` the copy is gone.
pub(crate) fn copy_with(
    heap: &mut Heap<Forms>,
    alloc: Global,
    id: ObjId,
    place: usize,
    value: ObjId,
) -> Result<ObjId, NoMemory>
    requires list { IsSome (list_at heap.old.graph id) }
    requires within { IsOkAnd (elements (text_of heap.old.graph id)) (λ ts. place ≤ length ts) }
    requires value { IsOutside heap.old.graph value }
    requires shallow { depth_of (at heap.old.graph value) < deepest }
    requires closed { IsClosed heap.old.graph }
    requires sound { IsSound form_table heap.old.graph }
    ensures copied { IfOk result (λ c. IsOkAnd (elements (text_of heap.old.graph id)) (λ ts.
        MakesList heap.old.graph heap.new.graph c
        (list_text (put_at ts place (text_of heap.old.graph value))))) }
    ensures holders { OnErr result (Passes form_table.parts heap.old.graph [] heap.new.graph []) }
    ensures keeps { OnErr result (Keeps form_table heap.old.graph heap.new.graph) }
    ensures texts { OnErr result (TextsStay heap.old.graph heap.new.graph) }
    ensures counted { OnOk result (IsOkAnd (elements (text_of heap.old.graph id)) (λ ts.
        heap.new.stats ≡ copied_more heap.old.stats (length ts))) }
{
    let (copy, next) = copy_list(heap, alloc, id)?;
    change_with(heap, alloc, copy, place, value, next);
    Ok(copy)
}

/// Room for one more element in a list of this length, where the place is the one behind the last.
pub(crate) fn room_at(
    heap: &Heap<Forms>,
    alloc: Global,
    id: ObjId,
    place: usize,
    len: u64,
) -> Result<Option<ListForm>, NoMemory>
    requires list { IsSome (list_at heap.now.graph id) }
    requires len { (ids : List ℕ) → list_at heap.now.graph id ≡ Some ids → len ≡ length ids }
    ensures room { IfOk result (λ next. (list : Items)
        → form_in (at heap.now.graph id) ≡ Some (form.List list) → HasRoomAt place next list) }
    ensures memory { place < len → IsOk result }
{
    if (place as u64) < len {
        return Ok(None);
    }
    next_list(heap, alloc, id)
}

/// Puts a value at a place of an object's list, in place: the value gets one more holder, and the
/// element that was there loses one. There is room. Takes no memory.
pub(crate) fn change_with(
    heap: &mut Heap<Forms>,
    alloc: Global,
    id: ObjId,
    place: usize,
    value: ObjId,
    next: Option<ListForm>,
)
    requires can { CanChange heap.old.graph id value }
    requires within { (ids : List ℕ) → list_at heap.old.graph id ≡ Some ids → place ≤ length ids }
    requires room { (list : Items) → form_in (at heap.old.graph id) ≡ Some (form.List list)
        → HasRoomAt place next list }
    ensures changed { ListChanged heap.old.graph id (text_with heap.old.graph id place value)
        heap.new.graph }
    ensures others { LeavesOthers heap.old.graph id value heap.new.graph }
    ensures rest { heap.new ≡ record heap.old { graph = heap.new.graph } }
{
    heap.share(value);
    let gone = set_element(heap, alloc, id, place, value, next);
    release_gone(heap, gone);
}

// Takes a holder of an object away, if there is one.
fn release_gone(heap: &mut Heap<Forms>, gone: Option<ObjId>)
    requires outside { IfSome gone (λ p. HasOutside form_table.parts heap.old.graph p 1) }
    requires sound { IsSound form_table heap.old.graph }
    ensures gone { LetsGo heap.old.graph gone heap.new.graph }
    ensures rest { heap.new ≡ record heap.old { graph = heap.new.graph } }
{
    if let Some(gone) = gone {
        heap.release(gone);
    }
}

/// Puts a value at a place of an object's list, in place, and gives the element that was there, whose
/// holder passes to the caller. At the list's length the value is added. Takes no memory.
pub(crate) fn set_element(
    heap: &mut Heap<Forms>,
    alloc: Global,
    id: ObjId,
    place: usize,
    value: ObjId,
    next: Option<ListForm>,
) -> Option<ObjId>
    requires can { CanAppend heap.old.graph id value }
    requires within { (ids : List ℕ) → list_at heap.old.graph id ≡ Some ids → place ≤ length ids }
    requires room { (list : Items) → form_in (at heap.old.graph id) ≡ Some (form.List list)
        → HasRoomAt place next list }
    ensures set { SetsElement heap.old.graph id place value heap.new.graph result }
    ensures depth { depth_of (at heap.new.graph id)
        ≡ max (depth_in (at heap.old.graph id)) (depth_of (at heap.old.graph value) + 1) }
    ensures rest { heap.new ≡ record heap.old { graph = heap.new.graph } }
{
    let depth = depth_with(heap, id, value);
    let old = swap_list(heap, id, ListForm::new(alloc), 1);
    let (list, gone) = with_value(old, next, place, value);
    swap_list(heap, id, list, depth);
    gone
}

/// Gives an object another list, in place, and hands out the one that it had. The elements of the new
/// one pass from the caller to the object, those of the old one to the caller. Takes no memory.
pub(crate) fn swap_list(heap: &mut Heap<Forms>, id: ObjId, list: ListForm, depth: u64) -> ListForm
    requires can { CanSwap heap.old.graph id list.ids }
    requires depth { IsAbove heap.old.graph list.ids depth }
    ensures swapped { Swaps heap.old.graph id list.ids depth heap.new.graph result.ids }
    ensures was { form_in (at heap.old.graph id) ≡ Some (form.List result) }
    ensures rest { heap.new ≡ record heap.old { graph = heap.new.graph } }
{
    let old = heap.take_form(id);
    heap.put_form(id, Form::List(list), depth);
    list_of(old)
}

// The list of a form that is one.
fn list_of(kept: Form) -> ListForm
    requires { IsSome (list_in (Some kept)) }
    ensures { kept ≡ form.List result }
{
    match kept {
        Form::List(list) => list,
        Form::Whole(_) => unreachable!(),
    }
}

// The list with the value at a place, and the element that was there.
fn with_value(
    old: ListForm,
    next: Option<ListForm>,
    place: usize,
    value: ObjId,
) -> (ListForm, Option<ObjId>)
    requires within { place ≤ length old.ids }
    requires room { HasRoomAt place next old }
    ensures list { result.0.ids ≡ put_at old.ids place value }
    ensures gone { result.1 ≡ slice_get old.ids place }
{
    if place < old.len() {
        let mut list = old;
        let gone = list.set(place, value);
        return (list, Some(gone));
    }
    (longer(next, Form::List(old), value), None)
}
