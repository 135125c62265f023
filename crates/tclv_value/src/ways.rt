// A value that is put at the end of a way through lists in lists, in place.
ghost use Rattle.std.specs.Prelude.{◌≡◌, ◌<◌, ◌≤◌, [], ◌∷◌, ℕ, List, map, length, Ok, Some, IsSome, IfSome, IfNone, IfOk};
ghost use Rattle.std.specs.List.{All};
ghost use Rattle.tclv_text.specs.Indices.{index};
ghost use Rattle.tclv_forms.specs.Lists.{Items};
ghost use Rattle.tclv_heap.specs.Graph.{at, form_in, text_in};
ghost use Rattle.tclv_heap.specs.Stands.{deepest, depth_of};
ghost use Rattle.tclv_value.specs.Kept.{list_at};
ghost use Rattle.tclv_value.specs.Paths.{place_or, step, set_path};
ghost use Rattle.tclv_value.specs.Places.{text_of};
ghost use Rattle.tclv_value.specs.Setting.{HasRoomAt};
ghost use Rattle.tclv_value.specs.Ways.{ids_at, IsUnshared, Opens, NamesPlace, LeadsOpen, CanGo, Goes, text_along};
ghost use Rattle.tclv_value.specs.declared.forms.Form.TheVariants as form;

use crate::forms::Forms;
use crate::kept_lists::{element_of, kept_list, length_of};
use crate::list_paths::place_of;
use crate::setting::{change_with, room_at, swap_list};
use std::alloc::Global;
use tclv_forms::ListForm;
use tclv_heap::{Heap, ObjId};
use tclv_text::NoMemory;

/// The places of a way that is open, and a list with room for one more element where that is needed at
/// its end.
#[derive(Drop)]
pub(crate) struct Way {
    pub(crate) places: Vec<usize>,
    pub(crate) next: Option<ListForm>,
}

/// Puts a value at the end of a way through lists in lists, in place: each object on it stays, and none
/// of them is deeper than `high` afterwards. Takes no memory.
pub(crate) fn change_along(
    heap: &mut Heap<Forms>,
    alloc: Global,
    id: ObjId,
    places: &[usize],
    value: ObjId,
    next: Option<ListForm>,
    high: u64,
)
    requires can { CanGo heap.old.graph next id value high places.now }
    requires high { high ≤ deepest }
    ensures changed { Goes heap.old.graph id value high
        (text_along heap.old.graph id places.now (text_of heap.old.graph value)) heap.new.graph }
    ensures rest { heap.new ≡ record heap.old { graph = heap.new.graph } }
{
    let place = places[0];
    if places.len() == 1 {
        change_with(heap, alloc, id, place, value, next);
        return;
    }
    let own = heap.form_depth(id);
    let list = swap_list(heap, id, ListForm::new(alloc), 1);
    let part = list.at(place);
    change_along(heap, alloc, part, &places[1..], value, next, high - 1);
    let depth = own.max(heap.depth(part) + 1);
    swap_list(heap, id, list, depth);
}

/// The way that indices lead from an object on, where the value can be put at its end in place.
pub(crate) fn find_way(
    heap: &Heap<Forms>,
    alloc: Global,
    id: ObjId,
    indices: &[ObjId],
    value: ObjId,
) -> Result<Option<Way>, NoMemory>
    requires id { IsSome (at heap.now.graph id) }
    requires indices { All (λ o. IsSome (at heap.now.graph o)) indices.now }
    requires some { 0 < length indices.now }
    requires value { IsSome (at heap.now.graph value) }
    ensures way { IfOk result (λ found. IfSome found (λ way.
        Opens heap.now.graph way.next value deepest id way.places.items
        × ((x : List ℕ) → set_path 0 (text_of heap.now.graph id) (map (text_of heap.now.graph) indices.now) x
        ≡ Ok (text_along heap.now.graph id way.places.items x)))) }
    ensures none { IfOk result (λ found. IfNone found
        (All (λ o. IsSome (text_in (at heap.now.graph o))) indices.now
        → LeadsOpen heap.now.graph value deepest id indices.now → ⊥)) }
{
    reach(heap, alloc, id, indices, value, 50)
}

// The way that indices lead from an object on, where it is open and each depth stays in bounds.
fn reach(
    heap: &Heap<Forms>,
    alloc: Global,
    id: ObjId,
    indices: &[ObjId],
    value: ObjId,
    high: u64,
) -> Result<Option<Way>, NoMemory>
    requires id { IsSome (at heap.now.graph id) }
    requires indices { All (λ o. IsSome (at heap.now.graph o)) indices.now }
    requires some { 0 < length indices.now }
    requires value { IsSome (at heap.now.graph value) }
    ensures way { IfOk result (λ found. IfSome found (λ way.
        Opens heap.now.graph way.next value high id way.places.items
        × ((level : ℕ) (x : List ℕ)
        → set_path level (text_of heap.now.graph id) (map (text_of heap.now.graph) indices.now) x
        ≡ Ok (text_along heap.now.graph id way.places.items x)))) }
    ensures none { IfOk result (λ found. IfNone found
        (All (λ o. IsSome (text_in (at heap.now.graph o))) indices.now
        → LeadsOpen heap.now.graph value high id indices.now → ⊥)) }
{
    let Some(place) = opened(heap, id, indices[0], high) else {
        return Ok(None);
    };
    if indices.len() == 1 {
        return end_of(heap, alloc, id, place, value, high);
    }
    if high <= 1 {
        return Ok(None);
    }
    let Some(part) = element_of(heap, id, place as u64) else {
        return Ok(None);
    };
    match reach(heap, alloc, part, &indices[1..], value, high - 1)? {
        Some(rest) => way_from(alloc, place, rest),
        None => Ok(None),
    }
}

// A way with one more place before it.
fn way_from(alloc: Global, place: usize, rest: Way) -> Result<Option<Way>, NoMemory>
    ensures some { IfOk result (λ found. IsSome found) }
    ensures way { IfOk result (λ found. IfSome found (λ way.
        (way.places.items ≡ place ∷ rest.places.items) × (way.next ≡ rest.next))) }
{
    let mut places = Vec::with_capacity(alloc, rest.places.len() + 1)?;
    places.push(place)?;
    places.extend_from_slice(rest.places.as_slice())?;
    Ok(Some(Way {
        places,
        next: rest.next,
    }))
}

// The place that an index names in an object, where that is kept as a list, one holder alone has it and
// its depth is in bounds.
fn opened(heap: &Heap<Forms>, id: ObjId, index: ObjId, high: u64) -> Option<usize>
    requires id { IsSome (at heap.now.graph id) }
    requires index { IsSome (at heap.now.graph index) }
    ensures some { IfSome result (λ k. IsUnshared heap.now.graph high id k × ((level : ℕ)
        → step level (text_of heap.now.graph id) (text_of heap.now.graph index)
        ≡ Ok (map (text_of heap.now.graph) (ids_at heap.now.graph id), k))) }
    ensures none { IfNone result (IsSome (text_in (at heap.now.graph index))
        → (k : ℕ) → IsUnshared heap.now.graph high id k → NamesPlace heap.now.graph id index k → ⊥) }
    ensures names { IfSome result (λ k. NamesPlace heap.now.graph id index k) }
{
    let list = kept_list(heap, id)?;
    if heap.count(id) != 1 || heap.form_depth(id) > high {
        return None;
    }
    place_named(heap, index, list.len())
}

// The place that an index, whose text is made, names in a list of so many elements.
fn place_named(heap: &Heap<Forms>, named: ObjId, len: usize) -> Option<usize>
    requires { IsSome (at heap.now.graph named) }
    ensures place { IfSome result (λ k. place_or 0 len (index (text_of heap.now.graph named) len) ≡ Ok k) }
    ensures within { IfSome result (λ k. k ≤ len) }
    ensures none { IfNone result (IsSome (text_in (at heap.now.graph named))
        → (k : ℕ) → place_or 0 len (index (text_of heap.now.graph named) len) ≡ Ok k → ⊥) }
{
    let text = heap.text(named)?;
    place_of(text, len, 0).ok()
}

// The last place of a way, with room for the value there, where that is not too deep.
fn end_of(
    heap: &Heap<Forms>,
    alloc: Global,
    id: ObjId,
    place: usize,
    value: ObjId,
    high: u64,
) -> Result<Option<Way>, NoMemory>
    requires list { IsSome (list_at heap.now.graph id) }
    requires value { IsSome (at heap.now.graph value) }
    ensures none { IfOk result (λ found. IfNone found (high ≤ depth_of (at heap.now.graph value))) }
    ensures way { IfOk result (λ found. IfSome found (λ way. (way.places.items ≡ place ∷ [])
        × (depth_of (at heap.now.graph value) < high)
        × ((list : Items) → form_in (at heap.now.graph id) ≡ Some (form.List list)
        → HasRoomAt place way.next list))) }
{
    if heap.depth(value) >= high {
        return Ok(None);
    }
    let len = length_of(heap, id);
    let next = room_at(heap, alloc, id, place, len)?;
    let mut places = Vec::new(alloc);
    places.push(place)?;
    Ok(Some(Way { places, next }))
}
