// Objects that are kept as lists.
ghost use Rattle.std.specs.Prelude.{◌≡◌, ◌<◌, ◌≤◌, ◌+◌, ◌++◌, ◌∷◌, [], ℕ, List, map, length, Ok, Some, None, IsSome, IsTrue, IsOk, IsOkAnd, slice_get, ◌↔◌, IfSome, IfNone, IfOk, IfErr, OnOk, OnErr};
ghost use Rattle.std.specs.Option.{option_map};
ghost use Rattle.std.specs.List.{All};
ghost use Rattle.std.specs.Str.{chars};
ghost use Rattle.tclv_text.specs.Texts.{IsText};
ghost use Rattle.tclv_text.specs.Elements.{elements};
ghost use Rattle.tclv_text.specs.Spans.{IsTextSpan, span_text};
ghost use Rattle.tclv_heap.specs.Graph.{at, occurs, count_in, text_in};
ghost use Rattle.tclv_heap.specs.Holders.{Holders, Passes};
ghost use Rattle.tclv_heap.specs.Stands.{Keeps, IsClosed, IsSound, deepest, depth_of};
ghost use Rattle.tclv_value.specs.Forms.{form_table};
ghost use Rattle.tclv_value.specs.Kept.{list_at, HasList, IsOutside, IsAbove, MakesTexts};
ghost use Rattle.tclv_value.specs.ListObjects.{HasMade, CountsRead};
ghost use Rattle.tclv_value.specs.Lists.{RefusesList};
ghost use Rattle.tclv_value.specs.Paths.{RefusesStep};
ghost use Rattle.tclv_value.specs.Places.{text_of, TextsStay};
ghost use Rattle.tclv_value.specs.declared.forms.Form.TheVariants as form;

use crate::elements::element;
use crate::faults::ValueFault;
use crate::forms::{Form, Forms};
use std::alloc::Global;
use tclv_forms::ListForm;
use tclv_heap::{Heap, ObjId};
use tclv_text::{NoMemory, Span, split_list};

/// The list that an object is kept as, if it is.
pub(crate) fn kept_list(heap: &Heap<Forms>, id: ObjId) -> Option<&ListForm>
    requires { IsSome (at heap.now.graph id) }
    ensures some { IfSome result (λ list.
        HasList heap.now.graph id (form.List list.now) list.now.ids) }
    ensures none { IfNone result (list_at heap.now.graph id ≡ None) }
{
    match heap.form(id) {
        Some(form) => form.as_list(),
        None => None,
    }
}

/// Sees to it that an object is kept as a list: where it isn't, its text is made and read.
///
/// Refuses with `NotList` exactly where its text is no list.
pub(crate) fn keep_list(heap: &mut Heap<Forms>, alloc: Global, id: ObjId) -> Result<(), ValueFault>
    requires outside { IsOutside heap.old.graph id }
    requires closed { IsClosed heap.old.graph }
    requires sound { IsSound form_table heap.old.graph }
    ensures list { OnOk result (IsSome (list_at heap.new.graph id)) }
    ensures refused { IfErr result (λ fault. RefusesList fault (text_of heap.old.graph id)) }
    ensures holders { Passes form_table.parts heap.old.graph [] heap.new.graph [] }
    ensures keeps { Keeps form_table heap.old.graph heap.new.graph }
    ensures texts { TextsStay heap.old.graph heap.new.graph }
    ensures there { IsSome (at heap.new.graph id) }
    ensures kept { IsSome (list_at heap.old.graph id) → heap.new ≡ heap.old }
    ensures stay { OnOk result ((o : ℕ) → IsSome (at heap.old.graph o) → IsSome (at heap.new.graph o)) }
    ensures count { OnOk result
        (count_in (at heap.new.graph id) ≡ count_in (at heap.old.graph id)) }
    ensures alone { OnOk result (count_in (at heap.old.graph id) ≡ 1
        → count_in (at heap.new.graph id) ≡ 1) }
    ensures memory { IsSome (list_at heap.old.graph id) → IsOk result }
    ensures step { IfErr result (λ why. RefusesStep why (text_of heap.old.graph id)) }
    ensures counted { OnOk result
        (CountsRead heap.old.stats heap.old.graph id heap.new.stats) }
{
    if is_list(heap, id) {
        return Ok(());
    }
    heap.make_string(id)?;
    let list = read_list(heap, alloc, id)?;
    heap.set_form(id, Form::List(list), 1);
    Ok(())
}

/// How many elements an object has that is kept as a list.
pub(crate) fn length_of(heap: &Heap<Forms>, id: ObjId) -> u64
    requires { IsSome (list_at heap.now.graph id) }
    ensures text { IsOkAnd (elements (text_of heap.now.graph id)) (λ ts. result ≡ length ts) }
    ensures ids { (ids : List ℕ) → list_at heap.now.graph id ≡ Some ids → result ≡ length ids }
    ensures elements { (ids : List ℕ) → list_at heap.now.graph id ≡ Some ids
        → elements (text_of heap.now.graph id) ≡ Ok (map (text_of heap.now.graph) ids) }
{
    match kept_list(heap, id) {
        Some(list) => list.len() as u64,
        None => unreachable!(),
    }
}

/// The object that is an element of an object, which is kept as a list.
pub(crate) fn element_of(heap: &Heap<Forms>, id: ObjId, k: u64) -> Option<ObjId>
    requires { IsSome (list_at heap.now.graph id) }
    ensures element { (ids : List ℕ) → list_at heap.now.graph id ≡ Some ids
        → result ≡ slice_get ids k }
    ensures text { IsOkAnd (elements (text_of heap.now.graph id)) (λ ts.
        option_map (text_of heap.now.graph) result ≡ slice_get ts k) }
    ensures there { IfSome result (λ p. IsSome (at heap.now.graph p)) }
{
    match kept_list(heap, id) {
        Some(list) => {
            let k = k as usize;
            if k < list.len() {
                Some(list.at(k))
            } else {
                None
            }
        }
        None => unreachable!(),
    }
}

/// Lends the text of an element of an object that is kept as a list, where it is made.
pub(crate) fn made_element(heap: &Heap<Forms>, id: ObjId, k: u64) -> Option<&[u8]>
    requires { IsSome (at heap.now.graph id) }
    ensures text { IfSome result (λ text. IsText text.now
        × IsOkAnd (elements (text_of heap.now.graph id)) (λ ts. Some (chars text.now) ≡ slice_get ts k)) }
    ensures made { IsSome result ↔ HasMade heap.now.graph (list_at heap.now.graph id) k }
{
    let list = kept_list(heap, id)?;
    let k = k as usize;
    if k >= list.len() {
        return None;
    }
    heap.text(list.at(k))
}

/// The depth of a list of these objects, or none where one of them is 50 deep.
pub(crate) fn depth_over(heap: &Heap<Forms>, ids: &[ObjId]) -> Option<u64>
    requires { (p : ℕ) → 0 < occurs p ids.now → IsSome (at heap.now.graph p) }
    ensures some { IfSome result (λ depth. IsAbove heap.now.graph ids.now depth) }
    ensures none { IfNone result ((p : ℕ) × (0 < occurs p ids.now)
        × (deepest ≤ depth_of (at heap.now.graph p))) }
{
    let mut depth = 1u64;
    for id in ids {
        let own = heap.depth(*id);
        if own >= 50 {
            return None;
        }
        depth = depth.max(own + 1);
    }
    Some(depth)
}

// Whether the object is kept as a list.
fn is_list(heap: &Heap<Forms>, id: ObjId) -> bool
    requires { IsSome (at heap.now.graph id) }
    ensures { IsTrue result ↔ IsSome (list_at heap.now.graph id) }
{
    kept_list(heap, id).is_some()
}

// The elements of an object's text, which is made, as new objects. After a refusal they are gone.
fn read_list(heap: &mut Heap<Forms>, alloc: Global, id: ObjId) -> Result<ListForm, ValueFault>
    requires made { IsSome (text_in (at heap.old.graph id)) }
    requires outside { IsOutside heap.old.graph id }
    requires sound { IsSound form_table heap.old.graph }
    ensures read { IfOk result (λ list. (ts : List (List ℕ))
        × (elements (text_of heap.old.graph id) ≡ Ok ts)
        × MakesTexts heap.old.graph ts heap.new.graph list.ids) }
    ensures refused { IfErr result (λ fault. RefusesList fault (text_of heap.old.graph id)) }
    ensures step { IfErr result (λ why. RefusesStep why (text_of heap.old.graph id)) }
    ensures holders { OnErr result (Passes form_table.parts heap.old.graph [] heap.new.graph []) }
    ensures keeps { OnErr result (Keeps form_table heap.old.graph heap.new.graph) }
    ensures texts { OnErr result (TextsStay heap.old.graph heap.new.graph) }
    ensures there { OnErr result (IsSome (at heap.new.graph id)) }
    ensures stats { OnOk result (heap.new.stats ≡ heap.old.stats) }
{
    let text = text_bytes(heap, alloc, id)?;
    let spans = split_list(alloc, text.as_slice())?;
    let list = make_elements(heap, alloc, text.as_slice(), spans.all())?;
    Ok(list)
}

// A copy of an object's text, which is made, as UTF-8.
fn text_bytes(heap: &Heap<Forms>, alloc: Global, id: ObjId) -> Result<Vec<u8>, NoMemory>
    requires { IsSome (text_in (at heap.now.graph id)) }
    ensures { IfOk result (λ bytes.
        IsText bytes.items × (chars bytes.items ≡ text_of heap.now.graph id)) }
{
    match heap.text(id) {
        Some(text) => Ok(Vec::from_slice(alloc, text)?),
        None => unreachable!(),
    }
}

// New objects of the elements at spans of a text. After `NoMemory` they are gone.
fn make_elements(
    heap: &mut Heap<Forms>,
    alloc: Global,
    text: &[u8],
    spans: &[Span],
) -> Result<ListForm, NoMemory>
    requires spans { All (IsTextSpan text.now) spans.now }
    requires holders { (ids : List ℕ) × Holders form_table.parts heap.old.graph ids }
    requires sound { IsSound form_table heap.old.graph }
    ensures made { IfOk result (λ list. MakesTexts heap.old.graph
        (map (span_text text.now) spans.now) heap.new.graph list.ids) }
    ensures holders { OnErr result (Passes form_table.parts heap.old.graph [] heap.new.graph []) }
    ensures keeps { OnErr result (Keeps form_table heap.old.graph heap.new.graph) }
    ensures texts { OnErr result (TextsStay heap.old.graph heap.new.graph) }
    ensures stats { OnOk result (heap.new.stats ≡ heap.old.stats) }
{
    let mut list = ListForm::with_room(alloc, spans.len())?;
    for span in spans {
        match make_element(heap, alloc, text, *span, &mut list) {
            Ok(()) => {}
            Err(error) => {
                release_all(heap, &list);
                return Err(error);
            }
        }
    }
    Ok(list)
}

// A new object of the element at a span of a text, at the end of a list that has room.
fn make_element(
    heap: &mut Heap<Forms>,
    alloc: Global,
    text: &[u8],
    span: Span,
    list: &mut ListForm,
) -> Result<(), NoMemory>
    requires span { IsTextSpan text.now span }
    requires room { 0 < list.old.room }
    ensures made { OnOk result ((p : ℕ) × (list.new.ids ≡ list.old.ids ++ p ∷ [])
        × MakesTexts heap.old.graph (span_text text.now span ∷ []) heap.new.graph (p ∷ [])) }
    ensures room { list.old.room ≤ list.new.room + 1 }
    ensures list { OnErr result (list.new.ids ≡ list.old.ids) }
    ensures heap { OnErr result (heap.new ≡ heap.old) }
    ensures stats { heap.new.stats ≡ heap.old.stats }
{
    let one = element(alloc, text, span)?;
    let id = heap.make_text_object(one)?;
    match list.push(id) {
        Ok(()) => Ok(()),
        Err(_) => unreachable!(),
    }
}

// Takes a holder of each object of a list away.
fn release_all(heap: &mut Heap<Forms>, list: &ListForm)
    requires holders { (ids : List ℕ)
        × Holders form_table.parts heap.old.graph (list.now.ids ++ ids) }
    requires sound { IsSound form_table heap.old.graph }
    ensures holders { Passes form_table.parts heap.old.graph list.now.ids heap.new.graph [] }
    ensures keeps { Keeps form_table heap.old.graph heap.new.graph }
    ensures texts { TextsStay heap.old.graph heap.new.graph }
{
    for k in 0..list.len() {
        heap.release(list.at(k));
    }
}
