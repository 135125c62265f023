// Elements of lists in lists, along a path of indices.
ghost use Rattle.std.specs.Prelude.{◌≡◌, ◌≢◌, ℕ, ◌+◌, ◌-◌, ◌<◌, ◌≤◌, List, [], ◌∷◌, ◌++◌, length, take, drop, slice_index_or, Ok, IsOkAnd, OnOk, OnErr, IfOk, IfErr};
ghost use Rattle.std.specs.Str.{chars};
ghost use Rattle.tclv_text.specs.Texts.{IsText};
ghost use Rattle.tclv_text.specs.Indices.{index};
ghost use Rattle.tclv_text.specs.Quotes.{list_text};
ghost use Rattle.tclv_value.specs.View.{text_at};
ghost use Rattle.tclv_value.specs.declared.places.At.TheVariants.{Stack};
ghost use Rattle.tclv_value.specs.declared.faults.ValueFault.TheVariants as fault;
ghost use Rattle.tclv_value.specs.Stacks.{top};
ghost use Rattle.tclv_value.specs.Changes.{IsUnder, KeepsTexts, Puts};
ghost use Rattle.tclv_value.specs.Paths.{place_or, step, put_at, set_path, rebuilt, RefusesPath};

use crate::elements::{add_element, add_elements, elements_of, list_bytes};
use crate::faults::ValueFault;
use crate::places::At;
use crate::store::Store;
use std::alloc::Global;
use tclv_text::{NoMemory, Text, index_of};

// A list on a path, and the place in it where the path goes on: of an element, or behind the last.
#[derive(Drop)]
struct Step {
    elements: Vec<Text>,
    place: usize,
}

impl Step {
    // The element at the place, or the empty text.
    fn element(&self, alloc: Global) -> Result<Text, NoMemory>
        ensures { IfOk result (λ t. t ≡ slice_index_or self.now.elements.items self.now.place []) }
    {
        if self.place < self.elements.len() {
            self.elements[self.place].copy(alloc)
        } else {
            Ok(Text::new(Vec::new(alloc)))
        }
    }

    // The canonical text of the list with another element at the place.
    fn list_with(&self, alloc: Global, element: &Text) -> Result<Text, NoMemory>
        ensures { IfOk result (λ t.
            t ≡ list_text (put_at self.now.elements.items self.now.place element.now)) }
    {
        let old = self.elements.as_slice();
        let mut list = list_bytes(alloc, front(old, self.place))?;
        add_element(element.bytes(), &mut list)?;
        add_elements(behind(old, self.place), &mut list)?;
        Ok(Text::new(list))
    }
}

// The elements before a place.
fn front(elements: &[Text], place: usize) -> &[Text]
    ensures { result.now ≡ take place elements.now }
{
    if place < elements.len() {
        &elements[..place]
    } else {
        elements
    }
}

// The elements behind a place.
fn behind(elements: &[Text], place: usize) -> &[Text]
    ensures { result.now ≡ drop (place + 1) elements.now }
{
    if place < elements.len() {
        &elements[place + 1..]
    } else {
        &[]
    }
}

/// The place that an index lets a list of so many elements be written at.
pub(crate) fn place_of(text: &[u8], len: usize, level: usize) -> Result<usize, ValueFault>
    requires { IsText text.now }
    ensures place { IfOk result (λ k. place_or level len (index (chars text.now) len) ≡ Ok k) }
    ensures refused { IfErr result (λ fault.
        RefusesPath fault (place_or level len (index (chars text.now) len))) }
    ensures memory { IfErr result (λ why. why ≢ fault.NoMemory) }
    ensures within { IfOk result (λ k. k ≤ len) }
{
    match index_of(text, len as u64) {
        Ok(place) => {
            if 0 <= place && place <= len as i128 {
                Ok(place as usize)
            } else {
                Err(ValueFault::OutOfRange(level))
            }
        }
        Err(_) => Err(ValueFault::BadIndex),
    }
}

// One step of a path: the list that a text is, and the place that the index names.
fn step_of(alloc: Global, text: &Text, index: &Text, level: usize) -> Result<Step, ValueFault>
    ensures step { IfOk result (λ s.
        step level text.now index.now ≡ Ok (s.elements.items, s.place)) }
    ensures refused { IfErr result (λ fault. RefusesPath fault (step level text.now index.now)) }
{
    let elements = elements_of(alloc, text.bytes())?;
    let place = place_of(index.bytes(), elements.len(), level)?;
    Ok(Step { elements, place })
}

// The lists that a path goes through, from the outer one on.
fn steps_of(alloc: Global, outer: Text, path: &[Text]) -> Result<Vec<Step>, ValueFault>
    ensures steps { IfOk result (λ steps. (x : List ℕ) →
        set_path 0 outer path.now x ≡ Ok (rebuilt steps.items x)) }
    ensures refused { IfErr result (λ fault. (x : List ℕ) →
        RefusesPath fault (set_path 0 outer path.now x)) }
{
    let mut steps = Vec::new(alloc);
    let mut text = outer;
    for (level, index) in path.iter().enumerate() {
        let step = step_of(alloc, &text, index, level)?;
        text = step.element(alloc)?;
        keep_step(&mut steps, step)?;
    }
    Ok(steps)
}

fn keep_step(steps: &mut Vec<Step>, step: Step) -> Result<(), NoMemory>
    ensures { OnOk result (steps.new.items ≡ steps.old.items ++ step ∷ []) }
{
    steps.push(step)?;
    Ok(())
}

// The outer list's text where a value stands at the end of a path through these lists.
fn text_along(alloc: Global, mut steps: Vec<Step>, value: Text) -> Result<Text, NoMemory>
    ensures { IfOk result (λ t. t ≡ rebuilt steps.items value) }
{
    let mut text = value;
    while let Some(step) = steps.pop() {
        text = step.list_with(alloc, &text)?;
    }
    Ok(text)
}

impl Store {
    // `list_set` by texts: each list on the path is read from its text and written anew.
    pub(crate) fn set_by_texts(&mut self, at: At, path: usize) -> Result<(), ValueFault>
        requires path { 0 < path }
        requires place { IsUnder self.old (path + 1) at }
        ensures set { OnOk result (IsOkAnd
            (set_path 0 (text_at self.old at) (take path (top (path + 1) self.old.stack))
            (text_at self.old (Stack (length self.old.stack - 1))))
            (λ text. Puts self.old (path + 1) at text self.new)) }
        ensures refused { IfErr result (λ fault. RefusesPath fault
            (set_path 0 (text_at self.old at) (take path (top (path + 1) self.old.stack))
            (text_at self.old (Stack (length self.old.stack - 1))))) }
        ensures kept { OnErr result (KeepsTexts self.old self.new) }
    {
        let outer = self.copied_text(at)?;
        let value = self.copied_text(At::Stack(self.height() - 1))?;
        let taken = self.top_texts(path + 1)?;
        let steps = steps_of(self.alloc(), outer, &taken.as_slice()[..path])?;
        let text = text_along(self.alloc(), steps, value)?;
        self.put(path + 1, at, text.bytes())?;
        Ok(())
    }
}
