// The elements of a list, taken by their places.
ghost use Rattle.std.specs.Prelude.{◌≡◌, ◌<◌, ◌≤◌, ◌++◌, [], ℕ, List, length, Ok, OnOk, IfOk, IfErr, IsOkAnd, option_to_list, slice_get, slice_index_or};
ghost use Rattle.tclv_text.specs.Elements.{elements};
ghost use Rattle.tclv_value.specs.Changes.{KeepsTexts};
ghost use Rattle.tclv_value.specs.Lists.{RefusesList};
ghost use Rattle.tclv_value.specs.View.{HasPlace, text_at, KeepsMade};
ghost use Rattle.tclv_value.specs.ListObjects.{IsElementMade};
ghost use Rattle.tclv_model.specs.Values.{list_of};
ghost use Rattle.tclv_reply.specs.Replies.{Grows, IsRefused, Reads, Refused, Unpacks, left_over};

use crate::replies::cut;
use crate::values::{list_len, refuse_list};
use std::marker::Model;
use tclv_model::CmdFault;
use tclv_text::{NoMemory, Text};
use tclv_value::{At, Store, ValueFault};

/// The elements of a list, from the left.
#[derive(Drop)]
pub struct Elements {
    items: Vec<Text>,
}

impl Model for Elements {
    ghost use Rattle.std.specs.Prelude.{ℕ, List};

    ghost Value = { List (List ℕ) };

    ghost view = { λ e. e.items.items };
}

impl Elements {
    /// Lends them.
    pub fn all(&self) -> &[Text]
        ensures { result.now ≡ self.now }
    {
        self.items.as_slice()
    }
}

// Takes off what a refused call pushed, where memory ran out.
fn refused(store: &mut Store, height: usize, kind: CmdFault) -> CmdFault
    requires { height ≤ length store.old.stack }
    ensures same { result ≡ kind }
    ensures stack { store.new.stack ≡ left_over kind height store.old.stack }
    ensures cells { store.new.cells ≡ store.old.cells }
    ensures keeps { KeepsMade store.old store.new }
{
    if kind == CmdFault::NoMemory {
        cut(store, height);
    }
    kind
}

// Adds a copy of the text of an element of a list, which is there and made, to others.
fn add_copy(store: &Store, list: At, k: u64, items: &mut Vec<Text>) -> Result<(), NoMemory>
    requires place { HasPlace store.now list }
    requires made { IsElementMade store.now list k }
    ensures { OnOk result (IsOkAnd (elements (text_at store.now list)) (λ ts.
        items.new.items ≡ items.old.items ++ option_to_list (slice_get ts k))) }
{
    match store.element_text(list, k) {
        Some(text) => {
            let copy = Vec::from_slice(store.allocator(), text)?;
            items.push(Text::new(copy))?;
            Ok(())
        }
        None => unreachable!(),
    }
}

// Adds a copy of the text of an element of a list to others, if the list has one of this number. No text
// of the store changes.
fn read_element(
    store: &mut Store,
    list: At,
    k: u64,
    items: &mut Vec<Text>,
) -> Result<(), ValueFault>
    requires { HasPlace store.old list }
    ensures added { OnOk result (IsOkAnd (elements (text_at store.old list)) (λ ts.
        items.new.items ≡ items.old.items ++ option_to_list (slice_get ts k))) }
    ensures refused { IfErr result (λ fault. RefusesList fault (text_at store.old list)) }
    ensures kept { KeepsTexts store.old store.new }
{
    let found = store.make_element(list, k)?;
    if found {
        add_copy(store, list, k, items)?;
    }
    Ok(())
}

// Copies of the texts of a list's elements, from the left. No text of the store changes.
fn read_elements(store: &mut Store, list: At) -> Result<Vec<Text>, ValueFault>
    requires { HasPlace store.old list }
    ensures elements { IfOk result (λ ts. elements (text_at store.old list) ≡ Ok ts.items) }
    ensures refused { IfErr result (λ fault. RefusesList fault (text_at store.old list)) }
    ensures kept { KeepsTexts store.old store.new }
{
    let len = store.list_len(list)?;
    let mut items = Vec::new(store.allocator());
    for k in 0..len {
        read_element(store, list, k, &mut items)?;
    }
    Ok(items)
}

/// The elements of the list that the text of a place is, from the left. No text of the store changes.
///
/// `Message` comes exactly where the text is no list: the message on its first fault and the error
/// code are pushed, and nothing else. After `NoMemory` every place has the text that it had.
pub(crate) fn list_elements(store: &mut Store, list: At) -> Result<Elements, CmdFault>
    requires { HasPlace store.old list }
    ensures reads { Reads (list_of (text_at store.old list)) (λ ts x. x ≡ ts) store.old store.new result }
    ensures refuses { IfErr result (λ kind.
        IsRefused (list_of (text_at store.old list)) kind 0 store.old store.new) }
{
    let height = store.height();
    match read_elements(store, list) {
        Ok(items) => Ok(Elements { items }),
        Err(fault) => {
            let kind = refuse_list(store, list, fault);
            Err(refused(store, height, kind))
        }
    }
}

/// The elements of the list that a word is.
pub fn elements_of(store: &mut Store, list: usize) -> Result<Elements, CmdFault>
    requires { list < length store.old.stack }
    ensures { Reads (list_of (slice_index_or store.old.stack list [])) (λ ts x. x ≡ ts) store.old store.new result }
{
    list_elements(store, At::Stack(list))
}

// Pushes an element of a list, if it has one of this number.
fn push_element(store: &mut Store, list: At, k: u64) -> Result<(), CmdFault>
    requires { HasPlace store.old list }
    ensures grows { Grows store.old store.new }
    ensures pushed { OnOk result (IsOkAnd (elements (text_at store.old list)) (λ ts.
        store.new.stack ≡ store.old.stack ++ option_to_list (slice_get ts k))) }
    ensures refused { IfErr result (λ kind. Refused {A = List (List ℕ)} (list_of (text_at store.old list)) kind
        store.old.stack store.new.stack) }
{
    match store.push_element(list, k) {
        Ok(_found) => Ok(()),
        Err(fault) => Err(refuse_list(store, list, fault)),
    }
}

/// Pushes the elements of the list that the text of a place is, from the left. They are shared and
/// not copied. Where the text is no list, the message and the error code are pushed.
pub fn push_elements(store: &mut Store, list: At) -> Result<(), CmdFault>
    requires { HasPlace store.old list }
    ensures { Unpacks (text_at store.old list) store.old store.new result }
{
    let len = list_len(store, list)?;
    for k in 0..len {
        push_element(store, list, k)?;
    }
    Ok(())
}
