// Paths of indices in lists.
ghost use Rattle.std.specs.Prelude.{◌≡◌, ℕ, List, ◌+◌, ◌-◌, ◌<◌, ◌≤◌, ◌++◌, [], ◌∷◌, length, take, drop, IfOk, OnOk, Ok, slice_index_or};
ghost use Rattle.std.specs.Result.{ForOk};
ghost use Rattle.tclv_value.specs.View.{IsMade};
ghost use Rattle.tclv_value.specs.declared.places.At.TheVariants.{Stack};
ghost use Rattle.tclv_text.specs.Elements.{elements};
ghost use Rattle.tclv_model.specs.Rows.{Gives};
ghost use Rattle.tclv_model.specs.Values.{list_of};
ghost use Rattle.tclv_reply.specs.Replies.{Grows, Leaves};
ghost use Rattle.tclv_lists.specs.Paths.{path_of, checked, element_at, StepsInto, IsPathAt};

use tclv_model::CmdFault;
use tclv_reply::{
    check_index, is_index, know_text, list_len, make_word, place_among, push_bytes, push_elements,
    push_word, refuse_list,
};
use tclv_text::NoMemory;
use tclv_value::{At, Store, ValueFault};

// Pushes the element of a list at a place that an index names, and says whether there is one.
fn step_into(store: &mut Store, list: usize, index: usize) -> Result<bool, CmdFault>
    requires list { list < length store.old.stack }
    requires index { index < length store.old.stack }
    ensures { StepsInto (slice_index_or store.old.stack list []) (slice_index_or store.old.stack index [])
        store.old store.new result }
{
    let len = list_len(store, At::Stack(list))?;
    let Some(k) = place_among(store, index, len)? else {
        return Ok(false);
    };
    match store.push_element(At::Stack(list), k) {
        Ok(_found) => Ok(true),
        Err(fault) => Err(refuse_list(store, At::Stack(list), fault)),
    }
}

// Checks the forms of the indices from one place up to another, and pushes the empty text.
fn push_past(store: &mut Store, from: usize, to: usize) -> Result<(), CmdFault>
    requires order { from ≤ to }
    requires within { to ≤ length store.old.stack }
    ensures { Leaves (checked (take (to - from) (drop from store.old.stack)) (Gives [])) store.old store.new result }
{
    for at in from..to {
        if let Err(kind) = check_index(store, at) {
            return Err(kind);
        }
    }
    push_bytes(store, b"")?;
    Ok(())
}

/// Pushes the text at the end of the path of the indices from one place up to another.
pub(crate) fn push_at(
    store: &mut Store,
    list: usize,
    from: usize,
    to: usize,
) -> Result<(), CmdFault>
    requires list { list < length store.old.stack }
    requires order { from ≤ to }
    requires within { to ≤ length store.old.stack }
    ensures { Leaves (element_at (slice_index_or store.old.stack list [])
        (take (to - from) (drop from store.old.stack))) store.old store.new result }
{
    let mut at = list;
    for index in from..to {
        match step_into(store, at, index) {
            Ok(true) => at = store.height() - 1,
            Ok(false) => return push_past(store, index + 1, to),
            Err(kind) => return Err(kind),
        }
    }
    push_word(store, at)?;
    Ok(())
}

// Pushes the elements of a word that is a list. Where they stand.
fn push_path(store: &mut Store, word: usize) -> Result<(usize, usize), NoMemory>
    requires { word < length store.old.stack }
    ensures grows { Grows store.old store.new }
    ensures path { IfOk result (λ r. (ts : List (List ℕ)) × (list_of (slice_index_or store.old.stack word []) ≡ Gives ts)
        × IsPathAt ts store.new.stack r) }
{
    let from = store.height();
    match push_elements(store, At::Stack(word)) {
        Ok(()) => Ok((from, store.height())),
        Err(_) => Err(NoMemory),
    }
}

// Where the path is that one word names, which is made: the word, or its elements where it is no index and is a
// list.
fn read_word_path(store: &mut Store, word: usize, end: usize) -> Result<(usize, usize), NoMemory>
    requires place { word < length store.old.stack }
    requires end { end ≡ word + 1 }
    requires made { IsMade store.old (Stack word) }
    ensures grows { Grows store.old store.new }
    ensures path { IfOk result (λ r. IsPathAt (path_of (slice_index_or store.old.stack word [] ∷ []))
        store.new.stack r) }
{
    if is_index(store, word) {
        return Ok((word, end));
    }
    know_text(store, At::Stack(word));
    match store.list_len(At::Stack(word)) {
        Ok(_len) => push_path(store, word),
        Err(ValueFault::NotList(_why)) => Ok((word, end)),
        Err(ValueFault::NoMemory) => Err(NoMemory),
        Err(_) => unreachable!(),
    }
}

/// Where the path is that the words from one place up to another name.
pub(crate) fn read_path(
    store: &mut Store,
    from: usize,
    to: usize,
) -> Result<(usize, usize), NoMemory>
    requires order { from ≤ to }
    requires within { to ≤ length store.old.stack }
    ensures grows { Grows store.old store.new }
    ensures path { IfOk result (λ r. IsPathAt (path_of (take (to - from) (drop from store.old.stack)))
        store.new.stack r) }
{
    if to - from != 1 {
        return Ok((from, to));
    }
    make_word(store, from)?;
    read_word_path(store, from, to)
}

/// Pushes the text at the end of the path that the words from one place up to another name.
pub(crate) fn push_named(
    store: &mut Store,
    list: usize,
    from: usize,
    to: usize,
) -> Result<(), CmdFault>
    requires list { list < length store.old.stack }
    requires order { from ≤ to }
    requires within { to ≤ length store.old.stack }
    ensures { Leaves (element_at (slice_index_or store.old.stack list [])
        (path_of (take (to - from) (drop from store.old.stack)))) store.old store.new result }
{
    let (first, end) = read_path(store, from, to)?;
    push_at(store, list, first, end)
}
