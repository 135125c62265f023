// The subcommands that put a text into another.
ghost use Rattle.std.specs.Prelude.{◌≡◌, ◌+◌, ◌-◌, ◌<◌, ◌≤◌, [], length, codes, IfOk, slice_index_or};
ghost use Rattle.tclv_model.specs.Rows.{Gives};
ghost use Rattle.tclv_value.specs.Stacks.{top};
ghost use Rattle.tclv_value.specs.View.{IsMade};
ghost use Rattle.tclv_value.specs.declared.places.At.TheVariants.{Stack};
ghost use Rattle.tclv_reply.specs.Replies.{call_word, Answers, Leaves};
ghost use Rattle.tclv_strings.specs.Places.{text_filled};
ghost use Rattle.tclv_strings.specs.Changing.{text_replaced, row_replace, text_inserted, row_insert};

use crate::places::{fill, text_len};
use tclv_model::{CmdFault, Usage};
use tclv_reply::{
    clipped_behind, clipped_place, make_word, push_ascii, push_bytes, push_word, refuse_words,
    settle, word_at,
};
use tclv_text::{NoMemory, Text};
use tclv_value::Store;

// The text of a word with that of another in place of what stands from one place up to another. Both texts are made.
fn filled_word(store: &Store, at: usize, from: u64, to: u64, new: usize) -> Result<Text, NoMemory>
    requires at { at < length store.now.stack }
    requires made { IsMade store.now (Stack at) }
    requires order { from ≤ to }
    requires within { to ≤ length (slice_index_or store.now.stack at []) }
    requires new { new < length store.now.stack }
    requires new_made { IsMade store.now (Stack new) }
    ensures { IfOk result (λ t. t ≡ text_filled from to (slice_index_or store.now.stack new [])
        (slice_index_or store.now.stack at [])) }
{
    fill(
        store.allocator(),
        word_at(store, at),
        from,
        to,
        word_at(store, new),
    )
}

// Pushes the text of a word with that of another in place of what stands from one place up to another.
fn push_filled(store: &mut Store, at: usize, from: u64, to: u64, new: usize) -> Result<(), CmdFault>
    requires at { at < length store.old.stack }
    requires order { from ≤ to }
    requires within { to ≤ length (slice_index_or store.old.stack at []) }
    requires new { new < length store.old.stack }
    ensures { Leaves (Gives (text_filled from to (slice_index_or store.old.stack new [])
        (slice_index_or store.old.stack at []))) store.old store.new result }
{
    make_word(store, at)?;
    make_word(store, new)?;
    let text = filled_word(store, at, from, to, new)?;
    push_bytes(store, text.bytes())?;
    Ok(())
}

// Pushes a word with another in place of what stands from one place up to and with another; the word itself where
// nothing stands there.
fn push_replaced(
    store: &mut Store,
    text: usize,
    first: usize,
    last: usize,
    new: usize,
) -> Result<(), CmdFault>
    requires text { text < length store.old.stack }
    requires first { first < length store.old.stack }
    requires last { last < length store.old.stack }
    requires new { new < length store.old.stack }
    ensures { Leaves (text_replaced (slice_index_or store.old.stack text [])
        (slice_index_or store.old.stack first []) (slice_index_or store.old.stack last [])
        (slice_index_or store.old.stack new [])) store.old store.new result }
{
    let len = text_len(store, text)?;
    let from = clipped_place(store, first, len)?;
    let to = clipped_behind(store, last, len)?;
    if from < to {
        return push_filled(store, text, from, to, new);
    }
    push_word(store, text)?;
    Ok(())
}

// Pushes the third word from the top without what stands from the place of the second up to and with that of the top
// one.
fn push_without(store: &mut Store) -> Result<(), CmdFault>
    requires { 3 ≤ length store.old.stack }
    ensures { Leaves (text_replaced (slice_index_or store.old.stack (length store.old.stack - 3) [])
        (slice_index_or store.old.stack (length store.old.stack - 2) [])
        (slice_index_or store.old.stack (length store.old.stack - 1) []) []) store.old store.new result }
{
    push_ascii(store, "")?;
    let height = store.height();
    push_replaced(store, height - 4, height - 3, height - 2, height - 1)
}

/// `string replace string first last ?string?`: the text with the other in place of what stands from the first place
/// up to and with the last; the text itself where nothing stands there. Refuses an index of no form, from the left.
/// (Tcl: string(n).)
pub(crate) fn string_replace(store: &mut Store, n: usize) -> Result<(), CmdFault>
    requires { n + 1 ≤ length store.old.stack }
    ensures { Answers (row_replace (call_word n store.old.stack) (top n store.old.stack)) n
        store.old store.new result }
{
    let height = store.height();
    match n {
        4 => {
            let done = push_without(store);
            settle(store, n, height, done)
        }
        5 => {
            let done = push_replaced(store, height - 4, height - 3, height - 2, height - 1);
            settle(store, n, height, done)
        }
        _ => refuse_words(store, n, Usage::StringReplace),
    }
}

// Pushes a word with another before the place that a third one names, as far as the word goes.
fn push_inserted(store: &mut Store, text: usize, place: usize, new: usize) -> Result<(), CmdFault>
    requires text { text < length store.old.stack }
    requires place { place < length store.old.stack }
    requires new { new < length store.old.stack }
    ensures { Leaves (text_inserted (slice_index_or store.old.stack text [])
        (slice_index_or store.old.stack place []) (slice_index_or store.old.stack new []))
        store.old store.new result }
{
    let len = text_len(store, text)?;
    let behind = len.checked_add(1).ok_or(CmdFault::NoMemory)?;
    let at = clipped_place(store, place, behind)?.min(len);
    push_filled(store, text, at, at, new)
}

/// `string insert string index insertString`: the text with the other before the place, which for `end` is behind the
/// last character. Refuses an index of no form. (Tcl: string(n).)
pub(crate) fn string_insert(store: &mut Store, n: usize) -> Result<(), CmdFault>
    requires { n + 1 ≤ length store.old.stack }
    ensures { Answers (row_insert (call_word n store.old.stack) (top n store.old.stack)) n
        store.old store.new result }
{
    if n != 4 {
        return refuse_words(store, n, Usage::StringInsert);
    }
    let height = store.height();
    let done = push_inserted(store, height - 3, height - 2, height - 1);
    settle(store, n, height, done)
}
