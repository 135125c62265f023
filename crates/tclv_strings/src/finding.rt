// The subcommands that look for a text in another.
ghost use Rattle.std.specs.Prelude.{◌≡◌, ◌+◌, ◌-◌, ◌<◌, ◌≤◌, [], length, take, drop, OnOk, OnErr, slice_index_or};
ghost use Rattle.std.specs.Str.{chars};
ghost use Rattle.tclv_text.specs.Texts.{IsText};
ghost use Rattle.tclv_model.specs.Rows.{Gives};
ghost use Rattle.tclv_value.specs.Stacks.{top};
ghost use Rattle.tclv_value.specs.View.{IsMade};
ghost use Rattle.tclv_value.specs.Changes.{KeepsTexts, Pushes};
ghost use Rattle.tclv_value.specs.declared.places.At.TheVariants.{Stack};
ghost use Rattle.tclv_reply.specs.Replies.{call_word, Answers, Leaves};
ghost use Rattle.tclv_strings.specs.Finding as spec;

use crate::places::{byte_of, count_characters, text_len};
use bstr::ByteSlice;
use tclv_model::{CmdFault, Usage};
use tclv_reply::{
    clipped_behind, clipped_place, make_word, push_count, push_number, refuse_words, settle,
    word_at,
};
use tclv_text::NoMemory;
use tclv_value::Store;

// How many characters stand before the first place at which a needle, which is not empty, stands in a text.
fn before_first(needle: &[u8], text: &[u8]) -> Option<usize>
    requires needle { IsText needle.now }
    requires some { 0 < length needle.now }
    requires text { IsText text.now }
    ensures { result ≡ spec.first_place (chars needle.now) 0 (chars text.now) }
{
    match text.find(needle) {
        Some(at) => Some(count_characters(&text[..at])),
        None => None,
    }
}

// The first place from one on at which a needle stands in a text.
fn first_from(needle: &[u8], text: &[u8], from: u64) -> Option<u64>
    requires needle { IsText needle.now }
    requires text { IsText text.now }
    requires from { from ≤ length (chars text.now) }
    ensures { result ≡ spec.first_from (chars needle.now) from (chars text.now) }
{
    if needle.is_empty() {
        return None;
    }
    match before_first(needle, &text[byte_of(text, from)..]) {
        Some(k) => Some(from + k as u64),
        None => None,
    }
}

// How many characters stand before the last place at which a needle, which is not empty, stands in a text.
fn before_last(needle: &[u8], text: &[u8]) -> Option<usize>
    requires needle { IsText needle.now }
    requires some { 0 < length needle.now }
    requires text { IsText text.now }
    ensures { result ≡ spec.last_place (chars needle.now) 0 (chars text.now) }
{
    match text.rfind(needle) {
        Some(at) => Some(count_characters(&text[..at])),
        None => None,
    }
}

// The last place at which a needle stands in what a text has before a place.
fn last_before(needle: &[u8], text: &[u8], to: u64) -> Option<u64>
    requires needle { IsText needle.now }
    requires text { IsText text.now }
    requires to { to ≤ length (chars text.now) }
    ensures { result ≡ spec.last_before (chars needle.now) to (chars text.now) }
{
    if needle.is_empty() {
        return None;
    }
    match before_last(needle, &text[..byte_of(text, to)]) {
        Some(k) => Some(k as u64),
        None => None,
    }
}

// Pushes the number of a place, or -1.
fn push_place(store: &mut Store, found: Option<u64>) -> Result<(), NoMemory>
    ensures pushed { OnOk result (Pushes store.old (spec.place_text found) store.new) }
    ensures kept { OnErr result (KeepsTexts store.old store.new) }
{
    match found {
        Some(k) => push_count(store, k),
        None => push_number(store, -1),
    }
}

// The first place from one on at which a word stands in another. Both texts are made.
fn first_made(store: &Store, needle: usize, text: usize, from: u64) -> Option<u64>
    requires needle { needle < length store.now.stack }
    requires needle_made { IsMade store.now (Stack needle) }
    requires text { text < length store.now.stack }
    requires text_made { IsMade store.now (Stack text) }
    requires from { from ≤ length (slice_index_or store.now.stack text []) }
    ensures { result ≡ spec.first_from (slice_index_or store.now.stack needle []) from
        (slice_index_or store.now.stack text []) }
{
    first_from(word_at(store, needle), word_at(store, text), from)
}

// Pushes the first place from one on at which a word stands in another.
fn push_first(store: &mut Store, needle: usize, text: usize, from: u64) -> Result<(), CmdFault>
    requires needle { needle < length store.old.stack }
    requires text { text < length store.old.stack }
    requires from { from ≤ length (slice_index_or store.old.stack text []) }
    ensures { Leaves (Gives (spec.place_text (spec.first_from (slice_index_or store.old.stack needle []) from
        (slice_index_or store.old.stack text [])))) store.old store.new result }
{
    make_word(store, needle)?;
    make_word(store, text)?;
    let found = first_made(store, needle, text, from);
    push_place(store, found)?;
    Ok(())
}

// Pushes the first place at which a word stands in another, from the one on that a third word names.
fn push_first_from(
    store: &mut Store,
    needle: usize,
    text: usize,
    start: usize,
) -> Result<(), CmdFault>
    requires needle { needle < length store.old.stack }
    requires text { text < length store.old.stack }
    requires start { start < length store.old.stack }
    ensures { Leaves (spec.found_first (slice_index_or store.old.stack needle [])
        (slice_index_or store.old.stack text []) (slice_index_or store.old.stack start []))
        store.old store.new result }
{
    let len = text_len(store, text)?;
    let from = clipped_place(store, start, len)?;
    push_first(store, needle, text, from)
}

/// `string first needle haystack ?startIndex?`: the first place at which the one text stands in the other, from a place
/// on, or -1. An empty text stands nowhere. Refuses an index of no form. (Tcl: string(n).)
pub(crate) fn string_first(store: &mut Store, n: usize) -> Result<(), CmdFault>
    requires { n + 1 ≤ length store.old.stack }
    ensures { Answers (spec.row_first (call_word n store.old.stack) (top n store.old.stack)) n
        store.old store.new result }
{
    let height = store.height();
    match n {
        3 => {
            let done = push_first(store, height - 2, height - 1, 0);
            settle(store, n, height, done)
        }
        4 => {
            let done = push_first_from(store, height - 3, height - 2, height - 1);
            settle(store, n, height, done)
        }
        _ => refuse_words(store, n, Usage::StringFirst),
    }
}

// The last place at which a word stands in what another has before a place. Both texts are made.
fn last_made(store: &Store, needle: usize, text: usize, to: u64) -> Option<u64>
    requires needle { needle < length store.now.stack }
    requires needle_made { IsMade store.now (Stack needle) }
    requires text { text < length store.now.stack }
    requires text_made { IsMade store.now (Stack text) }
    requires to { to ≤ length (slice_index_or store.now.stack text []) }
    ensures { result ≡ spec.last_before (slice_index_or store.now.stack needle []) to
        (slice_index_or store.now.stack text []) }
{
    last_before(word_at(store, needle), word_at(store, text), to)
}

// Pushes the last place at which a word stands in what another has before a place.
fn push_last(store: &mut Store, needle: usize, text: usize, to: u64) -> Result<(), CmdFault>
    requires needle { needle < length store.old.stack }
    requires text { text < length store.old.stack }
    requires to { to ≤ length (slice_index_or store.old.stack text []) }
    ensures { Leaves (Gives (spec.place_text (spec.last_before (slice_index_or store.old.stack needle []) to
        (slice_index_or store.old.stack text [])))) store.old store.new result }
{
    make_word(store, needle)?;
    make_word(store, text)?;
    let found = last_made(store, needle, text, to);
    push_place(store, found)?;
    Ok(())
}

// Pushes the last place at which a word stands in another.
fn push_last_of(store: &mut Store, needle: usize, text: usize) -> Result<(), CmdFault>
    requires needle { needle < length store.old.stack }
    requires text { text < length store.old.stack }
    ensures { Leaves (Gives (spec.place_text (spec.last_place (slice_index_or store.old.stack needle []) 0
        (slice_index_or store.old.stack text [])))) store.old store.new result }
{
    let len = text_len(store, text)?;
    push_last(store, needle, text, len)
}

// Pushes the last place at which a word stands in another, up to and with the one that a third word names.
fn push_last_upto(
    store: &mut Store,
    needle: usize,
    text: usize,
    last: usize,
) -> Result<(), CmdFault>
    requires needle { needle < length store.old.stack }
    requires text { text < length store.old.stack }
    requires last { last < length store.old.stack }
    ensures { Leaves (spec.found_last (slice_index_or store.old.stack needle [])
        (slice_index_or store.old.stack text []) (slice_index_or store.old.stack last []))
        store.old store.new result }
{
    let len = text_len(store, text)?;
    let to = clipped_behind(store, last, len)?;
    push_last(store, needle, text, to)
}

/// `string last needle haystack ?lastIndex?`: the last place at which the one text stands in the other, whose
/// characters count up to and with a place, or -1. An empty text stands nowhere. Refuses an index of no form. (Tcl:
/// string(n).)
pub(crate) fn string_last(store: &mut Store, n: usize) -> Result<(), CmdFault>
    requires { n + 1 ≤ length store.old.stack }
    ensures { Answers (spec.row_last (call_word n store.old.stack) (top n store.old.stack)) n
        store.old store.new result }
{
    let height = store.height();
    match n {
        3 => {
            let done = push_last_of(store, height - 2, height - 1);
            settle(store, n, height, done)
        }
        4 => {
            let done = push_last_upto(store, height - 3, height - 2, height - 1);
            settle(store, n, height, done)
        }
        _ => refuse_words(store, n, Usage::StringLast),
    }
}
