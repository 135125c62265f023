// The commands that give a changed list.
ghost use Rattle.std.specs.Prelude.{◌≡◌, ℕ, ℤ, List, ◌+◌, ◌-◌, ◌<◌, ◌≤◌, [], ◌∷◌, ◌++◌, length, map, take, drop, min, max, pos, ◌+ℤ◌, if◌then◌else◌, OnOk, IfOk, IsOk, slice_index_or};
ghost use Rattle.std.specs.List.{All};
ghost use Rattle.std.specs.Str.{chars};
ghost use Rattle.std.specs.Result.{ForOk};
ghost use Rattle.tclv_text.specs.Texts.{IsText};
ghost use Rattle.tclv_text.specs.Elements.{elements};
ghost use Rattle.tclv_text.specs.Spans.{IsTextSpan, span_text};
ghost use Rattle.tclv_text.specs.Quotes.{list_text};
ghost use Rattle.tclv_model.specs.Rows.{Gives, and_then};
ghost use Rattle.tclv_model.specs.Values.{list_of, place_of};
ghost use Rattle.tclv_value.specs.Stacks.{top};
ghost use Rattle.tclv_value.specs.Lists.{replaced};
ghost use Rattle.tclv_reply.specs.Replies.{call_word, Answers, Grows, Leaves, Reads};
ghost use Rattle.tclv_lists.specs.Changing.{reversed_of, row_lreverse, IsGap, gap_between, gap_before, row_lreplace, row_linsert, IsMarked, with_mark, places_of, without_from, removed_of, row_lremove};

use crate::joining::{add_element, copy_word};
use std::alloc::Global;
use tclv_model::{CmdFault, Usage};
use tclv_reply::{
    clipped_behind, clipped_place, list_len, place_among, push_bytes, refuse_list, refuse_words,
    settle,
};
use tclv_text::{ListFault, NoMemory, Span, split_list};
use tclv_value::{At, Store};

// Pushes the list of the elements of a list from the last to the first.
fn push_reversed(store: &mut Store, list: usize) -> Result<(), CmdFault>
    requires { list < length store.old.stack }
    ensures { Leaves (reversed_of (slice_index_or store.old.stack list [])) store.old store.new result }
{
    match store.push_reversed(At::Stack(list)) {
        Ok(()) => Ok(()),
        Err(fault) => Err(refuse_list(store, At::Stack(list), fault)),
    }
}

/// `lreverse list`: the list of the elements from the last to the first. Refuses a text that is no list. (Tcl:
/// lreverse(n).)
pub fn cmd_lreverse(store: &mut Store, n: usize) -> Result<(), CmdFault>
    requires { n + 1 ≤ length store.old.stack }
    ensures { Answers (row_lreverse (call_word n store.old.stack) (top n store.old.stack)) n
        store.old store.new result }
{
    if n != 1 {
        return refuse_words(store, n, Usage::Lreverse);
    }
    let height = store.height();
    let done = push_reversed(store, height - 1);
    settle(store, n, height, done)
}

// The part of a list from one place up to and with another, as far as the list has it.
fn gap_between(
    store: &mut Store,
    list: usize,
    first: usize,
    last: usize,
) -> Result<(u64, u64), CmdFault>
    requires list { list < length store.old.stack }
    requires first { first < length store.old.stack }
    requires last { last < length store.old.stack }
    ensures { Reads (gap_between (slice_index_or store.old.stack list [])
        (slice_index_or store.old.stack first []) (slice_index_or store.old.stack last []))
        (λ gap x. IsGap (slice_index_or store.old.stack list []) gap x.0 x.1) store.old store.new result }
{
    let len = list_len(store, At::Stack(list))?;
    let from = clipped_place(store, first, len)?;
    let to = clipped_behind(store, last, len)?;
    Ok((from, from.max(to)))
}

// The empty part of a list before a place.
fn gap_before(store: &mut Store, list: usize, place: usize) -> Result<(u64, u64), CmdFault>
    requires list { list < length store.old.stack }
    requires place { place < length store.old.stack }
    ensures { Reads (gap_before (slice_index_or store.old.stack list [])
        (slice_index_or store.old.stack place [])) (λ gap x. IsGap (slice_index_or store.old.stack list []) gap x.0 x.1) store.old store.new result }
{
    let len = list_len(store, At::Stack(list))?;
    let behind = len.checked_add(1).ok_or(CmdFault::NoMemory)?;
    let at = clipped_place(store, place, behind)?.min(len);
    Ok((at, at))
}

// Ends a call with `n` words, the first of which is a list: puts the words on top, so many as are asked for, in
// place of a part of the list.
fn fill(store: &mut Store, n: usize, words: usize, from: u64, to: u64) -> Result<(), CmdFault>
    requires words { words < n }
    requires height { n ≤ length store.old.stack }
    requires order { from ≤ to }
    requires within { ForOk (elements (slice_index_or store.old.stack (length store.old.stack - n) []))
        (λ ts. to ≤ length ts) }
    ensures { Answers (and_then (list_of (slice_index_or store.old.stack (length store.old.stack - n) []))
        (λ ts. Gives (list_text (replaced ts from to (top words store.old.stack))))) n
        store.old store.new result }
{
    let height = store.height();
    match store.list_replace(At::Stack(height - n), from, to, words) {
        Ok(()) => {
            store.pop(n - words - 1);
            Ok(())
        }
        Err(fault) => {
            let kind = refuse_list(store, At::Stack(height - n), fault);
            settle(store, n, height, Err(kind))
        }
    }
}

/// `lreplace list first last ?element ...?`: the list with the elements in place of those from the first place
/// up to and with the last. Where the last place is before the first, they stand before the first and nothing
/// goes. Refuses a text that is no list, and then an index of no form, from the left. (Tcl: lreplace(n).)
pub fn cmd_lreplace(store: &mut Store, n: usize) -> Result<(), CmdFault>
    requires { n + 1 ≤ length store.old.stack }
    ensures { Answers (row_lreplace (call_word n store.old.stack) (top n store.old.stack)) n
        store.old store.new result }
{
    if n < 3 {
        return refuse_words(store, n, Usage::Lreplace);
    }
    let height = store.height();
    match gap_between(store, height - n, height - n + 1, height - n + 2) {
        Ok((from, to)) => fill(store, n, n - 3, from, to),
        Err(kind) => settle(store, n, height, Err(kind)),
    }
}

/// `linsert list index ?element ...?`: the list with the elements before the place, which for `end` is behind
/// the last element. Refuses a text that is no list, and then an index of no form. (Tcl: linsert(n).)
pub fn cmd_linsert(store: &mut Store, n: usize) -> Result<(), CmdFault>
    requires { n + 1 ≤ length store.old.stack }
    ensures { Answers (row_linsert (call_word n store.old.stack) (top n store.old.stack)) n
        store.old store.new result }
{
    if n < 2 {
        return refuse_words(store, n, Usage::Linsert);
    }
    let height = store.height();
    match gap_before(store, height - n, height - n + 1) {
        Ok((from, to)) => fill(store, n, n - 2, from, to),
        Err(kind) => settle(store, n, height, Err(kind)),
    }
}

// Marks, of so many places none.
fn no_marks(alloc: Global, len: u64) -> Result<Vec<bool>, NoMemory>
    ensures { IfOk result (λ marks. IsMarked len [] marks.items) }
{
    Ok(vec![in alloc; false; len as usize]?)
}

// Marks the place that a word names, if the list has it.
fn mark_place(store: &mut Store, at: usize, len: u64, marks: &mut Vec<bool>) -> Result<(), CmdFault>
    requires place { at < length store.old.stack }
    requires len { length marks.old.items ≡ len }
    ensures { Reads (place_of (slice_index_or store.old.stack at []) len)
        (λ z x. marks.new.items ≡ with_mark z marks.old.items) store.old store.new result }
{
    let Some(k) = place_among(store, at, len)? else {
        return Ok(());
    };
    marks[k as usize] = true;
    Ok(())
}

// Marks the places that the words from one place up to another name.
fn mark_places(store: &mut Store, from: usize, to: usize, len: u64) -> Result<Vec<bool>, CmdFault>
    requires order { from ≤ to }
    requires within { to ≤ length store.old.stack }
    ensures { Reads (places_of (take (to - from) (drop from store.old.stack)) len)
        (λ ks x. IsMarked len ks x.items) store.old store.new result }
{
    let mut marks = no_marks(store.allocator(), len)?;
    for at in from..to {
        mark_place(store, at, len, &mut marks)?;
    }
    Ok(marks)
}

// Pushes the element at a span of a text, unless it is marked.
fn push_unmarked(store: &mut Store, text: &[u8], span: Span, marked: bool) -> Result<(), NoMemory>
    requires { IsTextSpan text.now span }
    ensures grows { Grows store.old store.new }
    ensures pushed { OnOk result (store.new.stack ≡
        store.old.stack ++ (if marked then [] else span_text text.now span ∷ [])) }
{
    if marked {
        return Ok(());
    }
    let mut element = Vec::new(store.allocator());
    add_element(text, span, &mut element)?;
    push_bytes(store, element.as_slice())
}

// Pushes the elements at spans of a text that are not marked.
fn push_kept(store: &mut Store, text: &[u8], spans: &[Span], marks: &[bool]) -> Result<(), NoMemory>
    requires spans { All (IsTextSpan text.now) spans.now }
    requires count { length spans.now ≡ length marks.now }
    ensures grows { Grows store.old store.new }
    ensures pushed { OnOk result ((ks : List ℤ) → IsMarked (length spans.now) ks marks.now →
        store.new.stack ≡ store.old.stack ++ without_from 0 ks (map (span_text text.now) spans.now)) }
{
    for (i, span) in spans.iter().enumerate() {
        push_unmarked(store, text, *span, marks[i])?;
    }
    Ok(())
}

// Pushes the elements of a text that are not marked.
fn push_without(store: &mut Store, text: &[u8], marks: &[bool]) -> Result<(), NoMemory>
    requires text { IsText text.now }
    requires list { IsOk (elements (chars text.now)) }
    requires count { ForOk (elements (chars text.now)) (λ ts. length ts ≡ length marks.now) }
    ensures grows { Grows store.old store.new }
    ensures pushed { OnOk result ((ks : List ℤ) → IsMarked (length marks.now) ks marks.now →
        ForOk (elements (chars text.now)) (λ ts.
        store.new.stack ≡ store.old.stack ++ without_from 0 ks ts)) }
{
    match split_list(store.allocator(), text) {
        Ok(spans) => push_kept(store, text, spans.all(), marks),
        Err(ListFault::NoMemory) => Err(NoMemory),
        Err(_) => unreachable!(),
    }
}

// Pushes the list that is the first of n words without the elements at the places that the others name.
fn push_removed(store: &mut Store, n: usize) -> Result<(), CmdFault>
    requires words { 0 < n }
    requires height { n ≤ length store.old.stack }
    ensures { Leaves (removed_of (slice_index_or store.old.stack (length store.old.stack - n) [])
        (top (n - 1) store.old.stack)) store.old store.new result }
{
    let height = store.height();
    let list = height - n;
    let len = list_len(store, At::Stack(list))?;
    let marks = mark_places(store, list + 1, height, len)?;
    let text = copy_word(store, list)?;
    push_without(store, text.bytes(), marks.as_slice())?;
    let all = store.height();
    store.push_list(all - height)?;
    Ok(())
}

/// `lremove list ?index ...?`: the list without the elements at the places. A place that the list does not have counts
/// for nothing. Refuses a text that is no list, and then an index of no form, from the left. (Tcl: lremove(n).)
pub fn cmd_lremove(store: &mut Store, n: usize) -> Result<(), CmdFault>
    requires { n + 1 ≤ length store.old.stack }
    ensures { Answers (row_lremove (call_word n store.old.stack) (top n store.old.stack)) n
        store.old store.new result }
{
    if n == 0 {
        return refuse_words(store, n, Usage::Lremove);
    }
    let height = store.height();
    let done = push_removed(store, n);
    settle(store, n, height, done)
}
