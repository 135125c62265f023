// The subcommands that give a part of a text.
ghost use Rattle.std.specs.Prelude.{◌+◌, ◌<◌, ◌≤◌, [], length, slice_index_or};
ghost use Rattle.tclv_value.specs.Stacks.{top};
ghost use Rattle.tclv_reply.specs.Replies.{call_word, Answers, Leaves};
ghost use Rattle.tclv_strings.specs.Reading.{character_of, row_index, part_of, row_range};

use crate::places::{push_part, text_len};
use tclv_model::{CmdFault, Usage};
use tclv_reply::{clipped_behind, clipped_place, place_among, push_ascii, refuse_words, settle};
use tclv_value::Store;

// Pushes the character of a word whose place another word names, or nothing where the place is outside.
fn push_character(store: &mut Store, text: usize, place: usize) -> Result<(), CmdFault>
    requires text { text < length store.old.stack }
    requires place { place < length store.old.stack }
    ensures { Leaves (character_of (slice_index_or store.old.stack text [])
        (slice_index_or store.old.stack place [])) store.old store.new result }
{
    let len = text_len(store, text)?;
    match place_among(store, place, len)? {
        Some(k) => push_part(store, text, k, k + 1),
        None => {
            push_ascii(store, "")?;
            Ok(())
        }
    }
}

/// `string index string charIndex`: the character at a place; the empty text outside. Refuses an index of no form.
/// (Tcl: string(n).)
pub(crate) fn string_index(store: &mut Store, n: usize) -> Result<(), CmdFault>
    requires { n + 1 ≤ length store.old.stack }
    ensures { Answers (row_index (call_word n store.old.stack) (top n store.old.stack)) n
        store.old store.new result }
{
    if n != 3 {
        return refuse_words(store, n, Usage::StringIndex);
    }
    let height = store.height();
    let done = push_character(store, height - 2, height - 1);
    settle(store, n, height, done)
}

// Pushes what stands in a word from one place up to and with another, as far as the word has it.
fn push_between(store: &mut Store, text: usize, first: usize, last: usize) -> Result<(), CmdFault>
    requires text { text < length store.old.stack }
    requires first { first < length store.old.stack }
    requires last { last < length store.old.stack }
    ensures { Leaves (part_of (slice_index_or store.old.stack text [])
        (slice_index_or store.old.stack first []) (slice_index_or store.old.stack last []))
        store.old store.new result }
{
    let len = text_len(store, text)?;
    let from = clipped_place(store, first, len)?;
    let to = clipped_behind(store, last, len)?;
    push_part(store, text, from, from.max(to))
}

/// `string range string first last`: what stands from the first place up to and with the last, as far as the text
/// has it. Refuses an index of no form, from the left. (Tcl: string(n).)
pub(crate) fn string_range(store: &mut Store, n: usize) -> Result<(), CmdFault>
    requires { n + 1 ≤ length store.old.stack }
    ensures { Answers (row_range (call_word n store.old.stack) (top n store.old.stack)) n
        store.old store.new result }
{
    if n != 4 {
        return refuse_words(store, n, Usage::StringRange);
    }
    let height = store.height();
    let done = push_between(store, height - 3, height - 2, height - 1);
    settle(store, n, height, done)
}
