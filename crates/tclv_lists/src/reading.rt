// The commands that read a list.
ghost use Rattle.std.specs.Prelude.{◌+◌, ◌-◌, ◌<◌, ◌≤◌, [], length, take, drop, slice_index_or};
ghost use Rattle.std.specs.Result.{ForOk};
ghost use Rattle.tclv_text.specs.Elements.{elements};
ghost use Rattle.tclv_text.specs.Quotes.{list_text};
ghost use Rattle.tclv_model.specs.Rows.{Gives, and_then};
ghost use Rattle.tclv_model.specs.Values.{list_of};
ghost use Rattle.tclv_value.specs.Stacks.{top};
ghost use Rattle.tclv_reply.specs.Replies.{call_word, Answers, Leaves};
ghost use Rattle.tclv_lists.specs.Reading.{length_of, row_llength, range_of, row_lrange, row_lindex};

use crate::paths::push_named;
use tclv_model::{CmdFault, Usage};
use tclv_reply::{
    clipped_behind, clipped_place, list_len, push_count, refuse_list, refuse_words, settle,
};
use tclv_value::{At, Store};

// Pushes the number of elements of a list.
fn push_length(store: &mut Store, list: usize) -> Result<(), CmdFault>
    requires { list < length store.old.stack }
    ensures { Leaves (length_of (slice_index_or store.old.stack list [])) store.old store.new result }
{
    let len = list_len(store, At::Stack(list))?;
    push_count(store, len)?;
    Ok(())
}

/// `llength list`: the number of elements. Refuses a text that is no list. (Tcl: llength(n).)
pub fn cmd_llength(store: &mut Store, n: usize) -> Result<(), CmdFault>
    requires { n + 1 ≤ length store.old.stack }
    ensures { Answers (row_llength (call_word n store.old.stack) (top n store.old.stack)) n
        store.old store.new result }
{
    if n != 1 {
        return refuse_words(store, n, Usage::Llength);
    }
    let height = store.height();
    let done = push_length(store, height - 1);
    settle(store, n, height, done)
}

// Pushes the list of the elements of a list from one place up to another, if there are some.
fn push_elements(store: &mut Store, list: usize, from: u64, to: u64) -> Result<(), CmdFault>
    requires list { list < length store.old.stack }
    requires within { ForOk (elements (slice_index_or store.old.stack list [])) (λ ts.
        (from ≤ length ts) × (to ≤ length ts)) }
    ensures { Leaves (and_then (list_of (slice_index_or store.old.stack list [])) (λ ts.
        Gives (list_text (take (to - from) (drop from ts))))) store.old store.new result }
{
    match store.push_range(At::Stack(list), from, to.saturating_sub(from)) {
        Ok(()) => Ok(()),
        Err(fault) => Err(refuse_list(store, At::Stack(list), fault)),
    }
}

// Pushes the elements of a list from one place up to and with another.
fn push_part(store: &mut Store, list: usize, first: usize, last: usize) -> Result<(), CmdFault>
    requires list { list < length store.old.stack }
    requires first { first < length store.old.stack }
    requires last { last < length store.old.stack }
    ensures { Leaves (range_of (slice_index_or store.old.stack list [])
        (slice_index_or store.old.stack first []) (slice_index_or store.old.stack last []))
        store.old store.new result }
{
    let len = list_len(store, At::Stack(list))?;
    let from = clipped_place(store, first, len)?;
    let to = clipped_behind(store, last, len)?;
    push_elements(store, list, from, to)
}

/// `lrange list first last`: the list of the elements from the first place up to and with the last, as far as
/// the list has them. Refuses a text that is no list, and then an index of no form, from the left. (Tcl:
/// lrange(n).)
pub fn cmd_lrange(store: &mut Store, n: usize) -> Result<(), CmdFault>
    requires { n + 1 ≤ length store.old.stack }
    ensures { Answers (row_lrange (call_word n store.old.stack) (top n store.old.stack)) n
        store.old store.new result }
{
    if n != 3 {
        return refuse_words(store, n, Usage::Lrange);
    }
    let height = store.height();
    let done = push_part(store, height - 3, height - 2, height - 1);
    settle(store, n, height, done)
}

/// `lindex list ?index ...?`: the element at the end of the path of the indices; without any, the text itself. One
/// word that is no index and is a list stands for its elements. Past either end it is the empty text, and the
/// indices behind are checked for their form alone. Refuses, at the first list from the outer one on where there is
/// a cause, a text that is no list, and then an index of no form. (Tcl: lindex(n).)
pub fn cmd_lindex(store: &mut Store, n: usize) -> Result<(), CmdFault>
    requires { n + 1 ≤ length store.old.stack }
    ensures { Answers (row_lindex (call_word n store.old.stack) (top n store.old.stack)) n
        store.old store.new result }
{
    if n == 0 {
        return refuse_words(store, n, Usage::Lindex);
    }
    let height = store.height();
    let done = push_named(store, height - n, height - n + 1, height);
    settle(store, n, height, done)
}
