// The commands that make lists of their words.
ghost use Rattle.std.specs.Prelude.{◌≡◌, ◌+◌, ◌-◌, ◌<◌, ◌≤◌, ◌++◌, [], length, take, drop, OnOk, slice_index_or};
ghost use Rattle.tclv_value.specs.Stacks.{top};
ghost use Rattle.tclv_reply.specs.Replies.{call_word, Answers, Grows, Reads, Leaves};
ghost use Rattle.tclv_lists.specs.Making.{row_list, times, count_of, repeated_of, row_lrepeat};

use tclv_model::{CmdFault, MessageId, Usage};
use tclv_reply::{push_words, refuse_on, refuse_words, settle, whole_of};
use tclv_text::NoMemory;
use tclv_value::Store;

/// `list ?arg ...?`: the list of the words. (Tcl: list(n).)
pub fn cmd_list(store: &mut Store, n: usize) -> Result<(), CmdFault>
    requires { n + 1 ≤ length store.old.stack }
    ensures { Answers (row_list (call_word n store.old.stack) (top n store.old.stack)) n
        store.old store.new result }
{
    store.push_list(n)?;
    Ok(())
}

// Pushes the texts of the places from one up to another, so often as is said.
fn push_times(store: &mut Store, from: usize, to: usize, count: u64) -> Result<(), NoMemory>
    requires order { from ≤ to }
    requires within { to ≤ length store.old.stack }
    ensures grows { Grows store.old store.new }
    ensures pushed { OnOk result (store.new.stack ≡
        store.old.stack ++ times count (take (to - from) (drop from store.old.stack))) }
{
    if from == to {
        return Ok(());
    }
    for turn in 0..count {
        push_words(store, from, to)?;
    }
    Ok(())
}

// The count that a word is.
fn count_of(store: &mut Store, at: usize) -> Result<u64, CmdFault>
    requires { at < length store.old.stack }
    ensures { Reads (count_of (slice_index_or store.old.stack at [])) (λ n x. x ≡ n) store.old store.new result }
{
    let number = whole_of(store, at)?;
    if number < 0 {
        return Err(refuse_on(store, MessageId::BadCount, at, "NONE"));
    }
    Ok(number as u64)
}

// Pushes the list of the texts on top, so often as the word says that is the first of n.
fn push_repeated(store: &mut Store, n: usize) -> Result<(), CmdFault>
    requires words { 0 < n }
    requires height { n ≤ length store.old.stack }
    ensures { Leaves (repeated_of (slice_index_or store.old.stack (length store.old.stack - n) [])
        (top (n - 1) store.old.stack)) store.old store.new result }
{
    let height = store.height();
    let count = count_of(store, height - n)?;
    push_times(store, height - n + 1, height, count)?;
    let all = store.height();
    store.push_list(all - height)?;
    Ok(())
}

/// `lrepeat count ?value ...?`: the list of the values, as often as the count says. Refuses a count that is no whole
/// number, and then one below 0. (Tcl: lrepeat(n).)
pub fn cmd_lrepeat(store: &mut Store, n: usize) -> Result<(), CmdFault>
    requires { n + 1 ≤ length store.old.stack }
    ensures { Answers (row_lrepeat (call_word n store.old.stack) (top n store.old.stack)) n
        store.old store.new result }
{
    if n == 0 {
        return refuse_words(store, n, Usage::Lrepeat);
    }
    let height = store.height();
    let done = push_repeated(store, n);
    settle(store, n, height, done)
}
