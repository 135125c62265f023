// What a text is as a whole: its length.
ghost use Rattle.std.specs.Prelude.{◌+◌, ◌<◌, ◌≤◌, [], length, slice_index_or};
ghost use Rattle.tclv_value.specs.Stacks.{top};
ghost use Rattle.tclv_reply.specs.Replies.{call_word, Answers, Leaves};
ghost use Rattle.tclv_strings.specs.Measuring.{text_length, row_length};

use crate::places::text_len;
use tclv_model::{CmdFault, Usage};
use tclv_reply::{push_count, refuse_words, settle};
use tclv_value::Store;

// Pushes how many characters a word has.
fn push_length(store: &mut Store, at: usize) -> Result<(), CmdFault>
    requires { at < length store.old.stack }
    ensures { Leaves (text_length (slice_index_or store.old.stack at [])) store.old store.new result }
{
    let len = text_len(store, at)?;
    push_count(store, len)?;
    Ok(())
}

/// `string length string`: the number of its characters. (Tcl: string(n).)
pub(crate) fn string_length(store: &mut Store, n: usize) -> Result<(), CmdFault>
    requires { n + 1 ≤ length store.old.stack }
    ensures { Answers (row_length (call_word n store.old.stack) (top n store.old.stack)) n
        store.old store.new result }
{
    if n != 2 {
        return refuse_words(store, n, Usage::StringLength);
    }
    let height = store.height();
    let done = push_length(store, height - 1);
    settle(store, n, height, done)
}
