// The words of a call: an option, two texts that are made, and a truth value as the result.
ghost use Rattle.std.specs.Prelude.{◌≡◌, ◌<◌, [], length, OnOk, OnErr, slice_index_or};
ghost use Rattle.tclv_value.specs.View.{IsMade};
ghost use Rattle.tclv_value.specs.declared.places.At.TheVariants.{Stack};
ghost use Rattle.tclv_value.specs.Changes.{Pushes, KeepsTexts};
ghost use Rattle.tclv_reply.specs.Replies.{Reads};
ghost use Rattle.tclv_strings.specs.Comparing.{truth_digit, nocase_read};

use tclv_model::{CmdFault, MessageId};
use tclv_reply::{make_word, push_ascii, refuse_on, word_is};
use tclv_text::NoMemory;
use tclv_value::Store;

/// Makes the texts of two words.
pub(crate) fn make_two(store: &mut Store, one: usize, other: usize) -> Result<(), NoMemory>
    requires one { one < length store.old.stack }
    requires other { other < length store.old.stack }
    ensures one_made { OnOk result (IsMade store.new (Stack one)) }
    ensures other_made { OnOk result (IsMade store.new (Stack other)) }
    ensures kept { KeepsTexts store.old store.new }
{
    make_word(store, one)?;
    make_word(store, other)?;
    Ok(())
}

/// Pushes 1 where it holds, else 0.
pub(crate) fn push_truth(store: &mut Store, holds: bool) -> Result<(), NoMemory>
    ensures pushed { OnOk result (Pushes store.old (truth_digit holds) store.new) }
    ensures kept { OnErr result (KeepsTexts store.old store.new) }
{
    if holds {
        push_ascii(store, "1")
    } else {
        push_ascii(store, "0")
    }
}

/// Reads a word that must be the option `-nocase`.
pub(crate) fn read_nocase(store: &mut Store, at: usize) -> Result<bool, CmdFault>
    requires { at < length store.old.stack }
    ensures { Reads (nocase_read (slice_index_or store.old.stack at [])) (λ b x. x ≡ b)
        store.old store.new result }
{
    if word_is(store, at, "-nocase")? {
        return Ok(true);
    }
    Err(refuse_on(store, MessageId::BadOption, at, "NONE"))
}
