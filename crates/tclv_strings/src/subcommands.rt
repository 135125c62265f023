// The command `string`, and which subcommand a word names.
ghost use Rattle.std.specs.Prelude.{◌≡◌, ◌+◌, ◌-◌, ◌<◌, ◌≤◌, [], length, IfOk, slice_index_or};
ghost use Rattle.std.specs.Str.{chars};
ghost use Rattle.tclv_text.specs.Texts.{IsText};
ghost use Rattle.tclv_model.specs.Rows.{says};
ghost use Rattle.tclv_model.specs.declared.messages.MessageId.TheVariants.{UnknownSubcommand};
ghost use Rattle.tclv_value.specs.Stacks.{top};
ghost use Rattle.tclv_value.specs.View.{IsMade};
ghost use Rattle.tclv_value.specs.Changes.{KeepsTexts};
ghost use Rattle.tclv_value.specs.declared.places.At.TheVariants.{Stack};
ghost use Rattle.tclv_reply.specs.Replies.{call_word, Answers};
ghost use Rattle.tclv_strings.specs.Subcommands as spec;

use crate::changing::{string_insert, string_replace};
use crate::classes::string_is;
use crate::comparing::{Verdict, string_compare, string_match};
use crate::finding::{string_first, string_last};
use crate::folding::{Case, string_case};
use crate::making::{string_cat, string_repeat, string_reverse};
use crate::mapping::string_map;
use crate::measuring::string_length;
use crate::reading::{string_index, string_range};
use crate::trimming::{Ends, string_trim};
use tclv_model::{CmdFault, MessageId, Usage};
use tclv_reply::{make_word, refuse_on, refuse_words, settle, word_at};
use tclv_text::{NoMemory, as_str};
use tclv_value::Store;

/// A subcommand of `string`.
#[derive(Clone, Copy, Debug, PartialEq, Eq)]
pub(crate) enum StringCommand {
    Cat,
    Compare,
    Equal,
    First,
    Index,
    Insert,
    Is,
    Last,
    Length,
    Map,
    Match,
    Range,
    Repeat,
    Replace,
    Reverse,
    Tolower,
    Toupper,
    Trim,
    Trimleft,
    Trimright,
}

// The subcommand that these bytes name.
fn string_command(word: &[u8]) -> Option<StringCommand>
    requires { IsText word.now }
    ensures { result ≡ spec.string_command word.now }
{
    match as_str(word) {
        "cat" => Some(StringCommand::Cat),
        "compare" => Some(StringCommand::Compare),
        "equal" => Some(StringCommand::Equal),
        "first" => Some(StringCommand::First),
        "index" => Some(StringCommand::Index),
        "insert" => Some(StringCommand::Insert),
        "is" => Some(StringCommand::Is),
        "last" => Some(StringCommand::Last),
        "length" => Some(StringCommand::Length),
        "map" => Some(StringCommand::Map),
        "match" => Some(StringCommand::Match),
        "range" => Some(StringCommand::Range),
        "repeat" => Some(StringCommand::Repeat),
        "replace" => Some(StringCommand::Replace),
        "reverse" => Some(StringCommand::Reverse),
        "tolower" => Some(StringCommand::Tolower),
        "toupper" => Some(StringCommand::Toupper),
        "trim" => Some(StringCommand::Trim),
        "trimleft" => Some(StringCommand::Trimleft),
        "trimright" => Some(StringCommand::Trimright),
        _ => None,
    }
}

// The subcommand that a text names.
fn command_of(word: &[u8]) -> Option<StringCommand>
    requires { IsText word.now }
    ensures { result ≡ spec.string_command (chars word.now) }
{
    string_command(word)
}

// The subcommand that a word names.
fn command_at(store: &mut Store, at: usize) -> Result<Option<StringCommand>, NoMemory>
    requires { at < length store.old.stack }
    ensures named { IfOk result (λ found. found ≡ spec.string_command (slice_index_or store.old.stack at [])) }
    ensures kept { KeepsTexts store.old store.new }
{
    make_word(store, at)?;
    Ok(command_of(word_at(store, at)))
}

// Runs a subcommand, whose word is the first of the `n` words.
fn run(store: &mut Store, command: StringCommand, n: usize) -> Result<(), CmdFault>
    requires some { 0 < n }
    requires height { n + 1 ≤ length store.old.stack }
    ensures { Answers (spec.string_row command (call_word n store.old.stack) (top n store.old.stack)) n
        store.old store.new result }
{
    match command {
        StringCommand::Cat => string_cat(store, n),
        StringCommand::Compare => string_compare(store, n, Verdict::Order),
        StringCommand::Equal => string_compare(store, n, Verdict::Equality),
        StringCommand::First => string_first(store, n),
        StringCommand::Index => string_index(store, n),
        StringCommand::Insert => string_insert(store, n),
        StringCommand::Is => string_is(store, n),
        StringCommand::Last => string_last(store, n),
        StringCommand::Length => string_length(store, n),
        StringCommand::Map => string_map(store, n),
        StringCommand::Match => string_match(store, n),
        StringCommand::Range => string_range(store, n),
        StringCommand::Repeat => string_repeat(store, n),
        StringCommand::Replace => string_replace(store, n),
        StringCommand::Reverse => string_reverse(store, n),
        StringCommand::Tolower => string_case(store, n, Case::Lower),
        StringCommand::Toupper => string_case(store, n, Case::Upper),
        StringCommand::Trim => string_trim(store, n, Ends::Both),
        StringCommand::Trimleft => string_trim(store, n, Ends::Left),
        StringCommand::Trimright => string_trim(store, n, Ends::Right),
    }
}

// Refuses the first of the `n` words, which names no subcommand.
fn refuse_subcommand(store: &mut Store, n: usize) -> Result<(), CmdFault>
    requires some { 0 < n }
    requires height { n + 1 ≤ length store.old.stack }
    ensures { Answers (says UnknownSubcommand (slice_index_or store.old.stack (length store.old.stack - n) []) [])
        n store.old store.new result }
{
    let height = store.height();
    let kind = refuse_on(store, MessageId::UnknownSubcommand, height - n, "NONE");
    settle(store, n, height, Err(kind))
}

/// `string subcommand ?arg ...?`: what the subcommand gives. Refuses a word that names none. (Tcl: string(n).)
pub fn cmd_string(store: &mut Store, n: usize) -> Result<(), CmdFault>
    requires { n + 1 ≤ length store.old.stack }
    ensures { Answers (spec.row_string (call_word n store.old.stack) (top n store.old.stack)) n
        store.old store.new result }
{
    if n == 0 {
        return refuse_words(store, n, Usage::String);
    }
    let height = store.height();
    match command_at(store, height - n)? {
        Some(command) => run(store, command, n),
        None => refuse_subcommand(store, n),
    }
}
