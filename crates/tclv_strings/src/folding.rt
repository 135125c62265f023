// The subcommands of `string` that change the case of ASCII letters: `tolower` and `toupper`.
ghost use Rattle.std.specs.Prelude.{◌≡◌, ◌+◌, ◌<◌, ◌≤◌, [], length, map, IfOk, slice_index_or};
ghost use Rattle.std.specs.Str.{chars};
ghost use Rattle.std.specs.Char.{to_ascii_lowercase, to_ascii_uppercase};
ghost use Rattle.tclv_text.specs.Texts.{IsText};
ghost use Rattle.tclv_model.specs.Rows.{Gives};
ghost use Rattle.tclv_value.specs.Stacks.{top};
ghost use Rattle.tclv_value.specs.View.{IsMade};
ghost use Rattle.tclv_value.specs.declared.places.At.TheVariants.{Stack};
ghost use Rattle.tclv_reply.specs.Replies.{call_word, Answers, Leaves};
ghost use Rattle.tclv_strings.specs.Folding as spec;

use std::alloc::Global;
use tclv_model::{CmdFault, Usage};
use tclv_reply::{make_word, push_bytes, refuse_words, settle, word_at};
use tclv_text::{NoMemory, Text};
use tclv_value::Store;

/// A case of letters.
#[derive(Clone, Copy, Debug, PartialEq, Eq)]
pub(crate) enum Case {
    /// Lower case.
    Lower,
    /// Upper case.
    Upper,
}

// The usage of the subcommand for this case.
fn usage_for(case: Case) -> Usage
    ensures { result ≡ spec.case_usage case }
{
    match case {
        Case::Lower => Usage::StringTolower,
        Case::Upper => Usage::StringToupper,
    }
}

// The text with its ASCII letters in lower case.
fn lower(alloc: Global, text: &[u8]) -> Result<Text, NoMemory>
    requires { IsText text.now }
    ensures { IfOk result (λ t. t ≡ map to_ascii_lowercase (chars text.now)) }
{
    let bytes = text.to_ascii_lowercase(alloc)?;
    Ok(Text::new(bytes))
}

// The text with its ASCII letters in upper case.
fn upper(alloc: Global, text: &[u8]) -> Result<Text, NoMemory>
    requires { IsText text.now }
    ensures { IfOk result (λ t. t ≡ map to_ascii_uppercase (chars text.now)) }
{
    let bytes = text.to_ascii_uppercase(alloc)?;
    Ok(Text::new(bytes))
}

// The text with its ASCII letters in this case.
fn in_case(alloc: Global, case: Case, text: &[u8]) -> Result<Text, NoMemory>
    requires { IsText text.now }
    ensures { IfOk result (λ t. t ≡ spec.in_case case (chars text.now)) }
{
    match case {
        Case::Lower => lower(alloc, text),
        Case::Upper => upper(alloc, text),
    }
}

// The text of a word, which is made, with its ASCII letters in this case.
fn word_in_case(store: &Store, case: Case, at: usize) -> Result<Text, NoMemory>
    requires place { at < length store.now.stack }
    requires made { IsMade store.now (Stack at) }
    ensures { IfOk result (λ t. t ≡ spec.in_case case (slice_index_or store.now.stack at [])) }
{
    in_case(store.allocator(), case, word_at(store, at))
}

// Pushes the text of a word with its ASCII letters in this case.
fn push_in_case(store: &mut Store, case: Case, at: usize) -> Result<(), CmdFault>
    requires { at < length store.old.stack }
    ensures { Leaves (Gives (spec.in_case case (slice_index_or store.old.stack at []))) store.old store.new result }
{
    make_word(store, at)?;
    let changed = word_in_case(store, case, at)?;
    push_bytes(store, changed.bytes())?;
    Ok(())
}

/// `string tolower string`: the string with its ASCII letters in lower case, and `toupper` in upper case. All other
/// characters stay. (Tcl: string(n), which folds all letters.)
pub(crate) fn string_case(store: &mut Store, n: usize, case: Case) -> Result<(), CmdFault>
    requires { n + 1 ≤ length store.old.stack }
    ensures { Answers (spec.row_case case (call_word n store.old.stack) (top n store.old.stack)) n
        store.old store.new result }
{
    if n != 2 {
        return refuse_words(store, n, usage_for(case));
    }
    let height = store.height();
    let done = push_in_case(store, case, height - 1);
    settle(store, n, height, done)
}
