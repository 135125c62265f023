// The subcommands of `string` that take characters off the ends of a text: `trim`, `trimleft` and `trimright`.
ghost use Rattle.std.specs.Prelude.{◌≡◌, ◌+◌, ◌<◌, ◌≤◌, [], length, Some, None, IfSome, OnOk, OnErr, slice_index_or};
ghost use Rattle.std.specs.Option.{option_map, option_copied, ForSome};
ghost use Rattle.std.specs.Str.{chars};
ghost use Rattle.tclv_text.specs.Texts.{IsText};
ghost use Rattle.tclv_model.specs.Rows.{Gives};
ghost use Rattle.tclv_value.specs.Stacks.{top};
ghost use Rattle.tclv_reply.specs.Replies.{call_word, Answers, Leaves};
ghost use Rattle.tclv_strings.specs.Trimming as spec;

use crate::characters::{is_one_in, split_first, split_last};
use crate::classes::is_spacing;
use tclv_model::{CmdFault, Usage};
use tclv_reply::{copy_of, push_bytes, refuse_words, settle};
use tclv_value::Store;

/// The ends of a text at which characters go.
#[derive(Clone, Copy, Debug, PartialEq, Eq)]
pub(crate) enum Ends {
    /// Both.
    Both,
    /// The left one.
    Left,
    /// The right one.
    Right,
}

// The usage of the subcommand for these ends.
fn usage_for(ends: Ends) -> Usage
    ensures { result ≡ spec.trim_usage ends }
{
    match ends {
        Ends::Both => Usage::StringTrim,
        Ends::Left => Usage::StringTrimleft,
        Ends::Right => Usage::StringTrimright,
    }
}

// Whether a character goes: it is one of those that are named, or by default U+0000 or one of the class `space`.
fn is_trimmed(c: char, set: Option<&[u8]>) -> bool
    requires { IfSome (option_copied set) IsText }
    ensures { result ≡ spec.is_trimmed (option_map chars (option_copied set.entry)) c }
{
    match set {
        Some(characters) => is_one_in(c, characters),
        None => c == '\0' || is_spacing(c),
    }
}

// The text without such characters at its left end.
fn trimmed_left<'a>(text: &'a [u8], set: Option<&[u8]>) -> &'a [u8]
    requires text { IsText text.now }
    requires set { IfSome (option_copied set) IsText }
    ensures text { chars result.now ≡ spec.trimmed_left (option_map chars (option_copied set.entry)) (chars text.now) }
    ensures utf8 { IsText result.now }
{
    let mut rest = text;
    while let Some((c, behind)) = split_first(rest) {
        if !is_trimmed(c, set) {
            return rest;
        }
        rest = behind;
    }
    rest
}

// The text without such characters at its right end.
fn trimmed_right<'a>(text: &'a [u8], set: Option<&[u8]>) -> &'a [u8]
    requires text { IsText text.now }
    requires set { IfSome (option_copied set) IsText }
    ensures text { chars result.now ≡ spec.trimmed_right (option_map chars (option_copied set.entry)) (chars text.now) }
    ensures utf8 { IsText result.now }
{
    let mut rest = text;
    while let Some((before, c)) = split_last(rest) {
        if !is_trimmed(c, set) {
            return rest;
        }
        rest = before;
    }
    rest
}

// The text without such characters at these ends.
fn trimmed_at<'a>(ends: Ends, text: &'a [u8], set: Option<&[u8]>) -> &'a [u8]
    requires text { IsText text.now }
    requires set { IfSome (option_copied set) IsText }
    ensures text { chars result.now ≡ spec.trimmed_at ends (option_map chars (option_copied set.entry)) (chars text.now) }
    ensures utf8 { IsText result.now }
{
    match ends {
        Ends::Both => trimmed_right(trimmed_left(text, set), set),
        Ends::Left => trimmed_left(text, set),
        Ends::Right => trimmed_right(text, set),
    }
}

// Pushes the text of a word without the characters that go by default.
fn push_trimmed(store: &mut Store, ends: Ends, at: usize) -> Result<(), CmdFault>
    requires { at < length store.old.stack }
    ensures { Leaves (Gives (spec.trimmed_at ends None (slice_index_or store.old.stack at [])))
        store.old store.new result }
{
    let text = copy_of(store, at)?;
    push_bytes(store, trimmed_at(ends, text.bytes(), None))?;
    Ok(())
}

// Pushes the text of a word without the characters of another one.
fn push_trimmed_of(store: &mut Store, ends: Ends, at: usize, set: usize) -> Result<(), CmdFault>
    requires at { at < length store.old.stack }
    requires set { set < length store.old.stack }
    ensures { Leaves (Gives (spec.trimmed_at ends (Some (slice_index_or store.old.stack set []))
        (slice_index_or store.old.stack at []))) store.old store.new result }
{
    let text = copy_of(store, at)?;
    let characters = copy_of(store, set)?;
    push_bytes(
        store,
        trimmed_at(ends, text.bytes(), Some(characters.bytes())),
    )?;
    Ok(())
}

/// `string trim string ?chars?`: the string without the characters at its ends that are among the second text, by default
/// U+0000 and those of the class `space`; and `trimleft` and `trimright` at one end alone. (Tcl: string(n).)
pub(crate) fn string_trim(store: &mut Store, n: usize, ends: Ends) -> Result<(), CmdFault>
    requires { n + 1 ≤ length store.old.stack }
    ensures { Answers (spec.row_trim ends (call_word n store.old.stack) (top n store.old.stack)) n
        store.old store.new result }
{
    let height = store.height();
    match n {
        2 => {
            let done = push_trimmed(store, ends, height - 1);
            settle(store, n, height, done)
        }
        3 => {
            let done = push_trimmed_of(store, ends, height - 2, height - 1);
            settle(store, n, height, done)
        }
        _ => refuse_words(store, n, usage_for(ends)),
    }
}
