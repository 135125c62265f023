// Places in a text, which count its characters, and the parts between them.
ghost use Rattle.std.specs.Prelude.{◌≡◌, ◌+◌, ◌-◌, ◌<◌, ◌≤◌, ◌++◌, [], length, take, drop, IfOk, slice_index_or};
ghost use Rattle.std.specs.Str.{chars};
ghost use Rattle.tclv_text.specs.Texts.{IsText};
ghost use Rattle.tclv_text.specs.Cuts.{IsCut};
ghost use Rattle.tclv_model.specs.Rows.{Gives};
ghost use Rattle.tclv_value.specs.View.{IsMade};
ghost use Rattle.tclv_value.specs.Changes.{KeepsTexts};
ghost use Rattle.tclv_value.specs.declared.places.At.TheVariants.{Stack};
ghost use Rattle.tclv_reply.specs.Replies.{Leaves};
ghost use Rattle.tclv_strings.specs.Places.{text_between, text_filled};

use std::alloc::Global;
use tclv_model::CmdFault;
use tclv_reply::{make_word, push_bytes, word_at};
use tclv_text::{NoMemory, Text, as_str};
use tclv_value::Store;

/// How many characters a text has.
pub(crate) fn count_characters(text: &[u8]) -> usize
    requires { IsText text.now }
    ensures { result ≡ length (chars text.now) }
{
    as_str(text).chars().count()
}

// How many characters a word has, whose text is made.
fn made_len(store: &Store, at: usize) -> usize
    requires place { at < length store.now.stack }
    requires made { IsMade store.now (Stack at) }
    ensures { result ≡ length (slice_index_or store.now.stack at []) }
{
    count_characters(word_at(store, at))
}

/// How many characters a word has.
pub(crate) fn text_len(store: &mut Store, at: usize) -> Result<u64, NoMemory>
    requires { at < length store.old.stack }
    ensures len { IfOk result (λ n. n ≡ length (slice_index_or store.old.stack at [])) }
    ensures kept { KeepsTexts store.old store.new }
{
    make_word(store, at)?;
    Ok(made_len(store, at) as u64)
}

// How many bytes the first character of a text takes.
fn first_len(text: &[u8]) -> usize
    requires text { IsText text.now }
    requires some { 0 < length text.now }
    ensures { IsCut text.now result 1 }
{
    match as_str(text).chars().next() {
        Some(c) => c.len_utf8(),
        None => unreachable!(),
    }
}

/// How many bytes the characters before a place of a text take.
pub(crate) fn byte_of(text: &[u8], place: u64) -> usize
    requires text { IsText text.now }
    requires place { place ≤ length (chars text.now) }
    ensures { IsCut text.now result place }
{
    let mut at = 0;
    for k in 0..place {
        at += first_len(&text[at..]);
    }
    at
}

/// What stands in a text from one place up to another.
pub(crate) fn part(text: &[u8], from: u64, to: u64) -> &[u8]
    requires text { IsText text.now }
    requires order { from ≤ to }
    requires within { to ≤ length (chars text.now) }
    ensures utf8 { IsText result.now }
    ensures text { chars result.now ≡ text_between from to (chars text.now) }
{
    let rest = &text[byte_of(text, from)..];
    &rest[..byte_of(rest, to - from)]
}

/// A text with another one in place of what stands from one place up to another.
pub(crate) fn fill(
    alloc: Global,
    text: &[u8],
    from: u64,
    to: u64,
    new: &[u8],
) -> Result<Text, NoMemory>
    requires text { IsText text.now }
    requires order { from ≤ to }
    requires within { to ≤ length (chars text.now) }
    requires new { IsText new.now }
    ensures { IfOk result (λ t. t ≡ text_filled from to (chars new.now) (chars text.now)) }
{
    let front = Vec::from_slice(alloc, &text[..byte_of(text, from)])?;
    let mut all = Text::new(front);
    all.push(new)?;
    all.push(&text[byte_of(text, to)..])?;
    Ok(all)
}

// A copy of what stands in a word, whose text is made, from one place up to another.
fn copy_part(store: &Store, at: usize, from: u64, to: u64) -> Result<Text, NoMemory>
    requires place { at < length store.now.stack }
    requires made { IsMade store.now (Stack at) }
    requires order { from ≤ to }
    requires within { to ≤ length (slice_index_or store.now.stack at []) }
    ensures { IfOk result (λ t. t ≡ text_between from to (slice_index_or store.now.stack at [])) }
{
    let bytes = Vec::from_slice(store.allocator(), part(word_at(store, at), from, to))?;
    Ok(Text::new(bytes))
}

/// Pushes what stands in a word from one place up to another.
pub(crate) fn push_part(store: &mut Store, at: usize, from: u64, to: u64) -> Result<(), CmdFault>
    requires place { at < length store.old.stack }
    requires order { from ≤ to }
    requires within { to ≤ length (slice_index_or store.old.stack at []) }
    ensures { Leaves (Gives (text_between from to (slice_index_or store.old.stack at []))) store.old store.new result }
{
    make_word(store, at)?;
    let text = copy_part(store, at, from, to)?;
    push_bytes(store, text.bytes())?;
    Ok(())
}
