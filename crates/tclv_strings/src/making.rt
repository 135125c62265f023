// The subcommands that write a text anew: joined, repeated, reversed.
ghost use Rattle.std.specs.Prelude.{◌≡◌, ◌+◌, ◌-◌, ◌<◌, ◌≤◌, ◌++◌, ◌∷◌, [], length, take, drop, reverse, OnOk, IfOk, slice_index_or};
ghost use Rattle.std.specs.List.{concat};
ghost use Rattle.std.specs.Str.{chars};
ghost use Rattle.tclv_text.specs.Texts.{IsText};
ghost use Rattle.tclv_model.specs.Rows.{Gives};
ghost use Rattle.tclv_value.specs.Stacks.{top};
ghost use Rattle.tclv_value.specs.View.{IsMade};
ghost use Rattle.tclv_value.specs.Changes.{KeepsTexts};
ghost use Rattle.tclv_value.specs.declared.places.At.TheVariants.{Stack};
ghost use Rattle.tclv_reply.specs.Replies.{call_word, Answers, Grows, Leaves};
ghost use Rattle.tclv_strings.specs.Making.{row_cat, copies, copies_of, row_repeat, row_reverse};

use std::alloc::Global;
use tclv_model::{CmdFault, Usage};
use tclv_reply::{make_word, push_ascii, push_bytes, refuse_words, settle, whole_of, word_at};
use tclv_text::{NoMemory, Text, as_str};
use tclv_value::Store;

// Adds the text of a word to others.
fn add_word(store: &mut Store, at: usize, text: &mut Text) -> Result<(), NoMemory>
    requires { at < length store.old.stack }
    ensures kept { KeepsTexts store.old store.new }
    ensures added { OnOk result (text.new ≡ text.old ++ slice_index_or store.old.stack at []) }
{
    make_word(store, at)?;
    text.push(word_at(store, at))
}

// Pushes the texts of the places from one up to another as one.
fn push_joined(store: &mut Store, from: usize, to: usize) -> Result<(), NoMemory>
    requires order { from ≤ to }
    requires within { to ≤ length store.old.stack }
    ensures grows { Grows store.old store.new }
    ensures pushed { OnOk result (store.new.stack ≡ store.old.stack ++
        concat (take (to - from) (drop from store.old.stack)) ∷ []) }
{
    let mut text = Text::new(Vec::new(store.allocator()));
    for at in from..to {
        add_word(store, at, &mut text)?;
    }
    push_bytes(store, text.bytes())
}

// Pushes the top `n` words as one text.
fn push_all_joined(store: &mut Store, n: usize) -> Result<(), CmdFault>
    requires { n ≤ length store.old.stack }
    ensures { Leaves (Gives (concat (top n store.old.stack))) store.old store.new result }
{
    let height = store.height();
    push_joined(store, height - n, height)?;
    Ok(())
}

/// `string cat ?arg ...?`: the texts, one behind another. (Tcl: string(n).)
pub(crate) fn string_cat(store: &mut Store, n: usize) -> Result<(), CmdFault>
    requires some { 0 < n }
    requires height { n + 1 ≤ length store.old.stack }
    ensures { Answers (row_cat (call_word n store.old.stack) (top n store.old.stack)) n
        store.old store.new result }
{
    let height = store.height();
    let done = push_all_joined(store, n - 1);
    settle(store, n, height, done)
}

// So many copies of a text, one behind another.
fn copies(alloc: Global, text: &[u8], count: u64) -> Result<Text, NoMemory>
    requires { IsText text.now }
    ensures { IfOk result (λ t. t ≡ copies count (chars text.now)) }
{
    if text.is_empty() {
        return Ok(Text::new(Vec::new(alloc)));
    }
    let len = (text.len() as u64).checked_mul(count).ok_or(NoMemory)?;
    let mut all = Text::new(Vec::with_capacity(alloc, len as usize)?);
    for turn in 0..count {
        all.push(text)?;
    }
    Ok(all)
}

// So many copies of a word, whose text is made.
fn word_copies(store: &Store, at: usize, count: u64) -> Result<Text, NoMemory>
    requires place { at < length store.now.stack }
    requires made { IsMade store.now (Stack at) }
    ensures { IfOk result (λ t. t ≡ copies count (slice_index_or store.now.stack at [])) }
{
    copies(store.allocator(), word_at(store, at), count)
}

// Pushes so many copies of a word.
fn push_copies(store: &mut Store, at: usize, count: u64) -> Result<(), CmdFault>
    requires { at < length store.old.stack }
    ensures { Leaves (Gives (copies count (slice_index_or store.old.stack at []))) store.old store.new result }
{
    make_word(store, at)?;
    let text = word_copies(store, at, count)?;
    push_bytes(store, text.bytes())?;
    Ok(())
}

// Pushes so many copies of a word as another says.
fn push_repeated(store: &mut Store, text: usize, count: usize) -> Result<(), CmdFault>
    requires text { text < length store.old.stack }
    requires count { count < length store.old.stack }
    ensures { Leaves (copies_of (slice_index_or store.old.stack text [])
        (slice_index_or store.old.stack count [])) store.old store.new result }
{
    let number = whole_of(store, count)?;
    if number < 0 {
        push_ascii(store, "")?;
        return Ok(());
    }
    push_copies(store, text, number as u64)
}

/// `string repeat string count`: so many copies of the text, none for a count below 0. Refuses a count that is no whole
/// number. (Tcl: string(n).)
pub(crate) fn string_repeat(store: &mut Store, n: usize) -> Result<(), CmdFault>
    requires { n + 1 ≤ length store.old.stack }
    ensures { Answers (row_repeat (call_word n store.old.stack) (top n store.old.stack)) n
        store.old store.new result }
{
    if n != 3 {
        return refuse_words(store, n, Usage::StringRepeat);
    }
    let height = store.height();
    let done = push_repeated(store, height - 2, height - 1);
    settle(store, n, height, done)
}

// Adds a character to a text.
fn add_character(text: &mut Text, c: char) -> Result<(), NoMemory>
    ensures { OnOk result (text.new ≡ text.old ++ c ∷ []) }
{
    let mut buffer = [0u8; 4];
    text.push(c.encode_utf8(&mut buffer).as_bytes())
}

// The characters of a text.
fn characters_of(alloc: Global, text: &[u8]) -> Result<Vec<char>, NoMemory>
    requires { IsText text.now }
    ensures { IfOk result (λ cs. cs.items ≡ chars text.now) }
{
    let mut characters = Vec::new(alloc);
    for c in as_str(text).chars() {
        characters.push(c)?;
    }
    Ok(characters)
}

// The text of characters from the last to the first.
fn text_backwards(alloc: Global, characters: &[char]) -> Result<Text, NoMemory>
    ensures { IfOk result (λ t. t ≡ reverse characters.now) }
{
    let mut text = Text::new(Vec::new(alloc));
    for k in 0..characters.len() {
        add_character(&mut text, characters[characters.len() - 1 - k])?;
    }
    Ok(text)
}

// A word, whose text is made, from the last character to the first.
fn word_backwards(store: &Store, at: usize) -> Result<Text, NoMemory>
    requires place { at < length store.now.stack }
    requires made { IsMade store.now (Stack at) }
    ensures { IfOk result (λ t. t ≡ reverse (slice_index_or store.now.stack at [])) }
{
    let characters = characters_of(store.allocator(), word_at(store, at))?;
    text_backwards(store.allocator(), characters.as_slice())
}

// Pushes a word from the last character to the first.
fn push_reversed(store: &mut Store, at: usize) -> Result<(), CmdFault>
    requires { at < length store.old.stack }
    ensures { Leaves (Gives (reverse (slice_index_or store.old.stack at []))) store.old store.new result }
{
    make_word(store, at)?;
    let text = word_backwards(store, at)?;
    push_bytes(store, text.bytes())?;
    Ok(())
}

/// `string reverse string`: the characters from the last to the first. (Tcl: string(n).)
pub(crate) fn string_reverse(store: &mut Store, n: usize) -> Result<(), CmdFault>
    requires { n + 1 ≤ length store.old.stack }
    ensures { Answers (row_reverse (call_word n store.old.stack) (top n store.old.stack)) n
        store.old store.new result }
{
    if n != 2 {
        return refuse_words(store, n, Usage::StringReverse);
    }
    let height = store.height();
    let done = push_reversed(store, height - 1);
    settle(store, n, height, done)
}
