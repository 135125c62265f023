// The commands that join texts and split them.
ghost use Rattle.std.specs.Prelude.{◌≡◌, ℕ, List, ◌+◌, ◌-◌, ◌<◌, ◌≤◌, ◌++◌, [], ◌∷◌, length, map, take, drop, codes, if◌then◌else◌, OnOk, OnErr, IfOk, IsOk, slice_index_or};
ghost use Rattle.std.specs.Str.{chars};
ghost use Rattle.std.specs.List.{All, prefix_len, suffix_len, slice_split};
ghost use Rattle.std.specs.Result.{ForOk};
ghost use Rattle.tclv_text.specs.Texts.{IsText, AppendsText};
ghost use Rattle.tclv_text.specs.Elements.{elements};
ghost use Rattle.tclv_text.specs.Quotes.{list_text};
ghost use Rattle.tclv_text.specs.Spans.{IsTextSpan, span_text};
ghost use Rattle.tclv_text.specs.Characters.{is_space};
ghost use Rattle.tclv_model.specs.Rows.{Gives};
ghost use Rattle.tclv_value.specs.Stacks.{top};
ghost use Rattle.tclv_value.specs.Changes.{KeepsTexts, Pushes};
ghost use Rattle.tclv_value.specs.View.{IsMade};
ghost use Rattle.tclv_value.specs.declared.places.At.TheVariants.{Stack};
ghost use Rattle.tclv_reply.specs.Replies.{call_word, Answers, Grows, Leaves};
ghost use Rattle.tclv_lists.specs.Joining.{joined, joined_of, row_join, spaced, concatenated, trimmed, ends_in_backslash, row_concat, single, is_one_of, split_parts, row_split};

use std::alloc::Global;
use tclv_model::{CmdFault, Usage};
use tclv_reply::{list_len, make_word, push_ascii, push_bytes, refuse_words, settle};
use tclv_text::{ListFault, NoMemory, Span, Text, as_str, split_list, unescape};
use tclv_value::{At, Store};

// Whether the byte is white space of lists.
fn is_space(b: u8) -> bool
    ensures { result ≡ is_space b }
{
    matches!(b, 9..=13 | b' ')
}

// How many bytes of white space the text begins with.
#[tactic(auto, using(crate::proofs::TrimLemmas::front_lengths))]
fn space_len(text: &[u8]) -> usize
    ensures len { result ≡ prefix_len is_space text.now }
    ensures within { result ≤ length text.now }
{
    text.iter().take_while(|b| is_space(**b)).count()
}

// How many bytes of white space the text ends with.
#[tactic(auto, using(crate::proofs::TrimLemmas::front_lengths))]
fn end_space_len(text: &[u8]) -> usize
    ensures len { result ≡ suffix_len is_space text.now }
    ensures within { result ≤ length text.now }
{
    text.iter().rev().take_while(|b| is_space(**b)).count()
}

// Whether a backslash comes last.
fn ends_in_backslash(text: &[u8]) -> bool
    ensures { result ≡ ends_in_backslash text.now }
{
    matches!(text, [.., b'\\'])
}

// The bytes without the white space at their ends, but with one that stands behind a backslash.
fn trimmed_bytes(text: &[u8]) -> &[u8]
    ensures { result.now ≡ trimmed text.now }
{
    let rest = &text[space_len(text)..];
    let len = rest.len() - end_space_len(rest);
    if len < rest.len() && ends_in_backslash(&rest[..len]) {
        return &rest[..len + 1];
    }
    &rest[..len]
}

// The text without the white space at its ends, but with one that stands behind a backslash.
fn trimmed(text: &[u8]) -> &[u8]
    requires { IsText text.now }
    ensures text { chars result.now ≡ trimmed (chars text.now) }
    ensures utf8 { IsText result.now }
{
    trimmed_bytes(text)
}

// Adds a text, if it is not empty, behind a space, if something stands before it.
fn add_spaced(text: &mut Text, more: &[u8]) -> Result<(), NoMemory>
    requires { IsText more.now }
    ensures { OnOk result ((ts : List (List ℕ)) → text.old ≡ spaced ts →
        text.new ≡ spaced (ts ++ chars more.now ∷ [])) }
{
    if more.is_empty() {
        return Ok(());
    }
    if text.bytes().is_empty() {
        return text.push(more);
    }
    text.push(b" ")?;
    text.push(more)
}

// Adds the text of a place to those before it, as `concat` does.
fn add_trimmed(store: &mut Store, at: usize, text: &mut Text) -> Result<(), NoMemory>
    requires { at < length store.old.stack }
    ensures kept { KeepsTexts store.old store.new }
    ensures added { OnOk result ((ts : List (List ℕ)) → text.old ≡ concatenated ts →
        text.new ≡ concatenated (ts ++ slice_index_or store.old.stack at [] ∷ [])) }
{
    make_word(store, at)?;
    match store.text(At::Stack(at)) {
        Some(word) => add_spaced(text, trimmed(word)),
        None => unreachable!(),
    }
}

// Pushes the texts of the places from one up to another as one, as `concat` does.
fn push_concatenated(store: &mut Store, from: usize, to: usize) -> Result<(), NoMemory>
    requires order { from ≤ to }
    requires within { to ≤ length store.old.stack }
    ensures grows { Grows store.old store.new }
    ensures pushed { OnOk result (store.new.stack ≡ store.old.stack ++
        concatenated (take (to - from) (drop from store.old.stack)) ∷ []) }
{
    let mut text = Text::new(Vec::new(store.allocator()));
    for at in from..to {
        add_trimmed(store, at, &mut text)?;
    }
    push_bytes(store, text.bytes())
}

// Pushes the result of `concat` with the top n texts.
fn push_concat(store: &mut Store, n: usize) -> Result<(), CmdFault>
    requires { n ≤ length store.old.stack }
    ensures { Leaves (Gives (concatenated (top n store.old.stack))) store.old store.new result }
{
    let height = store.height();
    push_concatenated(store, height - n, height)?;
    Ok(())
}

/// `concat ?arg ...?`: the words as one text. Each goes without the white space at its ends, but one that stands
/// behind a backslash stays, and between those that are not empty then is a space. (Tcl: concat(n).)
pub fn cmd_concat(store: &mut Store, n: usize) -> Result<(), CmdFault>
    requires { n + 1 ≤ length store.old.stack }
    ensures { Answers (row_concat (call_word n store.old.stack) (top n store.old.stack)) n
        store.old store.new result }
{
    let height = store.height();
    let done = push_concat(store, n);
    settle(store, n, height, done)
}

/// Appends the element at a span of a text.
pub(crate) fn add_element(text: &[u8], span: Span, out: &mut Vec<u8>) -> Result<(), NoMemory>
    requires { IsTextSpan text.now span }
    ensures { OnOk result (AppendsText out.old.items out.new.items (span_text text.now span)) }
{
    let spelling = &text[span.from..span.to];
    if span.raw {
        out.extend_from_slice(spelling)?;
        return Ok(());
    }
    unescape(spelling, out)
}

// Appends the element at a span of a text, if it is not the first behind a separator.
fn add_behind(
    text: &[u8],
    span: Span,
    first: bool,
    separator: &[u8],
    out: &mut Vec<u8>,
) -> Result<(), NoMemory>
    requires span { IsTextSpan text.now span }
    requires separator { IsText separator.now }
    ensures { OnOk result (AppendsText out.old.items out.new.items
        (if first then span_text text.now span else chars separator.now ++ span_text text.now span)) }
{
    if first {
        return add_element(text, span, out);
    }
    out.extend_from_slice(separator)?;
    add_element(text, span, out)
}

// The elements at spans of a text, with a separator between them.
fn join_spans(
    alloc: Global,
    text: &[u8],
    spans: &[Span],
    separator: &[u8],
) -> Result<Vec<u8>, NoMemory>
    requires spans { All (IsTextSpan text.now) spans.now }
    requires separator { IsText separator.now }
    ensures utf8 { IfOk result (λ out. IsText out.items) }
    ensures text { IfOk result (λ out. chars out.items ≡
        joined (chars separator.now) (map (span_text text.now) spans.now)) }
{
    let mut joined = Vec::new(alloc);
    for (i, span) in spans.iter().enumerate() {
        add_behind(text, *span, i == 0, separator, &mut joined)?;
    }
    Ok(joined)
}

// The elements of a text, with a separator between them.
fn join_elements(alloc: Global, text: &[u8], separator: &[u8]) -> Result<Vec<u8>, NoMemory>
    requires text { IsText text.now }
    requires list { IsOk (elements (chars text.now)) }
    requires separator { IsText separator.now }
    ensures utf8 { IfOk result (λ out. IsText out.items) }
    ensures text { IfOk result (λ out. ForOk (elements (chars text.now)) (λ ts.
        chars out.items ≡ joined (chars separator.now) ts)) }
{
    match split_list(alloc, text) {
        Ok(spans) => join_spans(alloc, text, spans.all(), separator),
        Err(ListFault::NoMemory) => Err(NoMemory),
        Err(_) => unreachable!(),
    }
}

// The elements of the list that the text of a place is, with that of another place between them. Both are made.
fn joined_text(store: &Store, list: usize, separator: usize) -> Result<Vec<u8>, NoMemory>
    requires list { list < length store.now.stack }
    requires separator { separator < length store.now.stack }
    requires list_made { IsMade store.now (Stack list) }
    requires separator_made { IsMade store.now (Stack separator) }
    requires elements { IsOk (elements (slice_index_or store.now.stack list [])) }
    ensures utf8 { IfOk result (λ out. IsText out.items) }
    ensures text { IfOk result (λ out.
        ForOk (elements (slice_index_or store.now.stack list [])) (λ ts. chars out.items ≡
        joined (slice_index_or store.now.stack separator []) ts)) }
{
    let text = match store.text(At::Stack(list)) {
        Some(text) => text,
        None => unreachable!(),
    };
    let between = match store.text(At::Stack(separator)) {
        Some(between) => between,
        None => unreachable!(),
    };
    join_elements(store.allocator(), text, between)
}

// Pushes the elements of a list with a separator between them.
fn push_joined(store: &mut Store, list: usize, separator: usize) -> Result<(), CmdFault>
    requires list { list < length store.old.stack }
    requires separator { separator < length store.old.stack }
    ensures { Leaves (joined_of (slice_index_or store.old.stack list [])
        (slice_index_or store.old.stack separator [])) store.old store.new result }
{
    list_len(store, At::Stack(list))?;
    make_word(store, list)?;
    make_word(store, separator)?;
    let text = joined_text(store, list, separator)?;
    push_bytes(store, text.as_slice())?;
    Ok(())
}

// Pushes the elements of the list on top with a space between them.
fn push_spaced(store: &mut Store) -> Result<(), CmdFault>
    requires { 0 < length store.old.stack }
    ensures { Leaves (joined_of (slice_index_or store.old.stack (length store.old.stack - 1) []) (codes " "))
        store.old store.new result }
{
    push_ascii(store, " ")?;
    let height = store.height();
    push_joined(store, height - 2, height - 1)
}

/// `join list ?joinString?`: the elements of the list as one text, with the string between them, or a space. Refuses
/// a text that is no list. (Tcl: join(n).)
pub fn cmd_join(store: &mut Store, n: usize) -> Result<(), CmdFault>
    requires { n + 1 ≤ length store.old.stack }
    ensures { Answers (row_join (call_word n store.old.stack) (top n store.old.stack)) n
        store.old store.new result }
{
    let height = store.height();
    match n {
        1 => {
            let done = push_spaced(store);
            settle(store, n, height, done)
        }
        2 => {
            let done = push_joined(store, height - 2, height - 1);
            settle(store, n, height, done)
        }
        _ => refuse_words(store, n, Usage::Join),
    }
}

// Whether a character is one of a text's.
fn is_among(c: char, separators: &[u8]) -> bool
    requires { IsText separators.now }
    ensures { result ≡ is_one_of (chars separators.now) c }
{
    as_str(separators).chars().any(|s| s == c)
}

// Adds a character to a text.
fn add_character(text: &mut Text, c: char) -> Result<(), NoMemory>
    ensures { OnOk result (text.new ≡ text.old ++ c ∷ []) }
{
    let mut buffer = [0u8; 4];
    text.push(c.encode_utf8(&mut buffer).as_bytes())
}

// Pushes a part, which is empty then.
fn end_part(store: &mut Store, part: &mut Text) -> Result<(), NoMemory>
    ensures grows { Grows store.old store.new }
    ensures pushed { OnOk result (store.new.stack ≡ store.old.stack ++ part.old ∷ []) }
    ensures empty { OnOk result (part.new ≡ []) }
{
    push_bytes(store, part.bytes())?;
    *part = Text::new(Vec::new(store.allocator()));
    Ok(())
}

// Takes one more character of a text that is split: it ends the part, or is its next one. The parts before it are
// on the stack.
fn split_on(store: &mut Store, part: &mut Text, c: char, separators: &[u8]) -> Result<(), NoMemory>
    requires { IsText separators.now }
    ensures grows { Grows store.old store.new }
    ensures split { OnOk result ((s : List (List ℕ)) → (cs : List ℕ) →
        s ++ slice_split (is_one_of (chars separators.now)) cs ≡ store.old.stack ++ part.old ∷ [] →
        s ++ slice_split (is_one_of (chars separators.now)) (cs ++ c ∷ []) ≡ store.new.stack ++ part.new ∷ []) }
{
    if is_among(c, separators) {
        return end_part(store, part);
    }
    add_character(part, c)
}

// Pushes the parts of a text between separators.
fn push_parts(store: &mut Store, text: &[u8], separators: &[u8]) -> Result<(), NoMemory>
    requires text { IsText text.now }
    requires separators { IsText separators.now }
    ensures grows { Grows store.old store.new }
    ensures pushed { OnOk result (store.new.stack ≡
        store.old.stack ++ slice_split (is_one_of (chars separators.now)) (chars text.now)) }
{
    let mut part = Text::new(Vec::new(store.allocator()));
    for c in as_str(text).chars() {
        split_on(store, &mut part, c, separators)?;
    }
    push_bytes(store, part.bytes())
}

// Pushes the text of a character.
fn push_character(store: &mut Store, c: char) -> Result<(), NoMemory>
    ensures pushed { OnOk result (Pushes store.old (single c) store.new) }
    ensures kept { OnErr result (KeepsTexts store.old store.new) }
{
    let mut text = Text::new(Vec::new(store.allocator()));
    add_character(&mut text, c)?;
    push_bytes(store, text.bytes())
}

// Pushes the characters of a text.
fn push_characters(store: &mut Store, text: &[u8]) -> Result<(), NoMemory>
    requires { IsText text.now }
    ensures grows { Grows store.old store.new }
    ensures pushed { OnOk result (store.new.stack ≡ store.old.stack ++ map single (chars text.now)) }
{
    for c in as_str(text).chars() {
        push_character(store, c)?;
    }
    Ok(())
}

// Pushes the parts of a text, as `split` does.
fn push_split(store: &mut Store, text: &[u8], separators: &[u8]) -> Result<(), NoMemory>
    requires text { IsText text.now }
    requires separators { IsText separators.now }
    ensures grows { Grows store.old store.new }
    ensures pushed { OnOk result (store.new.stack ≡
        store.old.stack ++ split_parts (chars separators.now) (chars text.now)) }
{
    if text.is_empty() {
        return Ok(());
    }
    if separators.is_empty() {
        return push_characters(store, text);
    }
    push_parts(store, text, separators)
}

// Pushes the list of the parts of a text.
fn push_split_list(store: &mut Store, text: &[u8], separators: &[u8]) -> Result<(), CmdFault>
    requires text { IsText text.now }
    requires separators { IsText separators.now }
    ensures { Leaves (Gives (list_text (split_parts (chars separators.now) (chars text.now))))
        store.old store.new result }
{
    let height = store.height();
    push_split(store, text, separators)?;
    let all = store.height();
    store.push_list(all - height)?;
    Ok(())
}

/// A copy of the text of a place.
pub(crate) fn copy_word(store: &mut Store, at: usize) -> Result<Text, NoMemory>
    requires { at < length store.old.stack }
    ensures kept { KeepsTexts store.old store.new }
    ensures text { IfOk result (λ text. text ≡ slice_index_or store.old.stack at []) }
{
    make_word(store, at)?;
    match store.text(At::Stack(at)) {
        Some(word) => {
            let bytes = Vec::from_slice(store.allocator(), word)?;
            Ok(Text::new(bytes))
        }
        None => unreachable!(),
    }
}

// Pushes the list of the parts of the text of a place between white space.
fn push_words_of(store: &mut Store, at: usize) -> Result<(), CmdFault>
    requires { at < length store.old.stack }
    ensures { Leaves (Gives (list_text (split_parts (32 ∷ 9 ∷ 10 ∷ 13 ∷ []) (slice_index_or store.old.stack at []))))
        store.old store.new result }
{
    let text = copy_word(store, at)?;
    push_split_list(store, text.bytes(), b" \t\n\r")
}

// Pushes the list of the parts of the text of a place between the characters of that of another one.
fn push_parts_of(store: &mut Store, at: usize, separators: usize) -> Result<(), CmdFault>
    requires at { at < length store.old.stack }
    requires separators { separators < length store.old.stack }
    ensures { Leaves (Gives (list_text (split_parts (slice_index_or store.old.stack separators [])
        (slice_index_or store.old.stack at [])))) store.old store.new result }
{
    let text = copy_word(store, at)?;
    let between = copy_word(store, separators)?;
    push_split_list(store, text.bytes(), between.bytes())
}

/// `split string ?splitChars?`: the list of the parts of the string between characters of the second text, by
/// default space, tab, newline and carriage return. Between none they are its characters. The empty string has no
/// parts. (Tcl: split(n).)
pub fn cmd_split(store: &mut Store, n: usize) -> Result<(), CmdFault>
    requires { n + 1 ≤ length store.old.stack }
    ensures { Answers (row_split (call_word n store.old.stack) (top n store.old.stack)) n
        store.old store.new result }
{
    let height = store.height();
    match n {
        1 => {
            let done = push_words_of(store, height - 1);
            settle(store, n, height, done)
        }
        2 => {
            let done = push_parts_of(store, height - 2, height - 1);
            settle(store, n, height, done)
        }
        _ => refuse_words(store, n, Usage::Split),
    }
}
