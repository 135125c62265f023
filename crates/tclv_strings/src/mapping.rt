// The subcommand `map` of `string`.
ghost use Rattle.std.specs.Prelude.{◌≡◌, ◌+◌, ◌<◌, ◌≤◌, ◌++◌, [], ◌∷◌, None, length, drop, MatchOption, IfOk, IfSome, OnOk, is_some, slice_index_or};
ghost use Rattle.std.specs.Str.{chars};
ghost use Rattle.tclv_text.specs.Texts.{IsText};
ghost use Rattle.tclv_model.specs.Rows.{and_then};
ghost use Rattle.tclv_value.specs.Stacks.{top};
ghost use Rattle.tclv_reply.specs.Replies.{call_word, Answers, Reads, Leaves};
ghost use Rattle.tclv_strings.specs.Comparing.{nocase_read};
ghost use Rattle.tclv_strings.specs.Mapping as spec;

use crate::characters::split_first;
use crate::words::read_nocase;
use std::alloc::Global;
use tclv_model::{CmdFault, MessageId, Usage};
use tclv_reply::{Elements, copy_of, elements_of, push_bytes, refuse, refuse_words, settle};
use tclv_text::{NoMemory, Text, fold_char};
use tclv_value::Store;

// What stands behind a key, if it stands in front of a text. An empty key stands nowhere.
fn behind_key<'a>(text: &'a [u8], key: &[u8], nocase: bool) -> Option<&'a [u8]>
    requires text { IsText text.now }
    requires key { IsText key.now }
    ensures stands { is_some result ≡ spec.stands_first nocase (chars key.now) (chars text.now) }
    ensures behind { IfSome result (λ r. chars r.now ≡ drop (length (chars key.now)) (chars text.now)) }
    ensures shorter { IfSome result (λ r. length (chars r.now) < length (chars text.now)) }
    ensures utf8 { IfSome result (λ r. IsText r.now) }
{
    if key.is_empty() {
        return None;
    }
    let mut text_left = text;
    let mut key_left = key;
    while let Some((k, key_behind)) = split_first(key_left) {
        let Some((c, behind)) = split_first(text_left) else {
            return None;
        };
        if fold_char(c, nocase) != fold_char(k, nocase) {
            return None;
        }
        text_left = behind;
        key_left = key_behind;
    }
    Some(text_left)
}

// The first key of a mapping that stands in front of a text: the place of its value, and what stands behind the key.
fn first_key<'a>(mapping: &[Text], text: &'a [u8], nocase: bool) -> Option<(usize, &'a [u8])>
    requires { IsText text.now }
    ensures found { MatchOption result (spec.first_key nocase mapping.now (chars text.now) ≡ None) (λ r.
        spec.HasKey (spec.first_key nocase mapping.now (chars text.now)) (slice_index_or mapping.now r.0 [])
        (chars text.now) (chars r.1.now)) }
    ensures within { IfSome result (λ r. r.0 < length mapping.now) }
    ensures utf8 { IfSome result (λ r. IsText r.1.now) }
{
    let mut k = 0;
    'keys: while k + 1 < mapping.len() {
        if let Some(behind) = behind_key(text, mapping[k].bytes(), nocase) {
            return Some((k + 1, behind));
        }
        k += 2;
    }
    None
}

// Adds a character to a text.
fn add_character(text: &mut Text, c: char) -> Result<(), NoMemory>
    ensures { OnOk result (text.new ≡ text.old ++ c ∷ []) }
{
    let mut buffer = [0u8; 4];
    text.push(c.encode_utf8(&mut buffer).as_bytes())
}

// Adds to a text what stands for what another text begins with, a character before the rest, and gives what follows.
fn map_first<'a>(
    mapping: &[Text],
    text: &'a [u8],
    first: (char, &'a [u8]),
    nocase: bool,
    out: &mut Text,
) -> Result<&'a [u8], NoMemory>
    requires text { IsText text.now }
    requires rest { IsText first.1.now }
    requires first { chars text.now ≡ first.0 ∷ chars first.1.now }
    ensures mapped { IfOk result (λ r. out.new ++ spec.mapped_text nocase mapping.now (chars r.now) ≡
        out.old ++ spec.mapped_text nocase mapping.now (chars text.now)) }
    ensures shorter { IfOk result (λ r. length (chars r.now) < length (chars text.now)) }
    ensures utf8 { IfOk result (λ r. IsText r.now) }
{
    match first_key(mapping, text, nocase) {
        Some((value, behind)) => {
            out.push(mapping[value].bytes())?;
            Ok(behind)
        }
        None => {
            let (c, rest) = first;
            add_character(out, c)?;
            Ok(rest)
        }
    }
}

// The text with the value of the first key that fits at each place in the place of that key.
fn mapped_text(alloc: Global, mapping: &[Text], text: &[u8], nocase: bool) -> Result<Text, NoMemory>
    requires { IsText text.now }
    ensures { IfOk result (λ t. t ≡ spec.mapped_text nocase mapping.now (chars text.now)) }
{
    let mut out = Text::new(Vec::new(alloc));
    let mut rest = text;
    while let Some((c, behind)) = split_first(rest) {
        rest = map_first(mapping, rest, (c, behind), nocase, &mut out)?;
    }
    Ok(out)
}

// The keys and values that a word is.
fn read_mapping(store: &mut Store, at: usize) -> Result<Elements, CmdFault>
    requires { at < length store.old.stack }
    ensures { Reads (spec.mapping_of (slice_index_or store.old.stack at [])) (λ ts x. x ≡ ts) store.old store.new result }
{
    let elements = elements_of(store, at)?;
    if elements.all().len() % 2 != 0 {
        return Err(refuse(store, MessageId::UnbalancedCharacterMap, b"", "NONE"));
    }
    Ok(elements)
}

// Pushes the text of a word, mapped by that of another one.
fn push_mapped(store: &mut Store, nocase: bool, mapping: usize, at: usize) -> Result<(), CmdFault>
    requires mapping { mapping < length store.old.stack }
    requires at { at < length store.old.stack }
    ensures { Leaves (spec.map_answer nocase (slice_index_or store.old.stack mapping [])
        (slice_index_or store.old.stack at [])) store.old store.new result }
{
    let pairs = read_mapping(store, mapping)?;
    let text = copy_of(store, at)?;
    let mapped = mapped_text(store.allocator(), pairs.all(), text.bytes(), nocase)?;
    push_bytes(store, mapped.bytes())?;
    Ok(())
}

// Pushes the text of a word, mapped by that of another one, with a word as the option.
fn push_mapped_with(
    store: &mut Store,
    option: usize,
    mapping: usize,
    at: usize,
) -> Result<(), CmdFault>
    requires option { option < length store.old.stack }
    requires mapping { mapping < length store.old.stack }
    requires at { at < length store.old.stack }
    ensures { Leaves (and_then (nocase_read (slice_index_or store.old.stack option []))
        (λ b. spec.map_answer b (slice_index_or store.old.stack mapping [])
        (slice_index_or store.old.stack at []))) store.old store.new result }
{
    let nocase = read_nocase(store, option)?;
    push_mapped(store, nocase, mapping, at)
}

/// `string map ?-nocase? mapping string`: the string with values in the place of keys, from the left: at each place the
/// first key of the mapping that fits there, and an empty key never. With `-nocase` ASCII letters of keys and string count in lower
/// case. Refuses another option, a mapping that is no list, and one whose last key has no value. (Tcl: string(n).)
pub(crate) fn string_map(store: &mut Store, n: usize) -> Result<(), CmdFault>
    requires { n + 1 ≤ length store.old.stack }
    ensures { Answers (spec.row_map (call_word n store.old.stack) (top n store.old.stack)) n
        store.old store.new result }
{
    let height = store.height();
    match n {
        3 => {
            let done = push_mapped(store, false, height - 2, height - 1);
            settle(store, n, height, done)
        }
        4 => {
            let done = push_mapped_with(store, height - 3, height - 2, height - 1);
            settle(store, n, height, done)
        }
        _ => refuse_words(store, n, Usage::StringMap),
    }
}
