// Classes of characters and texts, and the subcommand `is` of `string`.
ghost use Rattle.std.specs.Prelude.{◌≡◌, ◌+◌, ◌<◌, ◌≤◌, [], false, length, IfOk, slice_index_or};
ghost use Rattle.std.specs.List.{list_all};
ghost use Rattle.std.specs.Result.{is_ok};
ghost use Rattle.std.specs.Str.{chars};
ghost use Rattle.ucd_category.specs.GeneralCategory.{general_category};
ghost use Rattle.tclv_text.specs.Elements.{elements};
ghost use Rattle.tclv_text.specs.Pairs.{pairs};
ghost use Rattle.tclv_text.specs.Globs.{is_empty};
ghost use Rattle.tclv_text.specs.Texts.{IsText};
ghost use Rattle.tclv_text.specs.Truths.{truth};
ghost use Rattle.tclv_model.specs.Rows.{Gives, and_then};
ghost use Rattle.tclv_value.specs.Stacks.{top};
ghost use Rattle.tclv_value.specs.View.{IsMade};
ghost use Rattle.tclv_value.specs.declared.places.At.TheVariants.{Stack};
ghost use Rattle.tclv_reply.specs.Replies.{call_word, Answers, Reads, Leaves};
ghost use Rattle.tclv_strings.specs.Comparing.{truth_digit};
ghost use Rattle.tclv_strings.specs.declared.classes.TextClass.TheVariants.{Characters};
ghost use Rattle.tclv_strings.specs.Classes.{is_of};
ghost use Rattle.tclv_strings.specs.Classes as spec;

use crate::characters::split_first;
use crate::words::push_truth;
use std::alloc::Global;
use tclv_model::{CmdFault, MessageId, Usage};
use tclv_reply::{make_word, refuse_on, refuse_words, settle, word_at, word_is};
use tclv_text::{ListFault, NoMemory, as_str, split_list, truth, whole};
use tclv_value::Store;
use unicode::properties::{GeneralCategory, GeneralCategoryGroup, is_white_space};

/// A class of characters.
#[derive(Clone, Copy, Debug, PartialEq, Eq)]
pub(crate) enum CharClass {
    /// Letters and decimal digits.
    Alnum,
    /// Letters.
    Alpha,
    /// ASCII characters.
    Ascii,
    /// Decimal digits.
    Digit,
    /// Lower case letters.
    Lower,
    /// White space, and what counts as such.
    Space,
    /// Upper case letters.
    Upper,
    /// Hexadecimal digits of ASCII.
    Xdigit,
}

/// A class of texts.
#[derive(Clone, Copy, Debug, PartialEq, Eq)]
pub(crate) enum TextClass {
    /// Whole numbers.
    Whole,
    /// Truth values.
    Boolean,
    /// Those that are true.
    True,
    /// Those that are false.
    False,
    /// Lists.
    List,
    /// Dicts.
    Dict,
    /// Characters of a class.
    Characters(CharClass),
}

/// Whether a character is of the class `space`.
pub(crate) fn is_spacing(c: char) -> bool
    ensures { result ≡ spec.is_spacing c }
{
    is_white_space(c) || matches!(c, '\u{180e}' | '\u{200b}' | '\u{2060}' | '\u{feff}')
}

// Whether a character is a letter.
fn is_letter(c: char) -> bool
    ensures { result ≡ spec.is_letter c }
{
    GeneralCategoryGroup::Letter.contains(GeneralCategory::for_char(c))
}

// Whether a character is a decimal digit.
fn is_decimal(c: char) -> bool
    ensures { result ≡ spec.is_decimal (general_category c) }
{
    matches!(GeneralCategory::for_char(c), GeneralCategory::DecimalNumber)
}

// Whether a character is a lower case letter.
fn is_lower(c: char) -> bool
    ensures { result ≡ spec.is_lower (general_category c) }
{
    matches!(
        GeneralCategory::for_char(c),
        GeneralCategory::LowercaseLetter
    )
}

// Whether a character is an upper case letter.
fn is_upper(c: char) -> bool
    ensures { result ≡ spec.is_upper (general_category c) }
{
    matches!(
        GeneralCategory::for_char(c),
        GeneralCategory::UppercaseLetter
    )
}

// Whether a character is of a class.
fn has_class(class: CharClass, c: char) -> bool
    ensures { result ≡ spec.has_class class c }
{
    match class {
        CharClass::Alnum => is_letter(c) || is_decimal(c),
        CharClass::Alpha => is_letter(c),
        CharClass::Ascii => c.is_ascii(),
        CharClass::Digit => is_decimal(c),
        CharClass::Lower => is_lower(c),
        CharClass::Space => is_spacing(c),
        CharClass::Upper => is_upper(c),
        CharClass::Xdigit => c.is_ascii_hexdigit(),
    }
}

// Whether each character of a text is of a class.
fn all_of(class: CharClass, text: &[u8]) -> bool
    requires { IsText text.now }
    ensures { result ≡ list_all (spec.has_class class) (chars text.now) }
{
    let mut rest = text;
    while let Some((c, behind)) = split_first(rest) {
        if !has_class(class, c) {
            return false;
        }
        rest = behind;
    }
    true
}

// Whether a text has no characters.
fn has_none(text: &[u8]) -> bool
    requires { IsText text.now }
    ensures { result ≡ is_empty (chars text.now) }
{
    text.is_empty()
}

// Whether a text has characters, each of which is of a class.
fn is_made_of(class: CharClass, text: &[u8]) -> bool
    requires { IsText text.now }
    ensures { result ≡ is_of (Characters class) (chars text.now) }
{
    if has_none(text) {
        return false;
    }
    all_of(class, text)
}

// How many elements the list has that a text is, if it is one.
fn element_count(alloc: Global, text: &[u8]) -> Result<Option<usize>, NoMemory>
    requires { IsText text.now }
    ensures { IfOk result (λ n. n ≡ spec.list_count (elements (chars text.now))) }
{
    match split_list(alloc, text) {
        Ok(spans) => Ok(Some(spans.all().len())),
        Err(ListFault::NoMemory) => Err(NoMemory),
        Err(_) => Ok(None),
    }
}

// Whether a text is a list.
fn is_list(alloc: Global, text: &[u8]) -> Result<bool, NoMemory>
    requires { IsText text.now }
    ensures { IfOk result (λ b. b ≡ is_ok (elements (chars text.now))) }
{
    let count = element_count(alloc, text)?;
    Ok(count.is_some())
}

// Whether a text is a dict.
fn is_dict(alloc: Global, text: &[u8]) -> Result<bool, NoMemory>
    requires { IsText text.now }
    ensures { IfOk result (λ b. b ≡ is_ok (pairs (chars text.now))) }
{
    let found = element_count(alloc, text)?;
    match found {
        Some(count) => Ok(count % 2 == 0),
        None => Ok(false),
    }
}

// Whether a text is this truth value.
fn is_value(value: bool, text: &[u8]) -> bool
    requires { IsText text.now }
    ensures { result ≡ spec.is_value value (truth (chars text.now)) }
{
    match truth(text) {
        Some(found) => { if value { found } else { !found } }
        None => false,
    }
}

// Whether a text is of a class.
fn is_of(alloc: Global, class: TextClass, text: &[u8]) -> Result<bool, NoMemory>
    requires { IsText text.now }
    ensures { IfOk result (λ b. b ≡ spec.is_of class (chars text.now)) }
{
    match class {
        TextClass::Whole => Ok(whole(text).is_ok()),
        TextClass::Boolean => Ok(truth(text).is_some()),
        TextClass::True => Ok(is_value(true, text)),
        TextClass::False => Ok(is_value(false, text)),
        TextClass::List => is_list(alloc, text),
        TextClass::Dict => is_dict(alloc, text),
        TextClass::Characters(characters) => Ok(is_made_of(characters, text)),
    }
}

// Whether a text counts as one of a class: without `strict` the empty one does.
fn counts_as(alloc: Global, strict: bool, class: TextClass, text: &[u8]) -> Result<bool, NoMemory>
    requires { IsText text.now }
    ensures { IfOk result (λ b. b ≡ spec.counts_as strict class (chars text.now)) }
{
    if strict {
        return is_of(alloc, class, text);
    }
    if has_none(text) {
        return Ok(true);
    }
    is_of(alloc, class, text)
}

// The class that these bytes name.
fn class_of_bytes(word: &[u8]) -> Option<TextClass>
    requires { IsText word.now }
    ensures { result ≡ spec.class_named word.now }
{
    match as_str(word) {
        "alnum" => Some(TextClass::Characters(CharClass::Alnum)),
        "alpha" => Some(TextClass::Characters(CharClass::Alpha)),
        "ascii" => Some(TextClass::Characters(CharClass::Ascii)),
        "boolean" => Some(TextClass::Boolean),
        "dict" => Some(TextClass::Dict),
        "digit" => Some(TextClass::Characters(CharClass::Digit)),
        "entier" => Some(TextClass::Whole),
        "false" => Some(TextClass::False),
        "integer" => Some(TextClass::Whole),
        "list" => Some(TextClass::List),
        "lower" => Some(TextClass::Characters(CharClass::Lower)),
        "space" => Some(TextClass::Characters(CharClass::Space)),
        "true" => Some(TextClass::True),
        "upper" => Some(TextClass::Characters(CharClass::Upper)),
        "wideinteger" => Some(TextClass::Whole),
        "xdigit" => Some(TextClass::Characters(CharClass::Xdigit)),
        _ => None,
    }
}

// The class that a word names.
fn class_named(word: &[u8]) -> Option<TextClass>
    requires { IsText word.now }
    ensures { result ≡ spec.class_named (chars word.now) }
{
    class_of_bytes(word)
}

// Reads a word that must name a class.
fn read_class(store: &mut Store, at: usize) -> Result<TextClass, CmdFault>
    requires { at < length store.old.stack }
    ensures { Reads (spec.class_read (slice_index_or store.old.stack at [])) (λ k x. x ≡ k)
        store.old store.new result }
{
    make_word(store, at)?;
    match class_named(word_at(store, at)) {
        Some(class) => Ok(class),
        None => Err(refuse_on(store, MessageId::BadOption, at, "NONE")),
    }
}

// Reads a word that must be the option `-strict`.
fn read_strict(store: &mut Store, at: usize) -> Result<bool, CmdFault>
    requires { at < length store.old.stack }
    ensures { Reads (spec.strict_read (slice_index_or store.old.stack at [])) (λ b x. x ≡ b)
        store.old store.new result }
{
    if word_is(store, at, "-strict")? {
        return Ok(true);
    }
    Err(refuse_on(store, MessageId::BadOption, at, "NONE"))
}

// Whether a word, which is made, counts as one of a class.
fn word_counts(store: &Store, strict: bool, class: TextClass, at: usize) -> Result<bool, NoMemory>
    requires place { at < length store.now.stack }
    requires made { IsMade store.now (Stack at) }
    ensures { IfOk result (λ b. b ≡ spec.counts_as strict class (slice_index_or store.now.stack at [])) }
{
    counts_as(store.allocator(), strict, class, word_at(store, at))
}

// Pushes whether a word counts as one of the class that another one names.
fn push_is(store: &mut Store, strict: bool, class: usize, at: usize) -> Result<(), CmdFault>
    requires class { class < length store.old.stack }
    requires at { at < length store.old.stack }
    ensures { Leaves (spec.is_answer strict (slice_index_or store.old.stack class [])
        (slice_index_or store.old.stack at [])) store.old store.new result }
{
    let named = read_class(store, class)?;
    make_word(store, at)?;
    let counts = word_counts(store, strict, named, at)?;
    push_truth(store, counts)?;
    Ok(())
}

// Pushes whether a word counts as one of the class that another one names, with a word as the option.
fn push_is_with(store: &mut Store, option: usize, class: usize, at: usize) -> Result<(), CmdFault>
    requires option { option < length store.old.stack }
    requires class { class < length store.old.stack }
    requires at { at < length store.old.stack }
    ensures { Leaves (and_then (spec.strict_read (slice_index_or store.old.stack option []))
        (λ b. spec.is_answer b (slice_index_or store.old.stack class [])
        (slice_index_or store.old.stack at []))) store.old store.new result }
{
    let strict = read_strict(store, option)?;
    push_is(store, strict, class, at)
}

/// `string is class ?-strict? string`: 1 where the string is of the class, else 0. Without `-strict` the empty string is of each
/// class. Refuses another option, and then a word that names no class. (Tcl: string(n).)
pub(crate) fn string_is(store: &mut Store, n: usize) -> Result<(), CmdFault>
    requires { n + 1 ≤ length store.old.stack }
    ensures { Answers (spec.row_is (call_word n store.old.stack) (top n store.old.stack)) n
        store.old store.new result }
{
    let height = store.height();
    match n {
        3 => {
            let done = push_is(store, false, height - 2, height - 1);
            settle(store, n, height, done)
        }
        4 => {
            let done = push_is_with(store, height - 2, height - 3, height - 1);
            settle(store, n, height, done)
        }
        _ => refuse_words(store, n, Usage::StringIs),
    }
}
