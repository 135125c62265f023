// The texts of words.
ghost use Rattle.std.specs.Prelude.{◌≡◌, ◌<◌, [], length, IsTrue, IfOk, OnOk, slice_index_or};
ghost use Rattle.std.specs.List.{list_all};
ghost use Rattle.std.specs.Char.{is_ascii};
ghost use Rattle.std.specs.Str.{chars, bytes_eq};
ghost use Rattle.tclv_text.specs.Texts.{IsText};
ghost use Rattle.tclv_value.specs.View.{HasPlace, IsMade};
ghost use Rattle.tclv_value.specs.declared.places.At.TheVariants.{Stack};
ghost use Rattle.tclv_value.specs.Changes.{KeepsTexts};

use tclv_text::{NoMemory, Text, as_str};
use tclv_value::{At, Store};

/// Makes the text of a place.
pub fn make_place(store: &mut Store, at: At) -> Result<(), NoMemory>
    requires { HasPlace store.old at }
    ensures made { OnOk result (IsMade store.new at) }
    ensures kept { KeepsTexts store.old store.new }
{
    store.make_text(at)
}

/// Makes the text of a word.
pub fn make_word(store: &mut Store, at: usize) -> Result<(), NoMemory>
    requires { at < length store.old.stack }
    ensures made { OnOk result (IsMade store.new (Stack at)) }
    ensures kept { KeepsTexts store.old store.new }
{
    store.make_text(At::Stack(at))
}

/// Lends the text of a word, which is made.
pub fn word_at(store: &Store, at: usize) -> &[u8]
    requires place { at < length store.now.stack }
    requires made { IsMade store.now (Stack at) }
    ensures utf8 { IsText result.now }
    ensures text { chars result.now ≡ slice_index_or store.now.stack at [] }
{
    match store.text(At::Stack(at)) {
        Some(word) => word,
        None => unreachable!(),
    }
}

// Whether a word, which is made, is this ASCII text.
fn made_word_is(store: &Store, at: usize, text: &str) -> bool
    requires place { at < length store.now.stack }
    requires made { IsMade store.now (Stack at) }
    requires ascii { IsTrue (list_all is_ascii text.now) }
    ensures { result ≡ bytes_eq (slice_index_or store.now.stack at []) text.now }
{
    as_str(word_at(store, at)) == text
}

/// Whether a word is this ASCII text.
pub fn word_is(store: &mut Store, at: usize, text: &str) -> Result<bool, NoMemory>
    requires place { at < length store.old.stack }
    requires ascii { IsTrue (list_all is_ascii text.now) }
    ensures is { IfOk result (λ same. same ≡ bytes_eq (slice_index_or store.old.stack at []) text.now) }
    ensures kept { KeepsTexts store.old store.new }
{
    make_word(store, at)?;
    Ok(made_word_is(store, at, text))
}

// A copy of the text of a word, which is made.
fn made_copy(store: &Store, at: usize) -> Result<Text, NoMemory>
    requires place { at < length store.now.stack }
    requires made { IsMade store.now (Stack at) }
    ensures { IfOk result (λ t. t ≡ slice_index_or store.now.stack at []) }
{
    let bytes = Vec::from_slice(store.allocator(), word_at(store, at))?;
    Ok(Text::new(bytes))
}

/// A copy of the text of a word.
pub fn copy_of(store: &mut Store, at: usize) -> Result<Text, NoMemory>
    requires { at < length store.old.stack }
    ensures text { IfOk result (λ t. t ≡ slice_index_or store.old.stack at []) }
    ensures kept { KeepsTexts store.old store.new }
{
    make_word(store, at)?;
    made_copy(store, at)
}
