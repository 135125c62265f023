// Places and whole numbers that commands read from words, each with its refusal.
ghost use Rattle.std.specs.Prelude.{◌≡◌, ℕ, ℤ, ◌<◌, [], length, min, pos, ◌+ℤ◌, slice_index_or};
ghost use Rattle.tclv_text.specs.Indices.{index};
ghost use Rattle.tclv_reply.specs.Places.{inside, within, place_among, is_index};
ghost use Rattle.tclv_model.specs.Rows.{and_then};
ghost use Rattle.tclv_model.specs.Values.{place_of, whole_of, raised};
ghost use Rattle.tclv_value.specs.View.{IsMade};
ghost use Rattle.tclv_value.specs.declared.places.At.TheVariants.{Stack};
ghost use Rattle.tclv_reply.specs.Replies.{Reads};

use crate::replies::{refuse, refuse_on};
use crate::words::{make_word, word_at};
use tclv_model::{CmdFault, MessageId};
use tclv_text::{IndexFault, index_of};
use tclv_value::{At, Store, ValueFault};

// The place that the text of a word, which is made, names.
fn read_place(store: &Store, at: usize, len: u64) -> Result<i128, IndexFault>
    requires place { at < length store.now.stack }
    requires made { IsMade store.now (Stack at) }
    ensures { result ≡ index (slice_index_or store.now.stack at []) len }
{
    index_of(word_at(store, at), len)
}

/// The place that a word names where the length is `len`. It may be outside.
pub fn place_of(store: &mut Store, at: usize, len: u64) -> Result<i128, CmdFault>
    requires { at < length store.old.stack }
    ensures { Reads (place_of (slice_index_or store.old.stack at []) len) (λ (z x : ℤ). x ≡ z)
        store.old store.new result }
{
    make_word(store, at)?;
    match read_place(store, at, len) {
        Ok(place) => Ok(place),
        Err(IndexFault::BadIndex) => Err(refuse_on(store, MessageId::BadIndex, at, "NONE")),
    }
}

/// The whole number that a word is.
pub fn whole_of(store: &mut Store, at: usize) -> Result<i64, CmdFault>
    requires { at < length store.old.stack }
    ensures { Reads (whole_of (slice_index_or store.old.stack at [])) (λ (z x : ℤ). x ≡ z)
        store.old store.new result }
{
    match store.whole(At::Stack(at)) {
        Ok(n) => Ok(n),
        Err(ValueFault::TooLarge) => Err(refuse(
            store,
            MessageId::IntegerTooLarge,
            b"",
            "ARITH IOVERFLOW {integer value too large to represent}",
        )),
        Err(ValueFault::NotWhole | ValueFault::FloatForm) => Err(refuse_on(
            store,
            MessageId::NotInteger,
            at,
            "TCL VALUE NUMBER",
        )),
        Err(ValueFault::NoMemory) => Err(CmdFault::NoMemory),
        Err(_) => unreachable!(),
    }
}

/// The place that a word names, as one from 0 up to the length.
pub fn clipped_place(store: &mut Store, at: usize, len: u64) -> Result<u64, CmdFault>
    requires { at < length store.old.stack }
    ensures { Reads (place_of (slice_index_or store.old.stack at []) len)
        (λ z x. x ≡ min (raised z) len) store.old store.new result }
{
    let place = place_of(store, at, len)?;
    if place < 0 {
        Ok(0)
    } else if place < len as i128 {
        Ok(place as u64)
    } else {
        Ok(len)
    }
}

/// The place behind the one that a word names, as one from 0 up to the length.
pub fn clipped_behind(store: &mut Store, at: usize, len: u64) -> Result<u64, CmdFault>
    requires { at < length store.old.stack }
    ensures { Reads (place_of (slice_index_or store.old.stack at []) len)
        (λ z x. x ≡ min (raised (z +ℤ pos 1)) len) store.old store.new result }
{
    let place = place_of(store, at, len)?;
    if place < 0 {
        Ok(0)
    } else if place < len as i128 {
        Ok(place as u64 + 1)
    } else {
        Ok(len)
    }
}

/// Checks that a word has the form of an index.
pub fn check_index(store: &mut Store, at: usize) -> Result<(), CmdFault>
    requires { at < length store.old.stack }
    ensures { Reads (place_of (slice_index_or store.old.stack at []) 0) (λ z x. Unit {0})
        store.old store.new result }
{
    place_of(store, at, 0)?;
    Ok(())
}

/// The place of an element of a list of `len`, which a word names.
pub fn place_inside(store: &mut Store, at: usize, len: u64) -> Result<u64, CmdFault>
    requires { at < length store.old.stack }
    ensures { Reads (and_then (place_of (slice_index_or store.old.stack at []) len)
        (λ z. inside (slice_index_or store.old.stack at []) len z)) (λ k x. x ≡ k) store.old store.new result }
{
    let place = place_of(store, at, len)?;
    if place >= 0 && place < len as i128 {
        return Ok(place as u64);
    }
    Err(refuse_on(store, MessageId::IndexOutOfRange, at, "NONE"))
}

/// The place of an element of a list of `len`, or the one behind the last, which a word names.
pub fn place_within(store: &mut Store, at: usize, len: u64) -> Result<u64, CmdFault>
    requires { at < length store.old.stack }
    ensures { Reads (and_then (place_of (slice_index_or store.old.stack at []) len)
        (λ z. within (slice_index_or store.old.stack at []) len z)) (λ k x. x ≡ k) store.old store.new result }
{
    let place = place_of(store, at, len)?;
    if place >= 0 && place <= len as i128 {
        return Ok(place as u64);
    }
    Err(refuse_on(store, MessageId::IndexOutOfRange, at, "NONE"))
}

/// The place of an element of a list of `len`, which a word names, if it is one.
pub fn place_among(store: &mut Store, at: usize, len: u64) -> Result<Option<u64>, CmdFault>
    requires { at < length store.old.stack }
    ensures { Reads (place_of (slice_index_or store.old.stack at []) len) (λ z x. x ≡ place_among len z)
        store.old store.new result }
{
    let place = place_of(store, at, len)?;
    if place >= 0 && place < len as i128 {
        return Ok(Some(place as u64));
    }
    Ok(None)
}

/// Whether a word, which is made, has the form of an index.
pub fn is_index(store: &Store, at: usize) -> bool
    requires place { at < length store.now.stack }
    requires made { IsMade store.now (Stack at) }
    ensures { result ≡ is_index (slice_index_or store.now.stack at []) }
{
    read_place(store, at, 0).is_ok()
}
