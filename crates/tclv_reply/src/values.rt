// Values that commands read from words, each with its refusal.
ghost use Rattle.std.specs.Prelude.{◌≡◌, ℕ, List, ◌+◌, ◌<◌, ◌≤◌, [], ◌∷◌, ◌++◌, length, drop, codes, OnOk, IfOk, slice_index_or};
ghost use Rattle.std.specs.Str.{chars, encode_utf8_all};
ghost use Rattle.tclv_text.specs.Texts.{IsText};
ghost use Rattle.tclv_model.specs.Message.{text_of};
ghost use Rattle.tclv_model.specs.declared.data_commands.CmdFault.TheVariants.{Message};
ghost use Rattle.tclv_value.specs.View.{HasPlace, text_at, IsMade};
ghost use Rattle.tclv_value.specs.Lists.{IsNoList, RefusesList};
ghost use Rattle.tclv_model.specs.Values.{shown, list_of};
ghost use Rattle.tclv_reply.specs.Shown.{is_shown, begins_shown};
ghost use Rattle.tclv_reply.specs.Replies.{Grows, Refused, Tells, Reads};

use crate::replies::{push_ascii, push_bytes, refuse};
use crate::words::make_place;
use tclv_model::{CmdFault, MessageId, message};
use tclv_text::{Cursor, ListFault, NoMemory, Sign};
use tclv_value::{At, Store, ValueFault};

// Whether what stands at a place is neither the end nor white space.
fn is_shown(sign: Sign) -> bool
    ensures { result ≡ is_shown sign }
{
    match sign {
        Sign::End | Sign::Blank | Sign::Newline => false,
        _ => true,
    }
}

// Whether something other than white space comes.
fn begins_shown(at: &Cursor<'_>) -> bool
    ensures { result ≡ begins_shown at.now }
{
    is_shown(at.peek())
}

// A text up to white space, and at most 20 characters of it.
fn shown(text: &[u8]) -> &[u8]
    requires { IsText text.now }
    ensures text { chars result.now ≡ shown (chars text.now) }
    ensures utf8 { IsText result.now }
{
    let from = Cursor::new(text);
    let mut at = from.here();
    for count in 0..20usize {
        if !begins_shown(&at) {
            return from.up_to(&at);
        }
        at.skip();
    }
    from.up_to(&at)
}

/// What the text of a place, which is made, is known to be.
pub fn know_text(store: &Store, at: At)
    requires place { HasPlace store.now at }
    requires made { IsMade store.now at }
    ensures { chars (encode_utf8_all (text_at store.now at)) ≡ text_at store.now at }
{
    match store.text(at) {
        Some(_text) => {}
        None => unreachable!(),
    }
}

// What stands in a text from a byte on.
fn behind(text: &[u8], from: usize) -> &[u8]
    requires { from ≤ length text.now }
    ensures { result.now ≡ drop from text.now }
{
    &text[from..]
}

// A message about what stands in the text of a place, which is made, from a byte on.
fn message_behind(store: &Store, kind: MessageId, at: At, from: usize) -> Result<Vec<u8>, NoMemory>
    requires place { HasPlace store.now at }
    requires made { IsMade store.now at }
    requires within { from < length (encode_utf8_all (text_at store.now at)) }
    requires rest { IsText (drop from (encode_utf8_all (text_at store.now at))) }
    ensures utf8 { IfOk result (λ text. IsText text.items) }
    ensures text { IfOk result (λ text. chars text.items ≡ text_of kind
        (shown (chars (drop from (encode_utf8_all (text_at store.now at))))) []) }
{
    let word = match store.text(at) {
        Some(word) => word,
        None => unreachable!(),
    };
    let mut text = Vec::new(store.allocator());
    message(kind, shown(behind(word, from)), b"", &mut text)?;
    Ok(text)
}

// Pushes such a message, and the code NONE.
fn push_behind(store: &mut Store, kind: MessageId, at: At, from: usize) -> Result<(), NoMemory>
    requires place { HasPlace store.old at }
    requires made { IsMade store.old at }
    requires within { from < length (encode_utf8_all (text_at store.old at)) }
    requires rest { IsText (drop from (encode_utf8_all (text_at store.old at))) }
    ensures grows { Grows store.old store.new }
    ensures pushed { OnOk result (store.new.stack ≡ store.old.stack ++ (text_of kind
        (shown (chars (drop from (encode_utf8_all (text_at store.old at))))) []
        ∷ codes "NONE" ∷ [])) }
    ensures at_most { length store.new.stack ≤ length store.old.stack + 2 }
{
    let text = message_behind(store, kind, at, from)?;
    push_bytes(store, text.as_slice())?;
    push_ascii(store, "NONE")?;
    Ok(())
}

// Refuses with such a message.
fn refuse_behind(store: &mut Store, kind: MessageId, at: At, from: usize) -> CmdFault
    requires place { HasPlace store.old at }
    requires made { IsMade store.old at }
    requires within { from < length (encode_utf8_all (text_at store.old at)) }
    requires rest { IsText (drop from (encode_utf8_all (text_at store.old at))) }
    ensures grows { Grows store.old store.new }
    ensures tells { Tells Message result (text_of kind
        (shown (chars (drop from (encode_utf8_all (text_at store.old at))))) []
        ∷ codes "NONE" ∷ []) store.old.stack store.new.stack }
    ensures at_most { length store.new.stack ≤ length store.old.stack + 2 }
{
    match push_behind(store, kind, at, from) {
        Ok(()) => CmdFault::Message,
        Err(_) => CmdFault::NoMemory,
    }
}

// Refuses a word whose text, which is made, is no list.
fn refuse_flaw(store: &mut Store, at: At, why: ListFault) -> CmdFault
    requires place { HasPlace store.old at }
    requires made { IsMade store.old at }
    requires why { IsNoList (text_at store.old at) why }
    ensures grows { Grows store.old store.new }
    ensures refused { Refused {A = List (List ℕ)} (list_of (text_at store.old at)) result
        store.old.stack store.new.stack }
    ensures at_most { length store.new.stack ≤ length store.old.stack + 2 }
{
    know_text(store, at);
    match why {
        ListFault::OpenBrace => refuse(store, MessageId::UnmatchedOpenBrace, b"", "NONE"),
        ListFault::OpenQuote => refuse(store, MessageId::UnmatchedOpenQuote, b"", "NONE"),
        ListFault::AfterBrace(from) => {
            refuse_behind(store, MessageId::NoSpaceAfterBraces, at, from)
        }
        ListFault::AfterQuote(from) => {
            refuse_behind(store, MessageId::NoSpaceAfterQuotes, at, from)
        }
        ListFault::NoMemory => unreachable!(),
    }
}

/// Refuses a word that is no list, for this reason.
pub fn refuse_list(store: &mut Store, at: At, fault: ValueFault) -> CmdFault
    requires place { HasPlace store.old at }
    requires why { RefusesList fault (text_at store.old at) }
    ensures grows { Grows store.old store.new }
    ensures refused { Refused {A = List (List ℕ)} (list_of (text_at store.old at)) result
        store.old.stack store.new.stack }
    ensures at_most { length store.new.stack ≤ length store.old.stack + 2 }
{
    let why = match fault {
        ValueFault::NotList(why) => why,
        ValueFault::NoMemory => return CmdFault::NoMemory,
        _ => unreachable!(),
    };
    match make_place(store, at) {
        Ok(()) => refuse_flaw(store, at, why),
        Err(_) => CmdFault::NoMemory,
    }
}

/// How many elements the list has that a word is.
pub fn list_len(store: &mut Store, at: At) -> Result<u64, CmdFault>
    requires { HasPlace store.old at }
    ensures { Reads (list_of (text_at store.old at)) (λ ts len. len ≡ length ts)
        store.old store.new result }
{
    match store.list_len(at) {
        Ok(len) => Ok(len),
        Err(fault) => Err(refuse_list(store, at, fault)),
    }
}
