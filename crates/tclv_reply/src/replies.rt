// What a command leaves in place of its words: a result, or a message and an error code.
ghost use Rattle.std.specs.Prelude.{◌≡◌, ℕ, List, pos, ◌+◌, ◌-◌, ◌<◌, ◌≤◌, [], ◌∷◌, ◌++◌, length, take, drop, IsTrue, Err, OnOk, OnErr, IfOk, slice_index_or};
ghost use Rattle.std.specs.List.{list_all};
ghost use Rattle.std.specs.Char.{is_ascii};
ghost use Rattle.std.specs.Str.{chars};
ghost use Rattle.tclv_text.specs.Texts.{IsText};
ghost use Rattle.tclv_text.specs.Numbers.{whole_text};
ghost use Rattle.tclv_model.specs.Message.{text_of};
ghost use Rattle.tclv_model.specs.Rows.{wrong_count};
ghost use Rattle.tclv_model.specs.Usages.{usage_of};
ghost use Rattle.tclv_model.specs.declared.data_commands.CmdFault.TheVariants.{WrongArgs, Message};
ghost use Rattle.tclv_value.specs.View.{HasPlace, IsMade, KeepsMade};
ghost use Rattle.tclv_value.specs.declared.places.At.TheVariants.{Stack};
ghost use Rattle.tclv_value.specs.Changes.{KeepsTexts, Pushes};
ghost use Rattle.tclv_reply.specs.Replies.{call_word, Answers, Grows, Refused, Tells, left_count, gathered, Settles};

use crate::words::{make_word, word_at};
use itoa::Buffer;
use tclv_model::{CmdFault, MessageId, Usage, message, usage_text};
use tclv_text::{NoMemory, Text};
use tclv_value::{At, Store};

// Leaves of the stack what is below a place, and then the top text.
fn gather_one(store: &mut Store, base: usize)
    requires { base < length store.old.stack }
    ensures stack { store.new.stack ≡ gathered base 1 store.old.stack }
    ensures cells { store.new.cells ≡ store.old.cells }
{
    let last = store.height() - 1;
    store.copy_over(At::Stack(last), base);
    store.pop(last - base);
}

// Leaves of the stack what is below a place, and then the two top texts.
fn gather_two(store: &mut Store, base: usize)
    requires { base + 1 < length store.old.stack }
    ensures stack { store.new.stack ≡ gathered base 2 store.old.stack }
    ensures cells { store.new.cells ≡ store.old.cells }
{
    let last = store.height() - 1;
    store.copy_over(At::Stack(last - 1), base);
    store.copy_over(At::Stack(last), base + 1);
    store.pop(last - base - 1);
}

/// Leaves the stack up to a height.
pub fn cut(store: &mut Store, height: usize)
    requires { height ≤ length store.old.stack }
    ensures stack { store.new.stack ≡ take height store.old.stack }
    ensures cells { store.new.cells ≡ store.old.cells }
    ensures keeps { KeepsMade store.old store.new }
{
    let more = store.height() - height;
    store.pop(more);
}

/// Ends a call with `n` words, which found the stack at a height: puts what its steps left on top,
/// a result or a message and a code, in place of the words. After `NoMemory` it takes off what they
/// pushed.
pub fn settle(
    store: &mut Store,
    n: usize,
    height: usize,
    done: Result<(), CmdFault>,
) -> Result<(), CmdFault>
    requires words { n ≤ height }
    requires left { height + left_count done ≤ length store.old.stack }
    ensures settles { Settles n height done store.old store.new }
    ensures same { result ≡ done }
{
    match done {
        Ok(()) => {
            gather_one(store, height - n);
            Ok(())
        }
        Err(kind) => Err(settle_refusal(store, n, height, kind)),
    }
}

/// Ends a call with `n` words that is refused, as `settle` does: for calls whose `Ok` is more than a
/// result on the stack.
pub fn settle_refusal(store: &mut Store, n: usize, height: usize, kind: CmdFault) -> CmdFault
    requires words { n ≤ height }
    requires left { height + left_count (Err kind) ≤ length store.old.stack }
    ensures settles { Settles n height (Err kind) store.old store.new }
    ensures same { result ≡ kind }
{
    match kind {
        CmdFault::NoMemory => cut(store, height),
        CmdFault::WrongArgs => gather_two(store, height - n),
        CmdFault::Message => gather_two(store, height - n),
    }
    kind
}

/// Pushes a text.
pub fn push_bytes(store: &mut Store, text: &[u8]) -> Result<(), NoMemory>
    requires { IsText text.now }
    ensures pushed { OnOk result (Pushes store.old (chars text.now) store.new) }
    ensures kept { OnErr result (KeepsTexts store.old store.new) }
{
    store.push_text(text)
}

/// Pushes an ASCII text.
pub fn push_ascii(store: &mut Store, text: &str) -> Result<(), NoMemory>
    requires { IsTrue (list_all is_ascii text.now) }
    ensures pushed { OnOk result (Pushes store.old text.now store.new) }
    ensures kept { OnErr result (KeepsTexts store.old store.new) }
{
    push_bytes(store, text.as_bytes())
}

/// Pushes a message with parts that are texts.
pub fn push_message(
    store: &mut Store,
    kind: MessageId,
    first: &[u8],
    second: &[u8],
) -> Result<(), NoMemory>
    requires first { IsText first.now }
    requires second { IsText second.now }
    ensures pushed { OnOk result
        (Pushes store.old (text_of kind (chars first.now) (chars second.now)) store.new) }
    ensures kept { OnErr result (KeepsTexts store.old store.new) }
{
    let mut text = Vec::new(store.allocator());
    message(kind, first, second, &mut text)?;
    push_bytes(store, text.as_slice())
}

// Pushes a message, whose part is a text, and a code.
fn push_refusal(
    store: &mut Store,
    kind: MessageId,
    first: &[u8],
    code: &str,
) -> Result<(), NoMemory>
    requires first { IsText first.now }
    requires code { IsTrue (list_all is_ascii code.now) }
    ensures grows { Grows store.old store.new }
    ensures pushed { OnOk result (store.new.stack ≡ store.old.stack ++
        (text_of kind (chars first.now) [] ∷ code.now ∷ [])) }
    ensures at_most { length store.new.stack ≤ length store.old.stack + 2 }
{
    push_message(store, kind, first, b"")?;
    push_ascii(store, code)?;
    Ok(())
}

/// Refuses with a message, whose part is a text, and a code, which are pushed. After `NoMemory` some
/// of them may be there.
pub fn refuse(store: &mut Store, kind: MessageId, first: &[u8], code: &str) -> CmdFault
    requires first { IsText first.now }
    requires code { IsTrue (list_all is_ascii code.now) }
    ensures grows { Grows store.old store.new }
    ensures tells { Tells Message result
        (text_of kind (chars first.now) [] ∷ code.now ∷ []) store.old.stack store.new.stack }
    ensures at_most { length store.new.stack ≤ length store.old.stack + 2 }
{
    match push_refusal(store, kind, first, code) {
        Ok(()) => CmdFault::Message,
        Err(_) => CmdFault::NoMemory,
    }
}

// The text of a message about the text of a place, which is made.
fn message_on(store: &Store, kind: MessageId, at: usize, second: &[u8]) -> Result<Vec<u8>, NoMemory>
    requires place { at < length store.now.stack }
    requires made { IsMade store.now (Stack at) }
    requires second { IsText second.now }
    ensures utf8 { IfOk result (λ text. IsText text.items) }
    ensures text { IfOk result (λ text. chars text.items ≡
        text_of kind (slice_index_or store.now.stack at []) (chars second.now)) }
{
    let mut text = Vec::new(store.allocator());
    message(kind, word_at(store, at), second, &mut text)?;
    Ok(text)
}

/// Pushes a message about the text of a place. Its second part is ASCII.
pub fn push_message_on(
    store: &mut Store,
    kind: MessageId,
    at: usize,
    second: &str,
) -> Result<(), NoMemory>
    requires place { at < length store.old.stack }
    requires second { IsTrue (list_all is_ascii second.now) }
    ensures grows { Grows store.old store.new }
    ensures pushed { OnOk result (store.new.stack ≡ store.old.stack ++
        text_of kind (slice_index_or store.old.stack at []) second.now ∷ []) }
{
    make_word(store, at)?;
    let text = message_on(store, kind, at, second.as_bytes())?;
    push_bytes(store, text.as_slice())?;
    Ok(())
}

// Pushes a message about the text of a place, whose second part is ASCII, and a code.
fn push_refusal_on(
    store: &mut Store,
    kind: MessageId,
    at: usize,
    second: &str,
    code: &str,
) -> Result<(), NoMemory>
    requires place { at < length store.old.stack }
    requires second { IsTrue (list_all is_ascii second.now) }
    requires code { IsTrue (list_all is_ascii code.now) }
    ensures grows { Grows store.old store.new }
    ensures pushed { OnOk result (store.new.stack ≡ store.old.stack ++
        (text_of kind (slice_index_or store.old.stack at []) second.now ∷ code.now ∷ [])) }
{
    push_message_on(store, kind, at, second)?;
    push_ascii(store, code)?;
    Ok(())
}

/// Refuses with a message about the text of a place, and a code.
pub fn refuse_on(store: &mut Store, kind: MessageId, at: usize, code: &str) -> CmdFault
    requires place { at < length store.old.stack }
    requires code { IsTrue (list_all is_ascii code.now) }
    ensures grows { Grows store.old store.new }
    ensures tells { Tells Message result
        (text_of kind (slice_index_or store.old.stack at []) [] ∷ code.now ∷ [])
        store.old.stack store.new.stack }
{
    match push_refusal_on(store, kind, at, "", code) {
        Ok(()) => CmdFault::Message,
        Err(_) => CmdFault::NoMemory,
    }
}

/// Refuses the number of words with the usage of the command, whose word is at a place.
pub fn refuse_count(store: &mut Store, at: usize, usage: Usage) -> CmdFault
    requires { at < length store.old.stack }
    ensures grows { Grows store.old store.new }
    ensures refused { Refused {A = List ℕ} (wrong_count (slice_index_or store.old.stack at []) (usage_of usage))
        result store.old.stack store.new.stack }
{
    match push_refusal_on(
        store,
        MessageId::WrongArguments,
        at,
        usage_text(usage),
        "TCL WRONGARGS",
    ) {
        Ok(()) => CmdFault::WrongArgs,
        Err(_) => CmdFault::NoMemory,
    }
}

/// Ends a call that has `n` words and can't have so many. The usage of its command stands behind
/// the word of the call in the message.
pub fn refuse_words(store: &mut Store, n: usize, usage: Usage) -> Result<(), CmdFault>
    requires { n + 1 ≤ length store.old.stack }
    ensures { Answers (wrong_count (call_word n store.old.stack) (usage_of usage)) n
        store.old store.new result }
{
    let height = store.height();
    let fault = refuse_count(store, height - n - 1, usage);
    settle(store, n, height, Err(fault))
}

/// Pushes the decimal text of a number.
pub fn push_number(store: &mut Store, n: i64) -> Result<(), NoMemory>
    ensures pushed { OnOk result (Pushes store.old (whole_text n) store.new) }
    ensures kept { OnErr result (KeepsTexts store.old store.new) }
{
    store.push_whole(n)
}

/// Pushes the decimal text of a count. One that fits 64 bits with a sign is kept as a number.
pub fn push_count(store: &mut Store, count: u64) -> Result<(), NoMemory>
    ensures pushed { OnOk result (Pushes store.old (whole_text (pos count)) store.new) }
    ensures kept { OnErr result (KeepsTexts store.old store.new) }
{
    match i64::try_from(count) {
        Ok(n) => push_number(store, n),
        Err(_) => push_ascii(store, Buffer::new().format(count)),
    }
}

/// Pushes the text of a place of the stack, which is shared.
pub fn push_word(store: &mut Store, at: usize) -> Result<(), NoMemory>
    requires { at < length store.old.stack }
    ensures pushed { OnOk result (Pushes store.old (slice_index_or store.old.stack at []) store.new) }
    ensures kept { OnErr result (KeepsTexts store.old store.new) }
{
    store.push_copy(At::Stack(at))
}

/// Pushes the texts of the places from one up to another once more.
pub fn push_words(store: &mut Store, from: usize, to: usize) -> Result<(), NoMemory>
    requires order { from ≤ to }
    requires within { to ≤ length store.old.stack }
    ensures grows { Grows store.old store.new }
    ensures pushed { OnOk result (store.new.stack ≡ store.old.stack ++ take (to - from) (drop from store.old.stack)) }
{
    for at in from..to {
        push_word(store, at)?;
    }
    Ok(())
}

/// Pushes texts, from the left. After `NoMemory` some of them may be there.
pub fn push_all(store: &mut Store, texts: &[Text]) -> Result<(), NoMemory>
    ensures grows { Grows store.old store.new }
    ensures pushed { OnOk result (store.new.stack ≡ store.old.stack ++ texts.now) }
{
    for text in texts {
        push_bytes(store, text.bytes())?;
    }
    Ok(())
}
