// The words of `try`: its handlers, and the script that runs in the end.
ghost use Rattle.std.specs.Prelude.{◌≡◌, ◌+◌, ◌-◌, ◌<◌, ◌≤◌, [], ◌∷◌, ◌++◌, false, map, length, drop, OnOk, IfOk, IfSome, slice_index_or};
ghost use Rattle.std.specs.List.{All};
ghost use Rattle.std.specs.Option.{option_map};
ghost use Rattle.std.specs.Str.{chars};
ghost use Rattle.tclv_text.specs.Texts.{IsText};
ghost use Rattle.tclv_value.specs.Changes.{KeepsTexts};
ghost use Rattle.tclv_value.specs.Stacks.{top};
ghost use Rattle.tclv_reply.specs.Replies.{Reads, call_word};
ghost use Rattle.tclv_ctl.specs.Codes.{completion_code};
ghost use Rattle.tclv_ctl.specs.Steps.{Understands};
ghost use Rattle.tclv_ctl.specs.Handlers.{beginning, wanted, handler, handlers, ending, ends_in_dash, with_scripts, with_end, clauses_of, handlers_of, wanted_in, handler_in, text_in, IsConditionInside, IsHandlerInside, IsTryPlanOf};

use crate::codes::completion_code;
use crate::switching::{body_at, is_dash};
use tclv_model::{CmdFault, Code, MessageId, Usage};
use tclv_reply::{copy_of, list_len, refuse, refuse_count, settle_refusal, word_is};
use tclv_text::{NoMemory, is_ascii_word};
use tclv_value::{At, Store};

/// What an outcome has to be for a handler of `try`.
#[derive(Clone, Copy, Debug, PartialEq, Eq)]
pub enum Condition {
    /// One with this code.
    On(Code),
    /// An error whose code is a list that begins with the elements of the pattern at this place of the
    /// stack.
    Trap(usize),
}

/// A handler of `try`, by places of the stack.
#[derive(Clone, Copy, Debug, PartialEq, Eq)]
pub struct HandlerPlaces {
    /// What it is for.
    pub condition: Condition,
    /// Where the list of the names of its variables is: one for the result, one for the options, and
    /// further ones count for nothing.
    pub names: usize,
    /// Where the script is that runs, which is no `-`.
    pub body: usize,
}

/// What stands behind the body of `try`. All places are places of the stack.
#[derive(Drop)]
pub struct TryPlan {
    /// The handlers in order.
    pub handlers: Vec<HandlerPlaces>,
    /// Where the script is that runs in the end, if there is one.
    pub finally: Option<usize>,
}

/// Which handler a word begins.
#[derive(Clone, Copy, Debug, PartialEq, Eq)]
pub(crate) enum Handling {
    /// `on`.
    On,
    /// `trap`.
    Trap,
    /// None.
    Unknown,
}

// Which handler a word begins.
fn beginning(word: &[u8]) -> Handling
    requires { IsText word.now }
    ensures { result ≡ beginning (chars word.now) }
{
    if is_ascii_word(word, b"on") {
        Handling::On
    } else if is_ascii_word(word, b"trap") {
        Handling::Trap
    } else {
        Handling::Unknown
    }
}

// The code that the word at a place must name.
fn code_at(store: &mut Store, at: usize) -> Result<Code, CmdFault>
    requires { at < length store.old.stack }
    ensures { Reads (completion_code (slice_index_or store.old.stack at [])) (λ c x. x ≡ c) store.old store.new result }
{
    let word = copy_of(store, at)?;
    completion_code(store, word.bytes())
}

// What a handler is for that begins so, and whose second word is at a place.
fn read_wanted(
    store: &mut Store,
    call: usize,
    handling: Handling,
    at: usize,
) -> Result<Condition, CmdFault>
    requires call { call < length store.old.stack }
    requires place { at < length store.old.stack }
    ensures reads { Reads (wanted (slice_index_or store.old.stack call []) handling (slice_index_or store.old.stack at []))
        (λ w x. w ≡ wanted_in store.old.stack x) store.old store.new result }
    ensures inside { IfOk result (IsConditionInside store.old.stack) }
{
    match handling {
        Handling::On => {
            let code = code_at(store, at)?;
            Ok(Condition::On(code))
        }
        Handling::Trap => {
            list_len(store, At::Stack(at))?;
            Ok(Condition::Trap(at))
        }
        Handling::Unknown => Err(refuse_count(store, call, Usage::Try)),
    }
}

// Which handler the word at a place begins.
fn beginning_at(store: &mut Store, at: usize) -> Result<Handling, NoMemory>
    requires { at < length store.old.stack }
    ensures says { IfOk result (λ x. x ≡ beginning (slice_index_or store.old.stack at [])) }
    ensures kept { KeepsTexts store.old store.new }
{
    let word = copy_of(store, at)?;
    Ok(beginning(word.bytes()))
}

// The handler whose four words end before a place; its script as it is written.
fn read_handler(store: &mut Store, call: usize, end: usize) -> Result<HandlerPlaces, CmdFault>
    requires call { call < length store.old.stack }
    requires words { 4 ≤ end }
    requires within { end ≤ length store.old.stack }
    ensures reads { Reads (handler (slice_index_or store.old.stack call []) (slice_index_or store.old.stack (end - 4) [])
        (slice_index_or store.old.stack (end - 3) []) (slice_index_or store.old.stack (end - 2) [])
        (slice_index_or store.old.stack (end - 1) [])) (λ h x. h ≡ handler_in store.old.stack x)
        store.old store.new result }
    ensures inside { IfOk result (IsHandlerInside store.old.stack) }
{
    let handling = beginning_at(store, end - 4)?;
    let condition = read_wanted(store, call, handling, end - 3)?;
    list_len(store, At::Stack(end - 2))?;
    Ok(HandlerPlaces {
        condition,
        names: end - 2,
        body: end - 1,
    })
}

// Adds a handler.
fn add_handler(found: &mut Vec<HandlerPlaces>, handler: HandlerPlaces) -> Result<(), NoMemory>
    ensures { OnOk result (found.new.items ≡ found.old.items ++ handler ∷ []) }
{
    found.push(handler)?;
    Ok(())
}

// The handlers of the words on top, which begin at a place; their scripts as they are written.
fn read_handlers(
    store: &mut Store,
    call: usize,
    from: usize,
) -> Result<Vec<HandlerPlaces>, CmdFault>
    requires call { call < length store.old.stack }
    requires place { from ≤ length store.old.stack }
    ensures reads { Reads (handlers (slice_index_or store.old.stack call []) (drop from store.old.stack))
        (λ hs x. hs ≡ map (handler_in store.old.stack) x.items) store.old store.new result }
    ensures inside { IfOk result (λ x. All (IsHandlerInside store.old.stack) x.items) }
{
    let mut found = Vec::new(store.allocator());
    for k in 0..(store.height() - from) / 4 {
        match read_handler(store, call, from + 4 * (k + 1)) {
            Ok(handler) => add_handler(&mut found, handler)?,
            Err(kind) => return Err(kind),
        }
    }
    Ok(found)
}

// Where the script is that runs in the end, of the words on top, which begin at a place.
fn read_ending(store: &mut Store, call: usize, from: usize) -> Result<Option<usize>, CmdFault>
    requires call { call < length store.old.stack }
    requires place { from ≤ length store.old.stack }
    ensures reads { Reads (ending (slice_index_or store.old.stack call []) (drop from store.old.stack))
        (λ f x. f ≡ option_map (text_in store.old.stack) x) store.old store.new result }
    ensures inside { IfOk result (λ x. IfSome x (λ at. at < length store.old.stack)) }
{
    let height = store.height();
    let left = (height - from) % 4;
    if left == 0 {
        return Ok(None);
    }
    if left != 2 {
        return Err(refuse_count(store, call, Usage::Try));
    }
    if word_is(store, height - 2, "finally")? {
        Ok(Some(height - 1))
    } else {
        Err(refuse_count(store, call, Usage::Try))
    }
}

// The handlers, each with the next script that is no `-`.
fn give_scripts(store: &mut Store, read: &[HandlerPlaces]) -> Result<Vec<HandlerPlaces>, NoMemory>
    requires inside { All (IsHandlerInside store.old.stack) read.now }
    requires ended { ends_in_dash (map (handler_in store.old.stack) read.now) ≡ false }
    ensures handlers { IfOk result (λ x. with_scripts (map (handler_in store.old.stack) read.now)
        ≡ map (handler_in store.old.stack) x.items) }
    ensures inside { IfOk result (λ x. All (IsHandlerInside store.old.stack) x.items) }
    ensures kept { KeepsTexts store.old store.new }
{
    let mut found = Vec::new(store.allocator());
    if read.is_empty() {
        return Ok(found);
    }
    let mut body = read[read.len() - 1].body;
    for count in 0..read.len() {
        let handler = read[read.len() - 1 - count];
        body = body_at(store, handler.body, body)?;
        add_handler(&mut found, HandlerPlaces { body, ..handler })?;
    }
    found.reverse();
    Ok(found)
}

// Whether the last handler has no script of its own.
fn ends_in_dash(store: &mut Store, read: &[HandlerPlaces]) -> Result<bool, NoMemory>
    requires inside { All (IsHandlerInside store.old.stack) read.now }
    ensures says { IfOk result (λ x. x ≡ ends_in_dash (map (handler_in store.old.stack) read.now)) }
    ensures kept { KeepsTexts store.old store.new }
{
    match read.last() {
        Some(end) => is_dash(store, end.body),
        None => Ok(false),
    }
}

// The plan of these handlers and this end.
fn make_plan(
    store: &mut Store,
    read: &[HandlerPlaces],
    finally: Option<usize>,
) -> Result<TryPlan, CmdFault>
    requires inside { All (IsHandlerInside store.old.stack) read.now }
    requires end { IfSome finally (λ at. at < length store.old.stack) }
    ensures { Reads (with_end (map (handler_in store.old.stack) read.now) (option_map (text_in store.old.stack) finally))
        (IsTryPlanOf store.old.stack) store.old store.new result }
{
    if ends_in_dash(store, read)? {
        return Err(refuse(store, MessageId::LastHandlerWithoutBody, b"", "NONE"));
    }
    let handlers = give_scripts(store, read)?;
    Ok(TryPlan { handlers, finally })
}

// Reads the words on top, which begin at a place, as those behind the body of `try`.
fn read_clauses(store: &mut Store, call: usize, from: usize) -> Result<TryPlan, CmdFault>
    requires call { call < length store.old.stack }
    requires place { from ≤ length store.old.stack }
    ensures { Reads (clauses_of (slice_index_or store.old.stack call []) (drop from store.old.stack))
        (IsTryPlanOf store.old.stack) store.old store.new result }
{
    let read = read_handlers(store, call, from)?;
    let finally = read_ending(store, call, from)?;
    make_plan(store, read.as_slice(), finally)
}

/// Reads the top `n` texts as the words of `try` behind the word of the call, which lies below them: a
/// body, handlers of four words each, and at the end `finally` and a script, or neither. A handler is
/// `on`, a code, the list of the names of its variables and a script, or `trap` and a pattern in place
/// of the code; a script `-` is the next one that is no `-`. On `Ok` the words stay, and the plan's
/// places have the texts that it is about.
///
/// From the left, `WrongArgs` comes where there is no word, where a handler begins with another word,
/// and where words are left that are no handler and no end; `Message` comes for a code that is neither
/// a code's name nor a number of 32 bits, and for a pattern or names that are no list. Last comes
/// `Message` for a script `-` of the last handler.
///
/// On these two the message and the error code take the words' place. After `NoMemory` every place
/// has the text that it had. (Tcl: try(n).)
pub fn try_clauses(store: &mut Store, n: usize) -> Result<TryPlan, CmdFault>
    requires { n + 1 ≤ length store.old.stack }
    ensures { Understands (handlers_of (call_word n store.old.stack) (top n store.old.stack))
        (IsTryPlanOf store.old.stack) n store.old store.new result }
{
    let height = store.height();
    if n == 0 {
        let kind = refuse_count(store, height - 1, Usage::Try);
        return Err(settle_refusal(store, n, height, kind));
    }
    match read_clauses(store, height - n - 1, height - n + 1) {
        Ok(plan) => Ok(plan),
        Err(kind) => Err(settle_refusal(store, n, height, kind)),
    }
}
