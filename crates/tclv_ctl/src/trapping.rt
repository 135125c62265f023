// Which handler of a plan of `try` is for an outcome.
ghost use Rattle.std.specs.Prelude.{◌≡◌, ◌<◌, [], map, length, IfOk, IfSome, slice_index_or};
ghost use Rattle.std.specs.List.{All};
ghost use Rattle.std.specs.Option.{option_map};
ghost use Rattle.tclv_model.specs.Values.{list_of};
ghost use Rattle.tclv_value.specs.Changes.{KeepsTexts};
ghost use Rattle.tclv_ctl.specs.Handlers.{listed, begins_with, is_front, fits, first_fitting, handler_for, wanted_in, handler_in, IsConditionInside, IsHandlerInside};

use crate::handlers::{Condition, HandlerPlaces, TryPlan};
use tclv_model::{CmdFault, Code};
use tclv_reply::{Elements, cut, elements_of, push_bytes};
use tclv_text::{NoMemory, Text};
use tclv_value::Store;

// Whether the words begin with these.
fn begins_with(words: &[Text], front: &[Text]) -> bool
    ensures { result ≡ begins_with words.now front.now }
{
    for k in 0..front.len() {
        if k >= words.len() {
            return false;
        }
        if !words[k].is_same(&front[k]) {
            return false;
        }
    }
    true
}

// The elements of the text at a place, or none where it is no list.
fn listed_at(store: &mut Store, at: usize) -> Result<Option<Elements>, NoMemory>
    requires { at < length store.old.stack }
    ensures says { IfOk result (λ x. x ≡ listed (list_of (slice_index_or store.old.stack at []))) }
    ensures kept { KeepsTexts store.old store.new }
{
    let height = store.height();
    let read = elements_of(store, at);
    cut(store, height);
    match read {
        Ok(words) => Ok(Some(words)),
        Err(CmdFault::NoMemory) => Err(NoMemory),
        Err(_) => Ok(None),
    }
}

// The elements of a text, or none where it is no list.
fn listed_text(store: &mut Store, text: &Text) -> Result<Option<Elements>, NoMemory>
    ensures says { IfOk result (λ x. x ≡ listed (list_of text.now)) }
    ensures kept { KeepsTexts store.old store.new }
{
    let height = store.height();
    push_bytes(store, text.bytes())?;
    let words = listed_at(store, height);
    cut(store, height);
    words
}

// Whether both are lists, and the words begin with the pattern's elements.
fn is_front(words: &Option<Elements>, front: &Option<Elements>) -> bool
    ensures { result ≡ is_front words.now front.now }
{
    match words {
        Some(words) => match front {
            Some(front) => begins_with(words.all(), front.all()),
            None => false,
        },
        None => false,
    }
}

// Whether an outcome with this code, whose error code has these words, is what a handler is for.
fn fits(
    store: &mut Store,
    code: Code,
    words: &Option<Elements>,
    condition: Condition,
) -> Result<bool, NoMemory>
    requires { IsConditionInside store.old.stack condition }
    ensures says { IfOk result (λ x. x ≡ fits code words.now (wanted_in store.old.stack condition)) }
    ensures kept { KeepsTexts store.old store.new }
{
    match condition {
        Condition::On(wanted) => Ok(code.number() == wanted.number()),
        Condition::Trap(pattern) => {
            let front = listed_at(store, pattern)?;
            Ok(code.number() == 1 && is_front(words, &front))
        }
    }
}

// The first handler that fits.
fn first_fitting(
    store: &mut Store,
    handlers: &[HandlerPlaces],
    code: Code,
    words: &Option<Elements>,
) -> Result<Option<HandlerPlaces>, NoMemory>
    requires { All (IsHandlerInside store.old.stack) handlers.now }
    ensures chosen { IfOk result (λ x. option_map (handler_in store.old.stack) x
        ≡ first_fitting code words.now (map (handler_in store.old.stack) handlers.now)) }
    ensures inside { IfOk result (λ x. IfSome x (IsHandlerInside store.old.stack)) }
    ensures kept { KeepsTexts store.old store.new }
{
    for k in 0..handlers.len() {
        let handler = handlers[k];
        if fits(store, code, words, handler.condition)? {
            return Ok(Some(handler));
        }
    }
    Ok(None)
}

/// The handler of a plan of `try` for an outcome: the first that is `on` its code, or, where it is an
/// error, that is `trap` with a pattern whose elements the error code, a list, begins with. An error
/// code that is no list has no such pattern, and the error code of an outcome that is no error counts
/// for nothing. `None` where no handler fits. The places of the plan are there, and no text changes.
/// (Tcl: try(n).)
pub fn chosen_handler(
    store: &mut Store,
    plan: &TryPlan,
    code: Code,
    error_code: &Text,
) -> Result<Option<HandlerPlaces>, NoMemory>
    requires { All (IsHandlerInside store.old.stack) plan.now.handlers.items }
    ensures chosen { IfOk result (λ x. option_map (handler_in store.old.stack) x
        ≡ handler_for code error_code.now (map (handler_in store.old.stack) plan.now.handlers.items)) }
    ensures inside { IfOk result (λ x. IfSome x (IsHandlerInside store.old.stack)) }
    ensures kept { KeepsTexts store.old store.new }
{
    let words = listed_text(store, error_code)?;
    first_fitting(store, plan.handlers.as_slice(), code, &words)
}
