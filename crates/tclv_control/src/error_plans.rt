// The commands `error` and `throw`.
ghost use Rattle.std.specs.Prelude.{◌≡◌, ◌<◌, ◌≤◌, IfOk, Err, MatchResult, codes, length};
ghost use Rattle.tclv_value.specs.Stacks.{top, under};
ghost use Rattle.tclv_engine.specs.Plans.{PlanOver, as_plan, placed};
ghost use Rattle.tclv_engine.specs.ListAssignment.{IsList, listed};
ghost use Rattle.tclv_engine.specs.Answers.{Answers, IsCalm, KeepsStack, Leaves, Raises, SameState};
ghost use Rattle.tclv_control.specs.ErrorRows as rows;
ghost use Rattle.tclv_control.specs.ErrorSteps as steps;

use crate::misuse::misused;
use std::alloc::Global;
use tclv_engine::{End, Leaving, Machine, Plan};
use tclv_model::{ErrorCode, MessageId, Usage, code_text};
use tclv_reply::copy_of;
use tclv_text::{NoMemory, Text};
use tclv_value::At;

/// The error code of an error that names none.
pub fn no_code(alloc: Global) -> Result<Text, NoMemory>
    ensures { IfOk result (λ text. text ≡ codes "NONE") }
{
    code_text(alloc, ErrorCode::NoCode, b"")
}

/// The text of a place of the stack.
pub fn text_of<W>(machine: &mut Machine<W>, at: usize) -> Result<Text, NoMemory>
    requires { at < length machine.old.values.store.stack }
    ensures text { IfOk result (λ text. text ≡ placed machine.old.values.store.stack at) }
    ensures same { SameState machine.old machine.new }
    ensures stack { machine.new.values.store.stack ≡ machine.old.values.store.stack }
{
    copy_of(&mut machine.values.store, at)
}

// Raises the error whose message is the text of a place of the stack.
fn raise_text<W>(machine: &mut Machine<W>, message: usize, code: Result<Text, NoMemory>) -> End
    requires { message < length machine.old.values.store.stack }
    ensures raises { MatchResult code (λ c. Raises (placed machine.old.values.store.stack message) c machine.new.values.store.stack result)
        (λ _. result ≡ End.Memory) }
    ensures same { SameState machine.old machine.new }
    ensures stack { KeepsStack {T = Unit {0}} machine.old.values.store.stack (Err result) machine.new.values.store.stack }
{
    let Ok(code) = code else {
        return End::Memory;
    };
    match machine.values.push_copy(At::Stack(message)) {
        Ok(()) => End::Left(Leaving::Error(code)),
        Err(_) => End::Memory,
    }
}

// Raises the error whose message and whose code are texts of the stack.
fn raise_both<W>(machine: &mut Machine<W>, message: usize, errorcode: usize) -> End
    requires message { message < length machine.old.values.store.stack }
    requires errorcode { errorcode < length machine.old.values.store.stack }
    ensures raises { let stack = machine.old.values.store.stack in
        Raises (placed stack message) (placed stack errorcode) machine.new.values.store.stack result }
    ensures same { SameState machine.old machine.new }
    ensures stack { KeepsStack {T = Unit {0}} machine.old.values.store.stack (Err result) machine.new.values.store.stack }
{
    let code = text_of(machine, errorcode);
    raise_text(machine, message, code)
}

// Raises the error whose message is a text of the stack, and which names no code.
fn raise_bare<W>(machine: &mut Machine<W>, message: usize) -> End
    requires { message < length machine.old.values.store.stack }
    ensures raises { Raises (placed machine.old.values.store.stack message) (codes "NONE") machine.new.values.store.stack result }
    ensures same { SameState machine.old machine.new }
    ensures stack { KeepsStack {T = Unit {0}} machine.old.values.store.stack (Err result) machine.new.values.store.stack }
{
    let code = no_code(machine.alloc);
    raise_text(machine, message, code)
}

/// The command `error message ?errorInfo? ?errorCode?`: an error with this message and this code, which
/// is `NONE` where none is given. Its words are the top `n` texts of the stack, the word of the call
/// lowest. (Tcl: error(n).)
pub fn plan_error<W, K>(machine: &mut Machine<W>, n: usize) -> Result<Plan<K>, End>
    requires words { n ≤ length machine.old.values.store.stack }
    requires some { 0 < n }
    ensures answer { Answers (rows.wanted_error (top n machine.old.values.store.stack)) as_plan machine.old result machine.new }
    ensures stack { Leaves (PlanOver (under n machine.old.values.store.stack)) (under n machine.old.values.store.stack) result machine.new.values.store.stack }
    ensures calm { IsCalm result }
    ensures units { machine.new.units ≡ machine.old.units }
{
    let word = machine.values.height() - n;
    match n {
        2 => Err(raise_bare(machine, word + 1)),
        3 => Err(raise_bare(machine, word + 1)),
        4 => Err(raise_both(machine, word + 1, word + 3)),
        _ => misused(machine, n, Usage::Error),
    }
}

// The error with a message and a code of so many parts, which are texts of the stack.
fn raise_thrown<W>(machine: &mut Machine<W>, errorcode: usize, len: u64, message: usize) -> End
    requires errorcode { errorcode < length machine.old.values.store.stack }
    requires message { message < length machine.old.values.store.stack }
    ensures raises { let stack = machine.old.values.store.stack in
        steps.RaisesThrown len (placed stack errorcode) (placed stack message) machine.new.values.store.stack result }
    ensures same { SameState machine.old machine.new }
    ensures stack { KeepsStack {T = Unit {0}} machine.old.values.store.stack (Err result) machine.new.values.store.stack }
{
    if len == 0 {
        machine.raise(MessageId::EmptyErrorType, b"", b"", ErrorCode::NoCode)
    } else {
        raise_both(machine, message, errorcode)
    }
}

// The error with a message and a code, which are texts of the stack.
fn plan_thrown<W, K>(
    machine: &mut Machine<W>,
    errorcode: usize,
    message: usize,
) -> Result<Plan<K>, End>
    requires errorcode { errorcode < length machine.old.values.store.stack }
    requires message { message < length machine.old.values.store.stack }
    ensures answer { let stack = machine.old.values.store.stack in
        Answers (rows.wanted_thrown (placed stack errorcode) (placed stack message)) as_plan machine.old result machine.new }
    ensures stack { Leaves (PlanOver machine.old.values.store.stack) machine.old.values.store.stack result machine.new.values.store.stack }
    ensures calm { IsCalm result }
    ensures units { machine.new.units ≡ machine.old.units }
{
    let len = machine.list_len(At::Stack(errorcode))?;
    Err(raise_thrown(machine, errorcode, len, message))
}

/// The command `throw type message`: an error with this message, whose code is the type, a list that
/// isn't empty. Its words are the top `n` texts of the stack, the word of the call lowest.
/// (Tcl: throw(n).)
pub fn plan_throw<W, K>(machine: &mut Machine<W>, n: usize) -> Result<Plan<K>, End>
    requires words { n ≤ length machine.old.values.store.stack }
    requires some { 0 < n }
    ensures answer { Answers (rows.wanted_throw (top n machine.old.values.store.stack)) as_plan machine.old result machine.new }
    ensures stack { Leaves (PlanOver (under n machine.old.values.store.stack)) (under n machine.old.values.store.stack) result machine.new.values.store.stack }
    ensures calm { IsCalm result }
    ensures units { machine.new.units ≡ machine.old.units }
{
    let word = machine.values.height() - n;
    match n {
        3 => plan_thrown(machine, word + 1, word + 2),
        _ => misused(machine, n, Usage::Throw),
    }
}
