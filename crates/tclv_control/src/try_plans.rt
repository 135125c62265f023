// The command `try`.
ghost use Rattle.std.specs.Prelude.{◌≡◌, ◌+◌, ◌-◌, ◌<◌, ◌≤◌, ◌++◌, ◌∷◌, [], IfOk, IfSome, OnOk, length, map, slice_get};
ghost use Rattle.std.specs.List.{All};
ghost use Rattle.std.specs.Option.{option_map};
ghost use Rattle.tclv_value.specs.Stacks.{top, under};
ghost use Rattle.tclv_reply.specs.Replies as replies;
ghost use Rattle.tclv_ctl.specs.Handlers as control;
ghost use Rattle.tclv_ctl.specs.Steps.{Understands};
ghost use Rattle.tclv_ctl.specs.Switching.{given_words};
ghost use Rattle.tclv_model.specs.Values.{list_of};
ghost use Rattle.tclv_engine.specs.DataAnswers.{of_answer};
ghost use Rattle.tclv_engine.specs.ListAssignment.{IsList, listed, unseen};
ghost use Rattle.tclv_engine.specs.Variables.{assign};
ghost use Rattle.tclv_engine.specs.Plans.{PlanOver, as_plan, concluded, placed};
ghost use Rattle.tclv_engine.specs.Answers.{Answers, IsCalm, Keeps, Leaves, PushesWords, SameState, last_of};
ghost use Rattle.tclv_control.specs.CatchRows.{note};
ghost use Rattle.tclv_control.specs.TryRows as rows;
ghost use Rattle.tclv_control.specs.TrySteps as steps;

use crate::behind::{Behind, hand_on};
use crate::catch_plans::{pair_at, push_dict};
use crate::error_plans::{no_code, text_of};
use crate::misuse::misused;
use crate::outcomes::{code_ended, options_ended};
use crate::words::Words;
use std::alloc::Global;
use tclv_ctl::{HandlerPlaces, TryPlan, chosen_handler, try_clauses};
use tclv_engine::{Carried, End, Ended, Leaving, Machine, Plan};
use tclv_model::{CmdFault, Code, Options, Pair, Usage};
use tclv_reply::push_all;
use tclv_text::{NoMemory, Text, is_ascii_word};
use tclv_value::At;

// ---- the words

// Reads the words of `try` that are the top n texts, above the word of the call. A refusal leaves its
// message and its code in their place.
fn read_words<W>(machine: &mut Machine<W>, n: usize) -> Result<TryPlan, CmdFault>
    requires { n + 1 ≤ length machine.old.values.store.stack }
    ensures read { let stack = machine.old.values.store.stack in
        Understands (control.handlers_of (replies.call_word n stack) (top n stack)) (control.IsTryPlanOf stack) n
        machine.old.values.store machine.new.values.store result }
    ensures same { SameState machine.old machine.new }
{
    try_clauses(&mut machine.values.store, n)
}

// What the words say that are the top n texts, above the word of the call.
fn asked<W>(machine: &mut Machine<W>, n: usize) -> Result<TryPlan, End>
    requires { n + 1 ≤ length machine.old.values.store.stack }
    ensures answer { let stack = machine.old.values.store.stack in
        Answers (of_answer (control.handlers_of (replies.call_word n stack) (top n stack))) (steps.as_said stack) machine.old result machine.new }
    ensures stack { PushesWords (under n machine.old.values.store.stack) result machine.new.values.store.stack }
    ensures kept { OnOk result (machine.new.values.store.stack ≡ machine.old.values.store.stack) }
    ensures handlers { IfOk result (λ plan. All (control.IsHandlerInside machine.new.values.store.stack) plan.handlers.items) }
    ensures finally { IfOk result (λ plan. IfSome plan.finally (λ at. at < length machine.new.values.store.stack)) }
    ensures calm { IsCalm result }
    ensures same { SameState machine.old machine.new }
{
    match read_words(machine, n) {
        Ok(plan) => Ok(plan),
        Err(CmdFault::NoMemory) => Err(End::Memory),
        Err(CmdFault::WrongArgs) => Err(machine.refuse()),
        Err(CmdFault::Message) => Err(machine.refuse()),
    }
}

// Copies of the top n texts.
fn words_of<W>(machine: &mut Machine<W>, n: usize) -> Result<Words, NoMemory>
    requires { n ≤ length machine.old.values.store.stack }
    ensures words { IfOk result (λ words. words ≡ top n machine.old.values.store.stack) }
    ensures stack { machine.new.values.store.stack ≡ machine.old.values.store.stack }
    ensures same { SameState machine.old machine.new }
{
    let height = machine.values.height();
    let mut words = Words::new(machine.alloc);
    for at in height - n..height {
        let word = text_of(machine, at)?;
        words.push(word)?;
    }
    Ok(words)
}

// The plan of the body, which is the lowest of the top n texts, above the word of the call.
fn plan_body<W>(machine: &mut Machine<W>, n: usize) -> Result<Plan<Behind>, End>
    requires words { n + 1 ≤ length machine.old.values.store.stack }
    requires some { 0 < n }
    ensures answer { let stack = machine.old.values.store.stack in
        Answers (rows.body_wanted (replies.call_word n stack) (top n stack)) as_plan machine.old result machine.new }
    ensures stack { Leaves (PlanOver machine.old.values.store.stack) machine.old.values.store.stack result machine.new.values.store.stack }
    ensures calm { IsCalm result }
    ensures same { SameState machine.old machine.new }
{
    let body = machine.values.height() - n;
    let call = text_of(machine, body - 1)?;
    let words = words_of(machine, n)?;
    Ok(Plan::Run(body, Behind::Body(call, words)))
}

/// The command `try body ?handler ...? ?finally script?`: the body is to run; behind it the words say
/// what is done. They are read before, so a fault of theirs comes before the body runs. They are the top
/// `n` texts of the stack, the word of the call lowest. (Tcl: try(n).)
pub fn plan_try<W>(machine: &mut Machine<W>, n: usize) -> Result<Plan<Behind>, End>
    requires words { n ≤ length machine.old.values.store.stack }
    requires some { 0 < n }
    ensures answer { Answers (rows.wanted_try (top n machine.old.values.store.stack)) as_plan machine.old result machine.new }
    ensures stack { Leaves (PlanOver (under n machine.old.values.store.stack)) (under n machine.old.values.store.stack) result machine.new.values.store.stack }
    ensures calm { IsCalm result }
    ensures units { machine.new.units ≡ machine.old.units }
{
    match n {
        1 => misused(machine, n, Usage::Try),
        _ => {
            asked(machine, n - 1)?;
            plan_body(machine, n - 1)
        }
    }
}

// ---- in the end

// The plan of the script that runs in the end, behind how a script ended whose result is on top.
fn plan_last<W>(machine: &mut Machine<W>, script: &Text, ended: Ended) -> Result<Plan<Behind>, End>
    requires { 0 < length machine.old.values.store.stack }
    ensures answer { Answers (steps.last_wanted script.now (concluded ended (last_of machine.old.values.store.stack))) as_plan machine.old result machine.new }
    ensures stack { Leaves (PlanOver (under 1 machine.old.values.store.stack)) (under 1 machine.old.values.store.stack) result machine.new.values.store.stack }
    ensures calm { IsCalm result }
    ensures same { SameState machine.old machine.new }
{
    let code = code_ended(&ended);
    let at = machine.values.height();
    let text = text_of(machine, at - 1)?;
    let options = options_ended(machine.alloc, ended)?;
    machine.values.push_text(script.bytes())?;
    Ok(Plan::Run(at, Behind::Finally(code, text, options)))
}

/// What is done behind a handler of a `try`, which ended so and whose result is on top: the script runs
/// that is to run in the end, if there is one; else the outcome is the command's.
pub fn finish_handler<W>(
    machine: &mut Machine<W>,
    finally: Option<Text>,
    ended: Ended,
) -> Result<Plan<Behind>, End>
    requires { 0 < length machine.old.values.store.stack }
    ensures answer { Answers (rows.at_last finally (concluded ended (last_of machine.old.values.store.stack))) as_plan machine.old result machine.new }
    ensures stack { Leaves (PlanOver (under 1 machine.old.values.store.stack)) (under 1 machine.old.values.store.stack) result machine.new.values.store.stack }
    ensures calm { IsCalm result }
    ensures units { machine.new.units ≡ machine.old.units }
{
    match finally {
        Some(script) => plan_last(machine, &script, ended),
        None => hand_on(ended),
    }
}

/// What is done behind the script of a `try` that runs in the end: where it is ok, the outcome is the one
/// before it, which has this code, result and options; else its own.
pub fn finish_last<W>(
    machine: &mut Machine<W>,
    code: Code,
    text: Text,
    options: Options,
    ended: Ended,
) -> Result<Plan<Behind>, End>
    requires { 0 < length machine.old.values.store.stack }
    ensures answer { Answers (rows.behind_last code text options (concluded ended (last_of machine.old.values.store.stack)))
        as_plan machine.old result machine.new }
    ensures stack { Leaves (PlanOver (under 1 machine.old.values.store.stack)) (under 1 machine.old.values.store.stack) result machine.new.values.store.stack }
    ensures calm { IsCalm result }
    ensures units { machine.new.units ≡ machine.old.units }
{
    match code_ended(&ended) {
        Code::Ok => {
            machine.values.push_text(text.bytes())?;
            hand_on(Ended::Left(Leaving::Other(code, Carried::Kept(options))))
        }
        _ => hand_on(ended),
    }
}

// ---- behind the body

// The error code among options.
fn error_code_of(alloc: Global, options: &[Pair]) -> Result<Text, NoMemory>
    ensures { IfOk result (λ code. code ≡ rows.error_code_of options.now) }
{
    for k in 0..options.len() {
        let pair = pair_at(options, k);
        if is_ascii_word(pair.key.bytes(), b"-errorcode") {
            return pair.value.copy(alloc);
        }
    }
    no_code(alloc)
}

// Pushes words.
fn push_words<W>(machine: &mut Machine<W>, words: &Words) -> Result<(), NoMemory>
    ensures pushed { OnOk result (machine.new.values.store.stack ≡ machine.old.values.store.stack ++ words.now) }
    ensures same { SameState machine.old machine.new }
{
    push_all(&mut machine.values.store, words.all())
}

// Pushes the word of a call and the words behind it.
fn push_call<W>(machine: &mut Machine<W>, call: &Text, words: &Words) -> Result<(), NoMemory>
    ensures pushed { OnOk result (machine.new.values.store.stack ≡ machine.old.values.store.stack ++ call.now ∷ words.now) }
    ensures same { SameState machine.old machine.new }
{
    machine.values.push_text(call.bytes())?;
    push_words(machine, words)
}

// Reads words once more, which stand on top then, above the word of their call.
fn asked_again<W>(machine: &mut Machine<W>, call: &Text, words: &Words) -> Result<TryPlan, End>
    ensures answer { let stack = machine.old.values.store.stack in
        Answers (of_answer (control.handlers_of call.now words.now)) (steps.as_said (stack ++ call.now ∷ words.now)) machine.old result machine.new }
    ensures stack { PushesWords machine.old.values.store.stack result machine.new.values.store.stack }
    ensures kept { OnOk result (machine.new.values.store.stack ≡ machine.old.values.store.stack ++ call.now ∷ words.now) }
    ensures handlers { IfOk result (λ plan. All (control.IsHandlerInside machine.new.values.store.stack) plan.handlers.items) }
    ensures finally { IfOk result (λ plan. IfSome plan.finally (λ at. at < length machine.new.values.store.stack)) }
    ensures calm { IsCalm result }
    ensures same { SameState machine.old machine.new }
{
    let height = machine.values.height();
    push_call(machine, call, words)?;
    let n = machine.values.height() - height - 1;
    asked(machine, n)
}

// The handler of a plan that is for an outcome with this code and these options.
fn chosen<W>(
    machine: &mut Machine<W>,
    plan: &TryPlan,
    code: Code,
    options: &Options,
) -> Result<Option<HandlerPlaces>, NoMemory>
    requires { All (control.IsHandlerInside machine.old.values.store.stack) plan.now.handlers.items }
    ensures chosen { let stack = machine.old.values.store.stack in
        IfOk result (λ found. option_map (control.handler_in stack) found
        ≡ control.handler_for code (rows.error_code_of options.now) (map (control.handler_in stack) plan.now.handlers.items)) }
    ensures inside { IfOk result (λ found. IfSome found (control.IsHandlerInside machine.old.values.store.stack)) }
    ensures stack { machine.new.values.store.stack ≡ machine.old.values.store.stack }
    ensures same { SameState machine.old machine.new }
{
    let error_code = error_code_of(machine.alloc, options.all())?;
    chosen_handler(&mut machine.values.store, plan, code, &error_code)
}

// Whether the text of a place of the stack is a list.
fn is_list<W>(machine: &mut Machine<W>, at: usize) -> Result<bool, NoMemory>
    requires { at < length machine.old.values.store.stack }
    ensures says { IfOk result (steps.IsListed (placed machine.old.values.store.stack at)) }
    ensures stack { OnOk result (machine.new.values.store.stack ≡ machine.old.values.store.stack) }
    ensures same { SameState machine.old machine.new }
{
    let height = machine.values.height();
    let read = machine.values.list_len(At::Stack(at));
    machine.values.pop(machine.values.height() - height);
    match read {
        Ok(_) => Ok(true),
        Err(CmdFault::NoMemory) => Err(NoMemory),
        Err(_) => Ok(false),
    }
}

// Sets the variable whose name is on top to the text of a place of the stack.
fn note_over<W>(machine: &mut Machine<W>, value: usize) -> Result<(), End>
    requires some { 0 < length machine.old.values.store.stack }
    requires value { value < length machine.old.values.store.stack }
    ensures answer { let stack = machine.old.values.store.stack in
        Answers (assign (last_of stack) (placed stack value)) unseen machine.old result machine.new }
    ensures stack { PushesWords machine.old.values.store.stack result machine.new.values.store.stack }
    ensures calm { IsCalm result }
    ensures units { machine.new.units ≡ machine.old.units }
{
    let name = machine.values.height() - 1;
    machine.values.push_copy(At::Stack(value))?;
    machine.assign_top(At::Stack(name))
}

// Sets the variable whose name is an element of a list of the stack to the text on top, if there is such
// an element.
fn note_element<W>(machine: &mut Machine<W>, names: usize, k: u64) -> Result<(), End>
    requires some { 0 < length machine.old.values.store.stack }
    requires place { names < length machine.old.values.store.stack }
    requires list { IsList (placed machine.old.values.store.stack names) }
    ensures answer { let stack = machine.old.values.store.stack in
        Answers (note (slice_get (listed (placed stack names)) k) (last_of stack)) unseen machine.old result machine.new }
    ensures stack { PushesWords machine.old.values.store.stack result machine.new.values.store.stack }
    ensures calm { IsCalm result }
    ensures units { machine.new.units ≡ machine.old.units }
{
    let last = machine.values.height() - 1;
    let found = machine.push_element(names, k)?;
    if found {
        return note_over(machine, last);
    }
    Ok(())
}

// Sets the first two variables of a list of names to a result and to options.
fn note_listed<W>(
    machine: &mut Machine<W>,
    names: usize,
    text: usize,
    options: &Options,
) -> Result<(), End>
    requires text { text < length machine.old.values.store.stack }
    requires place { names < length machine.old.values.store.stack }
    requires list { IsList (placed machine.old.values.store.stack names) }
    ensures answer { let stack = machine.old.values.store.stack in
        Answers (rows.note_both (listed (placed stack names)) (placed stack text) options.now) unseen machine.old result machine.new }
    ensures stack { PushesWords machine.old.values.store.stack result machine.new.values.store.stack }
    ensures calm { IsCalm result }
    ensures units { machine.new.units ≡ machine.old.units }
{
    machine.values.push_copy(At::Stack(text))?;
    note_element(machine, names, 0)?;
    push_dict(machine, options.all())?;
    note_element(machine, names, 1)
}

// The same, where the text of the names may be no list: then there is none.
fn note_names<W>(
    machine: &mut Machine<W>,
    names: usize,
    text: usize,
    options: &Options,
) -> Result<(), End>
    requires text { text < length machine.old.values.store.stack }
    requires place { names < length machine.old.values.store.stack }
    ensures answer { let stack = machine.old.values.store.stack in
        Answers (rows.note_both (given_words (list_of (placed stack names))) (placed stack text) options.now) unseen machine.old result machine.new }
    ensures stack { PushesWords machine.old.values.store.stack result machine.new.values.store.stack }
    ensures calm { IsCalm result }
    ensures units { machine.new.units ≡ machine.old.units }
{
    let listed = is_list(machine, names)?;
    if listed {
        note_listed(machine, names, text, options)
    } else {
        Ok(())
    }
}

// How noting ended, as a value.
fn settled(noted: Result<(), End>) -> Result<Option<Leaving>, End>
    ensures { result ≡ steps.settled_of noted }
{
    match noted {
        Ok(()) => Ok(None),
        Err(End::Left(leaving)) => Ok(Some(leaving)),
        Err(End::Budget) => Err(End::Budget),
        Err(End::Exit(status)) => Err(End::Exit(status)),
        Err(End::Device) => Err(End::Device),
        Err(End::Memory) => Err(End::Memory),
    }
}

// The plan of a handler's script, or what is done where its variables couldn't be set; that outcome's
// result is on top then.
fn plan_started<W>(
    machine: &mut Machine<W>,
    script: usize,
    finally: Option<Text>,
    left: Option<Leaving>,
) -> Result<Plan<Behind>, End>
    requires some { 0 < length machine.old.values.store.stack }
    requires script { script < length machine.old.values.store.stack }
    ensures answer { let stack = machine.old.values.store.stack in
        Answers (rows.started_by (placed stack script) finally (steps.left_of left (last_of stack))) as_plan machine.old result machine.new }
    ensures stack { Leaves (PlanOver (under 1 machine.old.values.store.stack)) (under 1 machine.old.values.store.stack) result machine.new.values.store.stack }
    ensures calm { IsCalm result }
    ensures units { machine.new.units ≡ machine.old.units }
{
    match left {
        None => Ok(Plan::Run(script, Behind::Handler(finally))),
        Some(leaving) => finish_handler(machine, finally, Ended::Left(leaving)),
    }
}

// The plan of a handler's script, once its variables are set. Where one can't be set, that error is the
// outcome, as one of the script.
fn plan_handler<W>(
    machine: &mut Machine<W>,
    handler: HandlerPlaces,
    text: usize,
    finally: Option<Text>,
    options: &Options,
) -> Result<Plan<Behind>, End>
    requires text { text < length machine.old.values.store.stack }
    requires handler { control.IsHandlerInside machine.old.values.store.stack handler }
    ensures answer { let stack = machine.old.values.store.stack in
        Answers (rows.handler_wanted (control.handler_in stack handler) finally (placed stack text) options.now) as_plan machine.old result machine.new }
    ensures stack { Leaves (PlanOver (under 1 machine.old.values.store.stack)) (under 1 machine.old.values.store.stack) result machine.new.values.store.stack }
    ensures calm { IsCalm result }
    ensures units { machine.new.units ≡ machine.old.units }
{
    let left = settled(note_names(machine, handler.names, text, options))?;
    plan_started(machine, handler.body, finally, left)
}

// The text of a place of the stack, if there is a place.
fn text_or_none<W>(machine: &mut Machine<W>, at: Option<usize>) -> Result<Option<Text>, NoMemory>
    requires { IfSome at (λ n. n < length machine.old.values.store.stack) }
    ensures text { IfOk result (λ found. found ≡ option_map (placed machine.old.values.store.stack) at) }
    ensures stack { machine.new.values.store.stack ≡ machine.old.values.store.stack }
    ensures same { SameState machine.old machine.new }
{
    match at {
        Some(at) => Ok(Some(text_of(machine, at)?)),
        None => Ok(None),
    }
}

// What is done by a handler, if there is one, behind an outcome whose result stands at a place.
fn plan_handled<W>(
    machine: &mut Machine<W>,
    found: Option<HandlerPlaces>,
    text: usize,
    finally: Option<Text>,
    code: Code,
    options: Options,
) -> Result<Plan<Behind>, End>
    requires text { text < length machine.old.values.store.stack }
    requires found { IfSome found (control.IsHandlerInside machine.old.values.store.stack) }
    ensures answer { let stack = machine.old.values.store.stack in
        Answers (rows.handled (option_map (control.handler_in stack) found) finally (rows.outcome code (placed stack text) options))
        as_plan machine.old result machine.new }
    ensures stack { Leaves (PlanOver (under 1 machine.old.values.store.stack)) (under 1 machine.old.values.store.stack) result machine.new.values.store.stack }
    ensures calm { IsCalm result }
    ensures units { machine.new.units ≡ machine.old.units }
{
    match found {
        Some(handler) => plan_handler(machine, handler, text, finally, &options),
        None => {
            machine.values.push_copy(At::Stack(text))?;
            let ended = Ended::Left(Leaving::Other(code, Carried::Kept(options)));
            finish_handler(machine, finally, ended)
        }
    }
}

// What a plan of the words says behind an outcome whose result stands at a place.
fn plan_said<W>(
    machine: &mut Machine<W>,
    plan: &TryPlan,
    text: usize,
    ended: Ended,
) -> Result<Plan<Behind>, End>
    requires text { text < length machine.old.values.store.stack }
    requires handlers { All (control.IsHandlerInside machine.old.values.store.stack) plan.now.handlers.items }
    requires finally { IfSome plan.now.finally (λ at. at < length machine.old.values.store.stack) }
    ensures answer { let stack = machine.old.values.store.stack in
        Answers (steps.planned stack plan.now (concluded ended (placed stack text))) as_plan machine.old result machine.new }
    ensures stack { Leaves (PlanOver (under 1 machine.old.values.store.stack)) (under 1 machine.old.values.store.stack) result machine.new.values.store.stack }
    ensures calm { IsCalm result }
    ensures units { machine.new.units ≡ machine.old.units }
{
    let code = code_ended(&ended);
    let options = options_ended(machine.alloc, ended)?;
    let found = chosen(machine, plan, code, &options)?;
    let finally = text_or_none(machine, plan.finally)?;
    plan_handled(machine, found, text, finally, code, options)
}

/// What is done behind the body of a `try` of these words, which ended so and whose result is on top: the
/// script of the first handler that fits runs, and else the one that is to run in the end, if there is
/// one.
pub fn finish_body<W>(
    machine: &mut Machine<W>,
    call: &Text,
    words: &Words,
    ended: Ended,
) -> Result<Plan<Behind>, End>
    requires { 0 < length machine.old.values.store.stack }
    ensures answer { Answers (rows.behind_body call.now words.now (concluded ended (last_of machine.old.values.store.stack)))
        as_plan machine.old result machine.new }
    ensures stack { Leaves (PlanOver (under 1 machine.old.values.store.stack)) (under 1 machine.old.values.store.stack) result machine.new.values.store.stack }
    ensures calm { IsCalm result }
    ensures units { machine.new.units ≡ machine.old.units }
{
    let text = machine.values.height() - 1;
    let plan = asked_again(machine, call, words)?;
    plan_said(machine, &plan, text, ended)
}
