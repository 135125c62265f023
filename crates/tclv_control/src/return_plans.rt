// The command `return`.
ghost use Rattle.std.specs.Prelude.{◌≡◌, ◌+◌, ◌%◌, ◌==◌, ◌<◌, ◌≤◌, ◌++◌, ◌∷◌, [], IfOk, OnOk, true, pos, length};
ghost use Rattle.tclv_text.specs.Numbers.{whole_text};
ghost use Rattle.tclv_value.specs.Stacks.{top, under};
ghost use Rattle.tclv_ctl.specs.Returns as control;
ghost use Rattle.tclv_ctl.specs.Steps.{Understands};
ghost use Rattle.tclv_engine.specs.DataAnswers.{of_answer};
ghost use Rattle.tclv_engine.specs.Plans.{PlanOver, as_plan};
ghost use Rattle.tclv_engine.specs.Answers.{Above, Answers, IsCalm, Leaves, PushesWords, SameState, last_of};
ghost use Rattle.tclv_control.specs.ReturnRows as rows;
ghost use Rattle.tclv_control.specs.ReturnSteps as steps;

use crate::behind::{Behind, hand_on};
use crate::outcomes::{number_text, option_of};
use std::alloc::Global;
use tclv_ctl::{Ret, return_words};
use tclv_engine::{Carried, End, Ended, Leaving, Machine, Plan};
use tclv_model::{CmdFault, Code, Options, Pair};
use tclv_reply::push_count;
use tclv_text::{NoMemory, Text};

// Reads the words of `return` that are the top n texts, above the word of the call. A refusal leaves
// its message and its code in their place.
fn read_words<W>(machine: &mut Machine<W>, n: usize) -> Result<Ret, CmdFault>
    requires { n + 1 ≤ length machine.old.values.store.stack }
    ensures read { let stack = machine.old.values.store.stack in
        Understands (control.return_of (top n stack)) control.IsReturn n machine.old.values.store machine.new.values.store result }
    ensures same { SameState machine.old machine.new }
{
    return_words(&mut machine.values.store, n)
}

// What the words ask for that are the top n texts, above the word of the call.
fn asked<W>(machine: &mut Machine<W>, n: usize) -> Result<Ret, End>
    requires { n + 1 ≤ length machine.old.values.store.stack }
    ensures answer { Answers (of_answer (control.return_of (top n machine.old.values.store.stack))) steps.as_return machine.old result machine.new }
    ensures stack { PushesWords (under n machine.old.values.store.stack) result machine.new.values.store.stack }
    ensures kept { OnOk result (machine.new.values.store.stack ≡ machine.old.values.store.stack) }
    ensures calm { IsCalm result }
    ensures same { SameState machine.old machine.new }
{
    match read_words(machine, n) {
        Ok(ret) => Ok(ret),
        Err(CmdFault::NoMemory) => Err(End::Memory),
        Err(CmdFault::WrongArgs) => Err(machine.refuse()),
        Err(CmdFault::Message) => Err(machine.refuse()),
    }
}

// ---- the options

// The decimal text of a level.
pub(crate) fn level_text<W>(machine: &mut Machine<W>, level: u64) -> Result<Text, NoMemory>
    ensures text { IfOk result (λ text. text ≡ whole_text (pos level)) }
    ensures stack { OnOk result (machine.new.values.store.stack ≡ machine.old.values.store.stack) }
    ensures same { SameState machine.old machine.new }
{
    let mut text = Text::new(Vec::new(machine.alloc));
    push_level(machine, level)?;
    machine.take_onto(&mut text)?;
    Ok(text)
}

// Pushes the decimal text of a level.
fn push_level<W>(machine: &mut Machine<W>, level: u64) -> Result<(), NoMemory>
    ensures pushed { OnOk result (machine.new.values.store.stack ≡ machine.old.values.store.stack ++ whole_text (pos level) ∷ []) }
    ensures same { SameState machine.old machine.new }
{
    push_count(&mut machine.values.store, level)
}

// Puts a copy of an option behind others.
fn add_copy(alloc: Global, options: &mut Options, pair: &Pair) -> Result<(), NoMemory>
    ensures { OnOk result (options.new ≡ options.old ++ pair.now ∷ []) }
{
    let key = pair.key.copy(alloc)?;
    let value = pair.value.copy(alloc)?;
    options.push(Pair { key, value })
}

// Puts copies of options behind others.
fn add_copies(alloc: Global, options: &mut Options, pairs: &[Pair]) -> Result<(), NoMemory>
    ensures { OnOk result (options.new ≡ options.old ++ pairs.now) }
{
    for k in 0..pairs.len() {
        add_copy(alloc, options, &pairs[k])?;
    }
    Ok(())
}

// The options of a code and of a level.
fn first_options(alloc: Global, code: Code, level: &Text) -> Result<Options, NoMemory>
    ensures { IfOk result (λ options. options ≡ rows.first_options code level.now) }
{
    let number = number_text(alloc, code)?;
    let mut options = Options::new(alloc);
    options.push(option_of(alloc, "-code", number.bytes())?)?;
    options.push(option_of(alloc, "-level", level.bytes())?)?;
    Ok(options)
}

// All options of what is asked for.
fn all_options<W>(machine: &mut Machine<W>, ret: &Ret) -> Result<Options, NoMemory>
    ensures options { IfOk result (λ options. options ≡ steps.asked_options ret.now) }
    ensures stack { OnOk result (machine.new.values.store.stack ≡ machine.old.values.store.stack) }
    ensures same { SameState machine.old machine.new }
{
    let level = level_text(machine, ret.level)?;
    let mut options = first_options(machine.alloc, ret.code, &level)?;
    add_copies(machine.alloc, &mut options, ret.options.all())?;
    Ok(options)
}

// ---- the outcome

// Whether so many words behind the word of the call have a result as their last one.
fn has_result(n: usize) -> bool
    ensures says { result ≡ (n % 2 == 1) }
    ensures some { result ≡ true → 0 < n }
{
    n % 2 == 1
}

// Puts the result of the words on top, which are the top n texts, above the word of the call.
fn push_result<W>(machine: &mut Machine<W>, n: usize) -> Result<(), NoMemory>
    requires { n + 1 ≤ length machine.old.values.store.stack }
    ensures shown { let stack = machine.old.values.store.stack in
        OnOk result (last_of machine.new.values.store.stack ≡ rows.result_of (top n stack)) }
    ensures stack { OnOk result (Above (under n machine.old.values.store.stack) machine.new.values.store.stack) }
    ensures same { SameState machine.old machine.new }
{
    if has_result(n) {
        Ok(())
    } else {
        machine.values.push_text(b"")
    }
}

// The code that comes at once.
fn coming(level: u64, code: Code) -> Code
    ensures { result ≡ rows.coming level code }
{
    if level == 0 { code } else { Code::Return }
}

// Ends with what is asked for. Its result is the top text of the stack.
fn conclude<W>(machine: &mut Machine<W>, ret: &Ret) -> Result<Plan<Behind>, End>
    requires { 0 < length machine.old.values.store.stack }
    ensures answer { Answers (steps.outcome_asked ret.now (last_of machine.old.values.store.stack)) as_plan machine.old result machine.new }
    ensures stack { Leaves (PlanOver (under 1 machine.old.values.store.stack)) (under 1 machine.old.values.store.stack) result machine.new.values.store.stack }
    ensures calm { IsCalm result }
    ensures same { SameState machine.old machine.new }
{
    let options = all_options(machine, ret)?;
    hand_on(Ended::Left(Leaving::Other(coming(ret.level, ret.code), Carried::Kept(options))))
}

// Ends with what the words ask for that are the top n texts, above the word of the call.
fn plan_asked<W>(machine: &mut Machine<W>, n: usize, ret: &Ret) -> Result<Plan<Behind>, End>
    requires { n + 1 ≤ length machine.old.values.store.stack }
    ensures answer { Answers (steps.outcome_asked ret.now (rows.result_of (top n machine.old.values.store.stack))) as_plan machine.old result machine.new }
    ensures stack { Leaves (PlanOver (under n machine.old.values.store.stack)) (under n machine.old.values.store.stack) result machine.new.values.store.stack }
    ensures calm { IsCalm result }
    ensures same { SameState machine.old machine.new }
{
    push_result(machine, n)?;
    conclude(machine, ret)
}

/// The command `return ?option value ...? ?result?`: ends with the result, which is empty where the
/// words are even in number, and with the code, the level and the options that they ask for. At level 0
/// the code comes at once; else the code is that of a return, which ends procedures. Its words are the
/// top `n` texts of the stack, the word of the call lowest. (Tcl: return(n).)
pub fn plan_return<W>(machine: &mut Machine<W>, n: usize) -> Result<Plan<Behind>, End>
    requires words { n ≤ length machine.old.values.store.stack }
    requires some { 0 < n }
    ensures answer { Answers (rows.wanted_return (top n machine.old.values.store.stack)) as_plan machine.old result machine.new }
    ensures stack { Leaves (PlanOver (under n machine.old.values.store.stack)) (under n machine.old.values.store.stack) result machine.new.values.store.stack }
    ensures calm { IsCalm result }
    ensures units { machine.new.units ≡ machine.old.units }
{
    let ret = asked(machine, n - 1)?;
    plan_asked(machine, n - 1, &ret)
}
