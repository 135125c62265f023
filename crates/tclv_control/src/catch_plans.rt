// The command `catch`.
ghost use Rattle.std.specs.Prelude.{◌≡◌, ◌++◌, ◌∷◌, ◌<◌, ◌≤◌, Some, None, [], OnOk, length, slice_index_or};
ghost use Rattle.tclv_text.specs.Quotes.{list_text};
ghost use Rattle.tclv_value.specs.Stacks.{top, under};
ghost use Rattle.tclv_engine.specs.Plans.{PlanOver, as_plan, concluded, placed, Run};
ghost use Rattle.tclv_engine.specs.Results.{done};
ghost use Rattle.tclv_engine.specs.Variables.{assign};
ghost use Rattle.tclv_engine.specs.ListAssignment.{unseen};
ghost use Rattle.tclv_engine.specs.Answers.{Answers, IsCalm, Leaves, PushesWords, SameState, last_of};
ghost use Rattle.tclv_control.specs.CatchRows as rows;
ghost use Rattle.tclv_control.specs.CatchSteps as steps;
ghost use Rattle.tclv_control.specs.Outcomes.{option_words};
ghost use Rattle.tclv_control.specs.OutcomeSteps.{options_ended};

use crate::behind::Behind;
use crate::error_plans::text_of;
use crate::misuse::misused;
use crate::outcomes::{code_ended, options_ended};
use tclv_engine::{Carried, End, Ended, Machine, Plan};
use tclv_model::{Code, Pair, Usage};
use tclv_text::{NoMemory, Text};
use tclv_value::At;

// ---- noting an outcome in variables

// Pushes a name, and then the text that was on top.
fn push_named<W>(machine: &mut Machine<W>, name: &Text) -> Result<(), NoMemory>
    requires { 0 < length machine.old.values.store.stack }
    ensures pushed { let stack = machine.old.values.store.stack in
        OnOk result (machine.new.values.store.stack ≡ stack ++ name.now ∷ last_of stack ∷ []) }
    ensures same { SameState machine.old machine.new }
{
    let last = machine.values.height() - 1;
    machine.values.push_text(name.bytes())?;
    machine.values.push_copy(At::Stack(last))
}

/// Sets the variable of a name to the text on top.
pub fn note_top<W>(machine: &mut Machine<W>, name: &Text) -> Result<(), End>
    requires { 0 < length machine.old.values.store.stack }
    ensures answer { Answers (assign name.now (last_of machine.old.values.store.stack)) unseen machine.old result machine.new }
    ensures stack { PushesWords machine.old.values.store.stack result machine.new.values.store.stack }
    ensures calm { IsCalm result }
    ensures units { machine.new.units ≡ machine.old.units }
{
    let at = machine.values.height();
    push_named(machine, name)?;
    machine.assign_top(At::Stack(at))
}

/// Notes the text on top in the variable of a name, if there is one.
pub fn note<W>(machine: &mut Machine<W>, name: Option<Text>) -> Result<(), End>
    requires { 0 < length machine.old.values.store.stack }
    ensures answer { Answers (rows.note name (last_of machine.old.values.store.stack)) unseen machine.old result machine.new }
    ensures stack { PushesWords machine.old.values.store.stack result machine.new.values.store.stack }
    ensures calm { IsCalm result }
    ensures units { machine.new.units ≡ machine.old.units }
{
    match name {
        Some(name) => note_top(machine, &name),
        None => Ok(()),
    }
}

// Pushes the name of an option, and its value.
fn push_pair<W>(machine: &mut Machine<W>, pair: &Pair) -> Result<(), NoMemory>
    ensures pushed { OnOk result (machine.new.values.store.stack ≡ machine.old.values.store.stack ++ pair.now.key ∷ pair.now.value ∷ []) }
    ensures same { SameState machine.old machine.new }
{
    machine.values.push_text(pair.key.bytes())?;
    machine.values.push_text(pair.value.bytes())
}

/// The pair of a number.
pub fn pair_at(pairs: &[Pair], k: usize) -> &Pair
    requires { k < length pairs.now }
    ensures { slice_index_or pairs.now k result.now ≡ result.now }
{
    &pairs[k]
}

// Pushes the names of options, each before its value.
fn push_pairs<W>(machine: &mut Machine<W>, pairs: &[Pair]) -> Result<(), NoMemory>
    ensures pushed { OnOk result (machine.new.values.store.stack ≡ machine.old.values.store.stack ++ option_words pairs.now) }
    ensures same { SameState machine.old machine.new }
{
    for k in 0..pairs.len() {
        push_pair(machine, pair_at(pairs, k))?;
    }
    Ok(())
}

/// Pushes options as a dict.
pub fn push_dict<W>(machine: &mut Machine<W>, pairs: &[Pair]) -> Result<(), NoMemory>
    ensures pushed { OnOk result (machine.new.values.store.stack ≡ machine.old.values.store.stack ++ list_text (option_words pairs.now) ∷ []) }
    ensures same { SameState machine.old machine.new }
{
    let height = machine.values.height();
    push_pairs(machine, pairs)?;
    let n = machine.values.height() - height;
    machine.values.push_list(n)
}

// Pushes the options that a script ended with, as a dict.
fn push_options<W>(machine: &mut Machine<W>, ended: Ended) -> Result<(), NoMemory>
    ensures pushed { OnOk result (machine.new.values.store.stack ≡ machine.old.values.store.stack ++ list_text (option_words (options_ended ended)) ∷ []) }
    ensures same { SameState machine.old machine.new }
{
    let options = options_ended(machine.alloc, ended)?;
    push_dict(machine, options.all())
}

// Sets the variable of a name to the options that a script ended with.
fn note_dict<W>(machine: &mut Machine<W>, name: &Text, ended: Ended) -> Result<(), End>
    ensures answer { Answers (assign name.now (list_text (option_words (options_ended ended)))) unseen machine.old result machine.new }
    ensures stack { PushesWords machine.old.values.store.stack result machine.new.values.store.stack }
    ensures calm { IsCalm result }
    ensures units { machine.new.units ≡ machine.old.units }
{
    push_options(machine, ended)?;
    note_top(machine, name)
}

// Notes the options that a script ended with in the variable of a name, if there is one.
fn note_options<W>(machine: &mut Machine<W>, name: Option<Text>, ended: Ended) -> Result<(), End>
    ensures answer { Answers (rows.note name (list_text (option_words (options_ended ended)))) unseen machine.old result machine.new }
    ensures stack { PushesWords machine.old.values.store.stack result machine.new.values.store.stack }
    ensures calm { IsCalm result }
    ensures units { machine.new.units ≡ machine.old.units }
{
    match name {
        Some(name) => note_dict(machine, &name, ended),
        None => Ok(()),
    }
}

// ---- behind the script

// The number of a code as the result.
fn finish_code<W>(machine: &mut Machine<W>, code: Code) -> Result<Plan<Behind>, End>
    ensures answer { Answers (steps.numbered code) as_plan machine.old result machine.new }
    ensures stack { Leaves (PlanOver machine.old.values.store.stack) machine.old.values.store.stack result machine.new.values.store.stack }
    ensures calm { IsCalm result }
    ensures same { SameState machine.old machine.new }
{
    machine.values.push_whole(i64::from(code.number()))?;
    Ok(Plan::Finished(Carried::Plain))
}

// Notes the options of how a script ended, whose code has a number that is the result then.
fn finish_options<W>(
    machine: &mut Machine<W>,
    options: Option<Text>,
    ended: Ended,
) -> Result<Plan<Behind>, End>
    ensures answer { Answers (steps.options_caught options ended) as_plan machine.old result machine.new }
    ensures stack { Leaves (PlanOver machine.old.values.store.stack) machine.old.values.store.stack result machine.new.values.store.stack }
    ensures calm { IsCalm result }
    ensures units { machine.new.units ≡ machine.old.units }
{
    let code = code_ended(&ended);
    note_options(machine, options, ended)?;
    finish_code(machine, code)
}

/// What is done behind the script of a `catch`, which ended so and whose result is on top: the variables
/// of the names get the result and the options, and the number of the code is the result.
pub fn finish_catch<W>(
    machine: &mut Machine<W>,
    name: Option<Text>,
    options: Option<Text>,
    ended: Ended,
) -> Result<Plan<Behind>, End>
    requires { 0 < length machine.old.values.store.stack }
    ensures answer { Answers (rows.caught name options (concluded ended (last_of machine.old.values.store.stack))) as_plan machine.old result machine.new }
    ensures stack { Leaves (PlanOver (under 1 machine.old.values.store.stack)) (under 1 machine.old.values.store.stack) result machine.new.values.store.stack }
    ensures calm { IsCalm result }
    ensures units { machine.new.units ≡ machine.old.units }
{
    note(machine, name)?;
    finish_options(machine, options, ended)
}

// ---- the command

// The plan of a script whose result is to be noted.
fn plan_named<W>(machine: &mut Machine<W>, script: usize, name: usize) -> Result<Plan<Behind>, End>
    requires script { script < length machine.old.values.store.stack }
    requires name { name < length machine.old.values.store.stack }
    ensures answer { let stack = machine.old.values.store.stack in
        Answers (done (Run (placed stack script) (Behind.Catch (Some (placed stack name)) None))) as_plan machine.old result machine.new }
    ensures stack { Leaves (PlanOver machine.old.values.store.stack) machine.old.values.store.stack result machine.new.values.store.stack }
    ensures calm { IsCalm result }
    ensures same { SameState machine.old machine.new }
{
    let name = text_of(machine, name)?;
    Ok(Plan::Run(script, Behind::Catch(Some(name), None)))
}

// The plan of a script whose result and whose options are to be noted.
fn plan_both<W>(
    machine: &mut Machine<W>,
    script: usize,
    name: usize,
    options: usize,
) -> Result<Plan<Behind>, End>
    requires script { script < length machine.old.values.store.stack }
    requires name { name < length machine.old.values.store.stack }
    requires options { options < length machine.old.values.store.stack }
    ensures answer { let stack = machine.old.values.store.stack in
        Answers (done (Run (placed stack script) (Behind.Catch (Some (placed stack name)) (Some (placed stack options)))))
        as_plan machine.old result machine.new }
    ensures stack { Leaves (PlanOver machine.old.values.store.stack) machine.old.values.store.stack result machine.new.values.store.stack }
    ensures calm { IsCalm result }
    ensures same { SameState machine.old machine.new }
{
    let name = text_of(machine, name)?;
    let options = text_of(machine, options)?;
    Ok(Plan::Run(script, Behind::Catch(Some(name), Some(options))))
}

/// The command `catch script ?resultVarName? ?optionsVarName?`: the script is to run, and behind it the
/// variables get its result and its options, whatever its code. The number of the code is the result.
/// Its words are the top `n` texts of the stack, the word of the call lowest. (Tcl: catch(n).)
pub fn plan_catch<W>(machine: &mut Machine<W>, n: usize) -> Result<Plan<Behind>, End>
    requires words { n ≤ length machine.old.values.store.stack }
    requires some { 0 < n }
    ensures answer { Answers (rows.wanted_catch (top n machine.old.values.store.stack)) as_plan machine.old result machine.new }
    ensures stack { Leaves (PlanOver (under n machine.old.values.store.stack)) (under n machine.old.values.store.stack) result machine.new.values.store.stack }
    ensures calm { IsCalm result }
    ensures units { machine.new.units ≡ machine.old.units }
{
    let word = machine.values.height() - n;
    match n {
        2 => Ok(Plan::Run(word + 1, Behind::Catch(None, None))),
        3 => plan_named(machine, word + 1, word + 2),
        4 => plan_both(machine, word + 1, word + 2, word + 3),
        _ => misused(machine, n, Usage::Catch),
    }
}
