// The command `unset`.
ghost use Rattle.std.specs.Prelude.{◌≡◌, ◌<◌, ◌≤◌, length, drop, codes, IfOk};
ghost use Rattle.std.specs.Str.{chars};
ghost use Rattle.tclv_text.specs.Texts.{IsText};
ghost use Rattle.tclv_value.specs.View.{text_at};
ghost use Rattle.tclv_value.specs.Stacks.{top, under};
ghost use Rattle.tclv_vars.specs.Unset.{is_held, unset, left_unset};
ghost use Rattle.tclv_reply.specs.Names.{naming, shape_of};
ghost use Rattle.tclv_engine.specs.Answers.{Answers, IsCalm, KeepsStack, PushesOne, PushesResult, SameState, as_result};
ghost use Rattle.tclv_engine.specs.ListAssignment.{unseen};
ghost use Rattle.tclv_plain.specs.UnsetRows as spec;

use crate::channels::is_word;
use crate::results::{copy_at, push_result};
use tclv_engine::{End, Machine, Values};
use tclv_model::{ErrorCode, MessageId};
use tclv_reply::NameShape;
use tclv_text::NoMemory;
use tclv_value::At;
use tclv_vars::{Place, VarFault};

// ---- one variable

// Why a variable can't be unset.
fn unsetting_message(fault: VarFault) -> MessageId
    ensures { result ≡ spec.unsetting_message fault }
{
    match fault {
        VarFault::NotArray => MessageId::CannotUnsetNonArray,
        VarFault::NoElement => MessageId::CannotUnsetElement,
        _ => MessageId::CannotUnsetVariable,
    }
}

/// Unsets what a name names, given with its shape. Refuses as `tclv_vars::Vars::unset` does, and after a
/// refusal all is as before.
pub fn unset_named(values: &mut Values, name: &[u8], shape: NameShape) -> Result<(), VarFault>
    requires name { IsText name.now }
    requires shape { shape ≡ shape_of name.now }
    ensures answer { result ≡ is_held (spec.held_named values.old.vars (naming name.now)) }
    ensures vars { values.new.vars ≡ unset values.old.vars Place.Frame (naming name.now).name (naming name.now).index }
    ensures texts { values.new.store.cells ≡ left_unset values.old.store.cells values.old.vars Place.Frame (naming name.now).name (naming name.now).index }
    ensures stack { values.new.store.stack ≡ values.old.store.stack }
{
    values.vars.unset(
        &mut values.store,
        Place::Frame,
        shape.name(name),
        shape.index(name),
    )
}

// Unsets the variable of a name. That it isn't set is an error, where that is asked for.
fn unset_text<W>(machine: &mut Machine<W>, name: &[u8], complains: bool) -> Result<(), End>
    requires { IsText name.now }
    ensures answer { Answers (spec.unset_variable complains (chars name.now)) unseen machine.old result machine.new }
    ensures stack { KeepsStack machine.old.values.store.stack result machine.new.values.store.stack }
    ensures calm { IsCalm result }
    ensures units { machine.new.units ≡ machine.old.units }
{
    let shape = NameShape::of(name);
    if shape.qualified {
        return Err(machine.not_built());
    }
    match unset_named(&mut machine.values, name, shape) {
        Ok(()) => Ok(()),
        Err(fault) => {
            if complains {
                Err(machine.raise(unsetting_message(fault), name, b"", ErrorCode::NoCode))
            } else {
                Ok(())
            }
        }
    }
}

// The same, where the name is this place of the stack.
fn unset_variable<W>(machine: &mut Machine<W>, name: usize, complains: bool) -> Result<(), End>
    requires { name < length machine.old.values.store.stack }
    ensures answer { Answers (spec.unset_variable complains (text_at machine.old.values.store (At.Stack name))) unseen machine.old result machine.new }
    ensures stack { KeepsStack machine.old.values.store.stack result machine.new.values.store.stack }
    ensures calm { IsCalm result }
    ensures units { machine.new.units ≡ machine.old.units }
{
    let text = copy_at(&mut machine.values, At::Stack(name))?;
    unset_text(machine, text.bytes(), complains)
}

// Unsets the variables whose names stand from a place of the stack on.
fn unset_each<W>(machine: &mut Machine<W>, from: usize, complains: bool) -> Result<(), End>
    requires { from ≤ length machine.old.values.store.stack }
    ensures answer { Answers (spec.unset_each complains (drop from machine.old.values.store.stack)) unseen machine.old result machine.new }
    ensures stack { KeepsStack machine.old.values.store.stack result machine.new.values.store.stack }
    ensures calm { IsCalm result }
    ensures units { machine.new.units ≡ machine.old.units }
{
    for name in from..machine.values.height() {
        unset_variable(machine, name, complains)?;
    }
    Ok(())
}

// ---- options

// Whether the texts from a place of the stack on begin with this word.
fn begins_with<W>(machine: &mut Machine<W>, from: usize, option: &[u8]) -> Result<bool, NoMemory>
    ensures answer { IfOk result (λ is. is ≡ spec.begins_with option.now (drop from machine.old.values.store.stack)) }
    ensures same { SameState machine.old machine.new }
    ensures stack { machine.new.values.store.stack ≡ machine.old.values.store.stack }
{
    if from < machine.values.height() {
        machine.values.make_text(At::Stack(from))?;
        return Ok(is_word(machine.values.lend(At::Stack(from)), option));
    }
    Ok(false)
}

// The place where the texts begin that stand behind this word, where it is the first of those from a
// place of the stack on.
fn behind<W>(machine: &mut Machine<W>, from: usize, option: &[u8]) -> Result<usize, NoMemory>
    requires { from ≤ length machine.old.values.store.stack }
    ensures rest { IfOk result (λ at. drop at machine.old.values.store.stack ≡ spec.behind option.now (drop from machine.old.values.store.stack)) }
    ensures within { IfOk result (λ at. at ≤ length machine.old.values.store.stack) }
    ensures same { SameState machine.old machine.new }
    ensures stack { machine.new.values.store.stack ≡ machine.old.values.store.stack }
{
    if from < machine.values.height() {
        if begins_with(machine, from, option)? {
            Ok(from + 1)
        } else {
            Ok(from)
        }
    } else {
        Ok(from)
    }
}

// Unsets the variables whose names stand from a place of the stack on, with the empty text as the
// result.
fn unset_all<W>(machine: &mut Machine<W>, from: usize, complains: bool) -> Result<(), End>
    requires { from ≤ length machine.old.values.store.stack }
    ensures answer { Answers (spec.unset_all complains (drop from machine.old.values.store.stack)) as_result machine.old result machine.new }
    ensures stack { PushesOne machine.old.values.store.stack result machine.new.values.store.stack }
    ensures calm { IsCalm result }
    ensures units { machine.new.units ≡ machine.old.units }
{
    unset_each(machine, from, complains)?;
    push_result(machine, b"")
}

// The same, where options may stand before the names.
fn unset_words<W>(machine: &mut Machine<W>, from: usize) -> Result<(), End>
    requires { from ≤ length machine.old.values.store.stack }
    ensures answer { Answers (spec.unset_words (drop from machine.old.values.store.stack)) as_result machine.old result machine.new }
    ensures stack { PushesOne machine.old.values.store.stack result machine.new.values.store.stack }
    ensures calm { IsCalm result }
    ensures units { machine.new.units ≡ machine.old.units }
{
    let silent = begins_with(machine, from, b"-nocomplain")?;
    let options_end = behind(machine, from, b"-nocomplain")?;
    let names = behind(machine, options_end, b"--")?;
    unset_all(machine, names, !silent)
}

/// The command `unset ?-nocomplain? ?--? ?name ...?`: each of these variables is unset, from the left.
/// With the option it is no error that one isn't set. Its words are the top `n` texts of the stack, the
/// word of the call lowest. (Tcl: unset(n).)
pub fn cmd_unset<W>(machine: &mut Machine<W>, n: usize) -> Result<(), End>
    requires words { n ≤ length machine.old.values.store.stack }
    requires some { 0 < n }
    ensures answer { Answers (spec.row_unset (top n machine.old.values.store.stack)) as_result machine.old result machine.new }
    ensures stack { PushesResult (under n machine.old.values.store.stack) result machine.new.values.store.stack }
    ensures calm { IsCalm result }
    ensures units { machine.new.units ≡ machine.old.units }
{
    let from = machine.values.height() - (n - 1);
    unset_words(machine, from)
}
