// Arrays and their elements that are unset.
ghost use Rattle.std.specs.Prelude.{◌≡◌, ◌<◌, length, None, Some, IfSome};
ghost use Rattle.std.specs.Option.{option_map};
ghost use Rattle.std.specs.Str.{chars};
ghost use Rattle.tclv_io.specs.World.{World};
ghost use Rattle.tclv_text.specs.Texts.{IsText};
ghost use Rattle.tclv_value.specs.View.{text_at};
ghost use Rattle.tclv_vars.specs.Unset.{unset, left_unset};
ghost use Rattle.tclv_reply.specs.Names.{element_of};
ghost use Rattle.tclv_engine.specs.Answers.{Answers, IsCalm, KeepsStack, PushesOne, as_result};
ghost use Rattle.tclv_engine.specs.ListAssignment.{unseen};
ghost use Rattle.tclv_engine.specs.Plans.{placed};
ghost use Rattle.tclv_engine.specs.State.{state_of};
ghost use Rattle.tclv_plain.specs.ArrayRows as spec;

use crate::array_indices::{indices, size_of};
use crate::results::{copy_at, push_result};
use crate::unset_commands::unset_named;
use tclv_engine::{End, Machine, Values};
use tclv_reply::NameShape;
use tclv_text::Text;
use tclv_value::At;
use tclv_vars::Place;

// ---- elements

// Unsets an element of an array. Where it isn't set, nothing changes.
fn drop_element(values: &mut Values, array: &[u8], index: &[u8])
    requires array { IsText array.now }
    requires index { IsText index.now }
    ensures vars { values.new.vars ≡ unset values.old.vars Place.Frame (element_of array.now index.now).name (element_of array.now index.now).index }
    ensures texts { values.new.store.cells ≡ left_unset values.old.store.cells values.old.vars Place.Frame
        (element_of array.now index.now).name (element_of array.now index.now).index }
    ensures stack { values.new.store.stack ≡ values.old.store.stack }
{
    let _found = values
        .vars
        .unset(&mut values.store, Place::Frame, array, Some(index));
}

// Unsets the elements of an array that have these indices.
fn drop_elements<W>(machine: &mut Machine<W>, array: &[u8], indices: &[Text])
    requires { IsText array.now }
    ensures state { (w : World) → state_of machine.new w ≡ spec.without_elements (chars array.now) indices.now (state_of machine.old w) }
    ensures stack { machine.new.values.store.stack ≡ machine.old.values.store.stack }
    ensures writes { machine.new.writes ≡ machine.old.writes }
    ensures units { machine.new.units ≡ machine.old.units }
{
    for index in indices {
        drop_element(&mut machine.values, array, index.bytes());
    }
}

// Unsets the elements whose indices the pattern fits. Both texts are places of the stack.
fn unset_fitting<W>(machine: &mut Machine<W>, name: usize, pattern: usize) -> Result<(), End>
    requires name { name < length machine.old.values.store.stack }
    requires pattern { pattern < length machine.old.values.store.stack }
    ensures answer { Answers (spec.array_unset (text_at machine.old.values.store (At.Stack name))
        (option_map (placed machine.old.values.store.stack) (Some pattern))) as_result machine.old result machine.new }
    ensures stack { PushesOne machine.old.values.store.stack result machine.new.values.store.stack }
    ensures calm { IsCalm result }
    ensures units { machine.new.units ≡ machine.old.units }
{
    let chosen = indices(machine, name, Some(pattern))?;
    let array = copy_at(&mut machine.values, At::Stack(name))?;
    drop_elements(machine, array.bytes(), chosen.all());
    push_result(machine, b"")
}

// ---- the whole

// Unsets the array of a name. What is no array stays as it is.
fn unset_whole<W>(machine: &mut Machine<W>, name: &[u8]) -> Result<(), End>
    requires { IsText name.now }
    ensures answer { Answers (spec.unset_array (chars name.now)) unseen machine.old result machine.new }
    ensures stack { KeepsStack machine.old.values.store.stack result machine.new.values.store.stack }
    ensures calm { IsCalm result }
    ensures units { machine.new.units ≡ machine.old.units }
{
    let shape = NameShape::of(name);
    if shape.qualified {
        return Err(machine.not_built());
    }
    match size_of(&machine.values, name, shape) {
        Ok(_) => {
            let _found = unset_named(&mut machine.values, name, shape);
            Ok(())
        }
        Err(_) => Ok(()),
    }
}

// The same, where the name is this place of the stack, with the empty text as the result.
fn unset_array<W>(machine: &mut Machine<W>, name: usize) -> Result<(), End>
    requires { name < length machine.old.values.store.stack }
    ensures answer { Answers (spec.array_unset (text_at machine.old.values.store (At.Stack name)) None) as_result machine.old result machine.new }
    ensures stack { PushesOne machine.old.values.store.stack result machine.new.values.store.stack }
    ensures calm { IsCalm result }
    ensures units { machine.new.units ≡ machine.old.units }
{
    let text = copy_at(&mut machine.values, At::Stack(name))?;
    unset_whole(machine, text.bytes())?;
    push_result(machine, b"")
}

/// Unsets the array whose name is this place of the stack, or those of its elements whose indices the
/// pattern fits at another place. What is no array stays as it is. The result is the empty text.
pub fn array_unset<W>(
    machine: &mut Machine<W>,
    name: usize,
    pattern: Option<usize>,
) -> Result<(), End>
    requires name { name < length machine.old.values.store.stack }
    requires pattern { IfSome pattern (λ at. at < length machine.old.values.store.stack) }
    ensures answer { Answers (spec.array_unset (text_at machine.old.values.store (At.Stack name))
        (option_map (placed machine.old.values.store.stack) pattern)) as_result machine.old result machine.new }
    ensures stack { PushesOne machine.old.values.store.stack result machine.new.values.store.stack }
    ensures calm { IsCalm result }
    ensures units { machine.new.units ≡ machine.old.units }
{
    match pattern {
        None => unset_array(machine, name),
        Some(at) => unset_fitting(machine, name, at),
    }
}
