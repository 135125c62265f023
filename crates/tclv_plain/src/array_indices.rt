// The indices of arrays, by the names of these.
ghost use Rattle.std.specs.Prelude.{◌≡◌, ◌<◌, length, IfOk, IfErr, IfSome, [], Ok, false};
ghost use Rattle.std.specs.List.{filter};
ghost use Rattle.std.specs.Option.{option_map};
ghost use Rattle.std.specs.Str.{chars};
ghost use Rattle.tclv_text.specs.Globs.{matches};
ghost use Rattle.tclv_text.specs.Texts.{IsText};
ghost use Rattle.tclv_value.specs.View.{HasPlace, IsMade, text_at};
ghost use Rattle.tclv_vars.specs.Indices.{count_of};
ghost use Rattle.tclv_vars.specs.Table.{Refuses};
ghost use Rattle.tclv_reply.specs.Names.{naming, shape_of};
ghost use Rattle.tclv_engine.specs.Answers.{Answers, IsCalm, KeepsStack, SameState, returned};
ghost use Rattle.tclv_engine.specs.Names.{bytes_of};
ghost use Rattle.tclv_engine.specs.Plans.{placed};
ghost use Rattle.tclv_plain.specs.ArrayRows as spec;

use std::alloc::Global;
use std::marker::Model;
use tclv_engine::{End, Machine, Values};
use tclv_reply::NameShape;
use tclv_text::{NoMemory, Text, glob_match};
use tclv_value::At;
use tclv_vars::{Indices, Place, VarFault, Vars};

/// Indices of an array, in order.
#[derive(Drop)]
pub struct Chosen {
    texts: Vec<Text>,
}

impl Model for Chosen {
    ghost use Rattle.std.specs.Prelude.{ℕ, List};

    ghost Value = { List (List ℕ) };

    ghost view = { λ c. c.texts.items };
}

impl Chosen {
    /// Lends them.
    pub fn all(&self) -> &[Text]
        ensures { result.now ≡ self.now }
    {
        self.texts.as_slice()
    }
}

// How many indices the array has that a name names, given with its shape. Refuses as
// `tclv_vars::Vars::array_size` does; what has the form of an element is no array. Takes no memory.
fn size_named(vars: &Vars, name: &[u8], shape: NameShape) -> Result<usize, VarFault>
    requires name { IsText name.now }
    requires shape { shape ≡ shape_of name.now }
    ensures { result ≡ count_of (spec.indices_of vars.now (naming name.now)) }
{
    if shape.place.is_some() {
        return Err(VarFault::NotArray);
    }
    vars.array_size(Place::Frame, name)
}

/// How many indices the array has that a name names, given with its shape. Refuses as
/// `tclv_vars::Vars::array_size` does; what has the form of an element is no array. Takes no memory.
pub fn size_of(values: &Values, name: &[u8], shape: NameShape) -> Result<usize, VarFault>
    requires name { IsText name.now }
    requires shape { shape ≡ shape_of name.now }
    ensures { result ≡ count_of (spec.indices_of values.now.vars (naming name.now)) }
{
    size_named(&values.vars, name, shape)
}

/// The same, where the name is the text of a place.
pub fn size_at(values: &Values, name: At, shape: NameShape) -> Result<usize, VarFault>
    requires place { HasPlace values.now.store name }
    requires made { IsMade values.now.store name }
    requires shape { shape ≡ shape_of (bytes_of (text_at values.now.store name)) }
    ensures { result ≡ count_of (spec.indices_of values.now.vars (naming (bytes_of (text_at values.now.store name)))) }
{
    size_of(values, values.lend(name), shape)
}

// The indices of the array that a name names, given with its shape. Refuses as
// `tclv_vars::Vars::array_names` does; what has the form of an element is no array.
fn indices_named(
    alloc: Global,
    vars: &Vars,
    name: &[u8],
    shape: NameShape,
) -> Result<Indices, VarFault>
    requires name { IsText name.now }
    requires shape { shape ≡ shape_of name.now }
    ensures indices { IfOk result (λ found. spec.indices_of vars.now (naming name.now) ≡ Ok found) }
    ensures refused { IfErr result (Refuses (spec.indices_of vars.now (naming name.now))) }
{
    if shape.place.is_some() {
        return Err(VarFault::NotArray);
    }
    vars.array_names(alloc, Place::Frame, name)
}

// The same, where the name is the text of a place.
fn indices_at(
    alloc: Global,
    values: &Values,
    name: At,
    shape: NameShape,
) -> Result<Indices, VarFault>
    requires place { HasPlace values.now.store name }
    requires made { IsMade values.now.store name }
    requires shape { shape ≡ shape_of (bytes_of (text_at values.now.store name)) }
    ensures indices { IfOk result (λ found. spec.indices_of values.now.vars (naming (bytes_of (text_at values.now.store name))) ≡ Ok found) }
    ensures refused { IfErr result (Refuses (spec.indices_of values.now.vars (naming (bytes_of (text_at values.now.store name))))) }
{
    indices_named(alloc, &values.vars, values.lend(name), shape)
}

// The indices that a pattern fits.
fn fitting(alloc: Global, indices: Indices, pattern: &[u8]) -> Result<Chosen, NoMemory>
    requires { IsText pattern.now }
    ensures { IfOk result (λ chosen. chosen ≡ filter (matches false (chars pattern.now)) indices) }
{
    let mut texts = Vec::new(alloc);
    for text in indices.into_texts() {
        if glob_match(pattern, text.bytes(), false) {
            texts.push(text)?;
        }
    }
    Ok(Chosen { texts })
}

// The indices that the pattern fits at this place of the stack, and all where there is none.
fn choose<W>(
    machine: &mut Machine<W>,
    indices: Indices,
    pattern: Option<usize>,
) -> Result<Chosen, NoMemory>
    requires { IfSome pattern (λ at. at < length machine.old.values.store.stack) }
    ensures chosen { IfOk result (λ chosen. chosen ≡ spec.fitting (option_map (placed machine.old.values.store.stack) pattern) indices) }
    ensures same { SameState machine.old machine.new }
    ensures stack { machine.new.values.store.stack ≡ machine.old.values.store.stack }
{
    match pattern {
        None => Ok(Chosen {
            texts: indices.into_texts(),
        }),
        Some(at) => {
            machine.values.make_text(At::Stack(at))?;
            fitting(machine.alloc, indices, machine.values.lend(At::Stack(at)))
        }
    }
}

// No indices.
fn no_indices(alloc: Global) -> Chosen
    ensures { result ≡ [] }
{
    Chosen {
        texts: Vec::new(alloc),
    }
}

// The indices of the array whose name is the text of a place, which is made.
fn indices_made<W>(
    machine: &mut Machine<W>,
    name: At,
    pattern: Option<usize>,
) -> Result<Chosen, End>
    requires place { HasPlace machine.old.values.store name }
    requires made { IsMade machine.old.values.store name }
    requires pattern { IfSome pattern (λ at. at < length machine.old.values.store.stack) }
    ensures answer { Answers (spec.indices (text_at machine.old.values.store name)
        (option_map (placed machine.old.values.store.stack) pattern)) returned machine.old result machine.new }
    ensures stack { KeepsStack machine.old.values.store.stack result machine.new.values.store.stack }
    ensures calm { IsCalm result }
    ensures units { machine.new.units ≡ machine.old.units }
{
    let shape = machine.values.shape_at(name);
    if shape.qualified {
        return Err(machine.not_built());
    }
    match indices_at(machine.alloc, &machine.values, name, shape) {
        Ok(indices) => Ok(choose(machine, indices, pattern)?),
        Err(fault) => {
            if fault == VarFault::NoMemory {
                Err(End::Memory)
            } else {
                Ok(no_indices(machine.alloc))
            }
        }
    }
}

/// The indices of the array whose name is this place of the stack, sorted: those that the pattern fits
/// at another place, and all where there is none. What is no array has none.
pub fn indices<W>(
    machine: &mut Machine<W>,
    name: usize,
    pattern: Option<usize>,
) -> Result<Chosen, End>
    requires name { name < length machine.old.values.store.stack }
    requires pattern { IfSome pattern (λ at. at < length machine.old.values.store.stack) }
    ensures answer { Answers (spec.indices (text_at machine.old.values.store (At.Stack name))
        (option_map (placed machine.old.values.store.stack) pattern)) returned machine.old result machine.new }
    ensures stack { KeepsStack machine.old.values.store.stack result machine.new.values.store.stack }
    ensures calm { IsCalm result }
    ensures units { machine.new.units ≡ machine.old.units }
{
    machine.values.make_text(At::Stack(name))?;
    indices_made(machine, At::Stack(name), pattern)
}
