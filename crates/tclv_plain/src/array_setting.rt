// Arrays that are set from a list of indices and values.
ghost use Rattle.std.specs.Prelude.{◌≡◌, ℕ, ◌+◌, ◌<◌, ◌||◌, nat_eq, length, take, slice_index_or, [], Ok, Err, Some, IfOk, IfErr, OnErr};
ghost use Rattle.tclv_text.specs.Texts.{IsText};
ghost use Rattle.tclv_value.specs.View.{HasPlace, IsMade, text_at};
ghost use Rattle.tclv_vars.specs.Sound.{Sound};
ghost use Rattle.tclv_vars.specs.Table.{Table, has_value, Refuses};
ghost use Rattle.tclv_vars.specs.Undo.{missing, FreshWrite};
ghost use Rattle.tclv_reply.specs.Names.{element_of};
ghost use Rattle.tclv_engine.specs.Answers.{Answers, IsCalm, KeepsStack, PushesOne, SameState, as_result, last_of};
ghost use Rattle.tclv_engine.specs.Holdings.{Assigned, SameVariables};
ghost use Rattle.tclv_engine.specs.ListAssignment.{unseen, listed, IsList};
ghost use Rattle.tclv_engine.specs.Names.{bytes_of, write_named};
ghost use Rattle.tclv_engine.specs.Variables.{element_name, setting_message, RefusesSetting};
ghost use Rattle.tclv_plain.specs.ArrayRows as spec;

use crate::array_indices::size_at;
use crate::results::push_result;
use tclv_engine::{End, Machine, Values, element_name};
use tclv_model::{ErrorCode, MessageId};
use tclv_reply::{is_qualified, word_at};
use tclv_value::At;
use tclv_vars::{Missing, Place, VarFault, Vars};

// ---- one element

// What isn't there of an element, by its array's name and its index. Takes no memory.
fn missing_element(vars: &Vars, array: &[u8], index: &[u8]) -> Missing
    requires array { IsText array.now }
    requires index { IsText index.now }
    ensures answer { result ≡ missing vars.now Place.Frame array.now (Some index.now) }
    ensures sound { Sound vars.now }
{
    vars.missing(Place::Frame, array, Some(index))
}

// The cell of an element, which counts as set from then on, and whether it wasn't set before. Refuses as
// `tclv_vars::Vars::write` does; after a refusal all is as before.
fn write_element(vars: &mut Vars, array: &[u8], index: &[u8]) -> Result<(u64, bool), VarFault>
    requires array { IsText array.now }
    requires index { IsText index.now }
    ensures written { IfOk result (λ p. write_named vars.old (element_of array.now index.now) ≡ Ok (record { cell = p.0; fresh = p.1; after = vars.new })) }
    ensures refused { IfErr result (Refuses (write_named vars.old (element_of array.now index.now))) }
    ensures same { OnErr result (vars.new ≡ vars.old) }
    ensures value { IfOk result (λ p. (c : ℕ) → has_value vars.new c ≡ (nat_eq c p.0 || has_value vars.old c)) }
{
    vars.write(Place::Frame, array, Some(index))
}

// Takes the last write back, which was that of an element. As `tclv_vars::Vars::take_back`.
fn take_back_element(vars: &mut Vars, array: &[u8], index: &[u8], lacked: Missing)
    requires array { IsText array.now }
    requires index { IsText index.now }
    requires wrote { (t : Table) × FreshWrite t Place.Frame array.now (Some index.now) lacked vars.old }
    ensures before { (t : Table) → FreshWrite t Place.Frame array.now (Some index.now) lacked vars.old → vars.new ≡ t }
{
    vars.take_back(Place::Frame, array, Some(index), lacked);
}

// Sets the element of an array to the top text of the stack, which moves into its cell. The array's name
// and the index are texts of the stack. After a refusal all is as before; it is one of
// `tclv_vars::Vars::write`.
fn set_element(values: &mut Values, array: usize, index: usize) -> Result<u64, VarFault>
    requires array { array < length values.old.store.stack }
    requires array_made { IsMade values.old.store (At.Stack array) }
    requires index { index < length values.old.store.stack }
    requires index_made { IsMade values.old.store (At.Stack index) }
    ensures assigned { IfOk result (Assigned values.old values.new (element_of (bytes_of (slice_index_or values.old.store.stack array []))
        (bytes_of (slice_index_or values.old.store.stack index [])))) }
    ensures refused { IfErr result (Refuses (write_named values.old.vars (element_of (bytes_of (slice_index_or values.old.store.stack array []))
        (bytes_of (slice_index_or values.old.store.stack index []))))) }
    ensures stack { OnErr result (values.new.store.stack ≡ values.old.store.stack) }
    ensures same { OnErr result (SameVariables values.old values.new) }
    ensures array_made { OnErr result (IsMade values.new.store (At.Stack array)) }
    ensures index_made { OnErr result (IsMade values.new.store (At.Stack index)) }
{
    let lacked = missing_element(
        &values.vars,
        word_at(&values.store, array),
        word_at(&values.store, index),
    );
    let (cell, fresh) = write_element(
        &mut values.vars,
        word_at(&values.store, array),
        word_at(&values.store, index),
    )?;
    match values.store.put_cell(cell) {
        Ok(()) => Ok(cell),
        Err(_) => {
            if fresh {
                let array = word_at(&values.store, array);
                let index = word_at(&values.store, index);
                take_back_element(&mut values.vars, array, index, lacked);
            }
            Err(VarFault::NoMemory)
        }
    }
}

// Why an element can't be set.
fn setting_message(fault: VarFault) -> MessageId
    ensures { result ≡ setting_message fault }
{
    match fault {
        VarFault::NotArray => MessageId::CannotSetNonArray,
        _ => MessageId::CannotSetArray,
    }
}

// Raises the error that an element can't be set. The array's name and the index are made.
fn refuse_element<W>(machine: &mut Machine<W>, fault: VarFault, array: usize, index: usize) -> End
    requires array { array < length machine.old.values.store.stack }
    requires array_made { IsMade machine.old.values.store (At.Stack array) }
    requires index { index < length machine.old.values.store.stack }
    requires index_made { IsMade machine.old.values.store (At.Stack index) }
    ensures refuses { RefusesSetting fault (element_name (text_at machine.old.values.store (At.Stack array))
        (text_at machine.old.values.store (At.Stack index))) machine.new.values.store.stack result }
    ensures same { SameState machine.old machine.new }
    ensures stack { KeepsStack {T = Unit {0}} machine.old.values.store.stack (Err result) machine.new.values.store.stack }
{
    if fault == VarFault::NoMemory {
        return End::Memory;
    }
    let named = element_name(
        machine.alloc,
        machine.values.lend(At::Stack(array)),
        machine.values.lend(At::Stack(index)),
    );
    match named {
        Ok(name) => machine.raise(setting_message(fault), name.bytes(), b"", ErrorCode::NoCode),
        Err(_) => End::Memory,
    }
}

// Sets the element of an array to the top text, whose index stands below it. Both are taken off. The
// array's name and the index are made.
fn assign_made_element<W>(machine: &mut Machine<W>, array: usize, index: usize) -> Result<(), End>
    requires array { array < index }
    requires array_made { IsMade machine.old.values.store (At.Stack array) }
    requires index { length machine.old.values.store.stack ≡ index + 2 }
    requires index_made { IsMade machine.old.values.store (At.Stack index) }
    ensures answer { Answers (spec.assign_element (text_at machine.old.values.store (At.Stack array))
        (text_at machine.old.values.store (At.Stack index)) (last_of machine.old.values.store.stack)) unseen machine.old result machine.new }
    ensures stack { KeepsStack (take index machine.old.values.store.stack) result machine.new.values.store.stack }
    ensures calm { IsCalm result }
    ensures units { machine.new.units ≡ machine.old.units }
{
    if is_qualified(machine.values.lend(At::Stack(array))) {
        return Err(machine.not_built());
    }
    match set_element(&mut machine.values, array, index) {
        Ok(_) => {
            machine.values.pop(1);
            Ok(())
        }
        Err(fault) => Err(refuse_element(machine, fault, array, index)),
    }
}

// The same, where the texts may not be made.
fn assign_element<W>(machine: &mut Machine<W>, array: usize, index: usize) -> Result<(), End>
    requires array { array < index }
    requires index { length machine.old.values.store.stack ≡ index + 2 }
    ensures answer { Answers (spec.assign_element (text_at machine.old.values.store (At.Stack array))
        (text_at machine.old.values.store (At.Stack index)) (last_of machine.old.values.store.stack)) unseen machine.old result machine.new }
    ensures stack { KeepsStack (take index machine.old.values.store.stack) result machine.new.values.store.stack }
    ensures calm { IsCalm result }
    ensures units { machine.new.units ≡ machine.old.units }
{
    machine.values.make_text(At::Stack(array))?;
    machine.values.make_text(At::Stack(index))?;
    assign_made_element(machine, array, index)
}

// ---- a list

// Sets an element to the text of a number in the list at this place of the stack; its index is the text before.
fn assign_pair<W>(
    machine: &mut Machine<W>,
    array: usize,
    list: usize,
    i: u64,
    next: u64,
) -> Result<(), End>
    requires array { array < length machine.old.values.store.stack }
    requires place { list < length machine.old.values.store.stack }
    requires list { IsList (text_at machine.old.values.store (At.Stack list)) }
    requires next { next ≡ i + 1 }
    ensures answer { Answers (spec.assign_element (text_at machine.old.values.store (At.Stack array))
        (slice_index_or (listed (text_at machine.old.values.store (At.Stack list))) i [])
        (slice_index_or (listed (text_at machine.old.values.store (At.Stack list))) next [])) unseen machine.old result machine.new }
    ensures stack { KeepsStack machine.old.values.store.stack result machine.new.values.store.stack }
    ensures calm { IsCalm result }
    ensures units { machine.new.units ≡ machine.old.units }
{
    let index = machine.values.height();
    machine.push_element_or_empty(list, i)?;
    machine.push_element_or_empty(list, next)?;
    assign_element(machine, array, index)
}

// Sets the elements that the list at this place of the stack gives, which has so many texts, an even
// number.
fn assign_pairs<W>(machine: &mut Machine<W>, array: usize, list: usize, len: u64) -> Result<(), End>
    requires array { array < length machine.old.values.store.stack }
    requires place { list < length machine.old.values.store.stack }
    requires list { IsList (text_at machine.old.values.store (At.Stack list)) }
    requires len { len ≡ length (listed (text_at machine.old.values.store (At.Stack list))) }
    ensures answer { Answers (spec.assign_pairs (text_at machine.old.values.store (At.Stack array))
        (listed (text_at machine.old.values.store (At.Stack list)))) unseen machine.old result machine.new }
    ensures stack { KeepsStack machine.old.values.store.stack result machine.new.values.store.stack }
    ensures calm { IsCalm result }
    ensures units { machine.new.units ≡ machine.old.units }
{
    for i in 0..len / 2 {
        assign_pair(machine, array, list, 2 * i, 2 * i + 1)?;
    }
    Ok(())
}

// Refuses what can't become an array, by the text of a place, which is made.
fn settable_made<W>(machine: &mut Machine<W>, name: At) -> Result<(), End>
    requires place { HasPlace machine.old.values.store name }
    requires made { IsMade machine.old.values.store name }
    ensures answer { Answers (spec.settable (text_at machine.old.values.store name)) unseen machine.old result machine.new }
    ensures stack { KeepsStack machine.old.values.store.stack result machine.new.values.store.stack }
    ensures calm { IsCalm result }
    ensures units { machine.new.units ≡ machine.old.units }
{
    let shape = machine.values.shape_at(name);
    if shape.qualified {
        return Err(machine.not_built());
    }
    match size_at(&machine.values, name, shape) {
        Err(VarFault::NotArray) => Err(machine.raise_at(
            MessageId::CannotArraySetNonArray,
            name,
            b"",
            ErrorCode::NoCode,
        )),
        _ => Ok(()),
    }
}

// The same, where the name is this place of the stack.
fn settable<W>(machine: &mut Machine<W>, name: usize) -> Result<(), End>
    requires { name < length machine.old.values.store.stack }
    ensures answer { Answers (spec.settable (text_at machine.old.values.store (At.Stack name))) unseen machine.old result machine.new }
    ensures stack { KeepsStack machine.old.values.store.stack result machine.new.values.store.stack }
    ensures calm { IsCalm result }
    ensures units { machine.new.units ≡ machine.old.units }
{
    machine.values.make_text(At::Stack(name))?;
    settable_made(machine, At::Stack(name))
}

// Sets the elements that the list at a place of the stack gives, with the empty text as the result. The
// list has so many texts, an even number.
fn assign_all<W>(machine: &mut Machine<W>, array: usize, list: usize, len: u64) -> Result<(), End>
    requires array { array < length machine.old.values.store.stack }
    requires place { list < length machine.old.values.store.stack }
    requires list { IsList (text_at machine.old.values.store (At.Stack list)) }
    requires len { len ≡ length (listed (text_at machine.old.values.store (At.Stack list))) }
    ensures answer { Answers (spec.assign_all (text_at machine.old.values.store (At.Stack array))
        (listed (text_at machine.old.values.store (At.Stack list)))) as_result machine.old result machine.new }
    ensures stack { PushesOne machine.old.values.store.stack result machine.new.values.store.stack }
    ensures calm { IsCalm result }
    ensures units { machine.new.units ≡ machine.old.units }
{
    settable(machine, array)?;
    assign_pairs(machine, array, list, len)?;
    push_result(machine, b"")
}

// The same, where the number may be odd.
fn set_listed<W>(machine: &mut Machine<W>, array: usize, list: usize, len: u64) -> Result<(), End>
    requires array { array < length machine.old.values.store.stack }
    requires place { list < length machine.old.values.store.stack }
    requires list { IsList (text_at machine.old.values.store (At.Stack list)) }
    requires len { len ≡ length (listed (text_at machine.old.values.store (At.Stack list))) }
    ensures answer { Answers (spec.set_listed (text_at machine.old.values.store (At.Stack array))
        (listed (text_at machine.old.values.store (At.Stack list)))) as_result machine.old result machine.new }
    ensures stack { PushesOne machine.old.values.store.stack result machine.new.values.store.stack }
    ensures calm { IsCalm result }
    ensures units { machine.new.units ≡ machine.old.units }
{
    if len % 2 == 1 {
        return Err(machine.raise(MessageId::OddArrayList, b"", b"", ErrorCode::NoCode));
    }
    assign_all(machine, array, list, len)
}

/// Sets the elements of the array whose name is a place of the stack: the list at another place has
/// their indices and values in turn. The result is the empty text.
pub fn array_set<W>(machine: &mut Machine<W>, array: usize, list: usize) -> Result<(), End>
    requires array { array < length machine.old.values.store.stack }
    requires list { list < length machine.old.values.store.stack }
    ensures answer { Answers (spec.array_set (text_at machine.old.values.store (At.Stack array))
        (text_at machine.old.values.store (At.Stack list))) as_result machine.old result machine.new }
    ensures stack { PushesOne machine.old.values.store.stack result machine.new.values.store.stack }
    ensures calm { IsCalm result }
    ensures units { machine.new.units ≡ machine.old.units }
{
    let len = machine.list_len(At::Stack(list))?;
    set_listed(machine, array, list, len)
}
