// Data commands that are handed a variable.
ghost use Rattle.std.specs.Prelude.{◌≡◌, ◌+◌, ◌-◌, ◌<◌, ◌≤◌, [], length, slice_index_or, IfOk};
ghost use Rattle.std.specs.Str.{chars, bytes_eq};
ghost use Rattle.tclv_text.specs.Texts.{IsText};
ghost use Rattle.tclv_value.specs.View.{HasPlace, IsMade, text_at};
ghost use Rattle.tclv_value.specs.Stacks.{top, under};
ghost use Rattle.tclv_model.specs.Rows.{Unset, WholeArray};
ghost use Rattle.tclv_reply.specs.Names.{naming, shape_of};
ghost use Rattle.tclv_reply.specs.Replies as replies;
ghost use Rattle.tclv_plain.specs.CellRows as spec;
ghost use Rattle.tclv_plain.specs.CellSteps as steps;
ghost use Rattle.tclv_engine.specs.Holdings.{SameVariables};
ghost use Rattle.tclv_engine.specs.Names.{bytes_of};
ghost use Rattle.tclv_engine.specs.Operations.{second_of};
ghost use Rattle.tclv_engine.specs.Answers.{Answers, IsCalm, PushesResult, SameState, as_result};

use crate::channels::is_word;
use tclv_engine::{
    End, Machine, Values, message_text, missing_named, take_back_named, write_named,
};
use tclv_lists::{cmd_lappend, cmd_lpop, cmd_lset};
use tclv_model::{CmdFault, MessageId, VarState};
use tclv_reply::NameShape;
use tclv_text::{NoMemory, Text};
use tclv_value::{At, Store};
use tclv_vars::VarFault;

/// A data command that is handed a variable.
#[derive(Clone, Copy, Debug, PartialEq, Eq)]
pub enum CellCommand {
    Lappend,
    Lpop,
    Lset,
}

// What a command is told of a variable that a write refuses; nothing where memory ran out.
fn unsettable(fault: VarFault) -> Option<VarState>
    ensures { result ≡ steps.unsettable fault }
{
    match fault {
        VarFault::NoMemory => None,
        VarFault::NotArray => Some(VarState::NotArray),
        _ => Some(VarState::IsArray),
    }
}

// The call of a data command on a variable: its words are the top `n` texts of the stack, above
// the word of the call. On `Ok` the result stands in their place; on a refusal the message and the
// error code do.
fn run_cell(
    store: &mut Store,
    command: CellCommand,
    variable: VarState,
    n: usize,
) -> Result<(), CmdFault>
    requires words { n + 1 ≤ length store.old.stack }
    requires named { replies.HasName variable n }
    ensures { replies.VarAnswers (spec.row_of command (replies.call_word n store.old.stack) (top n store.old.stack)
        (replies.variable_of variable store.old)) variable n store.old store.new result }
{
    match command {
        CellCommand::Lappend => cmd_lappend(store, variable, n),
        CellCommand::Lpop => cmd_lpop(store, variable, n),
        CellCommand::Lset => cmd_lset(store, variable, n),
    }
}

/// A copy of the text of a place, which is made.
pub fn copied(values: &Values, at: At) -> Result<Text, NoMemory>
    requires place { HasPlace values.now.store at }
    requires made { IsMade values.now.store at }
    ensures { IfOk result (λ text. text ≡ text_at values.now.store at) }
{
    let bytes = Vec::from_slice(values.store.allocator(), values.lend(at))?;
    Ok(Text::new(bytes))
}

// The call of a data command on a variable without words.
fn change_none(values: &mut Values, command: CellCommand) -> Result<(), CmdFault>
    requires { 1 ≤ length values.old.store.stack }
    ensures answer { replies.VarAnswers (spec.row_of command (replies.call_word 0 values.old.store.stack)
        (top 0 values.old.store.stack) Unset) VarState.NoName 0 values.old.store values.new.store result }
    ensures same { SameVariables values.old values.new }
{
    run_cell(&mut values.store, command, VarState::NoName, 0)
}

// The call of a data command on a whole array.
fn change_array(values: &mut Values, command: CellCommand, n: usize) -> Result<(), CmdFault>
    requires words { n + 1 ≤ length values.old.store.stack }
    requires some { 0 < n }
    ensures answer { replies.VarAnswers (spec.row_of command (replies.call_word n values.old.store.stack)
        (top n values.old.store.stack) WholeArray) VarState.IsArray n values.old.store values.new.store result }
    ensures same { SameVariables values.old values.new }
{
    run_cell(&mut values.store, command, VarState::IsArray, n)
}

// The call of a data command on the variable that the first of its words names, which is made:
// its words are the top `n` texts of the stack, above the word of the call. On `Ok` the result
// stands in their place; on a refusal the message and the error code do, and the variables are
// as before.
fn change(
    values: &mut Values,
    command: CellCommand,
    shape: NameShape,
    n: usize,
) -> Result<(), CmdFault>
    requires words { n + 1 ≤ length values.old.store.stack }
    requires some { 0 < n }
    requires made { IsMade values.old.store (At.Stack (length values.old.store.stack - n)) }
    requires shape { shape ≡ shape_of (bytes_of (slice_index_or values.old.store.stack (length values.old.store.stack - n) [])) }
    ensures { steps.Changes (spec.row_of command (replies.call_word n values.old.store.stack) (top n values.old.store.stack)) n
        (naming (bytes_of (slice_index_or values.old.store.stack (length values.old.store.stack - n) []))) values.old values.new result }
{
    let name = At::Stack(values.height() - n);
    match values.cell_at(name, shape) {
        Ok(cell) => run_cell(&mut values.store, command, VarState::Cell(cell), n),
        Err(_) => change_unset(values, command, shape, n),
    }
}

// The same, where the variable may be unset.
fn change_unset(
    values: &mut Values,
    command: CellCommand,
    shape: NameShape,
    n: usize,
) -> Result<(), CmdFault>
    requires words { n + 1 ≤ length values.old.store.stack }
    requires some { 0 < n }
    requires made { IsMade values.old.store (At.Stack (length values.old.store.stack - n)) }
    requires shape { shape ≡ shape_of (bytes_of (slice_index_or values.old.store.stack (length values.old.store.stack - n) [])) }
    ensures { steps.Changes (spec.row_of command (replies.call_word n values.old.store.stack) (top n values.old.store.stack)) n
        (naming (bytes_of (slice_index_or values.old.store.stack (length values.old.store.stack - n) []))) values.old values.new result }
{
    let at = At::Stack(values.height() - n);
    let name = copied(values, at)?;
    change_named(values, command, name.bytes(), shape, n)
}

// The same, where the name is none of the store's texts.
fn change_named(
    values: &mut Values,
    command: CellCommand,
    name: &[u8],
    shape: NameShape,
    n: usize,
) -> Result<(), CmdFault>
    requires words { n + 1 ≤ length values.old.store.stack }
    requires some { 0 < n }
    requires name { IsText name.now }
    requires shape { shape ≡ shape_of name.now }
    ensures { steps.Changes (spec.row_of command (replies.call_word n values.old.store.stack) (top n values.old.store.stack)) n
        (naming name.now) values.old values.new result }
{
    let lacked = missing_named(&values.vars, name, shape);
    match write_named(&mut values.vars, name, shape) {
        Ok((cell, fresh)) => {
            match run_cell(&mut values.store, command, VarState::Cell(cell), n) {
                Ok(()) => Ok(()),
                Err(kind) => {
                    if fresh {
                        take_back_named(&mut values.vars, name, shape, lacked);
                    }
                    Err(kind)
                }
            }
        }
        Err(fault) => match unsettable(fault) {
            Some(variable) => run_cell(&mut values.store, command, variable, n),
            None => Err(CmdFault::NoMemory),
        },
    }
}

// The command without words.
fn cell_alone<W>(machine: &mut Machine<W>, command: CellCommand) -> Result<(), End>
    requires { 1 ≤ length machine.old.values.store.stack }
    ensures answer { Answers (spec.cell_row (spec.row_of command) (top 1 machine.old.values.store.stack)) as_result machine.old result machine.new }
    ensures stack { PushesResult (under 1 machine.old.values.store.stack) result machine.new.values.store.stack }
    ensures calm { IsCalm result }
    ensures units { machine.new.units ≡ machine.old.units }
{
    let done = change_none(&mut machine.values, command);
    machine.end_data(done)
}

// Whether this is the message of a refusal, which is the text below the top.
fn is_message<W>(machine: &mut Machine<W>, message: &[u8]) -> Result<bool, NoMemory>
    requires reply { 2 ≤ length machine.old.values.store.stack }
    requires message { IsText message.now }
    ensures answer { IfOk result (λ is. is ≡ bytes_eq (second_of machine.old.values.store.stack) (chars message.now)) }
    ensures same { SameState machine.old machine.new }
    ensures stack { machine.new.values.store.stack ≡ machine.old.values.store.stack }
{
    let at = At::Stack(machine.values.height() - 2);
    machine.values.make_text(at)?;
    Ok(is_word(machine.values.lend(at), message))
}

// The command on a variable whose name, the first of the words, is made but isn't built yet.
fn cell_unbuilt<W>(machine: &mut Machine<W>, command: CellCommand, n: usize) -> Result<(), End>
    requires words { n ≤ length machine.old.values.store.stack }
    requires some { 1 < n }
    requires made { IsMade machine.old.values.store (At.Stack (length machine.old.values.store.stack - (n - 1))) }
    ensures answer { Answers (spec.unbuilt (slice_index_or machine.old.values.store.stack (length machine.old.values.store.stack - (n - 1)) [])
        (spec.row_of command (replies.call_word (n - 1) machine.old.values.store.stack)
        (top (n - 1) machine.old.values.store.stack) WholeArray)) as_result machine.old result machine.new }
    ensures stack { PushesResult (under n machine.old.values.store.stack) result machine.new.values.store.stack }
    ensures calm { IsCalm result }
    ensures units { machine.new.units ≡ machine.old.units }
{
    let name = machine
        .values
        .lend(At::Stack(machine.values.height() - (n - 1)));
    let array = message_text(machine.alloc, MessageId::CannotReadArray, name, b"")?;
    match change_array(&mut machine.values, command, n - 1) {
        Ok(()) => Err(machine.not_built()),
        Err(CmdFault::NoMemory) => Err(End::Memory),
        Err(CmdFault::WrongArgs | CmdFault::Message) => {
            if is_message(machine, array.bytes())? {
                Err(machine.not_built())
            } else {
                Err(machine.refuse())
            }
        }
    }
}

// The command on a variable whose name, the first of the words, is made.
fn cell_made<W>(machine: &mut Machine<W>, command: CellCommand, n: usize) -> Result<(), End>
    requires words { n ≤ length machine.old.values.store.stack }
    requires some { 1 < n }
    requires made { IsMade machine.old.values.store (At.Stack (length machine.old.values.store.stack - (n - 1))) }
    ensures answer { Answers (spec.on_variable (slice_index_or machine.old.values.store.stack (length machine.old.values.store.stack - (n - 1)) [])
        (spec.row_of command (replies.call_word (n - 1) machine.old.values.store.stack)
        (top (n - 1) machine.old.values.store.stack))) as_result machine.old result machine.new }
    ensures stack { PushesResult (under n machine.old.values.store.stack) result machine.new.values.store.stack }
    ensures calm { IsCalm result }
    ensures units { machine.new.units ≡ machine.old.units }
{
    let name = At::Stack(machine.values.height() - (n - 1));
    let shape = machine.values.shape_at(name);
    if shape.qualified {
        return cell_unbuilt(machine, command, n);
    }
    let done = change(&mut machine.values, command, shape, n - 1);
    machine.end_data(done)
}

/// A data command on a variable: its words are the top `n` texts of the stack, the word of the
/// call lowest, and the first behind that is the variable's name. A refusal of its row is an
/// error, and the variable stays as it was. (Tcl manual: the page of the command.)
pub fn cmd_cell<W>(machine: &mut Machine<W>, command: CellCommand, n: usize) -> Result<(), End>
    requires words { n ≤ length machine.old.values.store.stack }
    requires some { 0 < n }
    ensures answer { Answers (spec.cell_row (spec.row_of command) (top n machine.old.values.store.stack)) as_result machine.old result machine.new }
    ensures stack { PushesResult (under n machine.old.values.store.stack) result machine.new.values.store.stack }
    ensures calm { IsCalm result }
    ensures units { machine.new.units ≡ machine.old.units }
{
    if n == 1 {
        return cell_alone(machine, command);
    }
    let name = At::Stack(machine.values.height() - (n - 1));
    machine.values.make_text(name)?;
    cell_made(machine, command, n)
}
