// The command `info`.
ghost use Rattle.std.specs.Prelude.{◌≡◌, ◌<◌, ◌≤◌, length, IfOk};
ghost use Rattle.tclv_text.specs.Texts.{IsText};
ghost use Rattle.tclv_value.specs.View.{HasPlace, IsMade, text_at};
ghost use Rattle.tclv_value.specs.Stacks.{top, under};
ghost use Rattle.tclv_engine.specs.Answers.{Answers, IsCalm, PushesOne, PushesResult, SameState, as_result};
ghost use Rattle.tclv_engine.specs.Names.{bytes_of};
ghost use Rattle.tclv_plain.specs.InfoRows as spec;

use crate::misuse::misused;
use crate::results::push_flag;
use tclv_engine::{End, Machine};
use tclv_model::{ErrorCode, MessageId, Usage};
use tclv_parse::is_complete;
use tclv_text::{NoMemory, as_str};
use tclv_value::At;
use tclv_vars::VarFault;

/// A subcommand of `info`.
#[derive(Clone, Copy, Debug, PartialEq, Eq)]
pub enum InfoCommand {
    Complete,
    Exists,
}

// The subcommand that a word names.
fn info_command(word: &[u8]) -> Option<InfoCommand>
    requires { IsText word.now }
    ensures { result ≡ spec.info_command word.now }
{
    match as_str(word) {
        "complete" => Some(InfoCommand::Complete),
        "exists" => Some(InfoCommand::Exists),
        _ => None,
    }
}

// ---- exists

// Whether a variable is set, to a value or to an array, by what reading it gave.
fn is_set(found: Result<u64, VarFault>) -> bool
    ensures { result ≡ spec.is_set found }
{
    match found {
        Ok(_) => true,
        Err(VarFault::IsArray) => true,
        _ => false,
    }
}

// Says whether the variable is set whose name is the text of a place, which is made.
fn exists_made<W>(machine: &mut Machine<W>, name: At) -> Result<(), End>
    requires place { HasPlace machine.old.values.store name }
    requires made { IsMade machine.old.values.store name }
    ensures answer { Answers (spec.info_exists (text_at machine.old.values.store name)) as_result machine.old result machine.new }
    ensures stack { PushesOne machine.old.values.store.stack result machine.new.values.store.stack }
    ensures calm { IsCalm result }
    ensures units { machine.new.units ≡ machine.old.units }
{
    let shape = machine.values.shape_at(name);
    if shape.qualified {
        return Err(machine.not_built());
    }
    let found = is_set(machine.values.cell_at(name, shape));
    push_flag(machine, found)
}

// The same, where the name is this place of the stack.
fn info_exists<W>(machine: &mut Machine<W>, name: usize) -> Result<(), End>
    requires { name < length machine.old.values.store.stack }
    ensures answer { Answers (spec.info_exists (text_at machine.old.values.store (At.Stack name))) as_result machine.old result machine.new }
    ensures stack { PushesOne machine.old.values.store.stack result machine.new.values.store.stack }
    ensures calm { IsCalm result }
    ensures units { machine.new.units ≡ machine.old.units }
{
    machine.values.make_text(At::Stack(name))?;
    exists_made(machine, At::Stack(name))
}

// ---- complete

// Says whether the script at this place of the stack lacks no closing mark.
fn info_complete<W>(machine: &mut Machine<W>, script: usize) -> Result<(), End>
    requires { script < length machine.old.values.store.stack }
    ensures answer { Answers (spec.info_complete (text_at machine.old.values.store (At.Stack script))) as_result machine.old result machine.new }
    ensures stack { PushesOne machine.old.values.store.stack result machine.new.values.store.stack }
    ensures calm { IsCalm result }
    ensures units { machine.new.units ≡ machine.old.units }
{
    machine.values.make_text(At::Stack(script))?;
    let complete = is_complete(machine.values.lend(At::Stack(script)));
    push_flag(machine, complete)
}

// ---- info

// The subcommand that the text at this place of the stack names.
fn info_at<W>(machine: &mut Machine<W>, at: usize) -> Result<Option<InfoCommand>, NoMemory>
    requires { at < length machine.old.values.store.stack }
    ensures answer { IfOk result (λ found. found ≡ spec.info_command (bytes_of (text_at machine.old.values.store (At.Stack at)))) }
    ensures same { SameState machine.old machine.new }
    ensures stack { machine.new.values.store.stack ≡ machine.old.values.store.stack }
{
    machine.values.make_text(At::Stack(at))?;
    Ok(info_command(machine.values.lend(At::Stack(at))))
}

// Runs a subcommand: the words are the top `n` texts of the stack, the word of the call lowest.
fn run_info<W>(machine: &mut Machine<W>, command: InfoCommand, n: usize) -> Result<(), End>
    requires words { n ≤ length machine.old.values.store.stack }
    requires some { 1 < n }
    ensures answer { Answers (spec.info_row command (top n machine.old.values.store.stack)) as_result machine.old result machine.new }
    ensures stack { PushesResult (under n machine.old.values.store.stack) result machine.new.values.store.stack }
    ensures calm { IsCalm result }
    ensures units { machine.new.units ≡ machine.old.units }
{
    let base = machine.values.height() - n;
    match command {
        InfoCommand::Complete => {
            if n == 3 {
                info_complete(machine, base + 2)
            } else {
                Err(misused(machine, At::Stack(base), Usage::InfoComplete))
            }
        }
        InfoCommand::Exists => {
            if n == 3 {
                info_exists(machine, base + 2)
            } else {
                Err(misused(machine, At::Stack(base), Usage::InfoExists))
            }
        }
    }
}

/// The command `info`, with the subcommands `exists` and `complete`: whether a variable is set, and
/// whether a script lacks no closing mark. Its words are the top `n` texts of the stack, the word of the
/// call lowest. (Tcl: info(n).)
pub fn cmd_info<W>(machine: &mut Machine<W>, n: usize) -> Result<(), End>
    requires words { n ≤ length machine.old.values.store.stack }
    requires some { 0 < n }
    ensures answer { Answers (spec.row_info (top n machine.old.values.store.stack)) as_result machine.old result machine.new }
    ensures stack { PushesResult (under n machine.old.values.store.stack) result machine.new.values.store.stack }
    ensures calm { IsCalm result }
    ensures units { machine.new.units ≡ machine.old.units }
{
    let base = machine.values.height() - n;
    if n == 1 {
        return Err(misused(machine, At::Stack(base), Usage::Info));
    }
    match info_at(machine, base + 1)? {
        Some(command) => run_info(machine, command, n),
        None => Err(machine.raise_at(
            MessageId::UnknownSubcommand,
            At::Stack(base + 1),
            b"",
            ErrorCode::NoCode,
        )),
    }
}
