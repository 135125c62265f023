// The commands that are built in.
ghost use Rattle.std.specs.Prelude.{◌≡◌, ◌<◌, ◌≤◌, ◌-◌, [], length, slice_index_or, IfOk, OnOk};
ghost use Rattle.std.specs.FinMap as finite;
ghost use Rattle.tclv_value.specs.View.{HasPlace, IsMade, text_at};
ghost use Rattle.tclv_interp.specs.Builtins as spec;
ghost use Rattle.tclv_engine.specs.Answers.{Answers, KeepsStack, IsCalm};

use crate::procedures::Shared;
use std::alloc::Global;
use std::rc::Rc;
use tclv_control::{CodeCommand, ControlCommand};
use tclv_engine::{End, Machine};
use tclv_model::{ErrorCode, MessageId};
use tclv_names::Names;
use tclv_plain::{CellCommand, DataCommand, PlainCommand};
use tclv_reply::is_qualified;
use tclv_text::NoMemory;
use tclv_value::{At, ProcDef};

/// A command that is built in.
#[derive(Clone, Copy, Debug, PartialEq, Eq)]
pub enum CommandTarget {
    /// One that evaluates no script.
    Plain(PlainCommand),
    /// One that wants scripts or expressions evaluated.
    Control(ControlCommand),
    /// One that ends with a code, or sees how a script ended.
    Code(CodeCommand),
    /// `info subcommand ?arg ...?`, some of whose subcommands read the table of commands.
    Info,
    /// `proc name args body`, which changes the table of commands.
    Proc,
}

/// What a name of a command stands for.
#[derive(Drop)]
pub enum Target {
    /// A command that is built in.
    Builtin(CommandTarget),
    /// A procedure.
    Procedure(Shared),
}

/// What a call of a name does.
#[derive(Drop)]
pub enum Found {
    /// A command that is built in.
    Builtin(CommandTarget),
    /// A procedure.
    Procedure(Rc<ProcDef>),
}

/// The tables that the commands keep of their own.
#[derive(Drop)]
pub struct Tables {
    /// What each name of a command stands for.
    pub commands: Names<Target>,
}

/// The commands that are built in, by their names.
const BUILTINS: [(&[u8], CommandTarget); 47] = [
    (b"append", CommandTarget::Plain(PlainCommand::Append)),
    (b"array", CommandTarget::Plain(PlainCommand::Array)),
    (b"break", CommandTarget::Plain(PlainCommand::Break)),
    (b"catch", CommandTarget::Code(CodeCommand::Catch)),
    (
        b"concat",
        CommandTarget::Plain(PlainCommand::Data(DataCommand::Concat)),
    ),
    (b"continue", CommandTarget::Plain(PlainCommand::Continue)),
    (b"error", CommandTarget::Code(CodeCommand::Error)),
    (b"eval", CommandTarget::Control(ControlCommand::Eval)),
    (b"exit", CommandTarget::Plain(PlainCommand::Exit)),
    (b"expr", CommandTarget::Control(ControlCommand::Expr)),
    (b"for", CommandTarget::Control(ControlCommand::For)),
    (b"foreach", CommandTarget::Control(ControlCommand::Foreach)),
    (b"global", CommandTarget::Plain(PlainCommand::Global)),
    (b"if", CommandTarget::Control(ControlCommand::If)),
    (b"incr", CommandTarget::Plain(PlainCommand::Incr)),
    (b"info", CommandTarget::Info),
    (
        b"join",
        CommandTarget::Plain(PlainCommand::Data(DataCommand::Join)),
    ),
    (
        b"lappend",
        CommandTarget::Plain(PlainCommand::Cell(CellCommand::Lappend)),
    ),
    (b"lassign", CommandTarget::Plain(PlainCommand::Lassign)),
    (
        b"lindex",
        CommandTarget::Plain(PlainCommand::Data(DataCommand::Lindex)),
    ),
    (
        b"linsert",
        CommandTarget::Plain(PlainCommand::Data(DataCommand::Linsert)),
    ),
    (
        b"list",
        CommandTarget::Plain(PlainCommand::Data(DataCommand::List)),
    ),
    (
        b"llength",
        CommandTarget::Plain(PlainCommand::Data(DataCommand::Llength)),
    ),
    (b"lmap", CommandTarget::Control(ControlCommand::Lmap)),
    (
        b"lpop",
        CommandTarget::Plain(PlainCommand::Cell(CellCommand::Lpop)),
    ),
    (
        b"lrange",
        CommandTarget::Plain(PlainCommand::Data(DataCommand::Lrange)),
    ),
    (
        b"lremove",
        CommandTarget::Plain(PlainCommand::Data(DataCommand::Lremove)),
    ),
    (
        b"lrepeat",
        CommandTarget::Plain(PlainCommand::Data(DataCommand::Lrepeat)),
    ),
    (
        b"lreplace",
        CommandTarget::Plain(PlainCommand::Data(DataCommand::Lreplace)),
    ),
    (
        b"lreverse",
        CommandTarget::Plain(PlainCommand::Data(DataCommand::Lreverse)),
    ),
    (
        b"lsearch",
        CommandTarget::Plain(PlainCommand::Data(DataCommand::Lsearch)),
    ),
    (
        b"lseq",
        CommandTarget::Plain(PlainCommand::Data(DataCommand::Lseq)),
    ),
    (
        b"lset",
        CommandTarget::Plain(PlainCommand::Cell(CellCommand::Lset)),
    ),
    (
        b"lsort",
        CommandTarget::Plain(PlainCommand::Data(DataCommand::Lsort)),
    ),
    (b"proc", CommandTarget::Proc),
    (b"puts", CommandTarget::Plain(PlainCommand::Puts)),
    (b"return", CommandTarget::Code(CodeCommand::Return)),
    (b"set", CommandTarget::Plain(PlainCommand::Set)),
    (
        b"split",
        CommandTarget::Plain(PlainCommand::Data(DataCommand::Split)),
    ),
    (
        b"string",
        CommandTarget::Plain(PlainCommand::Data(DataCommand::String)),
    ),
    (b"switch", CommandTarget::Control(ControlCommand::Switch)),
    (b"throw", CommandTarget::Code(CodeCommand::Throw)),
    (b"try", CommandTarget::Code(CodeCommand::Try)),
    (b"unset", CommandTarget::Plain(PlainCommand::Unset)),
    (b"uplevel", CommandTarget::Control(ControlCommand::Uplevel)),
    (b"upvar", CommandTarget::Plain(PlainCommand::Upvar)),
    (b"while", CommandTarget::Control(ControlCommand::While)),
];

// Gives each of these commands its name, the last first.
fn fill(
    alloc: Global,
    commands: &mut Names<Target>,
    table: &[(&[u8], CommandTarget)],
) -> Result<(), NoMemory>
    requires { commands.old ≡ finite.empty }
    ensures { OnOk result (commands.new ≡ spec.commands_of (λ name. name.now) table.now) }
{
    for i in 0..table.len() {
        let (name, target) = table[table.len() - 1 - i];
        commands.put(alloc, name, Target::Builtin(target))?;
    }
    Ok(())
}

impl Tables {
    /// The tables of a new interpreter: each command that is built in has its name, and no other name
    /// stands for one.
    pub fn new(alloc: Global) -> Result<Tables, NoMemory>
        ensures { IfOk result (λ t. t ≡ spec.new_tables) }
    {
        let mut commands = Names::new(alloc);
        fill(alloc, &mut commands, &BUILTINS)?;
        Ok(Tables { commands })
    }
}

/// What the lowest of the top n texts stands for, as the name of a command.
pub fn resolve(machine: &mut Machine<Tables>, n: usize) -> Result<Found, End>
    requires words { n ≤ length machine.old.values.store.stack }
    requires some { 0 < n }
    ensures answer { Answers (spec.resolve (slice_index_or machine.old.values.store.stack
        (length machine.old.values.store.stack - n) [])) spec.as_found machine.old result machine.new }
    ensures stack { KeepsStack machine.old.values.store.stack result machine.new.values.store.stack }
    ensures calm { IsCalm result }
    ensures units { machine.new.units ≡ machine.old.units }
{
    let name = At::Stack(machine.values.height() - n);
    machine.values.make_text(name)?;
    resolve_made(machine, name)
}

// What a call does of a name that stands for this.
fn called(target: &Target) -> Result<Found, NoMemory>
    ensures { IfOk result (λ f. spec.target_of f ≡ target.now) }
{
    match target {
        Target::Builtin(command) => Ok(Found::Builtin(*command)),
        Target::Procedure(shared) => Ok(Found::Procedure(shared.share()?)),
    }
}

// What the text of a place stands for, which is made.
fn resolve_made(machine: &mut Machine<Tables>, name: At) -> Result<Found, End>
    requires place { HasPlace machine.old.values.store name }
    requires made { IsMade machine.old.values.store name }
    ensures answer { Answers (spec.resolve (text_at machine.old.values.store name)) spec.as_found machine.old result machine.new }
    ensures stack { KeepsStack machine.old.values.store.stack result machine.new.values.store.stack }
    ensures calm { IsCalm result }
    ensures units { machine.new.units ≡ machine.old.units }
{
    if is_qualified(machine.values.lend(name)) {
        return Err(machine.not_built());
    }
    match machine.own.commands.lend(machine.values.lend(name)) {
        Some(target) => Ok(called(target)?),
        None => Err(machine.raise_at(
            MessageId::UnknownCommand,
            name,
            b"",
            ErrorCode::UnknownCommand,
        )),
    }
}
