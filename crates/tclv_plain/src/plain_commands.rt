// The commands that evaluate no script, by their names.
ghost use Rattle.std.specs.Prelude.{◌≡◌, ◌<◌, ◌≤◌, length};
ghost use Rattle.tclv_value.specs.Stacks.{top, under};
ghost use Rattle.tclv_engine.specs.Answers.{AnswersOver, Caused, PushesResult, as_result, outer};
ghost use Rattle.tclv_plain.specs.PlainRows as spec;

use crate::array_commands::cmd_array;
use crate::cell_commands::{CellCommand, cmd_cell};
use crate::channel_commands::cmd_puts;
use crate::data_commands::{DataCommand, cmd_data};
use crate::info_commands::cmd_info;
use crate::link_commands::{cmd_global, cmd_upvar};
use crate::list_commands::cmd_lassign;
use crate::loop_commands::{cmd_break, cmd_continue};
use crate::run_commands::cmd_exit;
use crate::unset_commands::cmd_unset;
use crate::variable_commands::{cmd_append, cmd_incr, cmd_set};
use tclv_engine::{End, Machine};
use tclv_io::Outside;

/// A command that evaluates no script.
#[derive(Clone, Copy, Debug, PartialEq, Eq)]
pub enum PlainCommand {
    Append,
    Array,
    Break,
    /// A data command that is handed a variable.
    Cell(CellCommand),
    Continue,
    /// A data command.
    Data(DataCommand),
    Exit,
    Global,
    Incr,
    Info,
    Lassign,
    Puts,
    Set,
    Unset,
    Upvar,
}

/// Runs a command: its words are the top `n` texts of the stack, the word of the call lowest, and the
/// result stands in their place. It takes no unit. Only `puts` touches the outside.
#[tactic(auto, using(crate::proofs::PlainLemmas::calm))]
pub fn run_plain<W, O: Outside>(
    machine: &mut Machine<W>,
    out: &mut O,
    command: PlainCommand,
    n: usize,
) -> Result<(), End>
    requires words { n ≤ length machine.old.values.store.stack }
    requires some { 0 < n }
    ensures answer { AnswersOver (spec.plain_row command (top n machine.old.values.store.stack)) as_result machine.old
        (outer (O.told out.old) (O.torn out.old)) result machine.new (outer (O.told out.new) (O.torn out.new)) }
    ensures stack { PushesResult (under n machine.old.values.store.stack) result machine.new.values.store.stack }
    ensures cause { Caused (O.faults out.old) (O.faults out.new) result }
    ensures units { machine.new.units ≡ machine.old.units }
{
    match command {
        PlainCommand::Append => cmd_append(machine, n),
        PlainCommand::Array => cmd_array(machine, n),
        PlainCommand::Break => cmd_break(machine, n),
        PlainCommand::Cell(command) => cmd_cell(machine, command, n),
        PlainCommand::Continue => cmd_continue(machine, n),
        PlainCommand::Data(command) => cmd_data(machine, command, n),
        PlainCommand::Exit => cmd_exit(machine, n),
        PlainCommand::Global => cmd_global(machine, n),
        PlainCommand::Incr => cmd_incr(machine, n),
        PlainCommand::Info => cmd_info(machine, n),
        PlainCommand::Lassign => cmd_lassign(machine, n),
        PlainCommand::Puts => cmd_puts(machine, n, out),
        PlainCommand::Set => cmd_set(machine, n),
        PlainCommand::Unset => cmd_unset(machine, n),
        PlainCommand::Upvar => cmd_upvar(machine, n),
    }
}
