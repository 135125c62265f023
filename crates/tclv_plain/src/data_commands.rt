// Data commands: commands that touch only values.
ghost use Rattle.std.specs.Prelude.{◌≡◌, ◌+◌, ◌<◌, ◌≤◌, length};
ghost use Rattle.tclv_value.specs.Stacks.{top, under};
ghost use Rattle.tclv_reply.specs.Replies as replies;
ghost use Rattle.tclv_plain.specs.DataRows as spec;
ghost use Rattle.tclv_engine.specs.Holdings.{SameVariables};
ghost use Rattle.tclv_engine.specs.Answers.{Answers, IsCalm, PushesResult, as_result};

use tclv_engine::{End, Machine, Values};
use tclv_lists::{
    cmd_concat, cmd_join, cmd_lindex, cmd_linsert, cmd_list, cmd_llength, cmd_lrange, cmd_lremove,
    cmd_lrepeat, cmd_lreplace, cmd_lreverse, cmd_lsearch, cmd_lseq, cmd_lsort, cmd_split,
};
use tclv_model::CmdFault;
use tclv_strings::cmd_string;
use tclv_value::Store;

/// A data command that touches no variable.
#[derive(Clone, Copy, Debug, PartialEq, Eq)]
pub enum DataCommand {
    Concat,
    Join,
    Lindex,
    Linsert,
    List,
    Llength,
    Lrange,
    Lremove,
    Lrepeat,
    Lreplace,
    Lreverse,
    Lsearch,
    Lseq,
    Lsort,
    Split,
    String,
}

// The call of a data command: its words are the top `n` texts of the stack, above the word of the
// call. On `Ok` the result stands in their place; on a refusal the message and the error code do.
fn run_data(store: &mut Store, command: DataCommand, n: usize) -> Result<(), CmdFault>
    requires { n + 1 ≤ length store.old.stack }
    ensures { replies.Answers (spec.row_of command (replies.call_word n store.old.stack) (top n store.old.stack)) n store.old store.new result }
{
    match command {
        DataCommand::Concat => cmd_concat(store, n),
        DataCommand::Join => cmd_join(store, n),
        DataCommand::Lindex => cmd_lindex(store, n),
        DataCommand::Linsert => cmd_linsert(store, n),
        DataCommand::List => cmd_list(store, n),
        DataCommand::Llength => cmd_llength(store, n),
        DataCommand::Lrange => cmd_lrange(store, n),
        DataCommand::Lremove => cmd_lremove(store, n),
        DataCommand::Lrepeat => cmd_lrepeat(store, n),
        DataCommand::Lreplace => cmd_lreplace(store, n),
        DataCommand::Lreverse => cmd_lreverse(store, n),
        DataCommand::Lsearch => cmd_lsearch(store, n),
        DataCommand::Lseq => cmd_lseq(store, n),
        DataCommand::Lsort => cmd_lsort(store, n),
        DataCommand::Split => cmd_split(store, n),
        DataCommand::String => cmd_string(store, n),
    }
}

// The same on the values of a run.
fn call_data(values: &mut Values, command: DataCommand, n: usize) -> Result<(), CmdFault>
    requires { n + 1 ≤ length values.old.store.stack }
    ensures answer { replies.Answers (spec.row_of command (replies.call_word n values.old.store.stack)
        (top n values.old.store.stack)) n values.old.store values.new.store result }
    ensures same { SameVariables values.old values.new }
{
    run_data(&mut values.store, command, n)
}

/// A data command: its words are the top `n` texts of the stack, the word of the call lowest. A
/// refusal of its row is an error. (Tcl manual: the page of the command.)
pub fn cmd_data<W>(machine: &mut Machine<W>, command: DataCommand, n: usize) -> Result<(), End>
    requires words { n ≤ length machine.old.values.store.stack }
    requires some { 0 < n }
    ensures answer { Answers (spec.data_row (spec.row_of command) (top n machine.old.values.store.stack)) as_result machine.old result machine.new }
    ensures stack { PushesResult (under n machine.old.values.store.stack) result machine.new.values.store.stack }
    ensures calm { IsCalm result }
    ensures units { machine.new.units ≡ machine.old.units }
{
    let done = call_data(&mut machine.values, command, n - 1);
    machine.end_data(done)
}
