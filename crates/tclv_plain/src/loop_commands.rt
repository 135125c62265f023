// The commands `break` and `continue`.
ghost use Rattle.std.specs.Prelude.{◌≡◌, ◌<◌, ◌≤◌, length};
ghost use Rattle.tclv_value.specs.Stacks.{top, under};
ghost use Rattle.tclv_engine.specs.Answers.{Answers, IsCalm, PushesResult, as_result};
ghost use Rattle.tclv_plain.specs.LoopRows as rows;

use crate::misuse::misused;
use tclv_engine::{Carried, End, Leaving, Machine};
use tclv_model::{Code, Usage};
use tclv_value::At;

/// The command `break`: leaves with the code that ends the loop around, and the empty text. Its
/// words are the top `n` texts of the stack, the word of the call lowest. (Tcl: break(n).)
pub fn cmd_break<W>(machine: &mut Machine<W>, n: usize) -> Result<(), End>
    requires words { n ≤ length machine.old.values.store.stack }
    requires some { 0 < n }
    ensures answer { Answers (rows.row_break (top n machine.old.values.store.stack)) as_result machine.old result machine.new }
    ensures stack { PushesResult (under n machine.old.values.store.stack) result machine.new.values.store.stack }
    ensures calm { IsCalm result }
    ensures units { machine.new.units ≡ machine.old.units }
{
    let word = At::Stack(machine.values.height() - n);
    match n {
        1 => Err(machine.leave(Leaving::Other(Code::Break, Carried::Plain))),
        _ => Err(misused(machine, word, Usage::Break)),
    }
}

/// The command `continue`: leaves with the code that ends a turn of the loop around, and the
/// empty text. Its words are the top `n` texts of the stack, the word of the call lowest. (Tcl:
/// continue(n).)
pub fn cmd_continue<W>(machine: &mut Machine<W>, n: usize) -> Result<(), End>
    requires words { n ≤ length machine.old.values.store.stack }
    requires some { 0 < n }
    ensures answer { Answers (rows.row_continue (top n machine.old.values.store.stack)) as_result machine.old result machine.new }
    ensures stack { PushesResult (under n machine.old.values.store.stack) result machine.new.values.store.stack }
    ensures calm { IsCalm result }
    ensures units { machine.new.units ≡ machine.old.units }
{
    let word = At::Stack(machine.values.height() - n);
    match n {
        1 => Err(machine.leave(Leaving::Other(Code::Continue, Carried::Plain))),
        _ => Err(misused(machine, word, Usage::Continue)),
    }
}
