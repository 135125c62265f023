// The command `exit`.
ghost use Rattle.std.specs.Prelude.{◌≡◌, ◌<◌, ◌≤◌, length};
ghost use Rattle.tclv_value.specs.View.{HasPlace, text_at};
ghost use Rattle.tclv_value.specs.Stacks.{top, under};
ghost use Rattle.tclv_engine.specs.Answers.{Answers, IsCalm, PushesResult, as_result};
ghost use Rattle.tclv_plain.specs.RunRows as spec;

use crate::misuse::misused;
use tclv_engine::{End, Machine};
use tclv_model::Usage;
use tclv_value::At;

// The status of a number.
fn status_of(n: i64) -> u8
    ensures { result ≡ spec.status_of n }
{
    n.rem_euclid(256) as u8
}

// Ends the run with the status of the number that the text of a place is.
fn exit_with<W>(machine: &mut Machine<W>, code: At) -> Result<(), End>
    requires { HasPlace machine.old.values.store code }
    ensures answer { Answers (spec.exit_with (text_at machine.old.values.store code)) as_result machine.old result machine.new }
    ensures stack { PushesResult machine.old.values.store.stack result machine.new.values.store.stack }
    ensures calm { IsCalm result }
    ensures units { machine.new.units ≡ machine.old.units }
{
    let n = machine.whole_at(code)?;
    Err(End::Exit(status_of(n)))
}

/// The command `exit ?returnCode?`: ends the run with status 0, or with the number modulo 256.
/// Its words are the top `n` texts of the stack, the word of the call lowest. (Tcl manual: exit;
/// statuses are those of the system, from 0 to 255.)
pub fn cmd_exit<W>(machine: &mut Machine<W>, n: usize) -> Result<(), End>
    requires words { n ≤ length machine.old.values.store.stack }
    requires some { 0 < n }
    ensures answer { Answers (spec.row_exit (top n machine.old.values.store.stack)) as_result machine.old result machine.new }
    ensures stack { PushesResult (under n machine.old.values.store.stack) result machine.new.values.store.stack }
    ensures calm { IsCalm result }
    ensures units { machine.new.units ≡ machine.old.units }
{
    let base = machine.values.height() - n;
    match n {
        1 => Err(End::Exit(0)),
        2 => exit_with(machine, At::Stack(base + 1)),
        _ => Err(misused(machine, At::Stack(base), Usage::Exit)),
    }
}
