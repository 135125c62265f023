// The commands `while` and `for`.
ghost use Rattle.std.specs.Prelude.{◌≡◌, ◌<◌, ◌≤◌, length};
ghost use Rattle.tclv_value.specs.Stacks.{top, under};
ghost use Rattle.tclv_engine.specs.Plans.{PlanOver, as_plan};
ghost use Rattle.tclv_engine.specs.Answers.{Answers, IsCalm, Leaves};
ghost use Rattle.tclv_control.specs.WhileRows as rows;

use crate::misuse::misused;
use tclv_engine::{End, Machine, Plan};
use tclv_model::Usage;

/// The command `while test command`: a loop, which evaluates the command as long as the test is true.
/// Its words are the top `n` texts of the stack, the word of the call lowest. (Tcl: while(n).)
pub fn plan_while<W, K>(machine: &mut Machine<W>, n: usize) -> Result<Plan<K>, End>
    requires words { n ≤ length machine.old.values.store.stack }
    requires some { 0 < n }
    ensures answer { Answers (rows.wanted_while (top n machine.old.values.store.stack)) as_plan machine.old result machine.new }
    ensures stack { Leaves (PlanOver (under n machine.old.values.store.stack)) (under n machine.old.values.store.stack) result machine.new.values.store.stack }
    ensures calm { IsCalm result }
    ensures units { machine.new.units ≡ machine.old.units }
{
    let word = machine.values.height() - n;
    match n {
        3 => Ok(Plan::Tested(word + 1, word + 2)),
        _ => misused(machine, n, Usage::While),
    }
}

/// The command `for start test next command`: a loop, which evaluates the start, and then, as long as
/// the test is true, the command and the next script. Its words are the top `n` texts of the stack,
/// the word of the call lowest. (Tcl: for(n).)
pub fn plan_for<W, K>(machine: &mut Machine<W>, n: usize) -> Result<Plan<K>, End>
    requires words { n ≤ length machine.old.values.store.stack }
    requires some { 0 < n }
    ensures answer { Answers (rows.wanted_for (top n machine.old.values.store.stack)) as_plan machine.old result machine.new }
    ensures stack { Leaves (PlanOver (under n machine.old.values.store.stack)) (under n machine.old.values.store.stack) result machine.new.values.store.stack }
    ensures calm { IsCalm result }
    ensures units { machine.new.units ≡ machine.old.units }
{
    let word = machine.values.height() - n;
    match n {
        5 => Ok(Plan::Started(word + 1, word + 2, word + 3, word + 4)),
        _ => misused(machine, n, Usage::For),
    }
}
