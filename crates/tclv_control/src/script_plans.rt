// The commands `eval` and `expr`.
ghost use Rattle.std.specs.Prelude.{◌≡◌, ◌+◌, ◌-◌, ◌<◌, ◌≤◌, ◌++◌, ◌∷◌, [], length, IfOk};
ghost use Rattle.tclv_value.specs.Stacks.{top, under};
ghost use Rattle.tclv_lists.specs.Joining.{concatenated};
ghost use Rattle.tclv_engine.specs.Plans.{PlanOver, as_plan};
ghost use Rattle.tclv_engine.specs.Answers.{Answers, IsCalm, Leaves, SameState};
ghost use Rattle.tclv_control.specs.ScriptRows as rows;

use crate::misuse::misused;
use tclv_engine::{End, Machine, Plan};
use tclv_lists::cmd_concat;
use tclv_model::Usage;
use tclv_text::NoMemory;

/// Puts the text that `concat` makes of the top n texts in their place, over the word of the call.
/// Its place.
pub fn join_words<W>(machine: &mut Machine<W>, n: usize) -> Result<usize, NoMemory>
    requires { n + 1 ≤ length machine.old.values.store.stack }
    ensures place { IfOk result (λ at. at ≡ length machine.old.values.store.stack - n) }
    ensures joined { let stack = machine.old.values.store.stack in
        IfOk result (λ at. machine.new.values.store.stack ≡ under n stack ++ concatenated (top n stack) ∷ []) }
    ensures same { SameState machine.old machine.new }
{
    let at = machine.values.height() - n;
    let Ok(()) = cmd_concat(&mut machine.values.store, n) else {
        return Err(NoMemory);
    };
    Ok(at)
}

/// The command `eval arg ?arg ...?`: joins its words as `concat` does; the text is to run as a script,
/// behind which `hand_on` stands. Its words are the top `n` texts of the stack, the word of the call
/// lowest. (Tcl: eval(n).)
pub fn plan_eval<W, K: Drop>(machine: &mut Machine<W>, n: usize, hand_on: K) -> Result<Plan<K>, End>
    requires words { n ≤ length machine.old.values.store.stack }
    requires some { 0 < n }
    ensures answer { Answers (rows.wanted_eval hand_on (top n machine.old.values.store.stack)) as_plan machine.old result machine.new }
    ensures stack { Leaves (PlanOver (under n machine.old.values.store.stack)) (under n machine.old.values.store.stack) result machine.new.values.store.stack }
    ensures calm { IsCalm result }
    ensures units { machine.new.units ≡ machine.old.units }
{
    match n {
        1 => misused(machine, n, Usage::Eval),
        _ => Ok(Plan::Run(join_words(machine, n - 1)?, hand_on)),
    }
}

/// The command `expr arg ?arg ...?`: joins its words as `concat` does; the value of the text as an
/// expression is to be the result. Its words are the top `n` texts of the stack, the word of the call
/// lowest. (Tcl: expr(n).)
pub fn plan_expr<W, K>(machine: &mut Machine<W>, n: usize) -> Result<Plan<K>, End>
    requires words { n ≤ length machine.old.values.store.stack }
    requires some { 0 < n }
    ensures answer { Answers (rows.wanted_expr (top n machine.old.values.store.stack)) as_plan machine.old result machine.new }
    ensures stack { Leaves (PlanOver (under n machine.old.values.store.stack)) (under n machine.old.values.store.stack) result machine.new.values.store.stack }
    ensures calm { IsCalm result }
    ensures units { machine.new.units ≡ machine.old.units }
{
    match n {
        1 => misused(machine, n, Usage::Expr),
        _ => Ok(Plan::Value(join_words(machine, n - 1)?)),
    }
}
