// The commands of control, one by one.
ghost use Rattle.std.specs.Prelude.{◌≡◌, ◌<◌, ◌≤◌, length};
ghost use Rattle.tclv_value.specs.Stacks.{top, under};
ghost use Rattle.tclv_engine.specs.Plans.{PlanOver, as_plan};
ghost use Rattle.tclv_engine.specs.Answers.{Answers, IsCalm, Leaves};
ghost use Rattle.tclv_control.specs.ControlRows.{control_wanted};

use crate::each_plans::{plan_foreach, plan_lmap};
use crate::if_plans::plan_if;
use crate::level_plans::plan_uplevel;
use crate::script_plans::{plan_eval, plan_expr};
use crate::switch_plans::plan_switch;
use crate::while_plans::{plan_for, plan_while};
use tclv_engine::{End, Machine, Plan};

/// The commands of control.
#[derive(Clone, Copy, Debug, PartialEq, Eq)]
pub enum ControlCommand {
    /// `eval arg ?arg ...?`
    Eval,
    /// `expr arg ?arg ...?`
    Expr,
    /// `for start test next command`
    For,
    /// `foreach varList list ?varList list ...? command`
    Foreach,
    /// `if expr1 ?then? body1 ?elseif expr2 ?then? body2? ... ?else? ?bodyN?`
    If,
    /// `lmap varList list ?varList list ...? command`
    Lmap,
    /// `switch ?option ...? string ?pattern body ...? ?default body?`
    Switch,
    /// `uplevel ?level? command ?arg ...?`
    Uplevel,
    /// `while test command`
    While,
}

/// What a command of control wants done, at its words, which are the top `n` texts of the stack, the
/// word of the call lowest. `hand_on` is to stand behind a script whose outcome is that of the
/// command. A refusal is an error with the texts of the command's row; its result is on top, over what
/// was below the words.
pub fn plan_control<W, K: Drop>(
    machine: &mut Machine<W>,
    command: ControlCommand,
    n: usize,
    hand_on: K,
) -> Result<Plan<K>, End>
    requires words { n ≤ length machine.old.values.store.stack }
    requires some { 0 < n }
    ensures answer { Answers (control_wanted hand_on command (top n machine.old.values.store.stack)) as_plan machine.old result machine.new }
    ensures stack { Leaves (PlanOver (under n machine.old.values.store.stack)) (under n machine.old.values.store.stack) result machine.new.values.store.stack }
    ensures calm { IsCalm result }
    ensures units { machine.new.units ≡ machine.old.units }
{
    match command {
        ControlCommand::Eval => plan_eval(machine, n, hand_on),
        ControlCommand::Expr => plan_expr(machine, n),
        ControlCommand::For => plan_for(machine, n),
        ControlCommand::Foreach => plan_foreach(machine, n),
        ControlCommand::If => plan_if(machine, n),
        ControlCommand::Lmap => plan_lmap(machine, n),
        ControlCommand::Switch => plan_switch(machine, n, hand_on),
        ControlCommand::Uplevel => plan_uplevel(machine, n, hand_on),
        ControlCommand::While => plan_while(machine, n),
    }
}
