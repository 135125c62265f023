// The commands of codes, one by one.
ghost use Rattle.std.specs.Prelude.{◌≡◌, ◌<◌, ◌≤◌, length};
ghost use Rattle.tclv_value.specs.Stacks.{top, under};
ghost use Rattle.tclv_engine.specs.Plans.{PlanOver, as_plan};
ghost use Rattle.tclv_engine.specs.Answers.{Answers, IsCalm, Leaves};
ghost use Rattle.tclv_control.specs.CodeRows.{code_wanted};

use crate::behind::Behind;
use crate::catch_plans::plan_catch;
use crate::error_plans::{plan_error, plan_throw};
use crate::return_plans::plan_return;
use crate::try_plans::plan_try;
use tclv_engine::{End, Machine, Plan};

/// The commands that end with codes, or see how a script ended.
#[derive(Clone, Copy, Debug, PartialEq, Eq)]
pub enum CodeCommand {
    /// `catch script ?resultVarName? ?optionsVarName?`
    Catch,
    /// `error message ?errorInfo? ?errorCode?`
    Error,
    /// `return ?option value ...? ?result?`
    Return,
    /// `throw type message`
    Throw,
    /// `try body ?handler ...? ?finally script?`
    Try,
}

/// What a command of codes wants done, at its words, which are the top `n` texts of the stack, the word
/// of the call lowest. A refusal is an error with the texts of the command's row; its result is on top,
/// over what was below the words.
pub fn plan_code<W>(
    machine: &mut Machine<W>,
    command: CodeCommand,
    n: usize,
) -> Result<Plan<Behind>, End>
    requires words { n ≤ length machine.old.values.store.stack }
    requires some { 0 < n }
    ensures answer { Answers (code_wanted command (top n machine.old.values.store.stack)) as_plan machine.old result machine.new }
    ensures stack { Leaves (PlanOver (under n machine.old.values.store.stack)) (under n machine.old.values.store.stack) result machine.new.values.store.stack }
    ensures calm { IsCalm result }
    ensures units { machine.new.units ≡ machine.old.units }
{
    match command {
        CodeCommand::Catch => plan_catch(machine, n),
        CodeCommand::Error => plan_error(machine, n),
        CodeCommand::Return => plan_return(machine, n),
        CodeCommand::Throw => plan_throw(machine, n),
        CodeCommand::Try => plan_try(machine, n),
    }
}
