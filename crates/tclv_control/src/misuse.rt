// Words that fit no form of a command.
ghost use Rattle.std.specs.Prelude.{◌≡◌, ◌<◌, ◌≤◌, length};
ghost use Rattle.tclv_model.specs.Usages.{usage_of};
ghost use Rattle.tclv_value.specs.Stacks.{top, under};
ghost use Rattle.tclv_engine.specs.Usages.{usage};
ghost use Rattle.tclv_engine.specs.Plans.{PlanOver, as_plan};
ghost use Rattle.tclv_engine.specs.Answers.{Answers, IsCalm, Leaves};

use tclv_engine::{End, Machine, Plan};
use tclv_model::{ErrorCode, MessageId, Usage, usage_text};
use tclv_value::At;

/// The error of words that fit no form of a command. They are the top `n` texts, the word of the call
/// lowest; `form` says whose usage the message shows.
pub fn misused<W, K>(machine: &mut Machine<W>, n: usize, form: Usage) -> Result<Plan<K>, End>
    requires words { n ≤ length machine.old.values.store.stack }
    requires some { 0 < n }
    ensures answer { Answers (usage (usage_of form) (top n machine.old.values.store.stack)) as_plan machine.old result machine.new }
    ensures stack { Leaves (PlanOver (under n machine.old.values.store.stack)) (under n machine.old.values.store.stack) result machine.new.values.store.stack }
    ensures calm { IsCalm result }
    ensures units { machine.new.units ≡ machine.old.units }
{
    let word = At::Stack(machine.values.height() - n);
    Err(machine.raise_at(
        MessageId::WrongArguments,
        word,
        usage_text(form).as_bytes(),
        ErrorCode::WrongArguments,
    ))
}
