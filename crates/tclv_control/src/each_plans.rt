// The commands `foreach` and `lmap`.
ghost use Rattle.std.specs.Prelude.{◌≡◌, ◌<◌, ◌≤◌, length};
ghost use Rattle.tclv_value.specs.Stacks.{top, under};
ghost use Rattle.tclv_engine.specs.Plans.{PlanOver, as_plan};
ghost use Rattle.tclv_engine.specs.Answers.{Answers, IsCalm, Leaves};
ghost use Rattle.tclv_control.specs.EachRows as rows;

use crate::misuse::misused;
use tclv_engine::{End, Machine, Plan};
use tclv_model::{MessageId, Usage};

// Whether so many words are the word of the call, pairs of a list of names and a list of values, and
// a body.
fn is_paired(n: usize) -> bool
    ensures { result ≡ rows.is_paired n }
{
    4 <= n && n % 2 == 0
}

// The loop of words that are the word of the call, pairs of lists, and a body.
fn plan_pairs<W, K>(
    machine: &mut Machine<W>,
    n: usize,
    empty: MessageId,
    keep: bool,
) -> Result<Plan<K>, End>
    requires words { n ≤ length machine.old.values.store.stack }
    requires some { 1 < n }
    ensures answer { Answers (rows.each empty keep (top n machine.old.values.store.stack)) as_plan machine.old result machine.new }
    ensures stack { Leaves (PlanOver (under n machine.old.values.store.stack)) (under n machine.old.values.store.stack) result machine.new.values.store.stack }
    ensures calm { IsCalm result }
    ensures units { machine.new.units ≡ machine.old.units }
{
    let height = machine.values.height();
    let groups = machine.groups(height - n + 1, height - 1, empty)?;
    Ok(Plan::Each(groups, height - 1, keep))
}

// The loop of the two commands, if their words fit; `form` says whose usage the message shows if they
// don't.
fn plan_each<W, K>(
    machine: &mut Machine<W>,
    n: usize,
    form: Usage,
    empty: MessageId,
    keep: bool,
) -> Result<Plan<K>, End>
    requires words { n ≤ length machine.old.values.store.stack }
    requires some { 0 < n }
    ensures answer { Answers (rows.wanted_each form empty keep (top n machine.old.values.store.stack)) as_plan machine.old result machine.new }
    ensures stack { Leaves (PlanOver (under n machine.old.values.store.stack)) (under n machine.old.values.store.stack) result machine.new.values.store.stack }
    ensures calm { IsCalm result }
    ensures units { machine.new.units ≡ machine.old.units }
{
    if is_paired(n) {
        plan_pairs(machine, n, empty, keep)
    } else {
        misused(machine, n, form)
    }
}

/// The command `foreach varList list ?varList list ...? command`: a loop, in each turn of which the
/// variables get the next values of their lists, and then the command is evaluated. The lists are
/// read here: a text that is no list, and a list of names without a name, are errors. The results of
/// its bodies aren't kept. Its words are the top `n` texts of the stack, the word of the call lowest.
/// (Tcl: foreach(n).)
pub fn plan_foreach<W, K>(machine: &mut Machine<W>, n: usize) -> Result<Plan<K>, End>
    requires words { n ≤ length machine.old.values.store.stack }
    requires some { 0 < n }
    ensures answer { Answers (rows.wanted_foreach (top n machine.old.values.store.stack)) as_plan machine.old result machine.new }
    ensures stack { Leaves (PlanOver (under n machine.old.values.store.stack)) (under n machine.old.values.store.stack) result machine.new.values.store.stack }
    ensures calm { IsCalm result }
    ensures units { machine.new.units ≡ machine.old.units }
{
    plan_each(
        machine,
        n,
        Usage::Foreach,
        MessageId::EmptyForeachNames,
        false,
    )
}

/// The command `lmap varList list ?varList list ...? command`: like `foreach`, but the results of its
/// bodies are kept. Its words are the top `n` texts of the stack, the word of the call lowest.
/// (Tcl: lmap(n).)
pub fn plan_lmap<W, K>(machine: &mut Machine<W>, n: usize) -> Result<Plan<K>, End>
    requires words { n ≤ length machine.old.values.store.stack }
    requires some { 0 < n }
    ensures answer { Answers (rows.wanted_lmap (top n machine.old.values.store.stack)) as_plan machine.old result machine.new }
    ensures stack { Leaves (PlanOver (under n machine.old.values.store.stack)) (under n machine.old.values.store.stack) result machine.new.values.store.stack }
    ensures calm { IsCalm result }
    ensures units { machine.new.units ≡ machine.old.units }
{
    plan_each(machine, n, Usage::Lmap, MessageId::EmptyLmapNames, true)
}
