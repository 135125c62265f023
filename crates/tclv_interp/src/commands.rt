// The commands of the shell, as the evaluation calls them.
ghost use Rattle.std.specs.Prelude.{◌≡◌, ◌<◌, ◌≤◌, length, true};
ghost use Rattle.tclv_value.specs.Stacks.{top, under};
ghost use Rattle.tclv_engine.specs.Answers.{Answers, AnswersOver, Caused, IsCalm, Leaves, last_of, outer};
ghost use Rattle.tclv_engine.specs.Plans.{PlanOver, as_plan, concluded};
ghost use Rattle.tclv_control.specs.Finishing.{finish};
ghost use Rattle.tclv_interp.specs.Builtins.{target_of};
ghost use Rattle.tclv_interp.specs.Commands as spec;

use crate::builtins::{CommandTarget, Found, Tables, resolve};
use crate::proc_info::{ProcInfo, proc_info_in, run_proc_info};
use crate::procedures::cmd_proc;
use tclv_control::{Behind, finish_behind, plan_call, plan_code, plan_control};
use tclv_engine::{Carried, End, Ended, Host, Machine, Plan};
use tclv_io::Outside;
use tclv_plain::{PlainCommand, run_plain};

/// The commands of the shell.
pub struct Commands {}

// What a command wants done that evaluates nothing: it is run, and its result is there.
fn plan_plain<O: Outside>(
    machine: &mut Machine<Tables>,
    out: &mut O,
    command: PlainCommand,
    n: usize,
) -> Result<Plan<Behind>, End>
    requires words { n ≤ length machine.old.values.store.stack }
    requires some { 0 < n }
    ensures answer { AnswersOver (spec.wanted_plain command (top n machine.old.values.store.stack)) as_plan machine.old
        (outer (O.told out.old) (O.torn out.old)) result machine.new (outer (O.told out.new) (O.torn out.new)) }
    ensures stack { Leaves (PlanOver (under n machine.old.values.store.stack)) (under n machine.old.values.store.stack) result machine.new.values.store.stack }
    ensures cause { Caused (O.faults out.old) (O.faults out.new) result }
    ensures units { machine.new.units ≡ machine.old.units }
{
    run_plain(machine, out, command, n)?;
    Ok(Plan::Finished(Carried::Plain))
}

// What `proc` wants done: it is run, and its result is there.
fn plan_proc(machine: &mut Machine<Tables>, n: usize) -> Result<Plan<Behind>, End>
    requires words { n ≤ length machine.old.values.store.stack }
    requires some { 0 < n }
    ensures answer { Answers (spec.wanted_proc (top n machine.old.values.store.stack)) as_plan machine.old result machine.new }
    ensures stack { Leaves (PlanOver (under n machine.old.values.store.stack)) (under n machine.old.values.store.stack) result machine.new.values.store.stack }
    ensures calm { IsCalm result }
    ensures units { machine.new.units ≡ machine.old.units }
{
    cmd_proc(machine, n)?;
    Ok(Plan::Finished(Carried::Plain))
}

// What a subcommand of `info` wants done that asks for a procedure or for the level: it is run, and its
// result is there.
fn plan_proc_info(
    machine: &mut Machine<Tables>,
    command: ProcInfo,
    n: usize,
) -> Result<Plan<Behind>, End>
    requires words { n ≤ length machine.old.values.store.stack }
    requires some { 1 < n }
    ensures answer { Answers (spec.wanted_proc_info command (top n machine.old.values.store.stack)) as_plan machine.old result machine.new }
    ensures stack { Leaves (PlanOver (under n machine.old.values.store.stack)) (under n machine.old.values.store.stack) result machine.new.values.store.stack }
    ensures calm { IsCalm result }
    ensures units { machine.new.units ≡ machine.old.units }
{
    run_proc_info(machine, command, n)?;
    Ok(Plan::Finished(Carried::Plain))
}

// What `info` wants done: it is run, and its result is there.
#[tactic(auto, using(tclv_engine::proofs::Binds::calm_caused))]
fn plan_info<O: Outside>(
    machine: &mut Machine<Tables>,
    out: &mut O,
    n: usize,
) -> Result<Plan<Behind>, End>
    requires words { n ≤ length machine.old.values.store.stack }
    requires some { 0 < n }
    ensures answer { AnswersOver (spec.wanted_info (top n machine.old.values.store.stack)) as_plan machine.old
        (outer (O.told out.old) (O.torn out.old)) result machine.new (outer (O.told out.new) (O.torn out.new)) }
    ensures stack { Leaves (PlanOver (under n machine.old.values.store.stack)) (under n machine.old.values.store.stack) result machine.new.values.store.stack }
    ensures cause { Caused (O.faults out.old) (O.faults out.new) result }
    ensures units { machine.new.units ≡ machine.old.units }
{
    match proc_info_in(machine, n)? {
        Some(command) => plan_proc_info(machine, command, n),
        None => plan_plain(machine, out, PlainCommand::Info, n),
    }
}

// What a command wants done that is built in, whose words are the top n texts.
#[tactic(auto, using(tclv_engine::proofs::Binds::calm_caused))]
fn plan_builtin<O: Outside>(
    machine: &mut Machine<Tables>,
    out: &mut O,
    target: CommandTarget,
    n: usize,
) -> Result<Plan<Behind>, End>
    requires words { n ≤ length machine.old.values.store.stack }
    requires some { 0 < n }
    ensures answer { AnswersOver (spec.wanted_builtin target (top n machine.old.values.store.stack)) as_plan machine.old
        (outer (O.told out.old) (O.torn out.old)) result machine.new (outer (O.told out.new) (O.torn out.new)) }
    ensures stack { Leaves (PlanOver (under n machine.old.values.store.stack)) (under n machine.old.values.store.stack) result machine.new.values.store.stack }
    ensures cause { Caused (O.faults out.old) (O.faults out.new) result }
    ensures units { machine.new.units ≡ machine.old.units }
{
    match target {
        CommandTarget::Plain(command) => plan_plain(machine, out, command, n),
        CommandTarget::Control(command) => plan_control(machine, command, n, Behind::HandOn),
        CommandTarget::Code(command) => plan_code(machine, command, n),
        CommandTarget::Info => plan_info(machine, out, n),
        CommandTarget::Proc => plan_proc(machine, n),
    }
}

// What the target of a name wants done, whose words are the top n texts.
#[tactic(auto, using(tclv_engine::proofs::Binds::calm_caused))]
fn plan_target<O: Outside>(
    machine: &mut Machine<Tables>,
    out: &mut O,
    target: Found,
    n: usize,
) -> Result<Plan<Behind>, End>
    requires words { n ≤ length machine.old.values.store.stack }
    requires some { 0 < n }
    ensures answer { AnswersOver (spec.wanted (target_of target) (top n machine.old.values.store.stack)) as_plan machine.old
        (outer (O.told out.old) (O.torn out.old)) result machine.new (outer (O.told out.new) (O.torn out.new)) }
    ensures stack { Leaves (PlanOver (under n machine.old.values.store.stack)) (under n machine.old.values.store.stack) result machine.new.values.store.stack }
    ensures cause { Caused (O.faults out.old) (O.faults out.new) result }
    ensures units { machine.new.units ≡ machine.old.units }
{
    match target {
        Found::Builtin(command) => plan_builtin(machine, out, command, n),
        Found::Procedure(def) => plan_call(machine, def, n, Behind::Procedure),
    }
}

// What the top n texts want done, as the words of a command.
#[tactic(auto, using(tclv_engine::proofs::Binds::calm_caused))]
fn plan<O: Outside>(
    machine: &mut Machine<Tables>,
    out: &mut O,
    n: usize,
) -> Result<Plan<Behind>, End>
    requires words { n ≤ length machine.old.values.store.stack }
    requires some { 0 < n }
    ensures answer { AnswersOver (spec.plan_of (top n machine.old.values.store.stack)) as_plan machine.old
        (outer (O.told out.old) (O.torn out.old)) result machine.new (outer (O.told out.new) (O.torn out.new)) }
    ensures stack { Leaves (PlanOver (under n machine.old.values.store.stack)) (under n machine.old.values.store.stack) result machine.new.values.store.stack }
    ensures cause { Caused (O.faults out.old) (O.faults out.new) result }
    ensures units { machine.new.units ≡ machine.old.units }
{
    let target = resolve(machine, n)?;
    plan_target(machine, out, target, n)
}

// What is done behind a script that ended so, whose result is the top text of the stack.
#[tactic(auto, using(tclv_engine::proofs::Binds::calm_caused))]
fn finish<O: Outside>(
    machine: &mut Machine<Tables>,
    out: &mut O,
    behind: Behind,
    ended: Ended,
) -> Result<Plan<Behind>, End>
    requires { 0 < length machine.old.values.store.stack }
    ensures answer { AnswersOver (finish behind (concluded ended (last_of machine.old.values.store.stack))) as_plan machine.old
        (outer (O.told out.old) (O.torn out.old)) result machine.new (outer (O.told out.new) (O.torn out.new)) }
    ensures stack { Leaves (PlanOver (under 1 machine.old.values.store.stack)) (under 1 machine.old.values.store.stack) result machine.new.values.store.stack }
    ensures cause { Caused (O.faults out.old) (O.faults out.new) result }
    ensures units { machine.new.units ≡ machine.old.units }
{
    let _out = out;
    finish_behind(machine, behind, ended)
}

impl Host for Commands {
    type Own = Tables;

    type Behind = Behind;

    ghost given = { record { plan = spec.plan_of; finish = finish } };

    ghost fits = { λ own told. true };

    fn plan<O: Outside>(
        &self,
        machine: &mut Machine<Tables>,
        out: &mut O,
        n: usize,
    ) -> Result<Plan<Behind>, End> {
        plan(machine, out, n)
    }

    fn finish<O: Outside>(
        &self,
        machine: &mut Machine<Tables>,
        out: &mut O,
        behind: Behind,
        ended: Ended,
    ) -> Result<Plan<Behind>, End> {
        finish(machine, out, behind, ended)
    }
}
