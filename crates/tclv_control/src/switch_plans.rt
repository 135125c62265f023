// The command `switch`.
ghost use Rattle.std.specs.Prelude.{◌≡◌, ◌+◌, ◌-◌, ◌<◌, ◌≤◌, IfOk, IfSome, [], length, slice_index_or};
ghost use Rattle.std.specs.List.{All};
ghost use Rattle.std.specs.Option.{option_map};
ghost use Rattle.tclv_value.specs.Stacks.{top, under};
ghost use Rattle.tclv_reply.specs.Replies as replies;
ghost use Rattle.tclv_ctl.specs.Switching as control;
ghost use Rattle.tclv_engine.specs.DataAnswers.{of_answer};
ghost use Rattle.tclv_engine.specs.Plans.{PlanOver, as_plan};
ghost use Rattle.tclv_engine.specs.Results.{done};
ghost use Rattle.tclv_engine.specs.Answers.{Answers, IsCalm, Leaves, PushesWords, SameState};
ghost use Rattle.tclv_control.specs.SwitchRows as rows;

use tclv_ctl::{SwitchPlan, chosen_body, switch_clauses};
use tclv_engine::{Carried, End, Machine, Plan};
use tclv_model::CmdFault;
use tclv_text::NoMemory;

// Reads the words of `switch` that are the top n texts, above the word of the call. A refusal leaves
// its message and its code in their place.
fn read_words<W>(machine: &mut Machine<W>, n: usize) -> Result<SwitchPlan, CmdFault>
    requires { n + 1 ≤ length machine.old.values.store.stack }
    ensures plan { let stack = machine.old.values.store.stack in
        control.Plans (control.row_switch (replies.call_word n stack) (top n stack)) n machine.old.values.store machine.new.values.store result }
    ensures same { SameState machine.old machine.new }
{
    switch_clauses(&mut machine.values.store, n)
}

// The place of the body that a plan of `switch` chooses, if it chooses one.
fn chosen_place<W>(machine: &mut Machine<W>, plan: &SwitchPlan) -> Result<Option<usize>, NoMemory>
    requires string { plan.now.string < length machine.old.values.store.stack }
    requires clauses { All (control.IsInside machine.old.values.store.stack) plan.now.clauses.items }
    ensures chosen { let stack = machine.old.values.store.stack in
        IfOk result (λ found. option_map (λ body. slice_index_or stack body []) found ≡ control.chosen_by plan.now stack) }
    ensures inside { IfOk result (λ found. IfSome found (λ body. body < length machine.old.values.store.stack)) }
    ensures stack { machine.new.values.store.stack ≡ machine.old.values.store.stack }
    ensures same { SameState machine.old machine.new }
{
    chosen_body(&mut machine.values.store, plan)
}

// What the words ask for that are the top n texts, above the word of the call. Elements of a list of
// clauses may stand above them then.
fn asked<W>(machine: &mut Machine<W>, n: usize) -> Result<SwitchPlan, End>
    requires { n + 1 ≤ length machine.old.values.store.stack }
    ensures answer { let stack = machine.old.values.store.stack in
        Answers (of_answer (control.row_switch (replies.call_word n stack) (top n stack))) control.IsPlanOf machine.old result machine.new }
    ensures stack { PushesWords (under n machine.old.values.store.stack) result machine.new.values.store.stack }
    ensures calm { IsCalm result }
    ensures same { SameState machine.old machine.new }
    ensures string { IfOk result (λ plan. plan.string < length machine.new.values.store.stack) }
    ensures clauses { IfOk result (λ plan. All (control.IsInside machine.new.values.store.stack) plan.clauses.items) }
{
    match read_words(machine, n) {
        Ok(plan) => Ok(plan),
        Err(CmdFault::NoMemory) => Err(End::Memory),
        Err(CmdFault::WrongArgs) => Err(machine.refuse()),
        Err(CmdFault::Message) => Err(machine.refuse()),
    }
}

// The body that a plan of `switch` chooses, to be run with `hand_on` behind it; where it chooses none,
// the empty text is the result.
fn plan_body<W, K: Drop>(
    machine: &mut Machine<W>,
    plan: &SwitchPlan,
    hand_on: K,
) -> Result<Plan<K>, End>
    requires string { plan.now.string < length machine.old.values.store.stack }
    requires clauses { All (control.IsInside machine.old.values.store.stack) plan.now.clauses.items }
    ensures answer { Answers (done (rows.run_of hand_on (control.chosen_by plan.now machine.old.values.store.stack))) as_plan machine.old result machine.new }
    ensures stack { Leaves (PlanOver machine.old.values.store.stack) machine.old.values.store.stack result machine.new.values.store.stack }
    ensures calm { IsCalm result }
    ensures same { SameState machine.old machine.new }
{
    match chosen_place(machine, plan)? {
        Some(body) => Ok(Plan::Run(body, hand_on)),
        None => {
            machine.push_text(b"")?;
            Ok(Plan::Finished(Carried::Plain))
        }
    }
}

/// The command `switch ?option ...? string ?pattern body ...? ?default body?`: the body of the first
/// clause whose pattern fits the string is to run as a script, behind which `hand_on` stands.
/// `default` as the last pattern fits each string. Where no clause is chosen, the result is empty. Its
/// words are the top `n` texts of the stack, the word of the call lowest. (Tcl: switch(n).)
pub fn plan_switch<W, K: Drop>(
    machine: &mut Machine<W>,
    n: usize,
    hand_on: K,
) -> Result<Plan<K>, End>
    requires words { n ≤ length machine.old.values.store.stack }
    requires some { 0 < n }
    ensures answer { Answers (rows.wanted_switch hand_on (top n machine.old.values.store.stack)) as_plan machine.old result machine.new }
    ensures stack { Leaves (PlanOver (under n machine.old.values.store.stack)) (under n machine.old.values.store.stack) result machine.new.values.store.stack }
    ensures calm { IsCalm result }
    ensures units { machine.new.units ≡ machine.old.units }
{
    let plan = asked(machine, n - 1)?;
    plan_body(machine, &plan, hand_on)
}
