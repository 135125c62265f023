// The command `uplevel`.
ghost use Rattle.std.specs.Prelude.{◌≡◌, ◌+◌, ◌-◌, ◌<◌, ◌≤◌, [], length, slice_index_or, IfOk};
ghost use Rattle.tclv_value.specs.Stacks.{top, under};
ghost use Rattle.tclv_lists.specs.Joining.{concatenated};
ghost use Rattle.tclv_engine.specs.Results.{done};
ghost use Rattle.tclv_engine.specs.Names.{bytes_of};
ghost use Rattle.tclv_engine.specs.Links.{is_level, level, outer_level};
ghost use Rattle.tclv_engine.specs.Plans.{PlanOver, AtLevel, as_plan};
ghost use Rattle.tclv_engine.specs.Answers.{Answers, IsCalm, Leaves, SameState};
ghost use Rattle.tclv_control.specs.LevelRows as rows;

use crate::misuse::misused;
use crate::script_plans::join_words;
use tclv_engine::{End, Machine, Plan, is_level};
use tclv_model::Usage;
use tclv_text::NoMemory;
use tclv_value::At;

// Whether the lowest of the top n texts has the form of a level.
fn names_level<W>(machine: &mut Machine<W>, n: usize) -> Result<bool, NoMemory>
    requires words { n ≤ length machine.old.values.store.stack }
    requires some { 0 < n }
    ensures says { let stack = machine.old.values.store.stack in
        IfOk result (λ b. b ≡ is_level (bytes_of (slice_index_or stack (length stack - n) []))) }
    ensures stack { machine.new.values.store.stack ≡ machine.old.values.store.stack }
    ensures same { SameState machine.old machine.new }
{
    let word = At::Stack(machine.values.height() - n);
    machine.values.make_text(word)?;
    Ok(is_level(machine.values.lend(word)))
}

// Joins the top n texts, which stand above the word of the call; the text is to run in the frame of a
// level.
fn run_at<W, K: Drop>(
    machine: &mut Machine<W>,
    level: usize,
    n: usize,
    hand_on: K,
) -> Result<Plan<K>, End>
    requires { n + 1 ≤ length machine.old.values.store.stack }
    ensures answer { let stack = machine.old.values.store.stack in
        Answers (λ st. done (AtLevel level (concatenated (top n stack)) hand_on) st) as_plan machine.old result machine.new }
    ensures stack { Leaves (PlanOver (under n machine.old.values.store.stack)) (under n machine.old.values.store.stack) result machine.new.values.store.stack }
    ensures calm { IsCalm result }
    ensures same { SameState machine.old machine.new }
{
    Ok(Plan::AtLevel(level, join_words(machine, n)?, hand_on))
}

// Joins the top n texts; the text is to run in the frame of the caller.
fn run_outside<W, K: Drop>(machine: &mut Machine<W>, n: usize, hand_on: K) -> Result<Plan<K>, End>
    requires { n + 1 ≤ length machine.old.values.store.stack }
    ensures answer { let stack = machine.old.values.store.stack in
        Answers (λ st. rows.run_at hand_on (top n stack) (outer_level st)) as_plan machine.old result machine.new }
    ensures stack { Leaves (PlanOver (under n machine.old.values.store.stack)) (under n machine.old.values.store.stack) result machine.new.values.store.stack }
    ensures calm { IsCalm result }
    ensures units { machine.new.units ≡ machine.old.units }
{
    let level = machine.outer_level()?;
    run_at(machine, level, n, hand_on)
}

// Joins the top n texts; the text is to run in the frame of the level that the text below them names.
fn run_inside<W, K: Drop>(machine: &mut Machine<W>, n: usize, hand_on: K) -> Result<Plan<K>, End>
    requires { n + 1 ≤ length machine.old.values.store.stack }
    ensures answer { let stack = machine.old.values.store.stack in
        Answers (λ st. rows.run_at hand_on (top n stack) (level (slice_index_or stack (length stack - (n + 1)) []) st)) as_plan machine.old result machine.new }
    ensures stack { Leaves (PlanOver (under n machine.old.values.store.stack)) (under n machine.old.values.store.stack) result machine.new.values.store.stack }
    ensures calm { IsCalm result }
    ensures units { machine.new.units ≡ machine.old.units }
{
    let word = At::Stack(machine.values.height() - (n + 1));
    let level = machine.level_at(word)?;
    run_at(machine, level, n, hand_on)
}

// What the words want of `uplevel`, which are three or more.
fn plan_words<W, K: Drop>(machine: &mut Machine<W>, n: usize, hand_on: K) -> Result<Plan<K>, End>
    requires words { n ≤ length machine.old.values.store.stack }
    requires some { 2 < n }
    ensures answer { Answers (rows.wanted_uplevel hand_on (top n machine.old.values.store.stack)) as_plan machine.old result machine.new }
    ensures stack { Leaves (PlanOver (under n machine.old.values.store.stack)) (under n machine.old.values.store.stack) result machine.new.values.store.stack }
    ensures calm { IsCalm result }
    ensures units { machine.new.units ≡ machine.old.units }
{
    if names_level(machine, n - 1)? {
        return run_inside(machine, n - 2, hand_on);
    }
    run_outside(machine, n - 1, hand_on)
}

/// The command `uplevel ?level? command ?arg ...?`: joins its words as `concat` does; the text is to run
/// as a script in the frame of the level, else in that of the caller, and behind it `hand_on` stands. Its
/// words are the top `n` texts of the stack, the word of the call lowest. (Tcl: uplevel(n).)
pub fn plan_uplevel<W, K: Drop>(
    machine: &mut Machine<W>,
    n: usize,
    hand_on: K,
) -> Result<Plan<K>, End>
    requires words { n ≤ length machine.old.values.store.stack }
    requires some { 0 < n }
    ensures answer { Answers (rows.wanted_uplevel hand_on (top n machine.old.values.store.stack)) as_plan machine.old result machine.new }
    ensures stack { Leaves (PlanOver (under n machine.old.values.store.stack)) (under n machine.old.values.store.stack) result machine.new.values.store.stack }
    ensures calm { IsCalm result }
    ensures units { machine.new.units ≡ machine.old.units }
{
    match n {
        1 => misused(machine, n, Usage::Uplevel),
        2 => run_outside(machine, 1, hand_on),
        _ => plan_words(machine, n, hand_on),
    }
}
