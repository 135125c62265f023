// The commands `global` and `upvar`.
ghost use Rattle.std.specs.Prelude.{◌≡◌, ◌+◌, ◌-◌, ◌<◌, ◌≤◌, [], length, drop};
ghost use Rattle.tclv_value.specs.Stacks.{top, under};
ghost use Rattle.tclv_engine.specs.Answers.{Answers, IsCalm, KeepsStack, PushesOne, PushesResult, as_result};
ghost use Rattle.tclv_engine.specs.ListAssignment.{unseen};
ghost use Rattle.tclv_engine.specs.Results.{ok};
ghost use Rattle.tclv_plain.specs.LinkRows as spec;

use crate::misuse::misused;
use tclv_engine::{End, Machine};
use tclv_model::Usage;
use tclv_value::At;
use tclv_vars::Root;

// Pushes the empty text, as the result.
fn push_empty<W>(machine: &mut Machine<W>) -> Result<(), End>
    ensures answer { Answers (ok []) as_result machine.old result machine.new }
    ensures stack { PushesOne machine.old.values.store.stack result machine.new.values.store.stack }
    ensures calm { IsCalm result }
    ensures units { machine.new.units ≡ machine.old.units }
{
    machine.values.push_text(b"")?;
    Ok(())
}

// ---- global

// Links the names from a place of the stack on to the global variables of these names.
fn link_globals<W>(machine: &mut Machine<W>, from: usize) -> Result<(), End>
    requires { from ≤ length machine.old.values.store.stack }
    ensures answer { Answers (spec.link_globals (drop from machine.old.values.store.stack)) unseen machine.old result machine.new }
    ensures stack { KeepsStack machine.old.values.store.stack result machine.new.values.store.stack }
    ensures calm { IsCalm result }
    ensures units { machine.new.units ≡ machine.old.units }
{
    for name in from..machine.values.height() {
        machine.link_global(name)?;
    }
    Ok(())
}

// The same, with the empty text as the result.
fn run_global<W>(machine: &mut Machine<W>, from: usize) -> Result<(), End>
    requires { from ≤ length machine.old.values.store.stack }
    ensures answer { Answers (spec.global_of (drop from machine.old.values.store.stack)) as_result machine.old result machine.new }
    ensures stack { PushesOne machine.old.values.store.stack result machine.new.values.store.stack }
    ensures calm { IsCalm result }
    ensures units { machine.new.units ≡ machine.old.units }
{
    link_globals(machine, from)?;
    push_empty(machine)
}

/// The command `global ?varName ...?`: in a local frame each name is that of a global variable from then
/// on; elsewhere nothing is done. Its words are the top `n` texts of the stack, the word of the call
/// lowest. (Tcl: global(n).)
pub fn cmd_global<W>(machine: &mut Machine<W>, n: usize) -> Result<(), End>
    requires words { n ≤ length machine.old.values.store.stack }
    requires some { 0 < n }
    ensures answer { Answers (spec.row_global (top n machine.old.values.store.stack)) as_result machine.old result machine.new }
    ensures stack { PushesResult (under n machine.old.values.store.stack) result machine.new.values.store.stack }
    ensures calm { IsCalm result }
    ensures units { machine.new.units ≡ machine.old.units }
{
    let from = machine.values.height() - (n - 1);
    if machine.values.is_local() {
        return run_global(machine, from);
    }
    push_empty(machine)
}

// ---- upvar

// Links pairs of another name and a local one, which stand from a place of the stack on; the others stand
// in the frame of this level.
fn link_pairs<W>(machine: &mut Machine<W>, level: usize, from: usize) -> Result<(), End>
    requires { from ≤ length machine.old.values.store.stack }
    ensures answer { Answers (spec.link_pairs (Root.Level level) (drop from machine.old.values.store.stack)) unseen machine.old result machine.new }
    ensures stack { KeepsStack machine.old.values.store.stack result machine.new.values.store.stack }
    ensures calm { IsCalm result }
    ensures units { machine.new.units ≡ machine.old.units }
{
    let pairs = (machine.values.height() - from) / 2;
    for i in 0..pairs {
        machine.link(Root::Level(level), from + 2 * i, from + 2 * i + 1)?;
    }
    Ok(())
}

// The same, with the empty text as the result.
fn run_pairs<W>(machine: &mut Machine<W>, level: usize, from: usize) -> Result<(), End>
    requires { from ≤ length machine.old.values.store.stack }
    ensures answer { Answers (spec.pairs_of (drop from machine.old.values.store.stack) level) as_result machine.old result machine.new }
    ensures stack { PushesOne machine.old.values.store.stack result machine.new.values.store.stack }
    ensures calm { IsCalm result }
    ensures units { machine.new.units ≡ machine.old.units }
{
    link_pairs(machine, level, from)?;
    push_empty(machine)
}

// Links the pairs from a place of the stack on; the text below it names the level.
fn upvar_inside<W>(machine: &mut Machine<W>, from: usize) -> Result<(), End>
    requires level { 0 < from }
    requires words { from ≤ length machine.old.values.store.stack }
    ensures answer { Answers (spec.upvar_inside (drop (from - 1) machine.old.values.store.stack)) as_result machine.old result machine.new }
    ensures stack { PushesOne machine.old.values.store.stack result machine.new.values.store.stack }
    ensures calm { IsCalm result }
    ensures units { machine.new.units ≡ machine.old.units }
{
    let level = machine.level_at(At::Stack(from - 1))?;
    run_pairs(machine, level, from)
}

// Links the pairs from a place of the stack on; the others stand in the frame of the caller.
fn upvar_outside<W>(machine: &mut Machine<W>, from: usize) -> Result<(), End>
    requires { from ≤ length machine.old.values.store.stack }
    ensures answer { Answers (spec.upvar_outside (drop from machine.old.values.store.stack)) as_result machine.old result machine.new }
    ensures stack { PushesOne machine.old.values.store.stack result machine.new.values.store.stack }
    ensures calm { IsCalm result }
    ensures units { machine.new.units ≡ machine.old.units }
{
    let level = machine.outer_level()?;
    run_pairs(machine, level, from)
}

/// The command `upvar ?level? otherVar localVar ?otherVar localVar ...?`: each local name is a second name
/// of the other variable, which stands in the frame of the level, else in that of the caller. Its words
/// are the top `n` texts of the stack, the word of the call lowest. (Tcl: upvar(n).)
pub fn cmd_upvar<W>(machine: &mut Machine<W>, n: usize) -> Result<(), End>
    requires words { n ≤ length machine.old.values.store.stack }
    requires some { 0 < n }
    ensures answer { Answers (spec.row_upvar (top n machine.old.values.store.stack)) as_result machine.old result machine.new }
    ensures stack { PushesResult (under n machine.old.values.store.stack) result machine.new.values.store.stack }
    ensures calm { IsCalm result }
    ensures units { machine.new.units ≡ machine.old.units }
{
    let base = machine.values.height() - n;
    if n < 3 {
        return Err(misused(machine, At::Stack(base), Usage::Upvar));
    }
    if (n - 1) % 2 == 1 {
        return upvar_inside(machine, base + 2);
    }
    upvar_outside(machine, base + 1)
}
