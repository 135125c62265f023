// Calls of procedures.
ghost use Rattle.std.specs.Prelude.{◌≡◌, ◌+◌, ◌<◌, ◌≤◌, length};
ghost use Rattle.tclv_value.specs.Stacks.{top, under};
ghost use Rattle.tclv_ctl.specs.Arguments as binding;
ghost use Rattle.tclv_engine.specs.Plans.{PlanOver, as_plan};
ghost use Rattle.tclv_engine.specs.Answers.{Answers, IsCalm, Leaves, SameState};
ghost use Rattle.tclv_control.specs.CallRows as rows;

use std::rc::Rc;
use tclv_ctl::bind;
use tclv_engine::{End, Machine, Plan};
use tclv_model::CmdFault;
use tclv_value::ProcDef;

// Puts the texts that the parameters of a procedure get in place of the top n texts, which are the
// words of a call above its name.
fn bind_words<W>(machine: &mut Machine<W>, def: &ProcDef, n: usize) -> Result<(), CmdFault>
    requires { n + 1 ≤ length machine.old.values.store.stack }
    ensures bound { let stack = machine.old.values.store.stack in
        binding.Replaces (binding.arguments (top 1 (under n stack)) def.now (top n stack)) n machine.old.values.store machine.new.values.store result }
    ensures same { SameState machine.old machine.new }
{
    bind(&mut machine.values.store, def, 1, n)
}

/// A call of a procedure: the parameters get the words behind its name, and the body is to run, behind
/// which `behind` stands. The words are the top `n` texts of the stack, the name of the procedure
/// lowest. (Tcl: proc(n).)
pub fn plan_call<W, K: Drop>(
    machine: &mut Machine<W>,
    def: Rc<ProcDef>,
    n: usize,
    behind: K,
) -> Result<Plan<K>, End>
    requires words { n ≤ length machine.old.values.store.stack }
    requires some { 0 < n }
    ensures answer { Answers (rows.wanted_call def.value behind (top n machine.old.values.store.stack)) as_plan machine.old result machine.new }
    ensures stack { Leaves (PlanOver (under n machine.old.values.store.stack)) (under n machine.old.values.store.stack) result machine.new.values.store.stack }
    ensures calm { IsCalm result }
    ensures units { machine.new.units ≡ machine.old.units }
{
    match bind_words(machine, &def, n - 1) {
        Ok(()) => Ok(Plan::Called(def, behind)),
        Err(CmdFault::NoMemory) => Err(End::Memory),
        Err(CmdFault::WrongArgs) => Err(machine.refuse()),
        Err(CmdFault::Message) => Err(machine.refuse()),
    }
}
