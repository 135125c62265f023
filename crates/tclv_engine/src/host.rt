// What the evaluation stands on.
ghost use Rattle.std.specs.Prelude.{◌≡◌, ◌<◌, ◌≤◌, length, Bool, true, Option};
ghost use Rattle.tclv_io.specs.World.{World};
ghost use Rattle.tclv_value.specs.Stacks.{top, under};
ghost use Rattle.tclv_engine.specs.Answers.{AnswersOver, Caused, Leaves, last_of, outer};
ghost use Rattle.tclv_engine.specs.Evaluation.{Given};
ghost use Rattle.tclv_engine.specs.Plans.{PlanOver, as_plan, concluded};

use crate::endings::{End, Ended};
use crate::machine::Machine;
use crate::plans::Plan;
use tclv_io::Outside;

/// The commands, by what their words want done and by what is done behind a script. None of it
/// evaluates.
pub trait Host {
    /// The tables that the commands keep of their own.
    type Own;

    /// What can be done behind a script.
    type Behind: Drop;

    /// The meaning of the commands.
    ghost given: { Given Self.Own Self.Behind };

    /// Whether the tables fit what the outside tells.
    ghost fits: { Self.Own → Option World → Bool };

    /// What the top n texts want done, as the words of a command; the first names the command. The
    /// texts of the plan stand on the stack, over what was below the words.
    fn plan<O: Outside>(
        &self,
        machine: &mut Machine<Self::Own>,
        out: &mut O,
        n: usize,
    ) -> Result<Plan<Self::Behind>, End>
        requires words { n ≤ length machine.old.values.store.stack }
        requires some { 0 < n }
        requires fits { fits machine.old.own (O.told out.old) ≡ true }
        ensures answer { AnswersOver (given.plan (top n machine.old.values.store.stack)) as_plan machine.old
            (outer (O.told out.old) (O.torn out.old)) result machine.new (outer (O.told out.new) (O.torn out.new)) }
        ensures stack { Leaves (PlanOver (under n machine.old.values.store.stack))
            (under n machine.old.values.store.stack) result machine.new.values.store.stack }
        ensures cause { Caused (O.faults out.old) (O.faults out.new) result }
        ensures units { machine.new.units ≡ machine.old.units }
        ensures fits { fits machine.new.own (O.told out.new) ≡ true };

    /// What is done behind a script that ended so, whose result is the top text of the stack.
    fn finish<O: Outside>(
        &self,
        machine: &mut Machine<Self::Own>,
        out: &mut O,
        behind: Self::Behind,
        ended: Ended,
    ) -> Result<Plan<Self::Behind>, End>
        requires some { 0 < length machine.old.values.store.stack }
        requires fits { fits machine.old.own (O.told out.old) ≡ true }
        ensures answer { AnswersOver (given.finish behind (concluded ended (last_of machine.old.values.store.stack))) as_plan machine.old
            (outer (O.told out.old) (O.torn out.old)) result machine.new (outer (O.told out.new) (O.torn out.new)) }
        ensures stack { Leaves (PlanOver (under 1 machine.old.values.store.stack))
            (under 1 machine.old.values.store.stack) result machine.new.values.store.stack }
        ensures cause { Caused (O.faults out.old) (O.faults out.new) result }
        ensures units { machine.new.units ≡ machine.old.units }
        ensures fits { fits machine.new.own (O.told out.new) ≡ true };
}
