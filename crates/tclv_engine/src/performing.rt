// Performing what a command wants done.
ghost use Rattle.std.specs.Prelude.{◌≡◌, ◌<◌, ◌≤◌, [], length, take, slice_index_or, Err, true};
ghost use Rattle.std.specs.List.{All};
ghost use Rattle.std.specs.Str.{chars};
ghost use Rattle.tclv_model.specs.Message.{text_of};
ghost use Rattle.tclv_value.specs.View.{HasPlace, text_at};
ghost use Rattle.tclv_model.specs.ErrorCodes.{error_code};
ghost use Rattle.tclv_engine.specs.Answers.{AnswersOver, Caused, KeepsStack, PushesOne, PushesResult, Raises, SameState, as_outcome, on_top, outer, returned};
ghost use Rattle.tclv_engine.specs.Evaluation as spec;
ghost use Rattle.tclv_engine.specs.Evaluation.{whole};
ghost use Rattle.tclv_engine.specs.Expressions as expressions;
ghost use Rattle.tclv_engine.specs.Plans as plans;

use crate::endings::{Carried, End, Ended};
use crate::host::Host;
use crate::machine::Machine;
use crate::plans::{Branch, Inner, Plan, Way};
use tclv_io::Outside;
use tclv_model::{ErrorCode, MessageId};
use tclv_value::At;

/// How a script ended, as a value; what nothing concludes stays.
fn caught(ended: Result<Carried, End>) -> Result<Ended, End>
    ensures { result ≡ plans.ended_of ended }
{
    match ended {
        Ok(kept) => Ok(Ended::Ok(kept)),
        Err(End::Left(leaving)) => Ok(Ended::Left(leaving)),
        Err(End::Budget) => Err(End::Budget),
        Err(End::Exit(status)) => Err(End::Exit(status)),
        Err(End::Device) => Err(End::Device),
        Err(End::Memory) => Err(End::Memory),
    }
}

// The branch of a number.
fn branch_at(branches: &[Branch], i: usize) -> Branch
    requires { i < length branches.now }
    ensures { slice_index_or branches.now i result ≡ result }
{
    branches[i]
}

impl<W> Machine<W> {
    /// Does what a plan wants, over the first `base` texts of the stack. Its result is pushed over
    /// them.
    #[cycle(eval)]
    pub fn perform<H: Host<Own = W>, O: Outside>(
        &mut self,
        host: &H,
        out: &mut O,
        plan: Plan<H::Behind>,
        base: usize,
        left: u8,
    ) -> Result<Carried, End>
        requires base { base ≤ length self.old.values.store.stack }
        requires over { plans.PlanOver (take base self.old.values.store.stack) plan self.old.values.store.stack }
        requires fits { H.fits self.old.own (O.told out.old) ≡ true }
        ensures answer { AnswersOver (spec.perform left H.given (whole H.given)
            (plans.wanted_of plan self.old.values.store.stack)) as_outcome self.old (outer (O.told out.old) (O.torn out.old)) result self.new
            (outer (O.told out.new) (O.torn out.new)) }
        ensures stack { PushesResult (take base self.old.values.store.stack) result self.new.values.store.stack }
        ensures cause { Caused (O.faults out.old) (O.faults out.new) result }
        ensures units { self.new.units ≤ self.old.units }
        ensures fits { H.fits self.new.own (O.told out.new) ≡ true }
    {
        match plan {
            Plan::Finished(kept) => Ok(kept),
            Plan::Run(at, behind) => {
                self.around(host, out, Inner::Script(at), behind, base, left)
            }
            Plan::Called(def, behind) => {
                self.around(host, out, Inner::Body(def), behind, base, left)
            }
            Plan::AtLevel(level, at, behind) => {
                self.around(host, out, Inner::AtLevel(level, at), behind, base, left)
            }
            Plan::Value(at) => self.value_at(host, out, at),
            Plan::Choice(branches) => {
                self.run_branches(host, out, branches.items.as_slice(), branches.last)
            }
            Plan::Tested(test, body) => self.repeated(host, out, test, None, body),
            Plan::Started(start, test, next, body) => {
                self.started_loop(host, out, start, test, next, body)
            }
            Plan::Each(groups, body, keep) => self.each_of(host, out, groups.all(), body, keep),
        }
    }

    /// Runs a script or a body, and does what stands behind it, over the first `base` texts of the
    /// stack.
    #[cycle(eval)]
    fn around<H: Host<Own = W>, O: Outside>(
        &mut self,
        host: &H,
        out: &mut O,
        inner: Inner,
        behind: H::Behind,
        base: usize,
        left: u8,
    ) -> Result<Carried, End>
        requires base { base ≤ length self.old.values.store.stack }
        requires inside { plans.InnerInside self.old.values.store.stack inner }
        requires fits { H.fits self.old.own (O.told out.old) ≡ true }
        ensures answer { AnswersOver (spec.around left H.given (whole H.given)
            (plans.inner_of self.old.values.store.stack inner) behind) as_outcome self.old (outer (O.told out.old) (O.torn out.old)) result self.new
            (outer (O.told out.new) (O.torn out.new)) }
        ensures stack { PushesResult (take base self.old.values.store.stack) result self.new.values.store.stack }
        ensures cause { Caused (O.faults out.old) (O.faults out.new) result }
        ensures units { self.new.units ≤ self.old.units }
        ensures fits { H.fits self.new.own (O.told out.new) ≡ true }
    {
        if left == 0 {
            return Err(End::Budget);
        }
        let ended = caught(self.run_inner(host, out, inner))?;
        let plan = host.finish(self, out, behind, ended)?;
        self.perform(host, out, plan, base, left - 1)
    }

    /// Runs a script or a body. Its result is pushed.
    #[cycle(eval)]
    fn run_inner<H: Host<Own = W>, O: Outside>(
        &mut self,
        host: &H,
        out: &mut O,
        inner: Inner,
    ) -> Result<Carried, End>
        requires inside { plans.InnerInside self.old.values.store.stack inner }
        requires fits { H.fits self.old.own (O.told out.old) ≡ true }
        ensures answer { AnswersOver (spec.inner (whole H.given) (plans.inner_of self.old.values.store.stack inner)) as_outcome self.old
            (outer (O.told out.old) (O.torn out.old)) result self.new (outer (O.told out.new) (O.torn out.new)) }
        ensures stack { PushesOne self.old.values.store.stack result self.new.values.store.stack }
        ensures cause { Caused (O.faults out.old) (O.faults out.new) result }
        ensures units { self.new.units ≤ self.old.units }
        ensures fits { H.fits self.new.own (O.told out.new) ≡ true }
    {
        match inner {
            Inner::Script(at) => self.script_at(host, out, At::Stack(at)),
            Inner::Body(def) => self.body_of(host, out, &def),
            Inner::AtLevel(level, at) => self.script_at_level(host, out, level, at),
        }
    }

    /// Pushes the value of the expression that the text of a place of the stack is, as a result.
    #[cycle(eval)]
    #[tactic(auto, using(crate::proofs::Binds::calm_caused))]
    fn value_at<H: Host<Own = W>, O: Outside>(
        &mut self,
        host: &H,
        out: &mut O,
        at: usize,
    ) -> Result<Carried, End>
        requires place { at < length self.old.values.store.stack }
        requires fits { H.fits self.old.own (O.told out.old) ≡ true }
        ensures answer { AnswersOver (spec.value_result (whole H.given) (plans.placed self.old.values.store.stack at)) as_outcome self.old
            (outer (O.told out.old) (O.torn out.old)) result self.new (outer (O.told out.new) (O.torn out.new)) }
        ensures stack { PushesOne self.old.values.store.stack result self.new.values.store.stack }
        ensures cause { Caused (O.faults out.old) (O.faults out.new) result }
        ensures units { self.new.units ≤ self.old.units }
        ensures fits { H.fits self.new.own (O.told out.new) ≡ true }
    {
        let found = self.parsed(At::Stack(at))?;
        self.expression(host, out, &found)?;
        Ok(Carried::Plain)
    }

    /// Whether the expression is true that the text of a place is.
    #[cycle(eval)]
    pub fn condition<H: Host<Own = W>, O: Outside>(
        &mut self,
        host: &H,
        out: &mut O,
        at: At,
    ) -> Result<bool, End>
        requires place { HasPlace self.old.values.store at }
        requires fits { H.fits self.old.own (O.told out.old) ≡ true }
        ensures answer { AnswersOver (expressions.condition (whole H.given) (text_at self.old.values.store at)) returned self.old
            (outer (O.told out.old) (O.torn out.old)) result self.new (outer (O.told out.new) (O.torn out.new)) }
        ensures stack { KeepsStack self.old.values.store.stack result self.new.values.store.stack }
        ensures cause { Caused (O.faults out.old) (O.faults out.new) result }
        ensures units { self.new.units ≤ self.old.units }
        ensures fits { H.fits self.new.own (O.told out.new) ≡ true }
    {
        let found = self.parsed(at)?;
        self.test(host, out, &found)
    }

    /// Evaluates tests one after another, up to the first that is true, and what that leads to; where
    /// none is, what the last lead says.
    #[cycle(eval)]
    fn run_branches<H: Host<Own = W>, O: Outside>(
        &mut self,
        host: &H,
        out: &mut O,
        branches: &[Branch],
        last: Way,
    ) -> Result<Carried, End>
        requires items { All (plans.BranchInside self.old.values.store.stack) branches.now }
        requires last { plans.WayInside self.old.values.store.stack last }
        requires fits { H.fits self.old.own (O.told out.old) ≡ true }
        ensures answer { AnswersOver (spec.choose (whole H.given) (plans.alternatives_of self.old.values.store.stack branches.now)
            (plans.lead_of self.old.values.store.stack last)) as_outcome self.old (outer (O.told out.old) (O.torn out.old)) result self.new
            (outer (O.told out.new) (O.torn out.new)) }
        ensures stack { PushesOne self.old.values.store.stack result self.new.values.store.stack }
        ensures cause { Caused (O.faults out.old) (O.faults out.new) result }
        ensures units { self.new.units ≤ self.old.units }
        ensures fits { H.fits self.new.own (O.told out.new) ≡ true }
    {
        for i in 0..branches.len() {
            let branch = branch_at(branches, i);
            if self.condition(host, out, At::Stack(branch.test))? {
                return self.lead(host, out, branch.way);
            }
        }
        self.lead(host, out, last)
    }

    // Raises the error that a test leads to.
    fn refuse_lead(&mut self, kind: MessageId, first: Option<usize>) -> End
        requires { plans.WayInside self.old.values.store.stack (Way.Refused kind first) }
        ensures raises { Raises (text_of kind (plans.placed_or_none self.old.values.store.stack first) (chars []))
            (error_code ErrorCode.NoCode (plans.placed_or_none self.old.values.store.stack first)) self.new.values.store.stack result }
        ensures same { SameState self.old self.new }
        ensures stack { KeepsStack {T = Unit {0}} self.old.values.store.stack (Err result) self.new.values.store.stack }
    {
        match first {
            None => self.raise(kind, b"", b"", ErrorCode::NoCode),
            Some(at) => self.raise_at(kind, At::Stack(at), b"", ErrorCode::NoCode),
        }
    }

    /// Does what a true test leads to.
    #[cycle(eval)]
    fn lead<H: Host<Own = W>, O: Outside>(
        &mut self,
        host: &H,
        out: &mut O,
        way: Way,
    ) -> Result<Carried, End>
        requires way { plans.WayInside self.old.values.store.stack way }
        requires fits { H.fits self.old.own (O.told out.old) ≡ true }
        ensures answer { AnswersOver (spec.lead (whole H.given) (plans.lead_of self.old.values.store.stack way)) as_outcome self.old
            (outer (O.told out.old) (O.torn out.old)) result self.new (outer (O.told out.new) (O.torn out.new)) }
        ensures stack { PushesOne self.old.values.store.stack result self.new.values.store.stack }
        ensures cause { Caused (O.faults out.old) (O.faults out.new) result }
        ensures units { self.new.units ≤ self.old.units }
        ensures fits { H.fits self.new.own (O.told out.new) ≡ true }
    {
        match way {
            Way::Body(at) => self.script_at(host, out, At::Stack(at)),
            Way::Refused(kind, first) => Err(self.refuse_lead(kind, first)),
            Way::Nothing => {
                self.push_text(b"")?;
                Ok(Carried::Plain)
            }
        }
    }
}
