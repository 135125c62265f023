// Loops that go on as long as a test is true.
ghost use Rattle.std.specs.Prelude.{◌≡◌, ◌+◌, ◌<◌, ◌≤◌, true, length, IfOk, IfSome};
ghost use Rattle.tclv_value.specs.View.{text_at};
ghost use Rattle.tclv_engine.specs.Evaluation.{whole};
ghost use Rattle.tclv_engine.specs.Loops as loops;
ghost use Rattle.tclv_engine.specs.TestedLoops as rows;
ghost use Rattle.tclv_engine.specs.Plans.{placed};
ghost use Rattle.tclv_engine.specs.Instructions as run;
ghost use Rattle.tclv_engine.specs.Instructions.{Fits};
ghost use Rattle.tclv_engine.specs.Answers.{AnswersOver, KeepsStack, PushesOne, Caused, as_outcome, returned, outer};

use crate::endings::{Carried, End};
use crate::host::Host;
use crate::machine::Machine;
use sqlite_items::Items;
use std::rc::Rc;
use tclv_exprp::Instruction;
use tclv_io::Outside;
use tclv_parse::Script;
use tclv_value::At;

impl<W> Machine<W> {
    // A turn: the test, a unit and the body, and where another turn is to follow, the script between
    // the two, if there is one. Whether another turn follows.
    #[cycle(eval)]
    fn turn<H: Host<Own = W>, O: Outside>(
        &mut self,
        host: &H,
        out: &mut O,
        test: &Items<Instruction>,
        next: &Option<Rc<Script>>,
        body: &Script,
    ) -> Result<bool, End>
        requires shape { Fits test.now 0 0 }
        requires fits { H.fits self.old.own (O.told out.old) ≡ true }
        ensures answer { AnswersOver (run.run_turn (whole H.given) test.now next.now body.now) returned self.old
            (outer (O.told out.old) (O.torn out.old)) result self.new (outer (O.told out.new) (O.torn out.new)) }
        ensures stack { KeepsStack self.old.values.store.stack result self.new.values.store.stack }
        ensures cause { Caused (O.faults out.old) (O.faults out.new) result }
        ensures units { self.new.units ≤ self.old.units }
        ensures fewer { IfOk result (λ more. more ≡ true → self.new.units < self.old.units) }
        ensures fits { H.fits self.new.own (O.told out.new) ≡ true }
    {
        if !self.test(host, out, test)? {
            return Ok(false);
        }
        if !self.paid_body(host, out, body)? {
            return Ok(false);
        }
        match next {
            None => Ok(true),
            Some(script) => self.between_turns(host, out, script),
        }
    }

    // All turns.
    #[cycle(eval)]
    fn turns<H: Host<Own = W>, O: Outside>(
        &mut self,
        host: &H,
        out: &mut O,
        test: &Items<Instruction>,
        next: &Option<Rc<Script>>,
        body: &Script,
    ) -> Result<(), End>
        requires shape { Fits test.now 0 0 }
        requires fits { H.fits self.old.own (O.told out.old) ≡ true }
        ensures answer { AnswersOver (loops.loop (run.run_turn (whole H.given) test.now next.now body.now)) returned self.old
            (outer (O.told out.old) (O.torn out.old)) result self.new (outer (O.told out.new) (O.torn out.new)) }
        ensures stack { KeepsStack self.old.values.store.stack result self.new.values.store.stack }
        ensures cause { Caused (O.faults out.old) (O.faults out.new) result }
        ensures units { self.new.units ≤ self.old.units }
        ensures fits { H.fits self.new.own (O.told out.new) ≡ true }
    {
        'turns: while self.turn(host, out, test, next, body)? {}
        Ok(())
    }

    /// Takes the turns of a loop, and pushes the empty text. The test and the body stand at places of
    /// the stack, and so does the script between turns, where there is one. A turn is the test, and
    /// where it is true a unit and the body.
    #[cycle(eval)]
    pub fn repeated<H: Host<Own = W>, O: Outside>(
        &mut self,
        host: &H,
        out: &mut O,
        test: usize,
        next: Option<usize>,
        body: usize,
    ) -> Result<Carried, End>
        requires test { test < length self.old.values.store.stack }
        requires next { IfSome next (λ at. at < length self.old.values.store.stack) }
        requires body { body < length self.old.values.store.stack }
        requires fits { H.fits self.old.own (O.told out.old) ≡ true }
        ensures answer { AnswersOver (rows.repeated (whole H.given) (placed self.old.values.store.stack) test next body) as_outcome self.old
            (outer (O.told out.old) (O.torn out.old)) result self.new (outer (O.told out.new) (O.torn out.new)) }
        ensures stack { PushesOne self.old.values.store.stack result self.new.values.store.stack }
        ensures cause { Caused (O.faults out.old) (O.faults out.new) result }
        ensures units { self.new.units ≤ self.old.units }
        ensures fits { H.fits self.new.own (O.told out.new) ≡ true }
    {
        let tested = self.parsed(At::Stack(test))?;
        let between = self.values.script_or_none(next)?;
        let script = self.values.script(At::Stack(body))?;
        self.turns(host, out, &tested, &between, &script)?;
        self.push_text(b"")?;
        Ok(Carried::Plain)
    }

    /// Evaluates the start of a loop, whose result goes, and then takes the turns. All stand at places
    /// of the stack.
    #[cycle(eval)]
    pub fn started_loop<H: Host<Own = W>, O: Outside>(
        &mut self,
        host: &H,
        out: &mut O,
        start: usize,
        test: usize,
        next: usize,
        body: usize,
    ) -> Result<Carried, End>
        requires start { start < length self.old.values.store.stack }
        requires test { test < length self.old.values.store.stack }
        requires next { next < length self.old.values.store.stack }
        requires body { body < length self.old.values.store.stack }
        requires fits { H.fits self.old.own (O.told out.old) ≡ true }
        ensures answer { AnswersOver (rows.started_loop (whole H.given) (text_at self.old.values.store (At.Stack start))
            (text_at self.old.values.store (At.Stack test)) (text_at self.old.values.store (At.Stack next))
            (text_at self.old.values.store (At.Stack body))) as_outcome self.old (outer (O.told out.old) (O.torn out.old)) result self.new
            (outer (O.told out.new) (O.torn out.new)) }
        ensures stack { PushesOne self.old.values.store.stack result self.new.values.store.stack }
        ensures cause { Caused (O.faults out.old) (O.faults out.new) result }
        ensures units { self.new.units ≤ self.old.units }
        ensures fits { H.fits self.new.own (O.told out.new) ≡ true }
    {
        self.script_at(host, out, At::Stack(start))?;
        self.values.pop(1);
        self.repeated(host, out, test, Some(next), body)
    }
}
