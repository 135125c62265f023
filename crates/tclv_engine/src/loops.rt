// Loops: how a body ends a turn.
ghost use Rattle.std.specs.Prelude.{◌≡◌, ◌<◌, ◌≤◌, OnOk, true};
ghost use Rattle.tclv_engine.specs.Evaluation as spec;
ghost use Rattle.tclv_engine.specs.Evaluation.{whole};
ghost use Rattle.tclv_engine.specs.Loops as loops;
ghost use Rattle.tclv_engine.specs.Answers.{AnswersOver, HasResult, Leaves, KeepsStack, Caused, SameState, returned, outer};

use crate::endings::{Carried, End, Leaving};
use crate::host::Host;
use crate::machine::Machine;
use tclv_io::Outside;
use tclv_model::Code;
use tclv_parse::Script;

/// How a body ended, for the loop around it.
#[derive(Clone, Copy, Debug, PartialEq, Eq)]
pub enum BodyEnd {
    /// With a result, which is the top text of the stack.
    Gave,
    /// By `continue`.
    Skipped,
    /// By `break`.
    Broke,
}

impl<W> Machine<W> {
    /// Evaluates the body of a loop. Where it is ok, its result is pushed; a break or a continue
    /// leaves nothing on the stack.
    #[cycle(eval)]
    pub fn body<H: Host<Own = W>, O: Outside>(
        &mut self,
        host: &H,
        out: &mut O,
        script: &Script,
    ) -> Result<BodyEnd, End>
        requires fits { H.fits self.old.own (O.told out.old) ≡ true }
        ensures answer { AnswersOver (loops.body (whole H.given) script.now) loops.as_turn self.old
            (outer (O.told out.old) (O.torn out.old)) result self.new (outer (O.told out.new) (O.torn out.new)) }
        ensures stack { Leaves (loops.TurnLeaves self.old.values.store.stack) self.old.values.store.stack result self.new.values.store.stack }
        ensures cause { Caused (O.faults out.old) (O.faults out.new) result }
        ensures units { self.new.units ≤ self.old.units }
        ensures fits { H.fits self.new.own (O.told out.new) ≡ true }
    {
        let height = self.values.height();
        let ended = self.script(host, out, script);
        self.end_body(height, ended)
    }

    // Ends a body, whose script left its texts over a height.
    fn end_body(&mut self, height: usize, ended: Result<Carried, End>) -> Result<BodyEnd, End>
        requires { HasResult height ended self.old.values.store.stack }
        ensures turn { result ≡ loops.body_end_of ended }
        ensures stack { self.new.values.store.stack ≡ loops.cut_back ended height self.old.values.store.stack }
        ensures same { SameState self.old self.new }
    {
        match ended {
            Ok(_) => Ok(BodyEnd::Gave),
            Err(End::Left(Leaving::Other(Code::Break, _))) => {
                self.values.pop(self.values.height() - height);
                Ok(BodyEnd::Broke)
            }
            Err(End::Left(Leaving::Other(Code::Continue, _))) => {
                self.values.pop(self.values.height() - height);
                Ok(BodyEnd::Skipped)
            }
            Err(end) => Err(end),
        }
    }

    /// Lets the result of a body go. Whether its loop goes on.
    pub fn goes_on(&mut self, ended: BodyEnd) -> bool
        requires { loops.HasBodyResult ended self.old.values.store.stack }
        ensures more { result ≡ loops.more_after ended }
        ensures stack { self.new.values.store.stack ≡ loops.without_result ended self.old.values.store.stack }
        ensures same { SameState self.old self.new }
    {
        match ended {
            BodyEnd::Gave => {
                self.values.pop(1);
                true
            }
            BodyEnd::Skipped => true,
            BodyEnd::Broke => false,
        }
    }

    /// A turn that is to come: takes a unit, and then evaluates the body of the loop. Whether another
    /// turn follows.
    #[cycle(eval)]
    pub fn paid_body<H: Host<Own = W>, O: Outside>(
        &mut self,
        host: &H,
        out: &mut O,
        script: &Script,
    ) -> Result<bool, End>
        requires fits { H.fits self.old.own (O.told out.old) ≡ true }
        ensures answer { AnswersOver (loops.paid_body (whole H.given) script.now) returned self.old
            (outer (O.told out.old) (O.torn out.old)) result self.new (outer (O.told out.new) (O.torn out.new)) }
        ensures stack { KeepsStack self.old.values.store.stack result self.new.values.store.stack }
        ensures cause { Caused (O.faults out.old) (O.faults out.new) result }
        ensures units { self.new.units ≤ self.old.units }
        ensures fewer { OnOk result (self.new.units < self.old.units) }
        ensures fits { H.fits self.new.own (O.told out.new) ≡ true }
    {
        self.take_unit()?;
        let ended = self.body(host, out, script)?;
        Ok(self.goes_on(ended))
    }

    // Ends a script between turns, which left its texts over a height.
    fn end_between(&mut self, height: usize, ended: Result<Carried, End>) -> Result<bool, End>
        requires { HasResult height ended self.old.values.store.stack }
        ensures turn { result ≡ loops.between_end_of ended }
        ensures stack { self.new.values.store.stack ≡ loops.cut_between ended height self.old.values.store.stack }
        ensures same { SameState self.old self.new }
    {
        match ended {
            Ok(_) => {
                self.values.pop(self.values.height() - height);
                Ok(true)
            }
            Err(End::Left(Leaving::Other(Code::Break, _))) => {
                self.values.pop(self.values.height() - height);
                Ok(false)
            }
            Err(end) => Err(end),
        }
    }

    /// Evaluates a script between the turns of a loop. Whether the loop goes on: a break ends it.
    #[cycle(eval)]
    pub fn between_turns<H: Host<Own = W>, O: Outside>(
        &mut self,
        host: &H,
        out: &mut O,
        script: &Script,
    ) -> Result<bool, End>
        requires fits { H.fits self.old.own (O.told out.old) ≡ true }
        ensures answer { AnswersOver (loops.between_turns (whole H.given) script.now) returned self.old
            (outer (O.told out.old) (O.torn out.old)) result self.new (outer (O.told out.new) (O.torn out.new)) }
        ensures stack { KeepsStack self.old.values.store.stack result self.new.values.store.stack }
        ensures cause { Caused (O.faults out.old) (O.faults out.new) result }
        ensures units { self.new.units ≤ self.old.units }
        ensures fits { H.fits self.new.own (O.told out.new) ≡ true }
    {
        let height = self.values.height();
        let ended = self.script(host, out, script);
        self.end_between(height, ended)
    }
}
