// Loops over lists.
ghost use Rattle.std.specs.Prelude.{◌≡◌, ◌<◌, ◌≤◌, [], length, Err, if◌then◌else◌, true};
ghost use Rattle.std.specs.List.{All};
ghost use Rattle.tclv_value.specs.View.{HasPlace, text_at};
ghost use Rattle.tclv_value.specs.Stacks.{top, under};
ghost use Rattle.tclv_model.specs.Message.{text_of};
ghost use Rattle.tclv_model.specs.ErrorCodes.{error_code};
ghost use Rattle.tclv_engine.specs.Evaluation as spec;
ghost use Rattle.tclv_engine.specs.Evaluation.{whole};
ghost use Rattle.tclv_engine.specs.Loops as loops;
ghost use Rattle.tclv_engine.specs.EachLoops as rows;
ghost use Rattle.tclv_engine.specs.EachSteps as steps;
ghost use Rattle.tclv_engine.specs.Answers.{AnswersOver, Leaves, KeepsStack, PushesOne, PushesWords, PushesResult, Raises, Caused, SameState, as_outcome, outer};

use crate::each_groups::Group;
use crate::endings::{Carried, End};
use crate::host::Host;
use crate::loops::BodyEnd;
use crate::machine::Machine;
use tclv_io::Outside;
use tclv_model::MessageId;
use tclv_parse::Script;
use tclv_value::At;

impl<W> Machine<W> {
    // ---- turns

    // A turn: its unit, the values of the variables, and the body.
    #[cycle(eval)]
    fn each_turn<H: Host<Own = W>, O: Outside>(
        &mut self,
        host: &H,
        out: &mut O,
        script: &Script,
        groups: &[Group],
        turn: u64,
    ) -> Result<BodyEnd, End>
        requires groups { All (steps.GroupInside self.old.values.store.stack) groups.now }
        requires fits { H.fits self.old.own (O.told out.old) ≡ true }
        ensures answer { let groups = steps.groups_at self.old.values.store.stack groups.now in
            AnswersOver (rows.each_turn (whole H.given) script.now groups turn) loops.as_turn self.old
            (outer (O.told out.old) (O.torn out.old)) result self.new (outer (O.told out.new) (O.torn out.new)) }
        ensures stack { Leaves (loops.TurnLeaves self.old.values.store.stack) self.old.values.store.stack result self.new.values.store.stack }
        ensures cause { Caused (O.faults out.old) (O.faults out.new) result }
        ensures units { self.new.units ≤ self.old.units }
        ensures fits { H.fits self.new.own (O.told out.new) ≡ true }
    {
        self.take_unit()?;
        self.assign_groups(groups, turn)?;
        self.body(host, out, script)
    }

    // Whether the loop goes on behind a body. Its result stays on the stack where it is kept.
    fn follows(&mut self, ended: BodyEnd, keep: bool) -> bool
        requires { loops.HasBodyResult ended self.old.values.store.stack }
        ensures more { result ≡ loops.more_after ended }
        ensures stack { self.new.values.store.stack ≡ (if keep then self.old.values.store.stack else loops.without_result ended self.old.values.store.stack) }
        ensures same { SameState self.old self.new }
    {
        if !keep {
            return self.goes_on(ended);
        }
        match ended {
            BodyEnd::Gave => true,
            BodyEnd::Skipped => true,
            BodyEnd::Broke => false,
        }
    }

    // All turns, of which there are so many. The results of the bodies are pushed where they are kept.
    #[cycle(eval)]
    fn each_turns<H: Host<Own = W>, O: Outside>(
        &mut self,
        host: &H,
        out: &mut O,
        script: &Script,
        groups: &[Group],
        count: u64,
        keep: bool,
    ) -> Result<(), End>
        requires groups { All (steps.GroupInside self.old.values.store.stack) groups.now }
        requires fits { H.fits self.old.own (O.told out.old) ≡ true }
        ensures answer { let base = self.old.values.store.stack in
            AnswersOver (rows.each_turns (rows.each_turn (whole H.given) script.now (steps.groups_at base groups.now)) count 0 [])
            (steps.kept keep base) self.old (outer (O.told out.old) (O.torn out.old)) result self.new (outer (O.told out.new) (O.torn out.new)) }
        ensures stack { PushesWords self.old.values.store.stack result self.new.values.store.stack }
        ensures cause { Caused (O.faults out.old) (O.faults out.new) result }
        ensures units { self.new.units ≤ self.old.units }
        ensures fits { H.fits self.new.own (O.told out.new) ≡ true }
    {
        for turn in 0..count {
            let ended = self.each_turn(host, out, script, groups, turn)?;
            if !self.follows(ended, keep) {
                return Ok(());
            }
        }
        Ok(())
    }

    // ---- all turns

    /// Takes all turns of groups, whose words stand on the stack as the body does, and pushes the list
    /// of the results that were kept.
    #[cycle(eval)]
    pub fn each_of<H: Host<Own = W>, O: Outside>(
        &mut self,
        host: &H,
        out: &mut O,
        groups: &[Group],
        body: usize,
        keep: bool,
    ) -> Result<Carried, End>
        requires body { body < length self.old.values.store.stack }
        requires groups { All (steps.GroupInside self.old.values.store.stack) groups.now }
        requires fits { H.fits self.old.own (O.told out.old) ≡ true }
        ensures answer { let groups = steps.groups_at self.old.values.store.stack groups.now in
            AnswersOver (rows.each_of (rows.result_of keep) (whole H.given) (text_at self.old.values.store (At.Stack body)) groups)
            as_outcome self.old (outer (O.told out.old) (O.torn out.old)) result self.new (outer (O.told out.new) (O.torn out.new)) }
        ensures stack { PushesOne self.old.values.store.stack result self.new.values.store.stack }
        ensures cause { Caused (O.faults out.old) (O.faults out.new) result }
        ensures units { self.new.units ≤ self.old.units }
        ensures fits { H.fits self.new.own (O.told out.new) ≡ true }
    {
        let height = self.values.height();
        let script = self.values.script(At::Stack(body))?;
        let count = self.turn_count(groups);
        self.each_turns(host, out, &script, groups, count, keep)?;
        let results = self.values.height() - height;
        self.values.push_list(results)?;
        Ok(Carried::Plain)
    }
}
