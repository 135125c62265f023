// Frames of variables, in which bodies of procedures and scripts of other levels run.
ghost use Rattle.std.specs.Prelude.{◌≡◌, ◌-◌, ◌<◌, ◌≤◌, [], length, drop, slice_index_or, true, if◌then◌else◌};
ghost use Rattle.std.specs.Str.{chars};
ghost use Rattle.tclv_text.specs.Texts.{IsText};
ghost use Rattle.tclv_value.specs.Stacks.{top};
ghost use Rattle.tclv_engine.specs.Answers.{Answers, AnswersOver, Caused, IsCalm, KeepsStack, PushesOne, as_outcome, outer};
ghost use Rattle.tclv_engine.specs.Evaluation as spec;
ghost use Rattle.tclv_engine.specs.Evaluation.{whole};
ghost use Rattle.tclv_engine.specs.Frames as frames;
ghost use Rattle.tclv_engine.specs.ListAssignment.{assign_each, unseen};
ghost use Rattle.tclv_engine.specs.Plans as plans;
ghost use Rattle.tclv_engine.specs.Results.{bind};
ghost use Rattle.tclv_engine.specs.Variables.{assign};

use crate::endings::{Carried, End};
use crate::host::Host;
use crate::machine::Machine;
use tclv_io::Outside;
use tclv_value::{At, Param, ProcDef};

// The place behind the texts that the named parameters of a procedure get; those of all parameters are on
// top.
fn named_end(def: &ProcDef, height: usize) -> usize
    requires { frames.text_count def.now ≤ height }
    ensures { result ≡ height - (if def.now.rest then 1 else 0) }
{
    if def.has_rest() {
        return height - 1;
    }
    height
}

impl<W> Machine<W> {
    // ---- parameters

    // Sets the variable whose name is a place of the stack to the text of another place, which is shared
    // and not copied.
    fn assign_copy(&mut self, name: usize, from: usize) -> Result<(), End>
        requires name { name < length self.old.values.store.stack }
        requires place { from < length self.old.values.store.stack }
        ensures answer { let stack = self.old.values.store.stack in Answers
            (assign (slice_index_or stack name []) (slice_index_or stack from [])) unseen self.old result self.new }
        ensures stack { KeepsStack self.old.values.store.stack result self.new.values.store.stack }
        ensures calm { IsCalm result }
        ensures units { self.new.units ≡ self.old.units }
        ensures own { self.new.own ≡ self.old.own }
    {
        self.values.push_copy(At::Stack(from))?;
        self.assign_top(At::Stack(name))?;
        self.values.pop(1);
        Ok(())
    }

    // Sets the variable of a name to the text of a place of the stack.
    fn assign_place(&mut self, name: &[u8], from: usize) -> Result<(), End>
        requires name { IsText name.now }
        requires place { from < length self.old.values.store.stack }
        ensures answer { Answers (assign (chars name.now) (slice_index_or self.old.values.store.stack from [])) unseen self.old result self.new }
        ensures stack { KeepsStack self.old.values.store.stack result self.new.values.store.stack }
        ensures calm { IsCalm result }
        ensures units { self.new.units ≡ self.old.units }
        ensures own { self.new.own ≡ self.old.own }
    {
        let height = self.values.height();
        self.push_text(name)?;
        self.assign_copy(height, from)?;
        self.values.pop(1);
        Ok(())
    }

    // Sets the variable of a parameter, by its number, to the text of a place of the stack.
    fn assign_param(&mut self, params: &[Param], i: usize, from: usize) -> Result<(), End>
        requires number { i < length params.now }
        requires place { from < length self.old.values.store.stack }
        ensures answer { Answers (assign (slice_index_or (frames.names_of params.now) i [])
            (slice_index_or self.old.values.store.stack from [])) unseen self.old result self.new }
        ensures stack { KeepsStack self.old.values.store.stack result self.new.values.store.stack }
        ensures calm { IsCalm result }
        ensures units { self.new.units ≡ self.old.units }
        ensures own { self.new.own ≡ self.old.own }
    {
        self.assign_place(params[i].name.bytes(), from)
    }

    // Gives parameters the texts of the stack up to a place.
    fn assign_params(&mut self, params: &[Param], end: usize) -> Result<(), End>
        requires some { length params.now ≤ end }
        requires places { end ≤ length self.old.values.store.stack }
        ensures answer { Answers (assign_each (frames.names_of params.now) (drop (end - length params.now) self.old.values.store.stack)) unseen
            self.old result self.new }
        ensures stack { KeepsStack self.old.values.store.stack result self.new.values.store.stack }
        ensures calm { IsCalm result }
        ensures units { self.new.units ≡ self.old.units }
        ensures own { self.new.own ≡ self.old.own }
    {
        let first = end - params.len();
        for i in 0..params.len() {
            self.assign_param(params, i, first + i)?;
        }
        Ok(())
    }

    // Gives a last parameter that takes the words that are left the text of a place, if there is such a
    // parameter.
    fn assign_rest(&mut self, rest: bool, from: usize) -> Result<(), End>
        requires { rest ≡ true → from < length self.old.values.store.stack }
        ensures answer { Answers (assign_each (frames.rest_name rest) (drop from self.old.values.store.stack)) unseen self.old result self.new }
        ensures stack { KeepsStack self.old.values.store.stack result self.new.values.store.stack }
        ensures calm { IsCalm result }
        ensures units { self.new.units ≡ self.old.units }
        ensures own { self.new.own ≡ self.old.own }
    {
        if rest {
            return self.assign_place(b"args", from);
        }
        Ok(())
    }

    // Gives the parameters of a procedure their texts. Those that have names get the texts up to a place.
    fn assign_arguments(&mut self, def: &ProcDef, end: usize) -> Result<(), End>
        requires some { length def.now.params ≤ end }
        requires places { end ≤ length self.old.values.store.stack }
        requires rest { def.now.rest ≡ true → end < length self.old.values.store.stack }
        ensures answer { Answers (frames.with_arguments def.now (drop (end - length def.now.params) self.old.values.store.stack)) unseen self.old
            result self.new }
        ensures stack { KeepsStack self.old.values.store.stack result self.new.values.store.stack }
        ensures calm { IsCalm result }
        ensures units { self.new.units ≡ self.old.units }
        ensures own { self.new.own ≡ self.old.own }
    {
        self.assign_params(def.params(), end)?;
        self.assign_rest(def.has_rest(), end)
    }

    // ---- frames

    // Pushes a frame for the body of a procedure, whose parameters get the top texts.
    fn enter(&mut self, def: &ProcDef) -> Result<(), End>
        requires { frames.text_count def.now ≤ length self.old.values.store.stack }
        ensures answer { let stack = self.old.values.store.stack in Answers
            (frames.entered def.now (top (frames.text_count def.now) stack)) unseen self.old result self.new }
        ensures stack { KeepsStack self.old.values.store.stack result self.new.values.store.stack }
        ensures calm { IsCalm result }
        ensures units { self.new.units ≡ self.old.units }
        ensures own { self.new.own ≡ self.old.own }
    {
        self.values.push_frame()?;
        let end = named_end(def, self.values.height());
        self.assign_arguments(def, end)
    }

    // Ends the frames behind the first `count`. Then the frame of that number is current, where it is
    // there.
    fn back_to_frame(&mut self, count: usize, frame: usize)
        requires { 0 < count }
        ensures { frames.Restored count frame self.old self.new }
    {
        self.values.back_to_frame(count, frame);
    }

    // ---- what runs in a frame

    /// Runs the body of a procedure, whose parameters get the top texts, in a frame of its own. Its
    /// result is pushed.
    #[cycle(eval)]
    pub fn body_of<H: Host<Own = W>, O: Outside>(
        &mut self,
        host: &H,
        out: &mut O,
        def: &ProcDef,
    ) -> Result<Carried, End>
        requires texts { frames.text_count def.now ≤ length self.old.values.store.stack }
        requires fits { H.fits self.old.own (O.told out.old) ≡ true }
        ensures answer { let stack = self.old.values.store.stack in AnswersOver
            (spec.body (whole H.given) def.now (top (frames.text_count def.now) stack)) as_outcome self.old
            (outer (O.told out.old) (O.torn out.old)) result self.new (outer (O.told out.new) (O.torn out.new)) }
        ensures stack { PushesOne self.old.values.store.stack result self.new.values.store.stack }
        ensures cause { Caused (O.faults out.old) (O.faults out.new) result }
        ensures units { self.new.units ≤ self.old.units }
        ensures fits { H.fits self.new.own (O.told out.new) ≡ true }
    {
        let count = self.values.frame_count();
        let frame = self.values.frame();
        let ended = self.body_inside(host, out, def);
        self.back_to_frame(count, frame);
        ended
    }

    // Runs the body of a procedure in a frame of its own, which stays.
    #[cycle(eval)]
    #[tactic(auto, using(crate::proofs::Binds::calm_caused))]
    fn body_inside<H: Host<Own = W>, O: Outside>(
        &mut self,
        host: &H,
        out: &mut O,
        def: &ProcDef,
    ) -> Result<Carried, End>
        requires texts { frames.text_count def.now ≤ length self.old.values.store.stack }
        requires fits { H.fits self.old.own (O.told out.old) ≡ true }
        ensures answer { let stack = self.old.values.store.stack in AnswersOver
            (spec.body_inside (whole H.given) def.now (top (frames.text_count def.now) stack)) as_outcome self.old
            (outer (O.told out.old) (O.torn out.old)) result self.new (outer (O.told out.new) (O.torn out.new)) }
        ensures stack { PushesOne self.old.values.store.stack result self.new.values.store.stack }
        ensures cause { Caused (O.faults out.old) (O.faults out.new) result }
        ensures units { self.new.units ≤ self.old.units }
        ensures fits { H.fits self.new.own (O.told out.new) ≡ true }
    {
        self.enter(def)?;
        self.script(host, out, def.tree())
    }

    /// Runs the script of a place of the stack in the frame of a level. Its result is pushed.
    #[cycle(eval)]
    pub fn script_at_level<H: Host<Own = W>, O: Outside>(
        &mut self,
        host: &H,
        out: &mut O,
        level: usize,
        at: usize,
    ) -> Result<Carried, End>
        requires place { at < length self.old.values.store.stack }
        requires fits { H.fits self.old.own (O.told out.old) ≡ true }
        ensures answer { AnswersOver (spec.at_level (whole H.given) level (plans.placed self.old.values.store.stack at)) as_outcome self.old
            (outer (O.told out.old) (O.torn out.old)) result self.new (outer (O.told out.new) (O.torn out.new)) }
        ensures stack { PushesOne self.old.values.store.stack result self.new.values.store.stack }
        ensures cause { Caused (O.faults out.old) (O.faults out.new) result }
        ensures units { self.new.units ≤ self.old.units }
        ensures fits { H.fits self.new.own (O.told out.new) ≡ true }
    {
        let count = self.values.frame_count();
        let frame = self.values.frame();
        self.values.use_level(level);
        let ended = self.script_at(host, out, At::Stack(at));
        self.back_to_frame(count, frame);
        ended
    }
}
