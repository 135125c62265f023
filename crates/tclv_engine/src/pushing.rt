// Texts on the stack.
ghost use Rattle.std.specs.Prelude.{◌≡◌, ◌++◌, ◌-◌, ◌<◌, ◌∷◌, [], length, take, OnOk, OnErr};
ghost use Rattle.std.specs.Str.{chars};
ghost use Rattle.tclv_text.specs.Texts.{IsText};
ghost use Rattle.tclv_engine.specs.Results.{done};
ghost use Rattle.tclv_engine.specs.Answers.{Answers, Pushes, IsCalm, SameState, on_top, last_of};

use crate::endings::End;
use crate::machine::Machine;
use tclv_text::{NoMemory, Text};
use tclv_value::At;

impl<W> Machine<W> {
    /// Pushes a text.
    pub fn push_text(&mut self, text: &[u8]) -> Result<(), End>
        requires { IsText text.now }
        ensures answer { Answers (done (chars text.now)) on_top self.old result self.new }
        ensures stack { Pushes (chars text.now) self.old.values.store.stack result self.new.values.store.stack }
        ensures calm { IsCalm result }
        ensures units { self.new.units ≡ self.old.units }
        ensures same { SameState self.old self.new }
    {
        self.values.push_text(text)?;
        Ok(())
    }

    /// Moves the top text to the end of another text.
    pub fn take_onto(&mut self, text: &mut Text) -> Result<(), NoMemory>
        requires { 0 < length self.old.values.store.stack }
        ensures text { OnOk result (text.new ≡ text.old ++ last_of self.old.values.store.stack) }
        ensures stack { OnOk result (self.new.values.store.stack ≡ take (length self.old.values.store.stack - 1) self.old.values.store.stack) }
        ensures same { SameState self.old self.new }
    {
        let top = At::Stack(self.values.height() - 1);
        self.values.make_text(top)?;
        text.push(self.values.lend(top))?;
        self.values.pop(1);
        Ok(())
    }

    /// Cuts the stack back to a height and puts the text that was on top over it. Takes no memory.
    pub fn settle(&mut self, height: usize)
        requires { height < length self.old.values.store.stack }
        ensures stack { self.new.values.store.stack ≡ take height self.old.values.store.stack ++ last_of self.old.values.store.stack ∷ [] }
        ensures same { SameState self.old self.new }
    {
        let last = self.values.height() - 1;
        self.values.copy_over(At::Stack(last), height);
        self.values.pop(last - height);
    }
}
