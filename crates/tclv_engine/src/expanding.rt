// Words with the expansion mark.
ghost use Rattle.std.specs.Prelude.{◌≡◌, ◌+◌, ◌<◌, ◌≤◌, ◌++◌, length, OnOk, slice_set};
ghost use Rattle.tclv_value.specs.View.{text_at};
ghost use Rattle.tclv_value.specs.Stacks.{under};
ghost use Rattle.tclv_model.specs.Values.{list_of};
ghost use Rattle.tclv_engine.specs.DataAnswers.{of_answer};
ghost use Rattle.tclv_engine.specs.ListAssignment.{listed, IsList};
ghost use Rattle.tclv_engine.specs.Answers.{Answers, IsCalm, PushesWords, SameState, stacked, last_of};

use crate::endings::End;
use crate::machine::Machine;
use tclv_text::NoMemory;
use tclv_value::At;

impl<W> Machine<W> {
    /// Reads the top text as a list, whose elements take its place. A text that is no list is an
    /// error. (Tcl: Tcl(n), argument expansion.)
    pub fn expand(&mut self) -> Result<(), End>
        requires { 0 < length self.old.values.store.stack }
        ensures answer { Answers (of_answer (list_of (last_of self.old.values.store.stack)))
            (stacked (under 1 self.old.values.store.stack)) self.old result self.new }
        ensures stack { PushesWords (under 1 self.old.values.store.stack) result self.new.values.store.stack }
        ensures calm { IsCalm result }
        ensures units { self.new.units ≤ self.old.units }
        ensures own { self.new.own ≡ self.old.own }
    {
        let list = self.values.height() - 1;
        let len = self.list_len(At::Stack(list))?;
        if len == 0 {
            self.values.pop(1);
            return Ok(());
        }
        self.unroll(list, len)?;
        Ok(())
    }

    // Puts the elements of the list on top in its place, of which there is at least one: those behind the
    // first are pushed over the list, and then the first takes the list's place.
    fn unroll(&mut self, list: usize, len: u64) -> Result<(), NoMemory>
        requires place { list + 1 ≡ length self.old.values.store.stack }
        requires list { IsList (text_at self.old.values.store (At.Stack list)) }
        requires len { len ≡ length (listed (text_at self.old.values.store (At.Stack list))) }
        requires some { 0 < len }
        ensures unrolled { OnOk result (self.new.values.store.stack ≡ under 1 self.old.values.store.stack
            ++ listed (text_at self.old.values.store (At.Stack list))) }
        ensures same { SameState self.old self.new }
    {
        self.push_elements(list, 1, len)?;
        self.push_element(list, 0)?;
        self.settle_on(list);
        Ok(())
    }

    // Moves the top text to a place below it.
    fn settle_on(&mut self, to: usize)
        requires { to + 1 < length self.old.values.store.stack }
        ensures stack { self.new.values.store.stack ≡ slice_set (under 1 self.old.values.store.stack) to (last_of self.old.values.store.stack) }
        ensures same { SameState self.old self.new }
    {
        let last = self.values.height() - 1;
        self.values.copy_over(At::Stack(last), to);
        self.values.pop(1);
    }
}
