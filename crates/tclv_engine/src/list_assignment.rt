// Variables that get the elements of a list.
ghost use Rattle.std.specs.Prelude.{◌≡◌, ◌+◌, ◌-◌, ◌<◌, ◌≤◌, ◌++◌, [], ◌∷◌, ◌↔◌, IsTrue, length, take, drop, OnOk, IfOk, option_to_list, slice_get, slice_index_or};
ghost use Rattle.tclv_text.specs.Quotes.{list_text};
ghost use Rattle.tclv_model.specs.Values.{list_of};
ghost use Rattle.tclv_value.specs.View.{HasPlace, text_at};
ghost use Rattle.tclv_value.specs.Stacks.{top, under};
ghost use Rattle.tclv_engine.specs.Results.{done, bind, ok};
ghost use Rattle.tclv_engine.specs.Variables.{assign};
ghost use Rattle.tclv_engine.specs.DataAnswers.{of_answer};
ghost use Rattle.tclv_engine.specs.ListAssignment as spec;
ghost use Rattle.tclv_engine.specs.Answers.{Answers, IsCalm, KeepsStack, Pushes, PushesOne, PushesResult, SameState, as_result, on_top, returned};

use crate::endings::End;
use crate::machine::Machine;
use tclv_model::{CmdFault, ErrorCode, MessageId};
use tclv_text::NoMemory;
use tclv_value::At;

impl<W> Machine<W> {
    /// How many elements the list has that the text of a place is. A text that is no list is an error.
    pub fn list_len(&mut self, list: At) -> Result<u64, End>
        requires { HasPlace self.old.values.store list }
        ensures answer { Answers (of_answer (list_of (text_at self.old.values.store list)))
            (spec.counted (text_at self.old.values.store list)) self.old result self.new }
        ensures list { OnOk result (spec.IsList (text_at self.old.values.store list)) }
        ensures len { IfOk result (λ len. len ≡ length (spec.listed (text_at self.old.values.store list))) }
        ensures stack { KeepsStack self.old.values.store.stack result self.new.values.store.stack }
        ensures calm { IsCalm result }
        ensures same { SameState self.old self.new }
    {
        match self.values.list_len(list) {
            Ok(len) => Ok(len),
            Err(CmdFault::NoMemory) => Err(End::Memory),
            Err(CmdFault::WrongArgs) => Err(self.refuse()),
            Err(CmdFault::Message) => Err(self.refuse()),
        }
    }

    /// Pushes an element of the list at a place of the stack, if it has one of this number, and says
    /// whether. It is shared and not copied.
    pub fn push_element(&mut self, list: usize, k: u64) -> Result<bool, NoMemory>
        requires place { list < length self.old.values.store.stack }
        requires list { spec.IsList (text_at self.old.values.store (At.Stack list)) }
        ensures found { IfOk result (λ found. IsTrue found ↔ (k < length (spec.listed (text_at self.old.values.store (At.Stack list))))) }
        ensures pushed { OnOk result (self.new.values.store.stack ≡ self.old.values.store.stack
            ++ option_to_list (slice_get (spec.listed (text_at self.old.values.store (At.Stack list))) k)) }
        ensures same { SameState self.old self.new }
    {
        match self.values.push_element(At::Stack(list), k) {
            Ok(found) => Ok(found),
            Err(_) => Err(NoMemory),
        }
    }

    /// Pushes the elements of the list at a place of the stack, from a number up to their count, the
    /// first of them lowest. They are shared and not copied.
    pub fn push_elements(&mut self, list: usize, from: u64, len: u64) -> Result<(), NoMemory>
        requires place { list < length self.old.values.store.stack }
        requires list { spec.IsList (text_at self.old.values.store (At.Stack list)) }
        requires order { from ≤ len }
        requires len { len ≡ length (spec.listed (text_at self.old.values.store (At.Stack list))) }
        ensures pushed { OnOk result (self.new.values.store.stack ≡ self.old.values.store.stack
            ++ drop from (spec.listed (text_at self.old.values.store (At.Stack list)))) }
        ensures same { SameState self.old self.new }
    {
        for i in from..len {
            self.push_element(list, i)?;
        }
        Ok(())
    }

    /// Pushes the element of a number of the list at a place of the stack, and the empty text where the
    /// list has not so many. It is shared and not copied.
    pub fn push_element_or_empty(&mut self, list: usize, i: u64) -> Result<(), End>
        requires place { list < length self.old.values.store.stack }
        requires list { spec.IsList (text_at self.old.values.store (At.Stack list)) }
        ensures answer { Answers (done (slice_index_or (spec.listed (text_at self.old.values.store (At.Stack list))) i [])) on_top self.old result self.new }
        ensures stack { Pushes (slice_index_or (spec.listed
            (text_at self.old.values.store (At.Stack list))) i []) self.old.values.store.stack result self.new.values.store.stack }
        ensures calm { IsCalm result }
        ensures units { self.new.units ≡ self.old.units }
        ensures same { SameState self.old self.new }
    {
        let found = self.push_element(list, i)?;
        if found {
            return Ok(());
        }
        self.push_text(b"")
    }

    /// Sets the variable whose name is this place of the stack to the element of a number of the list
    /// at another place, and to the empty text where the list has not so many.
    pub fn assign_element(&mut self, name: usize, list: usize, i: u64) -> Result<(), End>
        requires name { name < length self.old.values.store.stack }
        requires place { list < length self.old.values.store.stack }
        requires list { spec.IsList (text_at self.old.values.store (At.Stack list)) }
        ensures answer { Answers (assign (text_at self.old.values.store (At.Stack name))
            (slice_index_or (spec.listed (text_at self.old.values.store (At.Stack list))) i [])) spec.unseen self.old result self.new }
        ensures stack { KeepsStack self.old.values.store.stack result self.new.values.store.stack }
        ensures calm { IsCalm result }
        ensures units { self.new.units ≡ self.old.units }
        ensures own { self.new.own ≡ self.old.own }
    {
        self.push_element_or_empty(list, i)?;
        self.assign_top(At::Stack(name))?;
        self.values.pop(1);
        Ok(())
    }

    /// Sets the variables whose names stand on the stack, from one place up to another, to the elements
    /// of the list at a place of the stack; to the empty text where elements are missing. What was set
    /// before an error stays.
    pub fn assign_places(&mut self, from: usize, to: usize, list: usize) -> Result<(), End>
        requires order { from ≤ to }
        requires places { to ≤ length self.old.values.store.stack }
        requires place { list < length self.old.values.store.stack }
        requires list { spec.IsList (text_at self.old.values.store (At.Stack list)) }
        ensures answer { Answers (spec.assign_each (take (to - from) (drop from self.old.values.store.stack))
            (spec.listed (text_at self.old.values.store (At.Stack list)))) spec.unseen self.old result self.new }
        ensures stack { KeepsStack self.old.values.store.stack result self.new.values.store.stack }
        ensures calm { IsCalm result }
        ensures units { self.new.units ≡ self.old.units }
        ensures own { self.new.own ≡ self.old.own }
    {
        for i in from..to {
            self.assign_element(i, list, (i - from) as u64)?;
        }
        Ok(())
    }
}
