// Reading and writing variables.
ghost use Rattle.std.specs.Prelude.{◌≡◌, ◌+◌, ◌<◌, [], Err, IfOk, length, unwrap_or};
ghost use Rattle.std.specs.FinMap.{get};
ghost use Rattle.tclv_model.specs.Message.{text_of};
ghost use Rattle.tclv_engine.specs.Results.{done};
ghost use Rattle.tclv_model.specs.ErrorCodes.{error_code};
ghost use Rattle.std.specs.Str.{chars};
ghost use Rattle.tclv_text.specs.Texts.{IsText};
ghost use Rattle.tclv_value.specs.View.{HasPlace, IsMade, text_at};
ghost use Rattle.tclv_value.specs.Stacks.{under};
ghost use Rattle.tclv_engine.specs.State.{texts_in};
ghost use Rattle.tclv_engine.specs.Variables as spec;
ghost use Rattle.tclv_engine.specs.Answers.{Answers, Pushes, PushesOne, KeepsStack, IsCalm, Raises, SameState, last_of, on_top};

use crate::endings::End;
use crate::machine::Machine;
use std::alloc::Global;
use tclv_model::{ErrorCode, MessageId};
use tclv_reply::{NameShape, is_qualified};
use tclv_text::{NoMemory, Text};
use tclv_value::At;
use tclv_vars::VarFault;

// Why a variable can't be read: the message and the error code.
fn unreadable(fault: VarFault) -> (MessageId, ErrorCode)
    ensures message { result.0 ≡ spec.reading_message fault }
    ensures code { result.1 ≡ spec.reading_code fault }
{
    match fault {
        VarFault::NoElement => (MessageId::NoSuchElement, ErrorCode::NoCode),
        VarFault::IsArray => (MessageId::CannotReadArray, ErrorCode::NoCode),
        VarFault::NotArray => (MessageId::CannotReadNonArray, ErrorCode::NoCode),
        _ => (MessageId::NoSuchVariable, ErrorCode::UnknownVariable),
    }
}

/// The name of an element, as a script writes it.
pub fn element_name(alloc: Global, array: &[u8], index: &[u8]) -> Result<Text, NoMemory>
    requires array { IsText array.now }
    requires index { IsText index.now }
    ensures { IfOk result (λ name. name ≡ spec.element_name (chars array.now) (chars index.now)) }
{
    let mut name = Text::new(Vec::new(alloc));
    name.push(array)?;
    name.push(b"(")?;
    name.push(index)?;
    name.push(b")")?;
    Ok(name)
}

impl<W> Machine<W> {
    /// Raises the error that something isn't built yet.
    pub fn not_built(&mut self) -> End
        ensures raises { Raises (text_of MessageId.NotBuilt [] []) (error_code ErrorCode.NoCode []) self.new.values.store.stack result }
        ensures same { SameState self.old self.new }
        ensures stack { KeepsStack {T = Unit {0}} self.old.values.store.stack (Err result) self.new.values.store.stack }
    {
        self.raise(MessageId::NotBuilt, b"", b"", ErrorCode::NoCode)
    }

    /// Pushes the value of the variable of a name, as UTF-8.
    #[tactic(auto, using(crate::proofs::StackLemmas::pushes_one))]
    pub fn push_variable(&mut self, name: &[u8]) -> Result<(), End>
        requires { IsText name.now }
        ensures answer { Answers (spec.variable (chars name.now)) on_top self.old result self.new }
        ensures stack { PushesOne self.old.values.store.stack result self.new.values.store.stack }
        ensures calm { IsCalm result }
        ensures units { self.new.units ≡ self.old.units }
        ensures own { self.new.own ≡ self.old.own }
    {
        let shape = NameShape::of(name);
        if shape.qualified {
            return Err(self.not_built());
        }
        match self.values.cell_named(name, shape) {
            Ok(cell) => self.push_cell(cell),
            Err(fault) => {
                let (kind, code) = unreadable(fault);
                Err(self.raise(kind, name, b"", code))
            }
        }
    }

    // Pushes the text of a cell.
    fn push_cell(&mut self, cell: u64) -> Result<(), End>
        requires { HasPlace self.old.values.store (At.Cell cell) }
        ensures answer { Answers (λ st. done (unwrap_or (get (texts_in st) cell) []) st) on_top self.old result self.new }
        ensures stack { Pushes (text_at self.old.values.store (At.Cell cell)) self.old.values.store.stack result self.new.values.store.stack }
        ensures calm { IsCalm result }
        ensures units { self.new.units ≡ self.old.units }
        ensures own { self.new.own ≡ self.old.own }
    {
        self.values.push_copy(At::Cell(cell))?;
        Ok(())
    }

    /// Pushes the value of the variable whose name is the text of a place.
    pub fn push_variable_at(&mut self, name: At) -> Result<(), End>
        requires { HasPlace self.old.values.store name }
        ensures answer { Answers (spec.variable (text_at self.old.values.store name)) on_top self.old result self.new }
        ensures stack { PushesOne self.old.values.store.stack result self.new.values.store.stack }
        ensures calm { IsCalm result }
        ensures units { self.new.units ≡ self.old.units }
        ensures own { self.new.own ≡ self.old.own }
    {
        self.values.make_text(name)?;
        self.push_made_variable(name)
    }

    // The same, where the text of the name is made.
    #[tactic(auto, using(crate::proofs::StackLemmas::pushes_one))]
    fn push_made_variable(&mut self, name: At) -> Result<(), End>
        requires place { HasPlace self.old.values.store name }
        requires made { IsMade self.old.values.store name }
        ensures answer { Answers (spec.variable (text_at self.old.values.store name)) on_top self.old result self.new }
        ensures stack { PushesOne self.old.values.store.stack result self.new.values.store.stack }
        ensures calm { IsCalm result }
        ensures units { self.new.units ≡ self.old.units }
        ensures own { self.new.own ≡ self.old.own }
    {
        let shape = self.values.shape_at(name);
        if shape.qualified {
            return Err(self.not_built());
        }
        match self.values.cell_at(name, shape) {
            Ok(cell) => self.push_cell(cell),
            Err(fault) => {
                let (kind, code) = unreadable(fault);
                Err(self.raise_at(kind, name, b"", code))
            }
        }
    }

    /// Puts the value of an element, by its array's name, as UTF-8, in place of the top text, which is
    /// its index.
    pub fn put_element(&mut self, array: &[u8]) -> Result<(), End>
        requires array { IsText array.now }
        requires some { 0 < length self.old.values.store.stack }
        ensures answer { Answers (spec.element_value (chars array.now) (last_of self.old.values.store.stack)) on_top self.old result self.new }
        ensures stack { PushesOne (under 1 self.old.values.store.stack) result self.new.values.store.stack }
        ensures calm { IsCalm result }
        ensures units { self.new.units ≡ self.old.units }
        ensures own { self.new.own ≡ self.old.own }
    {
        let last = self.values.height() - 1;
        self.values.make_text(At::Stack(last))?;
        self.put_made_element(array, last)
    }

    // The same, where the text of the index is made, at the last place of the stack.
    #[tactic(auto, using(crate::proofs::StackLemmas::pushes_one))]
    fn put_made_element(&mut self, array: &[u8], last: usize) -> Result<(), End>
        requires array { IsText array.now }
        requires last { length self.old.values.store.stack ≡ last + 1 }
        requires made { IsMade self.old.values.store (At.Stack last) }
        ensures answer { Answers (spec.element_value (chars array.now) (last_of self.old.values.store.stack)) on_top self.old result self.new }
        ensures stack { PushesOne (under 1 self.old.values.store.stack) result self.new.values.store.stack }
        ensures calm { IsCalm result }
        ensures units { self.new.units ≡ self.old.units }
        ensures own { self.new.own ≡ self.old.own }
    {
        if is_qualified(array) {
            return Err(self.not_built());
        }
        match self.values.cell_of_element(array, At::Stack(last)) {
            Ok(cell) => {
                self.values.pop(1);
                self.push_cell(cell)
            }
            Err(fault) => Err(self.refuse_element(fault, array, last)),
        }
    }

    // Raises the error that an element can't be read, whose index is a text of the stack, which is made.
    fn refuse_element(&mut self, fault: VarFault, array: &[u8], index: usize) -> End
        requires array { IsText array.now }
        requires place { index < length self.old.values.store.stack }
        requires made { IsMade self.old.values.store (At.Stack index) }
        ensures raises { Raises (text_of (spec.reading_message fault) (spec.element_name (chars array.now) (text_at self.old.values.store (At.Stack index))) [])
            (error_code (spec.reading_code fault) (spec.element_name (chars array.now) (text_at self.old.values.store (At.Stack index))))
            self.new.values.store.stack result }
        ensures same { SameState self.old self.new }
        ensures stack { KeepsStack {T = Unit {0}} self.old.values.store.stack (Err result) self.new.values.store.stack }
    {
        match element_name(self.alloc, array, self.values.lend(At::Stack(index))) {
            Ok(name) => {
                let (kind, code) = unreadable(fault);
                self.raise(kind, name.bytes(), b"", code)
            }
            Err(_) => End::Memory,
        }
    }

    /// Sets the variable whose name is the text of a place to the top text of the stack, which
    /// stays there.
    pub fn assign_top(&mut self, name: At) -> Result<(), End>
        requires place { HasPlace self.old.values.store name }
        requires some { 0 < length self.old.values.store.stack }
        ensures answer { Answers (spec.assign (text_at self.old.values.store name) (last_of self.old.values.store.stack)) on_top self.old result self.new }
        ensures stack { KeepsStack self.old.values.store.stack result self.new.values.store.stack }
        ensures calm { IsCalm result }
        ensures units { self.new.units ≡ self.old.units }
        ensures own { self.new.own ≡ self.old.own }
    {
        self.values.make_text(name)?;
        self.assign_made(name)
    }

    // The same, where the text of the name is made.
    fn assign_made(&mut self, name: At) -> Result<(), End>
        requires place { HasPlace self.old.values.store name }
        requires made { IsMade self.old.values.store name }
        requires some { 0 < length self.old.values.store.stack }
        ensures answer { Answers (spec.assign (text_at self.old.values.store name) (last_of self.old.values.store.stack)) on_top self.old result self.new }
        ensures stack { KeepsStack self.old.values.store.stack result self.new.values.store.stack }
        ensures calm { IsCalm result }
        ensures units { self.new.units ≡ self.old.units }
        ensures own { self.new.own ≡ self.old.own }
    {
        let shape = self.values.shape_at(name);
        if shape.qualified {
            return Err(self.not_built());
        }
        match self.values.write_top(name, shape) {
            Ok(cell) => self.push_cell(cell),
            Err(fault) => Err(self.refuse_write(fault, name)),
        }
    }

    // Raises the error that a variable can't be set.
    fn refuse_write(&mut self, fault: VarFault, name: At) -> End
        requires { HasPlace self.old.values.store name }
        ensures refuses { spec.RefusesSetting fault (text_at self.old.values.store name) self.new.values.store.stack result }
        ensures same { SameState self.old self.new }
        ensures stack { KeepsStack {T = Unit {0}} self.old.values.store.stack (Err result) self.new.values.store.stack }
    {
        match fault {
            VarFault::NoMemory => End::Memory,
            VarFault::NotArray => {
                self.raise_at(MessageId::CannotSetNonArray, name, b"", ErrorCode::NoCode)
            }
            _ => self.raise_at(MessageId::CannotSetArray, name, b"", ErrorCode::NoCode),
        }
    }
}
