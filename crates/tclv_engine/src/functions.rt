// The functions of expressions, over texts of the stack.
ghost use Rattle.std.specs.Prelude.{◌≡◌, ◌≤◌, [], Err, length, drop};
ghost use Rattle.std.specs.Str.{chars};
ghost use Rattle.tclv_text.specs.Texts.{IsText};
ghost use Rattle.tclv_value.specs.Stacks.{top, under};
ghost use Rattle.tclv_model.specs.Message.{text_of};
ghost use Rattle.tclv_model.specs.ErrorCodes.{error_code};
ghost use Rattle.tclv_engine.specs.Answers.{Answers, IsCalm, KeepsStack, PushesOne, Raises, SameState, on_top};
ghost use Rattle.tclv_engine.specs.Functions as spec;

use crate::endings::End;
use crate::machine::Machine;
use tclv_exprp::{Op1, OpFault, apply1};
use tclv_model::{ErrorCode, MessageId};
use tclv_text::as_str;
use tclv_value::At;

/// A function of expressions.
#[derive(Clone, Copy, Debug, PartialEq, Eq)]
pub enum Function {
    /// `abs`: the size of a number.
    Absolute,
    /// `bool`: 1 or 0, by the truth value of a text.
    Truth,
    /// `entier`, `int` and `wide`: the number itself.
    Whole,
    /// `max`: the greatest of its arguments.
    Greatest,
    /// `min`: the least of its arguments.
    Least,
}

/// Which of two numbers is picked.
#[derive(Clone, Copy, Debug, PartialEq, Eq)]
pub enum Pick {
    Greater,
    Less,
}

// The one of two numbers that is picked.
fn picked_of(pick: Pick, m: i64, n: i64) -> i64
    ensures { result ≡ spec.picked_of pick m n }
{
    match pick {
        Pick::Greater => { if m < n { n } else { m } }
        Pick::Less => { if n < m { n } else { m } }
    }
}

// The size of a number, where it is one of 64 bits.
fn size(m: i64) -> Result<i64, OpFault>
    ensures { result ≡ spec.size m }
{
    if m < 0 { apply1(Op1::Minus, m) } else { Ok(m) }
}

/// The function of a name.
pub fn function_of(name: &[u8]) -> Option<Function>
    requires { IsText name.now }
    ensures { result ≡ spec.function_of name.now }
{
    match as_str(name) {
        "abs" => Some(Function::Absolute),
        "bool" => Some(Function::Truth),
        "entier" => Some(Function::Whole),
        "int" => Some(Function::Whole),
        "max" => Some(Function::Greatest),
        "min" => Some(Function::Least),
        "wide" => Some(Function::Whole),
        _ => None,
    }
}

impl<W> Machine<W> {
    /// Puts what a function gives of them in place of the top n texts. Its name is given as UTF-8.
    pub fn apply(&mut self, name: &[u8], n: usize) -> Result<(), End>
        requires name { IsText name.now }
        requires arguments { n ≤ length self.old.values.store.stack }
        ensures answer { Answers (spec.call (chars name.now) (top n self.old.values.store.stack)) on_top self.old result self.new }
        ensures stack { PushesOne (under n self.old.values.store.stack) result self.new.values.store.stack }
        ensures calm { IsCalm result }
        ensures units { self.new.units ≤ self.old.units }
        ensures own { self.new.own ≡ self.old.own }
    {
        match function_of(name) {
            Some(function) => self.apply_function(function, name, n),
            None => Err(self.raise(MessageId::UnknownMathFunction, name, b"", ErrorCode::NoCode)),
        }
    }

    // The error of a wrong number of arguments.
    fn wrong_count(&mut self, name: &[u8]) -> End
        requires { IsText name.now }
        ensures raises { Raises (text_of MessageId.WrongMathFunctionArguments (chars name.now) (chars []))
            (error_code ErrorCode.NoCode (chars name.now)) self.new.values.store.stack result }
        ensures same { SameState self.old self.new }
        ensures stack { KeepsStack {T = Unit {0}} self.old.values.store.stack (Err result) self.new.values.store.stack }
    {
        self.raise(
            MessageId::WrongMathFunctionArguments,
            name,
            b"",
            ErrorCode::NoCode,
        )
    }

    // `abs`, of the top n texts, in their place.
    fn absolute(&mut self, name: &[u8], n: usize) -> Result<(), End>
        requires name { IsText name.now }
        requires arguments { n ≤ length self.old.values.store.stack }
        ensures answer { Answers (spec.apply Function.Absolute (chars name.now) (top n self.old.values.store.stack)) on_top self.old result self.new }
        ensures stack { PushesOne (under n self.old.values.store.stack) result self.new.values.store.stack }
        ensures calm { IsCalm result }
        ensures units { self.new.units ≤ self.old.units }
        ensures own { self.new.own ≡ self.old.own }
    {
        if n != 1 {
            return Err(self.wrong_count(name));
        }
        let last = At::Stack(self.values.height() - 1);
        let m = self.operand(last, name)?;
        self.calculated(n, size(m))
    }

    // `entier`, `int` and `wide`, likewise.
    fn whole(&mut self, name: &[u8], n: usize) -> Result<(), End>
        requires name { IsText name.now }
        requires arguments { n ≤ length self.old.values.store.stack }
        ensures answer { Answers (spec.apply Function.Whole (chars name.now) (top n self.old.values.store.stack)) on_top self.old result self.new }
        ensures stack { PushesOne (under n self.old.values.store.stack) result self.new.values.store.stack }
        ensures calm { IsCalm result }
        ensures units { self.new.units ≤ self.old.units }
        ensures own { self.new.own ≡ self.old.own }
    {
        if n != 1 {
            return Err(self.wrong_count(name));
        }
        let last = At::Stack(self.values.height() - 1);
        let m = self.operand(last, name)?;
        self.number(n, m)
    }

    // `bool`, likewise.
    fn truth(&mut self, name: &[u8], n: usize) -> Result<(), End>
        requires name { IsText name.now }
        requires arguments { n ≤ length self.old.values.store.stack }
        ensures answer { Answers (spec.apply Function.Truth (chars name.now) (top n self.old.values.store.stack)) on_top self.old result self.new }
        ensures stack { PushesOne (under n self.old.values.store.stack) result self.new.values.store.stack }
        ensures calm { IsCalm result }
        ensures units { self.new.units ≤ self.old.units }
        ensures own { self.new.own ≡ self.old.own }
    {
        if n != 1 {
            return Err(self.wrong_count(name));
        }
        let b = self.truth_on_top()?;
        self.truth_number(n, b)
    }

    // What is picked of a number and the texts of the stack from a place on, in order, in place of
    // the top n texts.
    fn picked(
        &mut self,
        pick: Pick,
        name: &[u8],
        first: i64,
        from: usize,
        n: usize,
    ) -> Result<(), End>
        requires name { IsText name.now }
        requires from { from ≤ length self.old.values.store.stack }
        requires arguments { n ≤ length self.old.values.store.stack }
        ensures answer { Answers (spec.picked pick (chars name.now) first (drop from self.old.values.store.stack)) on_top self.old result self.new }
        ensures stack { PushesOne (under n self.old.values.store.stack) result self.new.values.store.stack }
        ensures calm { IsCalm result }
        ensures units { self.new.units ≤ self.old.units }
        ensures own { self.new.own ≡ self.old.own }
    {
        let mut found = first;
        for i in from..self.values.height() {
            let next = self.operand(At::Stack(i), name)?;
            found = picked_of(pick, found, next);
        }
        self.number(n, found)
    }

    // `max` and `min`, of the top n texts, in their place.
    fn extreme(&mut self, pick: Pick, name: &[u8], n: usize) -> Result<(), End>
        requires name { IsText name.now }
        requires arguments { n ≤ length self.old.values.store.stack }
        ensures answer { Answers (spec.extreme pick (chars name.now) (top n self.old.values.store.stack)) on_top self.old result self.new }
        ensures stack { PushesOne (under n self.old.values.store.stack) result self.new.values.store.stack }
        ensures calm { IsCalm result }
        ensures units { self.new.units ≤ self.old.units }
        ensures own { self.new.own ≡ self.old.own }
    {
        if n == 0 {
            return Err(self.wrong_count(name));
        }
        let base = self.values.height() - n;
        let first = self.operand(At::Stack(base), name)?;
        self.picked(pick, name, first, base + 1, n)
    }

    // Puts what a function gives of them in place of the top n texts.
    fn apply_function(&mut self, function: Function, name: &[u8], n: usize) -> Result<(), End>
        requires name { IsText name.now }
        requires arguments { n ≤ length self.old.values.store.stack }
        ensures answer { Answers (spec.apply function (chars name.now) (top n self.old.values.store.stack)) on_top self.old result self.new }
        ensures stack { PushesOne (under n self.old.values.store.stack) result self.new.values.store.stack }
        ensures calm { IsCalm result }
        ensures units { self.new.units ≤ self.old.units }
        ensures own { self.new.own ≡ self.old.own }
    {
        match function {
            Function::Absolute => self.absolute(name, n),
            Function::Truth => self.truth(name, n),
            Function::Whole => self.whole(name, n),
            Function::Greatest => self.extreme(Pick::Greater, name, n),
            Function::Least => self.extreme(Pick::Less, name, n),
        }
    }
}
