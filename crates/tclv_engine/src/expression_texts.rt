// Texts that are expressions, and the errors of those that are none.
ghost use Rattle.std.specs.Prelude.{◌≡◌, ◌≤◌, ◌<◌, [], length, take, drop, nat_lt, Err, IfOk};
ghost use Rattle.std.specs.List.{prefix_len};
ghost use Rattle.std.specs.Str.{chars};
ghost use Rattle.tclv_text.specs.Texts.{IsText};
ghost use Rattle.tclv_model.specs.Message.{text_of};
ghost use Rattle.tclv_value.specs.View.{HasPlace, text_at};
ghost use Rattle.tclv_model.specs.ErrorCodes.{error_code};
ghost use Rattle.tclv_engine.specs.Answers.{Answers, IsCalm, KeepsStack, Raises, SameState};
ghost use Rattle.tclv_engine.specs.ExpressionFaults as faults;
ghost use Rattle.tclv_engine.specs.Expressions as spec;
ghost use Rattle.tclv_engine.specs.Instructions.{Fits, shared};

use crate::endings::End;
use crate::machine::Machine;
use crate::raising::error_texts;
use sqlite_items::Items;
use std::rc::Rc;
use tclv_exprp::{ExprFault, Instruction};
use tclv_model::{ErrorCode, MessageId};
use tclv_value::At;

// How many ASCII characters come first.
fn ascii_len(bytes: &[u8]) -> usize
    ensures len { result ≡ prefix_len faults.is_ascii bytes.now }
    ensures within { result ≤ length bytes.now }
{
    bytes.iter().take_while(|b| **b < 128).count()
}

// The ASCII characters that come first.
fn ascii_front(bytes: &[u8]) -> &[u8]
    ensures { result.now ≡ faults.ascii_front bytes.now }
{
    &bytes[..ascii_len(bytes)]
}

// The bytes from a place on, or none where the place is behind the end.
fn behind(bytes: &[u8], at: usize) -> &[u8]
    ensures { result.now ≡ drop at bytes.now }
{
    if at < bytes.len() { &bytes[at..] } else { b"" }
}

// The first so many bytes, or all.
fn up_to(bytes: &[u8], len: usize) -> &[u8]
    ensures { result.now ≡ take len bytes.now }
{
    if len < bytes.len() {
        &bytes[..len]
    } else {
        bytes
    }
}

// The word or number that stands at a place of a text.
fn named_at(text: &[u8], at: usize, len: usize) -> &[u8]
    requires { IsText text.now }
    ensures text { chars result.now ≡ faults.named_at at len (chars text.now) }
    ensures utf8 { IsText result.now }
{
    ascii_front(up_to(behind(text, at), len))
}

impl<W> Machine<W> {
    // The error of a word or number in the text of a place.
    fn raise_named(&mut self, kind: MessageId, text: At, at: usize, len: usize) -> End
        requires { HasPlace self.old.values.store text }
        ensures raises { Raises (text_of kind (faults.named_at at len (text_at self.old.values.store text)) (chars []))
            (error_code ErrorCode.NoCode (faults.named_at at len (text_at self.old.values.store text))) self.new.values.store.stack result }
        ensures same { SameState self.old self.new }
        ensures stack { KeepsStack {T = Unit {0}} self.old.values.store.stack (Err result) self.new.values.store.stack }
    {
        if self.values.make_text(text).is_err() {
            return End::Memory;
        }
        let first = named_at(self.values.lend(text), at, len);
        let texts = error_texts(self.alloc, kind, first, b"", ErrorCode::NoCode);
        self.throw(texts)
    }

    // The error of a word in the text of a place that is no operand.
    fn raise_bareword(&mut self, text: At, at: usize, len: usize) -> End
        requires { HasPlace self.old.values.store text }
        ensures raises { Raises (text_of MessageId.InvalidBareword (faults.named_at at len (text_at self.old.values.store text))
            (text_at self.old.values.store text)) (error_code ErrorCode.NoCode
            (faults.named_at at len (text_at self.old.values.store text))) self.new.values.store.stack result }
        ensures same { SameState self.old self.new }
        ensures stack { KeepsStack {T = Unit {0}} self.old.values.store.stack (Err result) self.new.values.store.stack }
    {
        if self.values.make_text(text).is_err() {
            return End::Memory;
        }
        let whole = self.values.lend(text);
        let first = named_at(whole, at, len);
        let texts = error_texts(
            self.alloc,
            MessageId::InvalidBareword,
            first,
            whole,
            ErrorCode::NoCode,
        );
        self.throw(texts)
    }

    // The error of the text of a place, which is no expression for this reason.
    fn refuse_expression(&mut self, text: At, why: ExprFault) -> End
        requires { HasPlace self.old.values.store text }
        ensures refuses { faults.Refuses why (text_at self.old.values.store text) self.new.values.store.stack result }
        ensures same { SameState self.old self.new }
        ensures stack { KeepsStack {T = Unit {0}} self.old.values.store.stack (Err result) self.new.values.store.stack }
    {
        match why {
            ExprFault::Syntax(_) => {
                self.raise_at(MessageId::ExpressionSyntax, text, b"", ErrorCode::NoCode)
            }
            ExprFault::Bareword(at, len) => self.raise_bareword(text, at, len),
            ExprFault::UnknownFunction(at, len) => {
                self.raise_named(MessageId::UnknownMathFunction, text, at, len)
            }
            ExprFault::WrongCount(at, len) => {
                self.raise_named(MessageId::WrongMathFunctionArguments, text, at, len)
            }
            ExprFault::FloatLiteral(at, len) => {
                self.raise_named(MessageId::FloatValue, text, at, len)
            }
            ExprFault::TooDeep => {
                self.raise_at(MessageId::ExpressionTooDeep, text, b"", ErrorCode::NoCode)
            }
            ExprFault::TooLarge => {
                self.raise(MessageId::IntegerTooLarge, b"", b"", ErrorCode::Overflow)
            }
            ExprFault::NoMemory => End::Memory,
        }
    }

    /// The instructions of the expression that the text of a place is, or the error that it is none.
    pub fn parsed(&mut self, at: At) -> Result<Rc<Items<Instruction>>, End>
        requires { HasPlace self.old.values.store at }
        ensures answer { Answers (spec.parsed (text_at self.old.values.store at)) shared self.old result self.new }
        ensures fits { IfOk result (λ found. Fits found.value 0 0) }
        ensures stack { KeepsStack self.old.values.store.stack result self.new.values.store.stack }
        ensures calm { IsCalm result }
        ensures units { self.new.units ≤ self.old.units }
        ensures own { self.new.own ≡ self.old.own }
    {
        match self.values.expr(at) {
            Ok(found) => Ok(found),
            Err(why) => Err(self.refuse_expression(at, why)),
        }
    }
}
