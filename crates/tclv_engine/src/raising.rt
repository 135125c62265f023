// Raising an error.
ghost use Rattle.std.specs.Prelude.{◌≡◌, Err, IfOk, MatchResult};
ghost use Rattle.std.specs.Str.{chars};
ghost use Rattle.tclv_text.specs.Texts.{IsText};
ghost use Rattle.tclv_value.specs.View.{HasPlace, text_at};
ghost use Rattle.tclv_model.specs.Message.{text_of};
ghost use Rattle.tclv_model.specs.ErrorCodes.{error_code};
ghost use Rattle.tclv_engine.specs.Answers.{Raises, LeavesEmpty, SameState, KeepsStack};

use crate::endings::{End, Leaving};
use crate::machine::Machine;
use crate::messages::message_text;
use std::alloc::Global;
use tclv_model::{ErrorCode, MessageId, code_text};
use tclv_text::{NoMemory, Text};
use tclv_value::At;

/// The text and the code of an error.
pub fn error_texts(
    alloc: Global,
    kind: MessageId,
    first: &[u8],
    second: &[u8],
    errorcode: ErrorCode,
) -> Result<(Text, Text), NoMemory>
    requires first { IsText first.now }
    requires second { IsText second.now }
    ensures text { IfOk result (λ texts. texts.0 ≡ text_of kind (chars first.now) (chars second.now)) }
    ensures code { IfOk result (λ texts. texts.1 ≡ error_code errorcode (chars first.now)) }
{
    let text = message_text(alloc, kind, first, second)?;
    let code = code_text(alloc, errorcode, first)?;
    Ok((text, code))
}

impl<W> Machine<W> {
    /// Pushes the text of an error.
    pub fn throw(&mut self, texts: Result<(Text, Text), NoMemory>) -> End
        ensures raises { MatchResult texts (λ t. Raises t.0 t.1 self.new.values.store.stack result) (λ _. result ≡ End.Memory) }
        ensures same { SameState self.old self.new }
        ensures stack { KeepsStack {T = Unit {0}} self.old.values.store.stack (Err result) self.new.values.store.stack }
    {
        let Ok((text, code)) = texts else {
            return End::Memory;
        };
        match self.values.push_text(text.bytes()) {
            Ok(()) => End::Left(Leaving::Error(code)),
            Err(_) => End::Memory,
        }
    }

    /// Raises an error: pushes the text of a message. Its first part is what the error code names.
    pub fn raise(
        &mut self,
        kind: MessageId,
        first: &[u8],
        second: &[u8],
        errorcode: ErrorCode,
    ) -> End
        requires first { IsText first.now }
        requires second { IsText second.now }
        ensures raises { Raises (text_of kind (chars first.now) (chars second.now))
            (error_code errorcode (chars first.now)) self.new.values.store.stack result }
        ensures same { SameState self.old self.new }
        ensures stack { KeepsStack {T = Unit {0}} self.old.values.store.stack (Err result) self.new.values.store.stack }
    {
        let texts = error_texts(self.alloc, kind, first, second, errorcode);
        self.throw(texts)
    }

    /// Leaves with a code that isn't an error's, and the empty text as its result.
    pub fn leave(&mut self, code: Leaving) -> End
        ensures leaves { LeavesEmpty code self.new.values.store.stack result }
        ensures same { SameState self.old self.new }
        ensures stack { KeepsStack {T = Unit {0}} self.old.values.store.stack (Err result) self.new.values.store.stack }
    {
        match self.values.push_text(b"") {
            Ok(()) => End::Left(code),
            Err(_) => End::Memory,
        }
    }

    /// Raises an error, where the first part of its message is the text of a place.
    pub fn raise_at(
        &mut self,
        kind: MessageId,
        first: At,
        second: &[u8],
        errorcode: ErrorCode,
    ) -> End
        requires first { HasPlace self.old.values.store first }
        requires second { IsText second.now }
        ensures raises { Raises (text_of kind (text_at self.old.values.store first) (chars second.now))
            (error_code errorcode (text_at self.old.values.store first)) self.new.values.store.stack result }
        ensures same { SameState self.old self.new }
        ensures stack { KeepsStack {T = Unit {0}} self.old.values.store.stack (Err result) self.new.values.store.stack }
    {
        if self.values.make_text(first).is_err() {
            return End::Memory;
        }
        let texts = error_texts(self.alloc, kind, self.values.lend(first), second, errorcode);
        self.throw(texts)
    }
}
