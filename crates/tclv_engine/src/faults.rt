// The end of a script.
ghost use Rattle.std.specs.Prelude.{◌≡◌, ◌≤◌, ◌<◌, [], length};
ghost use Rattle.tclv_engine.specs.Evaluation as spec;
ghost use Rattle.tclv_engine.specs.Results.{outcome};
ghost use Rattle.tclv_engine.specs.Answers.{Answers, KeepsStack, IsCalm, as_outcome, last_of};

use crate::endings::{Carried, End};
use crate::machine::Machine;
use tclv_model::{ErrorCode, MessageId};
use tclv_parse::ParseFault;

/// The message of a fault of the grammar.
fn fault_message(fault: ParseFault) -> MessageId
    ensures { result ≡ spec.fault_message fault }
{
    match fault {
        ParseFault::CloseBrace => MessageId::MissingCloseBrace,
        ParseFault::CloseQuote => MessageId::MissingCloseQuote,
        ParseFault::CloseBracket => MessageId::MissingCloseBracket,
        ParseFault::AfterBrace => MessageId::ExtraAfterCloseBrace,
        ParseFault::AfterQuote => MessageId::ExtraAfterCloseQuote,
        ParseFault::CloseParen => MessageId::MissingCloseParenthesis,
        ParseFault::VarBrace => MessageId::MissingVariableCloseBrace,
        ParseFault::TooDeep => MessageId::TooManyNestedBrackets,
    }
}

impl<W> Machine<W> {
    /// Ends a script behind its last command, whose result is the top text and which carries these
    /// options.
    pub fn end_script(&mut self, last: Carried, fault: Option<ParseFault>) -> Result<Carried, End>
        requires { 0 < length self.old.values.store.stack }
        ensures answer { Answers (spec.end_of fault (outcome last (last_of self.old.values.store.stack))) as_outcome self.old result self.new }
        ensures stack { KeepsStack self.old.values.store.stack result self.new.values.store.stack }
        ensures calm { IsCalm result }
        ensures units { self.new.units ≤ self.old.units }
        ensures own { self.new.own ≡ self.old.own }
    {
        match fault {
            None => Ok(last),
            Some(fault) => Err(self.raise(fault_message(fault), b"", b"", ErrorCode::NoCode)),
        }
    }
}
