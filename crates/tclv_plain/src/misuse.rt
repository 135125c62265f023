// Words that fit no form of a command.
ghost use Rattle.std.specs.Prelude.{Err};
ghost use Rattle.tclv_value.specs.View.{HasPlace, text_at};
ghost use Rattle.tclv_model.specs.Message.{text_of};
ghost use Rattle.tclv_model.specs.ErrorCodes.{error_code};
ghost use Rattle.tclv_model.specs.Usages.{usage_of};
ghost use Rattle.tclv_engine.specs.Answers.{KeepsStack, Raises, SameState};

use tclv_engine::{End, Machine};
use tclv_model::{ErrorCode, MessageId, Usage, usage_text};
use tclv_value::At;

/// The error of words that fit no form of a command, by the place of the word of the call; `form`
/// says whose usage the message shows.
pub fn misused<W>(machine: &mut Machine<W>, word: At, form: Usage) -> End
    requires { HasPlace machine.old.values.store word }
    ensures raises { let first = text_at machine.old.values.store word in
        Raises (text_of MessageId.WrongArguments first (usage_of form)) (error_code ErrorCode.WrongArguments first) machine.new.values.store.stack result }
    ensures same { SameState machine.old machine.new }
    ensures stack { KeepsStack {T = Unit {0}} machine.old.values.store.stack (Err result) machine.new.values.store.stack }
{
    machine.raise_at(
        MessageId::WrongArguments,
        word,
        usage_text(form).as_bytes(),
        ErrorCode::WrongArguments,
    )
}
