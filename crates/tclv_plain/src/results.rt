// Results that are pushed as texts.
ghost use Rattle.std.specs.Prelude.{◌≡◌, IfOk};
ghost use Rattle.std.specs.Str.{chars};
ghost use Rattle.tclv_text.specs.Texts.{IsText};
ghost use Rattle.tclv_value.specs.View.{HasPlace, text_at};
ghost use Rattle.tclv_engine.specs.Answers.{Answers, IsCalm, PushesOne, as_result};
ghost use Rattle.tclv_engine.specs.Holdings.{SameVariables};
ghost use Rattle.tclv_engine.specs.Results.{ok};
ghost use Rattle.tclv_plain.specs.Subcommands.{flag};

use crate::cell_commands::copied;
use tclv_engine::{End, Machine, Values};
use tclv_text::{NoMemory, Text};
use tclv_value::At;

/// Pushes a text, as the result.
pub fn push_result<W>(machine: &mut Machine<W>, text: &[u8]) -> Result<(), End>
    requires { IsText text.now }
    ensures answer { Answers (ok (chars text.now)) as_result machine.old result machine.new }
    ensures stack { PushesOne machine.old.values.store.stack result machine.new.values.store.stack }
    ensures calm { IsCalm result }
    ensures units { machine.new.units ≡ machine.old.units }
{
    machine.values.push_text(text)?;
    Ok(())
}

/// Pushes 1 for yes and 0 for no, as the result.
pub fn push_flag<W>(machine: &mut Machine<W>, is: bool) -> Result<(), End>
    ensures answer { Answers (ok (flag is)) as_result machine.old result machine.new }
    ensures stack { PushesOne machine.old.values.store.stack result machine.new.values.store.stack }
    ensures calm { IsCalm result }
    ensures units { machine.new.units ≡ machine.old.units }
{
    if is {
        push_result(machine, b"1")
    } else {
        push_result(machine, b"0")
    }
}

/// A copy of the text of a place. No text changes.
pub fn copy_at(values: &mut Values, at: At) -> Result<Text, NoMemory>
    requires { HasPlace values.old.store at }
    ensures copy { IfOk result (λ text. text ≡ text_at values.old.store at) }
    ensures stack { values.new.store.stack ≡ values.old.store.stack }
    ensures same { SameVariables values.old values.new }
{
    values.make_text(at)?;
    copied(values, at)
}
