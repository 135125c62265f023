// What is done behind a script.
ghost use Rattle.std.specs.Prelude.{◌≡◌, ◌<◌, length};
ghost use Rattle.tclv_value.specs.Stacks.{under};
ghost use Rattle.tclv_engine.specs.Answers.{Answers, IsCalm, Leaves, last_of};
ghost use Rattle.tclv_engine.specs.Plans.{PlanOver, as_plan, concluded};
ghost use Rattle.tclv_control.specs.Finishing.{finish};
ghost use Rattle.tclv_control.specs.HandingSteps.{handed_on};

use crate::catch_plans::finish_catch;
use crate::levels::outcome_of;
use crate::try_plans::{finish_body, finish_handler, finish_last};
use crate::words::Words;
use tclv_engine::{End, Ended, Leaving, Machine, Plan};
use tclv_model::{Code, Options};
use tclv_text::Text;

/// What is done behind a script of a command.
#[derive(Drop)]
pub enum Behind {
    /// Its outcome is the command's.
    HandOn,
    /// It was the script of a `catch`: the variables of these names get its result and its options, and
    /// the number of its code is the result.
    Catch(Option<Text>, Option<Text>),
    /// It was the body of a `try`: the word of the call, and the words behind it, which say what is done.
    Body(Text, Words),
    /// It was a handler of a `try`: this script runs in the end, if there is one.
    Handler(Option<Text>),
    /// It was the script of a `try` that runs in the end: where it is ok, the outcome is this code with
    /// its result and its options, else its own.
    Finally(Code, Text, Options),
    /// It was the body of a procedure, whose outcome is one level down.
    Procedure,
}

/// Hands on how a script ended, as the command's outcome.
pub fn hand_on(ended: Ended) -> Result<Plan<Behind>, End>
    ensures { result ≡ handed_on ended }
{
    match ended {
        Ended::Ok(kept) => Ok(Plan::Finished(kept)),
        Ended::Left(Leaving::Error(errorcode)) => Err(End::Left(Leaving::Error(errorcode))),
        Ended::Left(Leaving::Other(Code::Ok, kept)) => Ok(Plan::Finished(kept)),
        Ended::Left(Leaving::Other(code, kept)) => Err(End::Left(Leaving::Other(code, kept))),
    }
}

/// What is done behind a script of a command, which ended so; its result is the top text of the stack.
/// A stop is never finished: it passes through each command.
pub fn finish_behind<W>(
    machine: &mut Machine<W>,
    behind: Behind,
    ended: Ended,
) -> Result<Plan<Behind>, End>
    requires { 0 < length machine.old.values.store.stack }
    ensures answer { Answers (finish behind (concluded ended (last_of machine.old.values.store.stack))) as_plan machine.old result machine.new }
    ensures stack { Leaves (PlanOver (under 1 machine.old.values.store.stack)) (under 1 machine.old.values.store.stack) result machine.new.values.store.stack }
    ensures calm { IsCalm result }
    ensures units { machine.new.units ≡ machine.old.units }
{
    match behind {
        Behind::HandOn => hand_on(ended),
        Behind::Catch(name, options) => finish_catch(machine, name, options, ended),
        Behind::Body(call, words) => finish_body(machine, &call, &words, ended),
        Behind::Handler(finally) => finish_handler(machine, finally, ended),
        Behind::Finally(code, text, options) => finish_last(machine, code, text, options, ended),
        Behind::Procedure => outcome_of(machine, ended),
    }
}
