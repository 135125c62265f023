// The script of a file: its run in an interpreter.
ghost use Rattle.std.specs.Prelude.{◌≡◌, ◌≢◌, ◌<◌, ◌^◌, [], false, IfOk, pos};
ghost use Rattle.tclv_text.specs.Numbers.{whole_text};
ghost use Rattle.tclv_model.specs.Message.{text_of};
ghost use Rattle.tclv_io.specs.World.{World};
ghost use Rattle.tclv_value.specs.View.{HasPlace};
ghost use Rattle.tclv_interp.specs.Interpreters.{state_over, writes_of, script_at, is_stopped, result_of, options_at};
ghost use Rattle.tclv_shell.specs.FileEnds.{file_error};
ghost use Rattle.tclv_shell.specs.Halts.{seen};
ghost use Rattle.tclv_shell.specs.Lent.{lent};
ghost use Rattle.tclv_shell.specs.Run.{Follows, FollowsBehind, with_message, at_file_end, meaning_of_evaluation, meaning_of_script, start};

use crate::arguments::list_text;
use crate::file_ends::after_level;
use crate::final_messages::{message_text, say_behind};
use crate::halts::{Halt, cut_short};
use crate::script_ends::{done_behind, end_file};
use crate::script_texts::script_text;
use crate::words::Invocation;
use std::alloc::Global;
use tclv_interp::{Interp, Stop};
use tclv_io::Outside;
use tclv_model::{Code, End, MessageId, Report};
use tclv_text::{NoMemory, Text, whole_text};
use tclv_value::At;

// The decimal text of a count.
fn count_text(alloc: Global, count: usize) -> Result<Text, NoMemory>
    requires { count < 2 ^ 63 }
    ensures { IfOk result (λ text. text ≡ whole_text (pos count)) }
{
    let mut text = Vec::new(alloc);
    whole_text(count as i64, &mut text)?;
    Ok(Text::new(text))
}

// An interpreter as a script file finds it, and the place of the script in it.
fn prepared(alloc: Global, call: Invocation<'_>, script: &Text) -> Result<(Interp, At), NoMemory>
    ensures state { IfOk result (λ p. (w : World) → state_over p.0 w ≡ start (lent call.entry) w) }
    ensures place { IfOk result (λ p. HasPlace p.0.machine.values.store p.1) }
    ensures script { IfOk result (λ p. script_at p.0 p.1 ≡ script.now) }
    ensures stopped { IfOk result (λ p. is_stopped p.0 ≡ false) }
    ensures fresh { IfOk result (λ p. writes_of p.0 ≡ 0) }
{
    let mut interp = Interp::new(alloc, call.budget)?;
    interp.set_global(b"argv0", call.file.as_bytes())?;
    let list = list_text(alloc, call.args)?;
    interp.set_global(b"argv", list.bytes())?;
    let count = count_text(alloc, call.args.len())?;
    interp.set_global(b"argc", count.bytes())?;
    let at = interp.push_script(script.bytes())?;
    Ok((interp, at))
}

// Ends a run at the end of the script file, where the script ended with this code.
fn end_script<O: Outside>(alloc: Global, code: Code, interp: &mut Interp, out: &mut O) -> Report
    ensures follows { FollowsBehind (writes_of interp.old) (λ w. at_file_end [] 0 (file_error code (options_at interp.old) (result_of interp.old)))
        (O.told out.old) (seen (O.told out.old) (O.faults out.old) (O.torn out.old))
        (seen (O.told out.new) (O.faults out.new) (O.torn out.new)) result }
    ensures ends { result.end ≢ End.Usage }
{
    let done = interp.writes();
    let number = after_level(code, interp.options());
    match interp.result_text() {
        Ok(text) => end_file(alloc, number, text, done, out),
        Err(_) => cut_short(Halt::Memory, done),
    }
}

// Ends a run for which no unit was left.
fn say_spent<O: Outside>(alloc: Global, done: u64, out: &mut O) -> Report
    ensures follows { FollowsBehind done (λ w. with_message [] 0 (text_of MessageId.CommandLimitExceeded [] []) End.Budget) (O.told out.old)
        (seen (O.told out.old) (O.faults out.old) (O.torn out.old)) (seen (O.told out.new) (O.faults out.new) (O.torn out.new)) result }
    ensures ends { result.end ≢ End.Usage }
{
    match message_text(alloc, MessageId::CommandLimitExceeded, &[]) {
        Ok(text) => say_behind(done, text, End::Budget, out),
        Err(_) => cut_short(Halt::Memory, done),
    }
}

// Evaluates the script of a place, and ends the run.
fn finish<O: Outside>(alloc: Global, interp: &mut Interp, at: At, out: &mut O) -> Report
    requires running { is_stopped interp.old ≡ false }
    requires fresh { writes_of interp.old ≡ 0 }
    requires place { HasPlace interp.old.machine.values.store at }
    ensures follows { Follows (λ w. meaning_of_evaluation (script_at interp.old at) (state_over interp.old w)) (O.told out.old)
        (seen (O.told out.old) (O.faults out.old) (O.torn out.old)) (seen (O.told out.new) (O.faults out.new) (O.torn out.new)) result }
    ensures ends { result.end ≢ End.Usage }
{
    match interp.eval(at, out) {
        Ok(code) => end_script(alloc, code, interp, out),
        Err(Stop::Exit(status)) => done_behind(interp.writes(), status),
        Err(Stop::Budget) => say_spent(alloc, interp.writes(), out),
        Err(Stop::Device) => cut_short(Halt::Device, interp.writes()),
        Err(Stop::Memory) => cut_short(Halt::Memory, interp.writes()),
        Err(Stop::Stopped) => unreachable!(),
    }
}

// Runs a script.
fn run_script<O: Outside>(alloc: Global, call: Invocation<'_>, script: &Text, out: &mut O) -> Report
    ensures follows { Follows (λ w. meaning_of_evaluation script.now (start (lent call.entry) w)) (O.told out.old)
        (seen (O.told out.old) (O.faults out.old) (O.torn out.old)) (seen (O.told out.new) (O.faults out.new) (O.torn out.new)) result }
    ensures ends { result.end ≢ End.Usage }
{
    let Ok((mut interp, at)) = prepared(alloc, call, script) else {
        return cut_short(Halt::Memory, 0);
    };
    let report = finish(alloc, &mut interp, at, out);
    Report {
        stats: interp.stats(),
        ..report
    }
}

/// Runs the script of a file, given the file's text.
pub fn run_text<O: Outside>(alloc: Global, call: Invocation<'_>, file: &Text, out: &mut O) -> Report
    ensures follows { Follows (λ w. meaning_of_script (lent call.entry) file.now w) (O.told out.old)
        (seen (O.told out.old) (O.faults out.old) (O.torn out.old)) (seen (O.told out.new) (O.faults out.new) (O.torn out.new)) result }
    ensures ends { result.end ≢ End.Usage }
{
    match script_text(alloc, file) {
        Ok(script) => run_script(alloc, call, &script, out),
        Err(_) => cut_short(Halt::Memory, 0),
    }
}
