// The top call.
ghost use Rattle.std.specs.Prelude.{◌≡◌, ◌≢◌, ◌⊎◌, ℕ, ◌<◌, ◌≤◌, map, None, string_bytes};
ghost use Rattle.std.specs.FinMap as finite;
ghost use Rattle.tclv_io.specs.World.{WhereTold};
ghost use Rattle.tclv_io.specs.Causes.{Rose};
ghost use Rattle.tclv_io.specs.Events.{shown};
ghost use Rattle.tclv_shell.specs.Halts.{seen};
ghost use Rattle.tclv_shell.specs.Lent.{lent};
ghost use Rattle.tclv_shell.specs.Words.{invocation_of};
ghost use Rattle.tclv_shell.specs.Run.{Run, Follows, MeansAll, MeansPrefix, Completes, IsComplete, IsCutShort, HasStatus, message_only, meaning_of_file};

use crate::final_messages::say;
use crate::halts::cut_short;
use crate::script_files::{Loaded, load};
use crate::scripts::run_text;
use crate::words::{Invocation, read_words};
use std::alloc::Global;
use tclv_io::Outside;
use tclv_model::{End, MessageId, Report};

// Ends a run whose script file can't be run.
fn refuse<O: Outside>(alloc: Global, kind: MessageId, file: &str, out: &mut O) -> Report
    ensures follows { Follows (λ w. message_only kind file.now End.Failed) (O.told out.old)
        (seen (O.told out.old) (O.faults out.old) (O.torn out.old)) (seen (O.told out.new) (O.faults out.new) (O.torn out.new)) result }
    ensures ends { result.end ≢ End.Usage }
{
    say(alloc, kind, file.as_bytes(), End::Failed, out)
}

// Opens, reads and runs the script file.
fn run_file<O: Outside>(alloc: Global, call: Invocation<'_>, out: &mut O) -> Report
    ensures follows { Follows (λ w. meaning_of_file (lent call.entry) (finite.get w.out.files call.entry.file.now) w) (O.told out.old)
        (seen (O.told out.old) (O.faults out.old) (O.torn out.old)) (seen (O.told out.new) (O.faults out.new) (O.torn out.new)) result }
    ensures ends { result.end ≢ End.Usage }
{
    match load(alloc, call.file, out) {
        Ok(Loaded::Text(text)) => run_text(alloc, call, &text, out),
        Ok(Loaded::Missing) => refuse(alloc, MessageId::NoSuchFile, call.file, out),
        Ok(Loaded::TooLarge) => refuse(alloc, MessageId::FileTooLarge, call.file, out),
        Ok(Loaded::NotUtf8) => refuse(alloc, MessageId::FileNotUtf8, call.file, out),
        Err(halt) => cut_short(halt, 0),
    }
}

/// Runs the words of a command line, which come without the program's name: a budget or none, a
/// script file and its arguments.
///
/// The words are in form where they are a file and arguments, or `-budget`, a number, a file and
/// arguments. The number is 1 to 19 decimal digits, at most 2^63-1; without it the budget is 10^12.
/// A file's name isn't empty and doesn't begin with `-`.
///
/// The script file is opened, read to its end and closed; then its size is looked at, and whether
/// it is UTF-8. In its text CR LF and a lone CR become newlines. Then its commands run, with these
/// variables, set in this order: `argv0`, the file's name, `argv`, the list of arguments, and `argc`,
/// the count of them. Each command takes a unit of the budget.
///
/// The report's `end` is `Done` where all commands ran, or where `exit` ended the run with a status
/// of its own; `Failed` where the script ended with an error, and where its file isn't there, is
/// too large or isn't UTF-8; `Usage` where the words aren't in form; `Budget` where no unit was
/// left. In the last three cases a message goes to standard error with a newline behind it. The end
/// is `Device` where the device failed and `Memory` where memory ran out; then nothing more is
/// written. Where no fault of a device was counted in the run and the count is below its last value,
/// the run does all that its meaning says, or its end is `Memory`.
pub fn run<O: Outside>(alloc: Global, words: &Vec<String>, out: &mut O) -> Report
    // Where the run comes to its own end, all is as its meaning says.
    ensures all { WhereTold (O.told out.old) (λ w. IsComplete result.end
        → MeansAll (Run (map string_bytes words.now.items) w) w.out (shown (O.told out.new)) result) }

    // Where it is cut short, the first events of its meaning happened, and of the next what a
    // failed write took of it.
    ensures prefix { WhereTold (O.told out.old)
        (λ w. IsCutShort result.end → MeansPrefix (Run (map string_bytes words.now.items) w) w.out (shown (O.told out.new)) (O.torn out.old)
        (O.torn out.new) result) }

    // Where no fault is counted and the count is below its last value, all is as the meaning says,
    // or memory ran out.
    ensures complete { WhereTold (O.told out.old) (λ w. (Rose (O.faults out.old) (O.faults out.new) → ⊥) →
        Completes (Run (map string_bytes words.now.items) w) w.out (shown (O.told out.new)) result) }

    // A device's fault ends the run, and nothing else ends it so.
    ensures device { result.end ≡ End.Device → Rose (O.faults out.old) (O.faults out.new) }
    ensures fault { O.faults out.old < O.faults out.new → result.end ≡ End.Device }
    ensures later { O.faults out.old ≤ O.faults out.new }

    ensures status { HasStatus result.end result.status }
    ensures usage { result.end ≡ End.Usage → invocation_of (map string_bytes words.now.items) ≡ None }
    ensures only_usage { invocation_of (map string_bytes words.now.items) ≡ None → (result.end ≡ End.Usage) ⊎ IsCutShort result.end }
{
    match read_words(words) {
        Some(call) => run_file(alloc, call, out),
        None => say(alloc, MessageId::Usage, &[], End::Usage, out),
    }
}
