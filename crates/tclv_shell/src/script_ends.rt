// The end of a script file.
ghost use Rattle.std.specs.Prelude.{◌≡◌, ◌≢◌, []};
ghost use Rattle.std.specs.Str.{chars};
ghost use Rattle.tclv_text.specs.Texts.{IsText};
ghost use Rattle.tclv_shell.specs.FileEnds.{error_of_number};
ghost use Rattle.tclv_shell.specs.Halts.{seen};
ghost use Rattle.tclv_shell.specs.Run.{FollowsBehind, HasStatus, without_message, at_file_end};

use crate::file_ends::file_error;
use crate::final_messages::say_behind;
use crate::halts::{Halt, cut_short};
use std::alloc::Global;
use tclv_io::Outside;
use tclv_model::{End, Report};
use tclv_text::Stats;

/// The report of a run that ends without a message, behind so many events.
pub fn done_behind(done: u64, status: u8) -> Report
    ensures end { result.end ≡ End.Done }
    ensures status { result.status ≡ status }
    ensures writes { result.writes ≡ done }
{
    Report {
        end: End::Done,
        status,
        writes: done,
        stats: Stats::ZERO,
    }
}

/// Ends a run at the end of its script file, behind so many events: the number of the script's code
/// and its result say whether it ends with an error.
pub fn end_file<O: Outside>(
    alloc: Global,
    number: i64,
    text: &[u8],
    done: u64,
    out: &mut O,
) -> Report
    requires { IsText text.now }
    ensures follows { FollowsBehind done (λ w. at_file_end [] 0 (error_of_number number (chars text.now))) (O.told out.old)
        (seen (O.told out.old) (O.faults out.old) (O.torn out.old)) (seen (O.told out.new) (O.faults out.new) (O.torn out.new)) result }
    ensures ends { result.end ≢ End.Usage }
{
    match file_error(alloc, number, text) {
        Ok(None) => done_behind(done, 0),
        Ok(Some(message)) => say_behind(done, message, End::Failed, out),
        Err(_) => cut_short(Halt::Memory, done),
    }
}
