// The final message of a run: a line on standard error.
ghost use Rattle.std.specs.Prelude.{◌≡◌, ◌⊎◌, ◌≤◌, [], IfOk};
ghost use Rattle.tclv_model.specs.Message.{text_of};
ghost use Rattle.tclv_shell.specs.Halts.{seen};
ghost use Rattle.tclv_shell.specs.Run.{Follows, FollowsBehind, IsComplete, IsCutShort, status_of, with_message, message_only};

use crate::halts::{Halt, cut_short, write_piece};
use std::alloc::Global;
use tclv_io::Outside;
use tclv_model::{End, MessageId, Report, message};
use tclv_text::{NoMemory, Stats};

fn status_of(end: End) -> u8
    ensures { result ≡ status_of end }
{
    match end {
        End::Done => 0,
        End::Failed => 1,
        End::Usage => 2,
        End::Budget => 125,
        End::Device => 124,
        End::Memory => 123,
    }
}

/// The text of a message with a part, which is taken as it is.
pub fn message_text(alloc: Global, kind: MessageId, part: &[u8]) -> Result<Vec<u8>, NoMemory>
    ensures { IfOk result (λ text. text.items ≡ text_of kind part.now []) }
{
    let mut text = Vec::new(alloc);
    message(kind, part, &[], &mut text)?;
    Ok(text)
}

/// Writes a message and a newline on standard error, and reports that a run ended so.
pub fn say_text<O: Outside>(mut text: Vec<u8>, end: End, out: &mut O) -> Report
    requires { IsComplete end }
    ensures follows { Follows (λ w. with_message [] 0 text.items end) (O.told out.old) (seen (O.told out.old) (O.faults out.old) (O.torn out.old))
        (seen (O.told out.new) (O.faults out.new) (O.torn out.new)) result }
    ensures ends { (result.end ≡ end) ⊎ IsCutShort result.end }
    ensures writes { result.writes ≤ 1 }
{
    if text.push(b'\n').is_err() {
        return cut_short(Halt::Memory, 0);
    }
    match write_piece(2, &text, out) {
        Ok(()) => Report {
            end,
            status: status_of(end),
            writes: 1,
            stats: Stats::ZERO,
        },
        Err(halt) => cut_short(halt, 0),
    }
}

/// Ends a run with the text of a message, where so many events happened before. Where one more can't
/// be counted, memory ran out.
pub fn say_behind<O: Outside>(done: u64, text: Vec<u8>, end: End, out: &mut O) -> Report
    requires { IsComplete end }
    ensures follows { FollowsBehind done (λ w. with_message [] 0 text.items end) (O.told out.old)
        (seen (O.told out.old) (O.faults out.old) (O.torn out.old)) (seen (O.told out.new) (O.faults out.new) (O.torn out.new)) result }
    ensures ends { (result.end ≡ end) ⊎ IsCutShort result.end }
{
    if done == u64::MAX {
        return cut_short(Halt::Memory, done);
    }
    let own = say_text(text, end, out);
    Report {
        writes: done + own.writes,
        ..own
    }
}

/// Ends a run with a message.
pub fn say<O: Outside>(alloc: Global, kind: MessageId, part: &[u8], end: End, out: &mut O) -> Report
    requires { IsComplete end }
    ensures follows { Follows (λ w. message_only kind part.now end) (O.told out.old) (seen (O.told out.old) (O.faults out.old) (O.torn out.old))
        (seen (O.told out.new) (O.faults out.new) (O.torn out.new)) result }
    ensures ends { (result.end ≡ end) ⊎ IsCutShort result.end }
{
    match message_text(alloc, kind, part) {
        Ok(text) => say_text(text, end, out),
        Err(_) => cut_short(Halt::Memory, 0),
    }
}
