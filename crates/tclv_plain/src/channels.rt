// Channels that are open for writing, and writing on them.
ghost use Rattle.std.specs.Prelude.{◌≡◌, ◌≤◌};
ghost use Rattle.std.specs.Str.{bytes_eq, chars};
ghost use Rattle.tclv_text.specs.Texts.{IsText};
ghost use Rattle.tclv_engine.specs.Answers.{AnswersOver, Caused, outer, returned};
ghost use Rattle.tclv_plain.specs.ChannelRows as spec;

use tclv_engine::{End, Machine};
use tclv_io::{Outside, WriteFault};
use tclv_model::MessageId;

/// A channel that is open for writing.
#[derive(Clone, Copy, Debug, PartialEq, Eq)]
pub enum Channel {
    /// Standard output, `stdout`.
    Output,
    /// Standard error, `stderr`.
    Errors,
}

// The number of a channel at the outside.
fn number_of(channel: Channel) -> u64
    ensures { result ≡ spec.number_of channel }
{
    match channel {
        Channel::Output => 1,
        Channel::Errors => 2,
    }
}

/// Whether two texts are the same, by their bytes.
pub fn is_word(text: &[u8], word: &[u8]) -> bool
    ensures { result ≡ bytes_eq text.now word.now }
{
    text == word
}

/// The channel of a name, given as UTF-8: `stdout` or `stderr`. For another name the message of
/// the error: `NotOpenForWriting` for `stdin`, else `NoSuchChannel`.
pub fn channel_named(name: &[u8]) -> Result<Channel, MessageId>
    requires { IsText name.now }
    ensures { result ≡ spec.channel_named (chars name.now) }
{
    if is_word(name, b"stdout") {
        return Ok(Channel::Output);
    }
    if is_word(name, b"stderr") {
        return Ok(Channel::Errors);
    }
    if is_word(name, b"stdin") {
        return Err(MessageId::NotOpenForWriting);
    }
    Err(MessageId::NoSuchChannel)
}

// What a failed write ends with.
fn stop_of(fault: WriteFault) -> End
    ensures { result ≡ spec.stop_of fault }
{
    match fault {
        WriteFault::Partly { .. } => End::Device,
        WriteFault::NoMemory => End::Memory,
    }
}

/// Writes a piece on a channel: one event, which is counted in `writes`. Of no bytes there is no
/// event and no call. A fault of the device is `End::Device`; where memory runs out, or the count
/// has no room, it is `End::Memory` and nothing is written. So it answers for any machine whose count
/// this is, with any tables `W`.
pub fn write_piece<W, O: Outside>(
    writes: &mut u64,
    channel: Channel,
    piece: &[u8],
    out: &mut O,
) -> Result<(), End>
    ensures answer { (m : Machine W) → AnswersOver (spec.write (spec.target_of channel) piece.now) returned (record m { writes = writes.old })
        (outer (O.told out.old) (O.torn out.old)) result (record m { writes = writes.new }) (outer (O.told out.new) (O.torn out.new)) }
    ensures cause { Caused (O.faults out.old) (O.faults out.new) result }
    ensures quiet { spec.IsQuiet {W = W} (spec.write (spec.target_of channel) piece.now) out.old out.new }
    ensures no_code { spec.HasNoCode result }
{
    if piece.is_empty() {
        return Ok(());
    }
    let Some(count) = writes.checked_add(1) else {
        return Err(End::Memory);
    };
    match out.write(number_of(channel), piece) {
        Ok(()) => {
            *writes = count;
            Ok(())
        }
        Err(fault) => Err(stop_of(fault)),
    }
}

/// Writes a piece on a channel, as `write_piece` does. No value changes.
pub fn write_on<W, O: Outside>(
    machine: &mut Machine<W>,
    channel: Channel,
    piece: &[u8],
    out: &mut O,
) -> Result<(), End>
    ensures answer { AnswersOver (spec.write (spec.target_of channel) piece.now) returned machine.old
        (outer (O.told out.old) (O.torn out.old)) result machine.new (outer (O.told out.new) (O.torn out.new)) }
    ensures cause { Caused (O.faults out.old) (O.faults out.new) result }
    ensures quiet { spec.IsQuiet {W = W} (spec.write (spec.target_of channel) piece.now) out.old out.new }
    ensures no_code { spec.HasNoCode result }
    ensures values { machine.new.values ≡ machine.old.values }
    ensures units { machine.new.units ≡ machine.old.units }
{
    write_piece::<W, O>(&mut machine.writes, channel, piece, out)
}
