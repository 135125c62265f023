// The command `puts`.
ghost use Rattle.std.specs.Prelude.{◌≡◌, ◌<◌, ◌≤◌, length, true, IfOk};
ghost use Rattle.std.specs.Str.{chars};
ghost use Rattle.tclv_text.specs.Texts.{IsText};
ghost use Rattle.tclv_value.specs.View.{HasPlace, text_at};
ghost use Rattle.tclv_value.specs.Stacks.{top, under};
ghost use Rattle.tclv_engine.specs.Names.{bytes_of};
ghost use Rattle.tclv_engine.specs.Answers.{AnswersOver, Caused, SameState, PushesOne, PushesResult, outer, returned, as_result};
ghost use Rattle.tclv_plain.specs.ChannelRows as spec;

use crate::channels::{Channel, channel_named, is_word, write_on, write_piece};
use crate::misuse::misused;
use std::alloc::Global;
use tclv_engine::{End, Machine};
use tclv_io::Outside;
use tclv_model::{ErrorCode, Usage};
use tclv_text::NoMemory;
use tclv_value::At;

// A text and a newline, as UTF-8.
fn with_newline(alloc: Global, text: &[u8]) -> Result<Vec<u8>, NoMemory>
    requires { IsText text.now }
    ensures { IfOk result (λ piece. piece.items ≡ bytes_of (spec.line true (chars text.now))) }
{
    let mut piece = text.to_vec(alloc)?;
    piece.push(b'\n')?;
    Ok(piece)
}

// Whether a word is the option.
fn is_nonewline(word: &[u8]) -> bool
    requires { IsText word.now }
    ensures { result ≡ spec.is_nonewline (chars word.now) }
{
    is_word(word, b"-nonewline")
}

// Whether the text of a place is the option.
fn is_nonewline_at<W>(machine: &mut Machine<W>, word: At) -> Result<bool, NoMemory>
    requires { HasPlace machine.old.values.store word }
    ensures answer { IfOk result (λ is. is ≡ spec.is_nonewline (text_at machine.old.values.store word)) }
    ensures same { SameState machine.old machine.new }
    ensures stack { machine.new.values.store.stack ≡ machine.old.values.store.stack }
{
    machine.values.make_text(word)?;
    Ok(is_nonewline(machine.values.lend(word)))
}

// Writes the text of a place on a channel, with a newline or without.
fn write_text<W, O: Outside>(
    machine: &mut Machine<W>,
    channel: Channel,
    text: At,
    newline: bool,
    out: &mut O,
) -> Result<(), End>
    requires { HasPlace machine.old.values.store text }
    ensures answer { AnswersOver (spec.write (spec.target_of channel)
        (bytes_of (spec.line newline (text_at machine.old.values.store text)))) returned machine.old
        (outer (O.told out.old) (O.torn out.old)) result machine.new (outer (O.told out.new) (O.torn out.new)) }
    ensures quiet { spec.IsQuiet {W = W} (spec.write (spec.target_of channel)
        (bytes_of (spec.line newline (text_at machine.old.values.store text)))) out.old out.new }
    ensures cause { Caused (O.faults out.old) (O.faults out.new) result }
    ensures no_code { spec.HasNoCode result }
    ensures stack { machine.new.values.store.stack ≡ machine.old.values.store.stack }
    ensures units { machine.new.units ≡ machine.old.units }
{
    machine.values.make_text(text)?;
    if newline {
        let line = with_newline(machine.alloc, machine.values.lend(text))?;
        write_on(machine, channel, &line, out)
    } else {
        write_piece::<W, O>(&mut machine.writes, channel, machine.values.lend(text), out)
    }
}

// Writes the text of a place on a channel, and pushes the empty text.
fn put<W, O: Outside>(
    machine: &mut Machine<W>,
    channel: Channel,
    text: At,
    newline: bool,
    out: &mut O,
) -> Result<(), End>
    requires { HasPlace machine.old.values.store text }
    ensures answer { AnswersOver (spec.put channel (spec.line newline (text_at machine.old.values.store text))) as_result machine.old
        (outer (O.told out.old) (O.torn out.old)) result machine.new (outer (O.told out.new) (O.torn out.new)) }
    ensures quiet { spec.IsQuiet {W = W} (spec.put channel (spec.line newline (text_at machine.old.values.store text))) out.old out.new }
    ensures cause { Caused (O.faults out.old) (O.faults out.new) result }
    ensures stack { PushesOne machine.old.values.store.stack result machine.new.values.store.stack }
    ensures units { machine.new.units ≡ machine.old.units }
{
    write_text(machine, channel, text, newline, out)?;
    machine.values.push_text(b"")?;
    Ok(())
}

// The same on the channel whose name is the text of a place.
fn put_named<W, O: Outside>(
    machine: &mut Machine<W>,
    name: At,
    text: At,
    newline: bool,
    out: &mut O,
) -> Result<(), End>
    requires name { HasPlace machine.old.values.store name }
    requires text { HasPlace machine.old.values.store text }
    ensures answer { AnswersOver (spec.put_named (text_at machine.old.values.store name)
        (spec.line newline (text_at machine.old.values.store text))) as_result machine.old
        (outer (O.told out.old) (O.torn out.old)) result machine.new (outer (O.told out.new) (O.torn out.new)) }
    ensures quiet { spec.IsQuiet {W = W} (spec.put_named (text_at machine.old.values.store name)
        (spec.line newline (text_at machine.old.values.store text))) out.old out.new }
    ensures cause { Caused (O.faults out.old) (O.faults out.new) result }
    ensures stack { PushesOne machine.old.values.store.stack result machine.new.values.store.stack }
    ensures units { machine.new.units ≡ machine.old.units }
{
    machine.values.make_text(name)?;
    match channel_named(machine.values.lend(name)) {
        Ok(channel) => put(machine, channel, text, newline, out),
        Err(kind) => Err(machine.raise_at(kind, name, b"", ErrorCode::NoCode)),
    }
}

// Two words behind that of the call: the option and a text, or a channel and a text.
fn put_two<W, O: Outside>(
    machine: &mut Machine<W>,
    first: At,
    text: At,
    out: &mut O,
) -> Result<(), End>
    requires first { HasPlace machine.old.values.store first }
    requires text { HasPlace machine.old.values.store text }
    ensures answer { AnswersOver (spec.put_two (text_at machine.old.values.store first) (text_at machine.old.values.store text)) as_result machine.old
        (outer (O.told out.old) (O.torn out.old)) result machine.new (outer (O.told out.new) (O.torn out.new)) }
    ensures quiet { spec.IsQuiet {W = W} (spec.put_two (text_at machine.old.values.store first) (text_at machine.old.values.store text)) out.old out.new }
    ensures cause { Caused (O.faults out.old) (O.faults out.new) result }
    ensures stack { PushesOne machine.old.values.store.stack result machine.new.values.store.stack }
    ensures units { machine.new.units ≡ machine.old.units }
{
    let is_option = is_nonewline_at(machine, first)?;
    if is_option {
        put(machine, Channel::Output, text, false, out)
    } else {
        put_named(machine, first, text, true, out)
    }
}

// Three words behind that of the call: the option, a channel and a text.
fn put_three<W, O: Outside>(
    machine: &mut Machine<W>,
    word: At,
    option: At,
    channel: At,
    text: At,
    out: &mut O,
) -> Result<(), End>
    requires word { HasPlace machine.old.values.store word }
    requires option { HasPlace machine.old.values.store option }
    requires channel { HasPlace machine.old.values.store channel }
    requires text { HasPlace machine.old.values.store text }
    ensures answer { AnswersOver (spec.put_three (text_at machine.old.values.store word) (text_at machine.old.values.store option)
        (text_at machine.old.values.store channel) (text_at machine.old.values.store text)) as_result machine.old
        (outer (O.told out.old) (O.torn out.old)) result machine.new (outer (O.told out.new) (O.torn out.new)) }
    ensures quiet { spec.IsQuiet {W = W} (spec.put_three (text_at machine.old.values.store word) (text_at machine.old.values.store option)
        (text_at machine.old.values.store channel) (text_at machine.old.values.store text)) out.old out.new }
    ensures cause { Caused (O.faults out.old) (O.faults out.new) result }
    ensures stack { PushesOne machine.old.values.store.stack result machine.new.values.store.stack }
    ensures units { machine.new.units ≡ machine.old.units }
{
    let is_option = is_nonewline_at(machine, option)?;
    if is_option {
        put_named(machine, channel, text, false, out)
    } else {
        Err(misused(machine, word, Usage::Puts))
    }
}

/// The command `puts ?-nonewline? ?channelId? string`: writes the text and a newline, or with
/// the option the text alone, as one piece on standard output or on the channel. Its words are
/// the top `n` texts of the stack, the word of the call lowest; the result, which is the empty
/// text, is pushed. (Tcl manual: puts.)
pub fn cmd_puts<W, O: Outside>(machine: &mut Machine<W>, n: usize, out: &mut O) -> Result<(), End>
    requires words { n ≤ length machine.old.values.store.stack }
    requires some { 0 < n }
    ensures answer { AnswersOver (spec.row_puts (top n machine.old.values.store.stack)) as_result machine.old
        (outer (O.told out.old) (O.torn out.old)) result machine.new (outer (O.told out.new) (O.torn out.new)) }
    ensures quiet { spec.IsQuiet {W = W} (spec.row_puts (top n machine.old.values.store.stack)) out.old out.new }
    ensures cause { Caused (O.faults out.old) (O.faults out.new) result }
    ensures stack { PushesResult (under n machine.old.values.store.stack) result machine.new.values.store.stack }
    ensures units { machine.new.units ≡ machine.old.units }
{
    let base = machine.values.height() - n;
    match n {
        2 => put(machine, Channel::Output, At::Stack(base + 1), true, out),
        3 => put_two(machine, At::Stack(base + 1), At::Stack(base + 2), out),
        4 => put_three(
            machine,
            At::Stack(base),
            At::Stack(base + 1),
            At::Stack(base + 2),
            At::Stack(base + 3),
            out,
        ),
        _ => Err(misused(machine, At::Stack(base), Usage::Puts)),
    }
}
