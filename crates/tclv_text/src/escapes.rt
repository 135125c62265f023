// Escapes: a backslash and what follows it.
ghost use Rattle.std.specs.Prelude.{◌≡◌, ◌+◌, ◌^◌, ◌<◌, ◌≤◌, length, take, drop, slice_index, OnOk, OnErr};
ghost use Rattle.std.specs.Str.{chars};
ghost use Rattle.std.specs.List.{prefix_len};
ghost use Rattle.tclv_text.specs.Texts.{IsText, Appends, AppendsText};
ghost use Rattle.tclv_text.specs.Cuts.{IsCut};
ghost use Rattle.tclv_text.specs.Escapes.{digit_run, numbered, is_blank, escape, unescape, is_literal};

use crate::NoMemory;
use crate::characters::{digit, first_char};
use bstr::ByteVec;

/// The number that at most `limit` digits in front write, while it is at most `most`, and how many
/// digits that are.
fn digit_run(text: &[u8], radix: u8, most: u32, limit: usize) -> (u32, usize)
    requires low { 2 ≤ radix }
    requires high { radix ≤ 16 }
    requires room { most < 2 ^ 24 }
    ensures run { result ≡ digit_run radix most limit 0 text.now }
    ensures within { result.1 ≤ length text.now }
    ensures most { result.0 ≤ most }
{
    let mut value: u32 = 0;
    let mut count = 0;
    while count < limit && count < text.len() {
        let d = digit(text[count]);
        if d >= radix {
            break;
        }
        let next = value * radix as u32 + d as u32;
        if next > most {
            break;
        }
        value = next;
        count += 1;
    }
    (value, count)
}

/// How many spaces and tabs stand in front.
#[tactic(auto, using(crate::proofs::CharacterLemmas::front_lengths))]
fn blank_len(text: &[u8]) -> usize
    ensures len { result ≡ prefix_len is_blank text.now }
    ensures within { result ≤ length text.now }
{
    text.iter()
        .take_while(|b| matches!(**b, b' ' | b'\t'))
        .count()
}

/// What a letter stands for, with a number behind it of so many digits.
fn numbered(letter: char, run: (u32, usize)) -> (char, usize)
    requires number { run.0 ≤ 0x10_FFFF }
    requires room { run.1 + 1 < 2 ^ 64 }
    ensures { result ≡ numbered letter run }
{
    if run.1 == 0 {
        return (letter, 1);
    }
    (char::from_u32(run.0).unwrap_or('\u{FFFD}'), run.1 + 1)
}

/// What the text behind a backslash stands for, which begins with an ASCII character, and how many
/// bytes of it that takes.
#[tactic(auto, unfolding(crate::specs::Escapes::escape))]
fn ascii_escape(text: &[u8]) -> (char, usize)
    requires some { 0 < length text.now }
    requires ascii { slice_index text.now 0 < 128 }
    ensures { result ≡ escape text.now }
{
    let first = text[0];
    let rest = &text[1..];
    match first {
        b'a' => ('\x07', 1),
        b'b' => ('\x08', 1),
        b'f' => ('\x0C', 1),
        b'n' => ('\n', 1),
        b'r' => ('\r', 1),
        b't' => ('\t', 1),
        b'v' => ('\x0B', 1),
        b'x' => numbered('x', digit_run(rest, 16, 255, 2)),
        b'u' => numbered('u', digit_run(rest, 16, 65535, 4)),
        b'U' => numbered('U', digit_run(rest, 16, 0x10_FFFF, 8)),
        b'\n' => (' ', blank_len(rest) + 1),
        b'0'..=b'7' => {
            let (value, count) = digit_run(text, 8, 255, 3);
            (value as u8 as char, count)
        }
        _ => (first as char, 1),
    }
}

/// What the text behind a backslash stands for, and how many bytes of it that takes.
fn escape_of(rest: &[u8]) -> (char, usize)
    requires { IsText rest.now }
    ensures char { result.0 ≡ (escape (chars rest.now)).0 }
    ensures taken { IsCut rest.now result.1 (escape (chars rest.now)).1 }
{
    if rest.is_empty() {
        return ('\\', 0);
    }
    if rest[0] < 128 {
        return ascii_escape(rest);
    }
    first_char(rest)
}

/// The character that the escape at the front of a text stands for, and how many bytes the escape
/// takes, its backslash included.
///
/// `\a \b \f \n \r \t \v` are the control characters 7, 8, 12, 10, 13, 9 and 11. One to three octal
/// digits are a number while it is at most 255; so are one or two hexadecimal digits behind `\x`,
/// one to four behind `\u`, and one to eight behind `\U` while it is at most 10FFFF. A surrogate
/// gives U+FFFD, and a letter without a digit gives itself. A backslash-newline with the spaces and
/// tabs behind it is one space. Before another character the backslash goes, and at the end of the
/// text it stands for itself. Source: Tcl(n), "Backslash substitution".
pub fn backslash(text: &[u8]) -> (char, usize)
    requires utf8 { IsText text.now }
    requires some { 0 < length text.now }
    requires begins { slice_index text.now 0 ≡ 92 }
    ensures char { result.0 ≡ (escape (drop 1 (chars text.now))).0 }
    ensures taken { IsCut text.now result.1 ((escape (drop 1 (chars text.now))).1 + 1) }
    ensures some { 0 < result.1 }
{
    let (c, n) = escape_of(&text[1..]);
    (c, n + 1)
}

/// How many bytes stand before the first backslash.
#[tactic(auto, using(crate::proofs::CharacterLemmas::front_lengths))]
fn literal_len(text: &[u8]) -> usize
    ensures len { result ≡ prefix_len is_literal text.now }
    ensures within { result ≤ length text.now }
{
    text.iter().take_while(|b| **b != b'\\').count()
}

/// Appends the text with its escapes read, or only some of it where memory runs out.
fn unescape_onto(text: &[u8], out: &mut Vec<u8>) -> Result<(), NoMemory>
    requires { IsText text.now }
    ensures ok { OnOk result (Appends out.old.items out.new.items (unescape (chars text.now))) }
    ensures err { OnErr result (take (length out.old.items) out.new.items ≡ out.old.items) }
{
    let mut rest = text;
    while !rest.is_empty() {
        if rest[0] == b'\\' {
            let (c, n) = backslash(rest);
            out.push_char(c)?;
            rest = &rest[n..];
        } else {
            let plain = literal_len(rest);
            out.extend_from_slice(&rest[..plain])?;
            rest = &rest[plain..];
        }
    }
    Ok(())
}

/// Appends the text with its escapes read, by the rules of [`backslash`]. The output is any bytes,
/// and mostly a text. After `NoMemory` it is as before. Source: Tcl(n), "Backslash substitution".
#[tactic(auto, using(crate::proofs::EscapeLemmas::appended_text))]
pub fn unescape(text: &[u8], out: &mut Vec<u8>) -> Result<(), NoMemory>
    requires { IsText text.now }
    ensures ok { OnOk result (Appends out.old.items out.new.items (unescape (chars text.now))) }
    ensures text { OnOk result (AppendsText out.old.items out.new.items (unescape (chars text.now))) }
    ensures err { OnErr result (out.new.items ≡ out.old.items) }
{
    let len = out.len();
    let result = unescape_onto(text, out);
    if result.is_err() {
        out.truncate(len);
    }
    result
}

#[cfg(test)]
mod tests {
    use super::*;
    use std::alloc::Global;
    use std::test::Fail;

    #[test]
    fn each_escape(rt: HostRuntime) {
        for (text, want) in [
            ("\\a\\", ('\x07', 2)),
            ("\\b", ('\x08', 2)),
            ("\\f", ('\x0C', 2)),
            ("\\n", ('\n', 2)),
            ("\\r", ('\r', 2)),
            ("\\t", ('\t', 2)),
            ("\\v", ('\x0B', 2)),
            ("\\1018", ('A', 4)),
            ("\\400", (' ', 3)),
            ("\\08", ('\0', 2)),
            ("\\8", ('8', 2)),
            ("\\x4g", ('\x04', 3)),
            ("\\x414", ('A', 4)),
            ("\\xg", ('x', 2)),
            ("\\u20ACC", ('\u{20AC}', 6)),
            ("\\uD800", ('\u{FFFD}', 6)),
            ("\\u", ('u', 2)),
            ("\\U0000004142", ('A', 10)),
            ("\\U10FFFF0", ('\u{10FFFF}', 8)),
            ("\\U110000", ('\u{11000}', 7)),
            ("\\U", ('U', 2)),
            ("\\\n \t \n", (' ', 5)),
            ("\\{", ('{', 2)),
            ("\\\u{E9}x", ('\u{E9}', 3)),
            ("\\", ('\\', 1)),
        ] {
            assert_eq!(rt; escape_at_front(text), Some(want), "at {text}");
        }
    }

    fn escape_at_front(text: &str) -> Option<(char, usize)> {
        let bytes = text.as_bytes();
        if bytes.is_empty() || bytes[0] != b'\\' {
            return None;
        }
        Some(backslash(bytes))
    }

    fn unescaped(alloc: Global, text: &str) -> Result<Vec<u8>, NoMemory> {
        let mut out = Vec::new(alloc);
        unescape(text.as_bytes(), &mut out)?;
        Ok(out)
    }

    #[test]
    fn reads_all_escapes(rt: HostRuntime) -> Result<(), Fail> {
        for (text, want) in [
            ("", ""),
            ("plain", "plain"),
            ("a\\n\\x41\\u20ACz", "a\nA\u{20AC}z"),
            ("\\\\\\\n  b\\", "\\ b\\"),
        ] {
            assert_eq!(rt; unescaped(rt.alloc(), text)?.as_slice(), want.as_bytes());
        }
        Ok(())
    }
}
