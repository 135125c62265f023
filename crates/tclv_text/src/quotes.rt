// The canonical spelling of lists.
ghost use Rattle.std.specs.Prelude.{◌≡◌, ◌+◌, ◌^◌, ◌<◌, ◌++◌, length, take, false, OnOk, OnErr};
ghost use Rattle.std.specs.Str.{chars};
ghost use Rattle.tclv_text.specs.Texts.{IsText, Appends, AppendsText};
ghost use Rattle.tclv_text.specs.Quotes.{fits_step, fits_braces, is_brace_worthy, wants_braces, wants_backslashes, begins_marked, begins_comment, backslash_mark, with_mark, backslashed, backslashed_first, in_braces, quoted};

use crate::NoMemory;
use crate::characters::is_space;
use crate::lists::brace_step;

/// The state behind a byte of a text that may stand between braces: how many braces are open, and
/// whether the byte is a backslash that takes the next one with it. None where the text may not.
fn fits_step(depth: usize, escaped: bool, b: u8) -> Option<(usize, bool)>
    requires { depth + 1 < 2 ^ 64 }
    ensures { result ≡ fits_step (depth, escaped) b }
{
    if escaped {
        return if b == b'\n' {
            None
        } else {
            Some((depth, false))
        };
    }
    brace_step(depth, false, b)
}

/// Whether the text may stand between braces.
fn fits_braces(text: &[u8]) -> bool
    ensures { result ≡ fits_braces (0, false) text.now }
{
    let mut depth: usize = 0;
    let mut escaped = false;
    for b in text {
        match fits_step(depth, escaped, *b) {
            Some((d, e)) => {
                depth = d;
                escaped = e;
            }
            None => return false,
        }
    }
    depth == 0 && !escaped
}

fn is_brace_worthy(b: u8) -> bool
    ensures { result ≡ is_brace_worthy b }
{
    is_space(b) || matches!(b, b'$' | b'[' | b';' | b'\\')
}

/// Whether the text holds what a bare element can't.
fn wants_braces(text: &[u8]) -> bool
    ensures { result ≡ wants_braces text.now }
{
    text.iter().any(|b| is_brace_worthy(*b))
}

fn wants_backslashes(text: &[u8]) -> bool
    ensures { result ≡ wants_backslashes text.now }
{
    text.iter().any(|b| *b == b']' || *b == b'"')
}

fn begins_marked(text: &[u8]) -> bool
    ensures { result ≡ begins_marked text.now }
{
    matches!(text, [b'{' | b'"', ..])
}

fn begins_comment(text: &[u8]) -> bool
    ensures { result ≡ begins_comment text.now }
{
    matches!(text, [b'#', ..])
}

/// What follows the backslash in place of a byte, if it wants one. Braces want one only where
/// `full`.
fn backslash_mark(full: bool, b: u8) -> Option<u8>
    ensures { result ≡ backslash_mark full b }
{
    match b {
        b'\t' => Some(b't'),
        b'\n' => Some(b'n'),
        b'\x0B' => Some(b'v'),
        b'\x0C' => Some(b'f'),
        b'\r' => Some(b'r'),
        b' ' | b']' | b'[' | b'$' | b';' | b'\\' | b'"' => Some(b),
        b'{' | b'}' if full => Some(b),
        _ => None,
    }
}

fn push_marked(b: u8, mark: Option<u8>, out: &mut Vec<u8>) -> Result<(), NoMemory>
    ensures ok { OnOk result (out.new.items ≡ out.old.items ++ with_mark b mark) }
    ensures err { OnErr result (out.new.items ≡ out.old.items) }
{
    match mark {
        Some(mark) => out.extend_from_slice(&[b'\\', mark])?,
        None => out.push(b)?,
    }
    Ok(())
}

fn push_backslashed(text: &[u8], full: bool, out: &mut Vec<u8>) -> Result<(), NoMemory>
    ensures ok { OnOk result (out.new.items ≡ out.old.items ++ backslashed full text.now) }
    ensures err { OnErr result (take (length out.old.items) out.new.items ≡ out.old.items) }
{
    for b in text {
        push_marked(*b, backslash_mark(full, *b), out)?;
    }
    Ok(())
}

fn push_backslashed_first(
    text: &[u8],
    first: bool,
    full: bool,
    out: &mut Vec<u8>,
) -> Result<(), NoMemory>
    ensures ok { OnOk result (out.new.items ≡ out.old.items ++ backslashed_first first full text.now) }
    ensures err { OnErr result (take (length out.old.items) out.new.items ≡ out.old.items) }
{
    if first && begins_comment(text) {
        out.extend_from_slice(b"\\")?;
    }
    push_backslashed(text, full, out)
}

fn push_braced(text: &[u8], out: &mut Vec<u8>) -> Result<(), NoMemory>
    ensures ok { OnOk result (out.new.items ≡ out.old.items ++ in_braces text.now) }
    ensures err { OnErr result (take (length out.old.items) out.new.items ≡ out.old.items) }
{
    out.extend_from_slice(b"{")?;
    out.extend_from_slice(text)?;
    out.extend_from_slice(b"}")?;
    Ok(())
}

/// Appends the canonical spelling of a list of bytes, or only some of it where memory runs out.
#[tactic(auto, unfolding(crate::specs::Quotes::quoted_some), using(crate::proofs::QuoteLemmas::quoted_cases))]
fn quote_onto(text: &[u8], first: bool, out: &mut Vec<u8>) -> Result<(), NoMemory>
    ensures ok { OnOk result (out.new.items ≡ out.old.items ++ quoted text.now first) }
    ensures err { OnErr result (take (length out.old.items) out.new.items ≡ out.old.items) }
{
    if text.is_empty() {
        return push_braced(text, out);
    }
    if !fits_braces(text) {
        return push_backslashed_first(text, first, true, out);
    }
    if wants_braces(text) || begins_marked(text) {
        return push_braced(text, out);
    }
    if wants_backslashes(text) {
        return push_backslashed_first(text, first, false, out);
    }
    if first && begins_comment(text) {
        return push_braced(text, out);
    }
    out.extend_from_slice(text)?;
    Ok(())
}

/// Appends the canonical spelling of an element. `first` says that it is the first of its list,
/// where a leading `#` must not begin a comment. The output is any bytes, and mostly a text. After
/// `NoMemory` it is as before. The time is linear in the text. Source: Tcl, list(n); which of the
/// spellings of an element is taken is this project's own.
pub fn quote(text: &[u8], first: bool, out: &mut Vec<u8>) -> Result<(), NoMemory>
    requires { IsText text.now }
    ensures ok { OnOk result (Appends out.old.items out.new.items (quoted (chars text.now) first)) }
    ensures text { OnOk result (AppendsText out.old.items out.new.items (quoted (chars text.now) first)) }
    ensures err { OnErr result (out.new.items ≡ out.old.items) }
{
    let len = out.len();
    let result = quote_onto(text, first, out);
    if result.is_err() {
        out.truncate(len);
    }
    result
}
