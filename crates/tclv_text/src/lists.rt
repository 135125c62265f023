// Lists, read from texts.
ghost use Rattle.std.specs.Prelude.{◌≡◌, ◌+◌, ◌-◌, ◌^◌, ◌<◌, ◌≤◌, length, drop, true, false, map, slice_index, Ok, IfOk, IfErr};
ghost use Rattle.std.specs.Str.{chars};
ghost use Rattle.std.specs.List.{All};
ghost use Rattle.tclv_text.specs.Texts.{IsText};
ghost use Rattle.tclv_text.specs.Characters.{is_space};
ghost use Rattle.tclv_text.specs.Scans.{scan_len};
ghost use Rattle.tclv_text.specs.Lists.{is_end, IsListOf};
ghost use Rattle.tclv_text.specs.Elements.{brace_step, quote_step, bare_step, plain_step, marked, pieces, spelling, elements};
ghost use Rattle.tclv_text.specs.Spans.{IsSpellingAt, IsSplit, IsTextSpan, AreInOrder, span_text, IsFaultOf};
ghost use Rattle.tclv_text.specs.declared.lists.Bare.TheVariants.{Plain};

use crate::characters::{is_space, space_len};
use std::alloc::Global;
use std::marker::Model;
use thiserror::Error;

/// Where an element stands in a text: the bytes from `from` up to `to`, counted from 0. Where it is
/// `raw` they are the element, else the element is what `unescape` makes of them.
#[derive(Clone, Copy, Debug, PartialEq, Eq)]
pub struct Span {
    pub from: usize,
    pub to: usize,
    pub raw: bool,
}

/// Why a text is no list. A number is the place of the byte behind the closing mark, from 0.
#[derive(Clone, Copy, Debug, PartialEq, Eq, Error)]
pub enum ListFault {
    #[error("a brace is never closed")]
    OpenBrace,
    #[error("a quote is never closed")]
    OpenQuote,
    #[error("no space behind the closing brace at byte {0}")]
    AfterBrace(usize),
    #[error("no space behind the closing quote at byte {0}")]
    AfterQuote(usize),
    #[error("out of memory")]
    NoMemory,
}

/// The state behind a byte inside braces: how many braces are open beside the first, and whether the
/// byte is a backslash that takes the next one with it. None is the matching brace.
pub(crate) fn brace_step(depth: usize, escaped: bool, b: u8) -> Option<(usize, bool)>
    requires { depth + 1 < 2 ^ 64 }
    ensures { result ≡ brace_step (depth, escaped) b }
{
    if escaped {
        return Some((depth, false));
    }
    match b {
        b'\\' => Some((depth, true)),
        b'{' => Some((depth + 1, false)),
        b'}' if depth == 0 => None,
        b'}' => Some((depth - 1, false)),
        _ => Some((depth, false)),
    }
}

/// How many bytes stand before the brace that closes an element.
fn brace_len(text: &[u8]) -> usize
    ensures len { result ≡ scan_len brace_step (0, false) text.now }
    ensures within { result ≤ length text.now }
{
    let mut depth: usize = 0;
    let mut escaped = false;
    for (i, b) in text.iter().enumerate() {
        match brace_step(depth, escaped, *b) {
            Some((d, e)) => {
                depth = d;
                escaped = e;
            }
            None => return i,
        }
    }
    text.len()
}

/// Whether a byte inside quotes is a backslash that takes the next one with it. None is the closing
/// quote.
fn quote_step(escaped: bool, b: u8) -> Option<bool>
    ensures { result ≡ quote_step escaped b }
{
    if escaped {
        return Some(false);
    }
    match b {
        b'\\' => Some(true),
        b'"' => None,
        _ => Some(false),
    }
}

/// How many bytes stand before the quote that closes an element.
fn quote_len(text: &[u8]) -> usize
    ensures len { result ≡ scan_len quote_step false text.now }
    ensures within { result ≤ length text.now }
{
    let mut escaped = false;
    for (i, b) in text.iter().enumerate() {
        match quote_step(escaped, *b) {
            Some(e) => escaped = e,
            None => return i,
        }
    }
    text.len()
}

/// Where a reader of a bare element stands.
#[derive(Clone, Copy)]
enum Bare {
    Plain,
    Escape,
    Gap,
}

fn plain_step(b: u8) -> Option<Bare>
    ensures { result ≡ plain_step b }
{
    match b {
        b'\\' => Some(Bare::Escape),
        b' ' | 9..=13 => None,
        _ => Some(Bare::Plain),
    }
}

/// The state behind a byte of a bare element. None is the white space that ends it.
fn bare_step(state: Bare, b: u8) -> Option<Bare>
    ensures { result ≡ bare_step state b }
{
    match (state, b) {
        (Bare::Escape, b'\n') => Some(Bare::Gap),
        (Bare::Escape, _) => Some(Bare::Plain),
        (Bare::Gap, b' ' | b'\t') => Some(Bare::Gap),
        _ => plain_step(b),
    }
}

/// How many bytes a bare element takes.
fn bare_len(text: &[u8]) -> usize
    ensures len { result ≡ scan_len bare_step Plain text.now }
    ensures within { result ≤ length text.now }
{
    let mut state = Bare::Plain;
    for (i, b) in text.iter().enumerate() {
        match bare_step(state, *b) {
            Some(next) => state = next,
            None => return i,
        }
    }
    text.len()
}

/// Whether nothing or white space comes next.
fn is_end(rest: &[u8]) -> bool
    ensures { result ≡ is_end rest.now }
{
    match rest {
        [] => true,
        [b, ..] => is_space(*b),
    }
}

/// An element between marks, the closing one of which should stand at `to`, and the place behind it.
fn closed(text: &[u8], from: usize, to: usize, raw: bool) -> Result<(Span, usize), ListFault>
    requires order { from ≤ to }
    requires within { to ≤ length text.now }
    requires behind { 0 < from }
    ensures { IsSpellingAt text.now (from - 1) result (marked raw (to - from) (drop from text.now)) }
{
    if to == text.len() {
        return Err(if raw {
            ListFault::OpenBrace
        } else {
            ListFault::OpenQuote
        });
    }
    let next = to + 1;
    if !is_end(&text[next..]) {
        return Err(if raw {
            ListFault::AfterBrace(next)
        } else {
            ListFault::AfterQuote(next)
        });
    }
    Ok((Span { from, to, raw }, next))
}

/// The element that begins at a place, and the place behind it.
#[tactic(auto, unfolding(crate::specs::Elements::spelling))]
fn spelling(text: &[u8], at: usize) -> Result<(Span, usize), ListFault>
    requires within { at < length text.now }
    requires begins { is_space (slice_index text.now at) ≡ false }
    ensures { IsSpellingAt text.now at result (spelling (slice_index text.now at) (drop (at + 1) text.now)) }
{
    let first = text[at];
    let from = at + 1;
    if first == b'{' {
        return closed(text, from, from + brace_len(&text[from..]), true);
    }
    if first == b'"' {
        return closed(text, from, from + quote_len(&text[from..]), false);
    }
    let to = at + bare_len(&text[at..]);
    let span = Span {
        from: at,
        to,
        raw: false,
    };
    Ok((span, to))
}

/// The elements of a list, by their places in the text, from the left.
#[derive(Drop)]
pub struct Spans {
    items: Vec<Span>,
}

impl Model for Spans {
    ghost use Rattle.std.specs.Prelude.{List};
    ghost use Rattle.tclv_text.specs.declared.lists.Span.{Span};

    ghost Value = { List Span };

    ghost view = { λ s. s.items.items };
}

impl Spans {
    /// Lends the places.
    pub fn all(&self) -> &[Span]
        ensures { result.now ≡ self.now }
    {
        self.items.as_slice()
    }
}

/// The elements of a list of bytes.
fn split_bytes(alloc: Global, text: &[u8]) -> Result<Spans, ListFault>
    ensures { IsSplit text.now result (pieces text.now) }
{
    let mut items = Vec::new(alloc);
    let mut at = space_len(text);
    while at < text.len() {
        let (span, next) = match spelling(text, at) {
            Ok(found) => found,
            Err(fault) => return Err(fault),
        };
        if items.push(span).is_err() {
            return Err(ListFault::NoMemory);
        }
        at = next + space_len(&text[next..]);
    }
    Ok(Spans { items })
}

/// The places of the elements of a list in order, or why the text is none: the first fault from the
/// left.
///
/// An element is in braces, in quotes or bare, and white space stands between elements. `OpenBrace`
/// and `OpenQuote` come where the mark that an element begins with is never closed, `AfterBrace` and
/// `AfterQuote` where something else than white space follows the closing mark, and `NoMemory` where
/// memory runs out. The time is linear in the text. Source: Tcl, list(n).
pub fn split_list(alloc: Global, text: &[u8]) -> Result<Spans, ListFault>
    requires { IsText text.now }
    ensures spans { IfOk result (λ spans. All (IsTextSpan text.now) spans) }
    ensures order { IfOk result (λ spans. AreInOrder 0 spans (length text.now)) }
    ensures list { IfOk result (λ spans. IsListOf (map (span_text text.now) spans) (chars text.now)) }
    ensures elements { IfOk result (λ spans. elements (chars text.now) ≡ Ok (map (span_text text.now) spans)) }
    ensures fault { IfErr result (λ e. IsFaultOf text.now e) }
{
    split_bytes(alloc, text)
}

#[cfg(test)]
mod tests {
    use super::*;
    use crate::{quote, unescape};
    use std::test::Fail;

    /// The elements of a text, each between bars.
    fn between_bars(alloc: Global, text: &str) -> Result<Vec<u8>, Fail> {
        let spans = split_list(alloc, text.as_bytes())?;
        let mut out = Vec::new(alloc);
        for span in spans.all() {
            let bytes = text.as_bytes().get(span.from..span.to).unwrap_or(b"?");
            out.push(b'|')?;
            if span.raw {
                out.extend_from_slice(bytes)?;
            } else {
                unescape(str::from_utf8(bytes).unwrap_or("?").as_bytes(), &mut out)?;
            }
        }
        out.push(b'|')?;
        Ok(out)
    }

    /// The canonical text of a list, whose elements are given between bars.
    fn list_text(alloc: Global, list: &str) -> Result<Vec<u8>, Fail> {
        let elements = list
            .strip_prefix('|')
            .and_then(|rest| rest.strip_suffix('|'));
        let mut out = Vec::new(alloc);
        let mut first = true;
        for element in elements.unwrap_or("?").split('|') {
            if !first {
                out.push(b' ')?;
            }
            quote(element.as_bytes(), first, &mut out)?;
            first = false;
        }
        Ok(out)
    }

    #[test]
    fn writes_and_reads(rt: HostRuntime) -> Result<(), Fail> {
        for (list, text) in [
            ("|#a||x y|a]b|{|p\"q|", "{#a} {} {x y} a\\]b \\{ p\\\"q"),
            ("|a|#b|", "a #b"),
            ("|#]|#]|", "\\#\\] #\\]"),
            ("|#{|#{|", "\\#\\{ #\\{"),
            ("|a{b}c|{a}|\"a\"|", "a{b}c {{a}} {\"a\"}"),
            ("|{a|}b{|a]{b}|a]{b|", "\\{a \\}b\\{ a\\]{b} a\\]\\{b"),
            ("|\\{|a\\|\\\\|", "{\\{} a\\\\ {\\\\}"),
            ("|\\\n|a\n\\|", "\\\\\\n a\\n\\\\"),
            ("|a\t\n\x0B\x0C\rb{|\tb|", "a\\t\\n\\v\\f\\rb\\{ {\tb}"),
            (
                "|$x|[y]|a;b|\u{E9} \u{20AC}|",
                "{$x} {[y]} {a;b} {\u{E9} \u{20AC}}",
            ),
        ] {
            assert_eq!(rt; list_text(rt.alloc(), list)?.as_slice(), text.as_bytes());
            assert_eq!(rt; between_bars(rt.alloc(), text)?.as_slice(), list.as_bytes());
        }
        Ok(())
    }

    #[test]
    fn reads_other_spellings(rt: HostRuntime) -> Result<(), Fail> {
        for (text, list) in [
            ("", "|"),
            (" \n\t", "|"),
            ("#a {} {x y} {a]b} \\{ p\"q", "|#a||x y|a]b|{|p\"q|"),
            (" a\tb \"c d\" {e {f}} g\\ h\n", "|a|b|c d|e {f}|g h|"),
            ("a\\\n \tb c", "|a b|c|"),
            ("\"a\\\"b\" {a\\}b} \\u0041\\", "|a\"b|a\\}b|A\\|"),
        ] {
            assert_eq!(rt; between_bars(rt.alloc(), text)?.as_slice(), list.as_bytes());
        }
        Ok(())
    }

    #[test]
    fn names_the_first_fault(rt: HostRuntime) {
        for (text, fault) in [
            ("a {b", ListFault::OpenBrace),
            ("{a\\}", ListFault::OpenBrace),
            ("{a {b}", ListFault::OpenBrace),
            ("a \"b", ListFault::OpenQuote),
            ("\"a\\\"", ListFault::OpenQuote),
            ("{a}b c", ListFault::AfterBrace(3)),
            ("x {b}{c", ListFault::AfterBrace(5)),
            ("{a}b {", ListFault::AfterBrace(3)),
            ("\"a\"b", ListFault::AfterQuote(3)),
            ("x \"\u{E9}\"y", ListFault::AfterQuote(6)),
        ] {
            assert_eq!(rt;
                split_list(rt.alloc(), text.as_bytes()).err(),
                Some(fault),
                "at {text}"
            );
        }
    }

    #[test]
    fn prints_faults(rt: HostRuntime) -> Result<(), Fail> {
        let text = format!(in rt.alloc(); "{}", ListFault::AfterBrace(3))?;
        assert_eq!(rt;
            text.as_str(),
            "no space behind the closing brace at byte 3"
        );
        Ok(())
    }
}
