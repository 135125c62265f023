// Places in a list or a text, read from texts.
ghost use Rattle.std.specs.Prelude.{◌≡◌, ◌-◌, ◌+◌, ◌^◌, ◌<◌, ◌≤◌, not, length, drop, take, pos, neg_ℤ, ◌≤ℤ◌, IfSome, Some, List, []};
ghost use Rattle.std.specs.Str.{chars};
ghost use Rattle.std.specs.Result.{result_ok};
ghost use Rattle.tclv_text.specs.Numbers.{whole};
ghost use Rattle.std.specs.List.{prefix_len};
ghost use Rattle.tclv_text.specs.Texts.{IsText};
ghost use Rattle.tclv_text.specs.Indices.{base, before, behind, cut, place, index, is_sign, is_lead, sign_place};

use crate::characters::{is_space, space_len};
use crate::numbers::{end_space_len, trim_end, whole_of};
use thiserror::Error;

/// Why a text is no place.
#[derive(Clone, Copy, Debug, PartialEq, Eq, Error)]
pub enum IndexFault {
    /// It has the form of none, or a number in it is no whole number of 64 bits.
    #[error("not an index")]
    BadIndex,
}

/// Whether the byte is a sign.
fn is_sign(b: u8) -> bool
    ensures { result ≡ is_sign b }
{
    b == b'+' || b == b'-'
}

/// How many bytes of white space and signs the text begins with.
#[tactic(auto, using(crate::proofs::CharacterLemmas::front_lengths))]
fn lead_len(text: &[u8]) -> usize
    ensures len { result ≡ prefix_len is_lead text.now }
    ensures within { result ≤ length text.now }
{
    text.iter()
        .take_while(|b| is_space(**b) || is_sign(**b))
        .count()
}

/// How many bytes stand before the first sign.
#[tactic(auto, using(crate::proofs::CharacterLemmas::front_lengths))]
fn unsigned_len(text: &[u8]) -> usize
    ensures len { result ≡ prefix_len (λ c. not (is_sign c)) text.now }
    ensures within { result ≤ length text.now }
{
    text.iter().take_while(|b| !is_sign(**b)).count()
}

/// Where the first sign stands behind the white space and signs that the text begins with, or the
/// text's length where there is none.
#[tactic(auto, unfolding(crate::specs::Indices::sign_place))]
fn sign_place(text: &[u8]) -> usize
    ensures place { result ≡ sign_place text.now }
    ensures within { result ≤ length text.now }
{
    let lead = lead_len(text);
    lead + unsigned_len(&text[lead..])
}

/// The whole number of 64 bits that these bytes write.
fn number(text: &[u8]) -> Option<i128>
    ensures value { result ≡ result_ok (whole text.now) }
    ensures low { IfSome result (λ z. neg_ℤ (pos (2 ^ 64)) ≤ℤ z) }
    ensures high { IfSome result (λ z. z ≤ℤ pos (2 ^ 64)) }
{
    match whole_of(text) {
        Ok(n) => Some(n as i128),
        Err(_) => None,
    }
}

/// The whole number that these bytes write, or the last place where they are `end` with white space
/// behind it or none.
fn base(text: &[u8], len: u64) -> Option<i128>
    ensures value { result ≡ base len text.now }
    ensures low { IfSome result (λ z. neg_ℤ (pos (2 ^ 64)) ≤ℤ z) }
    ensures high { IfSome result (λ z. z ≤ℤ pos (2 ^ 64)) }
{
    if trim_end(text) == b"end".as_slice() {
        return Some(len as i128 - 1);
    }
    number(text)
}

/// The place that these bytes write, if no white space stands at their end.
fn before(text: &[u8], len: u64) -> Option<i128>
    ensures value { result ≡ before len text.now }
    ensures low { IfSome result (λ z. neg_ℤ (pos (2 ^ 64)) ≤ℤ z) }
    ensures high { IfSome result (λ z. z ≤ℤ pos (2 ^ 64)) }
{
    if end_space_len(text) == 0 {
        base(text, len)
    } else {
        None
    }
}

/// The whole number that these bytes write, if no white space stands in front.
fn behind(text: &[u8]) -> Option<i128>
    ensures value { result ≡ behind text.now }
    ensures low { IfSome result (λ z. neg_ℤ (pos (2 ^ 64)) ≤ℤ z) }
    ensures high { IfSome result (λ z. z ≤ℤ pos (2 ^ 64)) }
{
    if space_len(text) == 0 {
        number(text)
    } else {
        None
    }
}

/// The place that these bytes are by a sign between a place and a number, with no white space beside
/// the sign.
fn moved(text: &[u8], len: u64) -> Option<i128>
    ensures { result ≡ cut len [] text.now }
{
    let at = sign_place(text);
    if at == text.len() {
        return None;
    }
    let place = before(&text[..at], len)?;
    let by = behind(&text[at + 1..])?;
    if text[at] == b'+' {
        Some(place + by)
    } else if text[at] == b'-' {
        Some(place - by)
    } else {
        None
    }
}

/// The place that these bytes write.
#[tactic(auto, unfolding(crate::specs::Indices::place))]
fn place(text: &[u8], len: u64) -> Option<i128>
    ensures { result ≡ place text.now len }
{
    match base(text, len) {
        Some(place) => Some(place),
        None => moved(text, len),
    }
}

/// The place that a text, given as UTF-8, names in a list or a text of `len` elements: `N`, `end`,
/// `N+M`, `N-M`, `end+M` or `end-M`. `N` and `M` are whole numbers as [`whole`](crate::whole) reads
/// them, each with a sign of its own or none, so `1+-1` is 0. White space may stand before a number
/// that comes first and at the text's end, as in ` 1-1 ` and `end `; none stands beside the sign
/// between `N` and `M`, nor before `end`. `end` is the last place, `len - 1`, and -1 where there is
/// none. Places count from 0, and the answer may lie outside `0..len`. (Tcl: string(n), "String
/// indices".)
///
/// Refuses with `BadIndex` exactly the texts of no such form, those with a number outside 64 bits
/// among them. Takes no memory.
pub fn index_of(text: &[u8], len: u64) -> Result<i128, IndexFault>
    requires { IsText text.now }
    ensures { result ≡ index (chars text.now) len }
{
    place(text, len).ok_or(IndexFault::BadIndex)
}

#[cfg(test)]
mod tests {
    use super::*;

    #[test]
    fn reads_places(rt: HostRuntime) {
        let rows = [
            ("0", 5, 0),
            (" 2 ", 5, 2),
            ("-1", 5, -1),
            ("+0x10", 5, 16),
            ("end", 5, 4),
            ("end", 0, -1),
            ("end-1", 5, 3),
            ("end+2", 5, 6),
            ("end ", 5, 4),
            ("end-1 ", 5, 3),
            ("end--1", 5, 5),
            ("1+1", 5, 2),
            ("1+-1", 5, 0),
            (" -1-+2\t", 5, -3),
            ("0x10-0b1", 5, 15),
            (
                "9223372036854775807+9223372036854775807",
                5,
                18446744073709551614,
            ),
            ("end+9223372036854775807", u64::MAX, 27670116110564327421),
        ];
        for (text, len, want) in rows {
            assert_eq!(rt; index_of(text.as_bytes(), len), Ok(want), "at {text}");
        }
        let bad =
            "|x|e|en|End| end|end -1|end- 1|end x|1 -1|2 - 1|1- 1|1+ -1|end+|end+end|1+|+|1 1|1+1+1|1*1|1.5|1e1|1+1.0|9223372036854775808|0-9223372036854775809";
        for text in bad.split('|') {
            assert_eq!(rt;
                index_of(text.as_bytes(), 5),
                Err(IndexFault::BadIndex),
                "at {text}"
            );
        }
    }
}
