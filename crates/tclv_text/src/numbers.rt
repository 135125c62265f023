// Whole numbers, read from texts and written.
ghost use Rattle.std.specs.Prelude.{◌≡◌, ℕ, ◌+◌, ◌-◌, ◌*◌, ◌^◌, ◌<◌, ◌≤◌, ◌++◌, length, take, drop, Option, IsTrue, OnOk, OnErr, IfOk, IfSome, Some, Ok, false};
ghost use Rattle.std.specs.Str.{chars, str_eq_ignore_ascii_case};
ghost use Rattle.std.specs.List.{prefix_len, suffix_len};
ghost use Rattle.std.specs.Char.{digit_value, is_ascii_digit, is_ascii_hexdigit};
ghost use Rattle.tclv_text.specs.Texts.{IsText, Appends, AppendsText};
ghost use Rattle.tclv_text.specs.Characters.{is_space};
ghost use Rattle.tclv_text.specs.Numbers.{trim, trim_end, number, radix_of, number_in, based_number, unsigned, capped, without_sign, is_digits, is_exponent, is_fraction_or_exponent, is_decimal_fraction, is_closed_digits, is_nan_with_digits, is_named_float, is_float_form, in_range, whole, whole_text};

use crate::NoMemory;
use crate::characters::{digit, is_space, space_len};
use itoa::Buffer;
use thiserror::Error;

/// Why a text is no whole number of 64 bits.
#[derive(Clone, Copy, Debug, PartialEq, Eq, Error)]
pub enum WholeFault {
    /// It has the form of no number.
    #[error("not a whole number")]
    NotWhole,
    /// It has the form of a whole number, whose value is outside -2^63..2^63-1.
    #[error("whole number too large")]
    TooLarge,
    /// It has the form of a floating point number.
    #[error("a floating point number")]
    FloatForm,
}

/// How many bytes of white space the text ends with.
#[tactic(auto, using(crate::proofs::CharacterLemmas::front_lengths))]
pub(crate) fn end_space_len(text: &[u8]) -> usize
    ensures len { result ≡ suffix_len is_space text.now }
    ensures within { result ≤ length text.now }
{
    text.iter().rev().take_while(|b| is_space(**b)).count()
}

/// The text without the white space at its end.
pub(crate) fn trim_end(text: &[u8]) -> &[u8]
    ensures { result.now ≡ trim_end text.now }
{
    &text[..text.len() - end_space_len(text)]
}

/// The text without the white space at its ends.
#[tactic(auto, unfolding(crate::specs::Numbers::trim))]
pub(crate) fn trim(text: &[u8]) -> &[u8]
    ensures { result.now ≡ trim text.now }
{
    trim_end(&text[space_len(text)..])
}

/// The text without one sign in front.
fn without_sign(text: &[u8]) -> &[u8]
    ensures { result.now ≡ without_sign text.now }
{
    match text {
        [b'+' | b'-', rest @ ..] => rest,
        _ => text,
    }
}

/// The number that the digits write, or `u64::MAX` where it is greater.
fn number(ds: &[u8], radix: u8) -> Option<u64>
    requires low { 2 ≤ radix }
    requires high { radix ≤ 16 }
    ensures { result ≡ capped (number radix ds.now) }
{
    if ds.is_empty() {
        return None;
    }
    let mut n: u64 = 0;
    for b in ds {
        let d = digit(*b);
        if d >= radix {
            return None;
        }
        n = n.saturating_mul(radix as u64).saturating_add(d as u64);
    }
    Some(n)
}

/// The base that a letter names behind a `0`.
fn radix_of(mark: u8) -> Option<u8>
    ensures value { result ≡ radix_of mark }
    ensures range { IfSome result (λ radix. (2 ≤ radix) × (radix ≤ 16)) }
{
    match mark {
        b'x' | b'X' => Some(16),
        b'o' | b'O' => Some(8),
        b'b' | b'B' => Some(2),
        b'd' | b'D' => Some(10),
        _ => None,
    }
}

/// The number of digits behind `0x`, `0o`, `0b` or `0d`.
fn based_number(ds: &[u8]) -> Option<u64>
    ensures { result ≡ capped (based_number ds.now) }
{
    let [zero, mark, rest @ ..] = ds else {
        return None;
    };
    if *zero != b'0' {
        return None;
    }
    match radix_of(*mark) {
        Some(radix) => number(rest, radix),
        None => None,
    }
}

/// The number of decimal digits, or of those of a named base.
#[tactic(auto, unfolding(crate::specs::Numbers::unsigned))]
fn unsigned(ds: &[u8]) -> Option<u64>
    ensures { result ≡ capped (unsigned ds.now) }
{
    number(ds, 10).or(based_number(ds))
}

/// How many decimal digits the text begins with.
#[tactic(auto, using(crate::proofs::CharacterLemmas::front_lengths))]
fn digits_len(text: &[u8]) -> usize
    ensures len { result ≡ prefix_len is_ascii_digit text.now }
    ensures within { result ≤ length text.now }
{
    text.iter().take_while(|b| b.is_ascii_digit()).count()
}

/// Whether the text is an exponent: `e`, an optional sign and digits.
fn is_exponent(text: &[u8]) -> bool
    ensures { result ≡ is_exponent text.now }
{
    let [mark, rest @ ..] = text else {
        return false;
    };
    if *mark != b'e' && *mark != b'E' {
        return false;
    }
    let digits = without_sign(rest);
    !digits.is_empty() && digits_len(digits) == digits.len()
}

/// Whether the text makes a floating form of the `n` digits before it.
fn is_fraction_or_exponent(n: usize, rest: &[u8]) -> bool
    ensures { result ≡ is_fraction_or_exponent n rest.now }
{
    let [first, behind @ ..] = rest else {
        return false;
    };
    if *first != b'.' {
        return n > 0 && is_exponent(rest);
    }
    let more = digits_len(behind);
    (n > 0 || more > 0) && (more == behind.len() || is_exponent(&behind[more..]))
}

/// Whether the text is digits with a point, an exponent or both.
#[tactic(auto, unfolding(crate::specs::Numbers::is_decimal_fraction))]
fn is_decimal_fraction(text: &[u8]) -> bool
    ensures { result ≡ is_decimal_fraction text.now }
{
    let n = digits_len(text);
    is_fraction_or_exponent(n, &text[n..])
}

/// Whether the text is the word, in any case.
pub(crate) fn is_word(text: &[u8], word: &[u8]) -> bool
    ensures { result ≡ str_eq_ignore_ascii_case text.now word.now }
{
    text.eq_ignore_ascii_case(word)
}

/// How many hexadecimal digits the text begins with.
#[tactic(auto, using(crate::proofs::CharacterLemmas::front_lengths))]
fn hex_digits_len(text: &[u8]) -> usize
    ensures len { result ≡ prefix_len is_ascii_hexdigit text.now }
    ensures within { result ≤ length text.now }
{
    text.iter().take_while(|b| b.is_ascii_hexdigit()).count()
}

/// Whether the text is hexadecimal digits and `)`.
fn is_closed_digits(text: &[u8]) -> bool
    ensures { result ≡ is_closed_digits text.now }
{
    let n = hex_digits_len(text);
    n > 0 && matches!(&text[n..], [b')'])
}

/// Whether the text is `nan(`, in any case, hexadecimal digits and `)`.
fn is_nan_with_digits(text: &[u8]) -> bool
    ensures { result ≡ is_nan_with_digits text.now }
{
    text.len() > 4 && is_word(&text[..4], b"nan(") && is_closed_digits(&text[4..])
}

/// Whether the text is the name of an infinity or of no number.
#[tactic(auto, unfolding(crate::specs::Numbers::is_named_float))]
fn is_named_float(text: &[u8]) -> bool
    ensures { result ≡ is_named_float text.now }
{
    is_word(text, b"inf")
        || is_word(text, b"infinity")
        || is_word(text, b"nan")
        || is_nan_with_digits(text)
}

/// Whether the text, without its sign, is of floating form.
fn is_float_form(text: &[u8]) -> bool
    ensures { result ≡ is_float_form text.now }
{
    is_decimal_fraction(text) || is_named_float(text)
}

/// A number of 64 bits, by its sign and size.
fn signed(minus: bool, size: u64) -> Result<i64, WholeFault>
    ensures { result ≡ in_range false minus (Some size) }
{
    let z = if minus {
        0i64.checked_sub_unsigned(size)
    } else {
        0i64.checked_add_unsigned(size)
    };
    z.ok_or(WholeFault::TooLarge)
}

/// The whole number that these bytes write.
#[tactic(auto, unfolding(crate::specs::Numbers::whole))]
pub(crate) fn whole_of(text: &[u8]) -> Result<i64, WholeFault>
    ensures { result ≡ whole text.now }
{
    let body = trim(text);
    let digits = without_sign(body);
    match unsigned(digits) {
        Some(size) => signed(body.starts_with(b"-"), size),
        None if is_float_form(digits) => Err(WholeFault::FloatForm),
        None => Err(WholeFault::NotWhole),
    }
}

/// The whole number that a text, given as UTF-8, is: with white space around it (space and the
/// characters 9 to 13) and an optional sign, decimal digits, or digits behind `0x`, `0o`, `0b` or
/// `0d` in either case. Leading zeros stay decimal. (Tcl: expr(n), "Operands".)
///
/// Refuses with `TooLarge` where such a number is outside -2^63..2^63-1. Refuses with `FloatForm`
/// where the text is, with white space and sign, digits with a point, an exponent or both, or in
/// any case `inf`, `infinity`, `nan` or `nan(` with hexadecimal digits and `)`. Refuses with
/// `NotWhole` all other texts. Takes no memory.
pub fn whole(text: &[u8]) -> Result<i64, WholeFault>
    requires { IsText text.now }
    ensures { result ≡ whole (chars text.now) }
{
    whole_of(text)
}

/// Appends the decimal text of a number to UTF-8 bytes. After `NoMemory`, `out` is as before.
pub fn whole_text(n: i64, out: &mut Vec<u8>) -> Result<(), NoMemory>
    ensures ok { OnOk result (Appends out.old.items out.new.items (whole_text n)) }
    ensures text { OnOk result (AppendsText out.old.items out.new.items (whole_text n)) }
    ensures err { OnErr result (out.new.items ≡ out.old.items) }
{
    let mut buffer = Buffer::new();
    out.extend_from_slice(buffer.format(n).as_bytes())?;
    Ok(())
}

#[cfg(test)]
mod tests {
    use super::*;
    use std::test::Fail;

    #[test]
    fn reads_whole_numbers(rt: HostRuntime) {
        let rows = [
            (" 7 ", 7),
            ("\t\n\x0b\x0c\r-12 ", -12),
            ("007", 7),
            ("08", 8),
            ("+0", 0),
            ("0X1f", 31),
            ("0o17", 15),
            ("0B101", 5),
            ("-0d19", -19),
            ("9223372036854775807", i64::MAX),
            ("-9223372036854775808", i64::MIN),
            ("-0x8000000000000000", i64::MIN),
        ];
        for (text, want) in rows {
            assert_eq!(rt; whole(text.as_bytes()), Ok(want), "at {text}");
        }
    }

    #[test]
    fn refuses_other_texts(rt: HostRuntime) {
        let not_whole =
            "| |+|+ 1|--1|0x|0xg|0o8|0b2|1_0|x|1 2|.|e5|1e|1e+|1.2.3|1.5x|nan()|nan(fg)|nan(f|infi";
        for text in not_whole.split('|') {
            assert_eq!(rt;
                whole(text.as_bytes()),
                Err(WholeFault::NotWhole),
                "at {text}"
            );
        }
        let large =
            "9223372036854775808|-9223372036854775809|0x8000000000000000|99999999999999999999";
        for text in large.split('|') {
            assert_eq!(rt;
                whole(text.as_bytes()),
                Err(WholeFault::TooLarge),
                "at {text}"
            );
        }
        let floats = "1e5|1E-5|.5|5.| -1.5e+3 |1.e2|Inf|-INFINITY|NaN|nan(ff)|+nan(09aF)";
        for text in floats.split('|') {
            assert_eq!(rt;
                whole(text.as_bytes()),
                Err(WholeFault::FloatForm),
                "at {text}"
            );
        }
    }

    #[test]
    fn writes_whole_numbers(rt: HostRuntime) -> Result<(), Fail> {
        let rows = [
            (0, "n=0"),
            (-42, "n=-42"),
            (i64::MAX, "n=9223372036854775807"),
            (i64::MIN, "n=-9223372036854775808"),
        ];
        for (n, want) in rows {
            let mut out = Vec::from_slice(rt.alloc(), b"n=")?;
            whole_text(n, &mut out)?;
            assert_eq!(rt; out.as_slice(), want.as_bytes());
        }
        Ok(())
    }
}
