// Where a number ends.

ghost use Rattle.std.specs.Prelude.{◌≡◌, ◌<◌, ◌≤◌, ◌^◌, ◌+◌, length};
ghost use Rattle.tclv_exprp.specs.Numerals as spec;

use crate::fronts::{Class, first, pass, pass_run, pass_sign, second};
use tclv_text::Cursor;

/// The digits of the base that a letter names behind a 0.
fn named_base(c: char) -> Option<Class>
    ensures { result ≡ spec.named_base c }
{
    match c {
        'x' | 'X' => Some(Class::Hexadecimal),
        'o' | 'O' => Some(Class::Octal),
        'b' | 'B' => Some(Class::Binary),
        'd' | 'D' => Some(Class::Decimal),
        _ => None,
    }
}

/// The base of a number that begins with 0 and its letter.
fn base(c: char, next: char) -> Option<Class>
    ensures { result ≡ spec.base c next }
{
    if c == '0' { named_base(next) } else { None }
}

/// Where 0 and the letter of a base come: how many of its digits stand behind the letter.
#[tactic(auto, unfolding(crate::specs::Numerals::based_digits))]
fn based_digits(cursor: &Cursor<'_>) -> Option<usize>
    requires { length cursor.now < 2 ^ 63 }
    ensures digits { result ≡ spec.based_digits cursor.now }
    ensures within { spec.IsWithin result (length cursor.now) }
{
    match base(first(cursor), second(cursor)) {
        None => None,
        Some(digits) => {
            let mut next = cursor.here();
            pass(2, &mut next);
            Some(pass_run(digits, &mut next))
        }
    }
}

/// How long the whole number is that comes, or 0.
#[tactic(auto, unfolding(crate::specs::Numerals::whole_len))]
pub(crate) fn whole_len(cursor: &Cursor<'_>) -> usize
    requires { length cursor.now < 2 ^ 63 }
    ensures len { result ≡ spec.whole_len cursor.now }
    ensures within { result ≤ length cursor.now + 2 }
{
    match based_digits(cursor) {
        None => pass_run(Class::Decimal, &mut cursor.here()),
        Some(0) => 1,
        Some(count) => 2 + count,
    }
}

/// Whether a digit is missing behind the letter of a base.
#[tactic(auto, unfolding(crate::specs::Numerals::lacks_digits))]
pub(crate) fn lacks_digits(cursor: &Cursor<'_>) -> bool
    requires { length cursor.now < 2 ^ 63 }
    ensures { result ≡ spec.lacks_digits cursor.now }
{
    match based_digits(cursor) {
        Some(count) => count == 0,
        None => false,
    }
}

/// How long the exponent is that comes, or 0.
#[tactic(auto, unfolding(crate::specs::Numerals::exponent_len), using(crate::proofs::FrontLemmas::drops))]
fn exponent_len(cursor: &Cursor<'_>) -> usize
    requires { length cursor.now < 2 ^ 63 }
    ensures len { result ≡ spec.exponent_len cursor.now }
    ensures within { result ≤ length cursor.now }
{
    let letter = first(cursor);
    if letter != 'e' && letter != 'E' {
        return 0;
    }
    let mut next = cursor.here();
    next.skip();
    let sign = pass_sign(&mut next);
    let digits = pass_run(Class::Decimal, &mut next);
    if digits == 0 { 0 } else { 1 + sign + digits }
}

/// How long the floating point number is that comes, or 0.
#[tactic(auto, unfolding(crate::specs::Numerals::floating_len), using(crate::proofs::FrontLemmas::drops))]
pub(crate) fn floating_len(cursor: &Cursor<'_>) -> usize
    requires { length cursor.now < 2 ^ 63 }
    ensures len { result ≡ spec.floating_len cursor.now }
    ensures within { result ≤ length cursor.now + 1 }
{
    let mut next = cursor.here();
    let count = pass_run(Class::Decimal, &mut next);
    if first(&next) != '.' {
        let exponent = exponent_len(&next);
        return if count == 0 || exponent == 0 {
            0
        } else {
            count + exponent
        };
    }
    next.skip();
    let fraction = pass_run(Class::Decimal, &mut next);
    if count + fraction == 0 {
        return 0;
    }
    count + (1 + fraction) + exponent_len(&next)
}
