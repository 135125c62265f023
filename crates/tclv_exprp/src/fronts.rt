// What comes at a place of an expression: characters, white space, and runs of one class.

ghost use Rattle.std.specs.Prelude.{◌≡◌, ◌<◌, ◌≤◌, ◌+◌, ◌^◌, take, drop, length, IfOk};
ghost use Rattle.tclv_exprp.specs.Fronts as spec;

use std::alloc::Global;
use tclv_text::{Cursor, NoMemory, Sign, Text, as_str};

/// Characters that are read in runs.
#[derive(Clone, Copy, Debug, PartialEq, Eq)]
pub(crate) enum Class {
    /// Letters, digits and underscores.
    Name,
    Binary,
    Octal,
    Decimal,
    Hexadecimal,
}

/// The next character, or 0 at the end.
pub(crate) fn first(cursor: &Cursor<'_>) -> char
    ensures { result ≡ spec.first cursor.now }
{
    let mut next = cursor.here();
    next.skip();
    match as_str(cursor.up_to(&next)).chars().next() {
        Some(c) => c,
        None => '\0',
    }
}

/// The one behind it.
pub(crate) fn second(cursor: &Cursor<'_>) -> char
    ensures { result ≡ spec.second cursor.now }
{
    let mut next = cursor.here();
    next.skip();
    first(&next)
}

/// The one behind that.
pub(crate) fn third(cursor: &Cursor<'_>) -> char
    ensures { result ≡ spec.third cursor.now }
{
    let mut next = cursor.here();
    next.skip();
    second(&next)
}

fn is_blank(sign: Sign) -> bool
    ensures { result ≡ spec.is_blank sign }
{
    matches!(sign, Sign::Blank | Sign::Newline | Sign::Fold)
}

/// Goes past white space.
pub(crate) fn blanks(cursor: &mut Cursor<'_>)
    ensures rest { cursor.new ≡ spec.blanks cursor.old }
    ensures left { length cursor.new ≤ length cursor.old }
{
    'blanks: while is_blank(cursor.peek()) {
        cursor.skip();
    }
}

pub(crate) fn is_name(c: char) -> bool
    ensures { result ≡ spec.is_in Class.Name c }
{
    c.is_ascii_alphanumeric() || c == '_'
}

pub(crate) fn is_sign(c: char) -> bool
    ensures { result ≡ spec.is_sign c }
{
    c == '+' || c == '-'
}

fn is_in(class: Class, c: char) -> bool
    ensures { result ≡ spec.is_in class c }
{
    match class {
        Class::Name => is_name(c),
        Class::Binary => matches!(c, '0'..='1'),
        Class::Octal => matches!(c, '0'..='7'),
        Class::Decimal => c.is_ascii_digit(),
        Class::Hexadecimal => c.is_ascii_hexdigit(),
    }
}

/// Goes past the characters of a class, and tells how many they are.
pub(crate) fn pass_run(class: Class, cursor: &mut Cursor<'_>) -> usize
    requires { length cursor.old < 2 ^ 63 }
    ensures len { result ≡ spec.run_len class cursor.old }
    ensures rest { cursor.new ≡ drop (spec.run_len class cursor.old) cursor.old }
    ensures left { result + length cursor.new ≤ length cursor.old }
{
    let mut len = 0;
    'run: while is_in(class, first(cursor)) {
        cursor.skip();
        len += 1;
    }
    len
}

/// Goes past a sign, if one comes, and tells how many it was.
#[tactic(auto, unfolding(crate::specs::Fronts::sign_len))]
pub(crate) fn pass_sign(cursor: &mut Cursor<'_>) -> usize
    ensures len { result ≡ spec.sign_len cursor.old }
    ensures rest { cursor.new ≡ drop (spec.sign_len cursor.old) cursor.old }
    ensures one { result ≤ 1 }
{
    if is_sign(first(cursor)) {
        cursor.skip();
        1
    } else {
        0
    }
}

/// Goes past so many characters.
pub(crate) fn pass(count: usize, cursor: &mut Cursor<'_>)
    ensures { cursor.new ≡ drop count cursor.old }
{
    for _turn in 0..count {
        cursor.skip();
    }
}

/// Goes past so many characters, and gives their text.
pub(crate) fn take_text(
    alloc: Global,
    count: usize,
    cursor: &mut Cursor<'_>,
) -> Result<Text, NoMemory>
    ensures text { IfOk result (λ text. text ≡ take count cursor.old) }
    ensures rest { cursor.new ≡ drop count cursor.old }
{
    let start = cursor.here();
    pass(count, cursor);
    let mut text = Text::new(Vec::new(alloc));
    text.push(start.up_to(cursor))?;
    Ok(text)
}
