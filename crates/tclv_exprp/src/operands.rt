// What an operand begins with.

ghost use Rattle.std.specs.Prelude.{◌≡◌, ◌≤◌};
ghost use Rattle.tclv_exprp.specs.Operands as spec;

use crate::Op1;
use crate::fronts::{first, is_name, is_sign, second, third};
use tclv_text::{Cursor, Sign};

/// What an operand begins with.
#[derive(Clone, Copy, Debug, PartialEq, Eq)]
pub(crate) enum Begins {
    /// A number, with its sign.
    Number,
    Unary(Op1),
    /// A variable, at its dollar sign.
    Variable,
    /// A text in quotes.
    Quoted,
    /// A text in braces.
    Braced,
    /// A script in brackets.
    Script,
    /// An expression in parentheses.
    Paren,
    /// A truth word, or the name of a function.
    Name,
    /// No operand begins here.
    Other,
}

fn begins_digits(c: char, next: char) -> bool
    ensures { result ≡ spec.begins_digits c next }
{
    c.is_ascii_digit() || (c == '.' && next.is_ascii_digit())
}

#[tactic(auto, unfolding(crate::specs::Operands::begins_number))]
fn begins_number(c: char, next: char, third: char) -> bool
    ensures { result ≡ spec.begins_number c next third }
{
    begins_digits(c, next) || (is_sign(c) && begins_digits(next, third))
}

#[tactic(auto, unfolding(crate::specs::Operands::plain_start))]
fn plain_start(c: char, next: char, third: char) -> Begins
    ensures { result ≡ spec.plain_start c next third }
{
    if begins_number(c, next, third) {
        Begins::Number
    } else if c == '-' {
        Begins::Unary(Op1::Minus)
    } else if c == '+' {
        Begins::Unary(Op1::Plus)
    } else if c == '~' {
        Begins::Unary(Op1::Invert)
    } else if c == '!' {
        Begins::Unary(Op1::Not)
    } else if is_name(c) {
        Begins::Name
    } else {
        Begins::Other
    }
}

/// What comes, where an operand may stand.
#[tactic(auto, unfolding(crate::specs::Operands::start))]
pub(crate) fn start(cursor: &Cursor<'_>) -> Begins
    ensures { result ≡ spec.start cursor.now }
{
    match cursor.peek() {
        Sign::Dollar => Begins::Variable,
        Sign::Quote => Begins::Quoted,
        Sign::OpenBrace => Begins::Braced,
        Sign::OpenBracket => Begins::Script,
        Sign::OpenParen => Begins::Paren,
        _ => plain_start(first(cursor), second(cursor), third(cursor)),
    }
}

/// How many characters could still begin an operand or white space, where neither comes.
#[tactic(auto, unfolding(crate::specs::Operands::half_len))]
pub(crate) fn half_len(cursor: &Cursor<'_>) -> usize
    ensures { result ≡ spec.half_len cursor.now }
{
    let c = first(cursor);
    if c == '\\' {
        1
    } else if c == '$' {
        if second(cursor) == ':' { 2 } else { 1 }
    } else {
        0
    }
}
