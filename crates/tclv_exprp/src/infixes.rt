// The operators between two operands: how they are spelled, and how tightly they bind.

ghost use Rattle.std.specs.Prelude.{◌≡◌, ◌≤◌, length};
ghost use Rattle.tclv_exprp.specs.Infixes as spec;

use crate::fronts::{first, second, third};
use crate::{Infix, Op2, WordOp};
use tclv_text::Cursor;

/// How many rows of operators go left to right, the tightest being row 0.
pub(crate) const LEVELS: u8 = 13;

/// The row of the power, which goes right to left and binds tighter than the others.
pub(crate) const POWER: u8 = 13;

#[tactic(auto, unfolding(crate::specs::Infixes::word_of))]
fn word_of(c: char, next: char) -> Option<WordOp>
    ensures { result ≡ spec.word_of c next }
{
    if c == 'e' && next == 'q' {
        Some(WordOp::Eq)
    } else if c == 'n' && next == 'e' {
        Some(WordOp::Ne)
    } else if c == 'l' && next == 't' {
        Some(WordOp::Lt)
    } else if c == 'g' && next == 't' {
        Some(WordOp::Gt)
    } else if c == 'l' && next == 'e' {
        Some(WordOp::Le)
    } else if c == 'g' && next == 'e' {
        Some(WordOp::Ge)
    } else if c == 'i' && next == 'n' {
        Some(WordOp::Among)
    } else if c == 'n' && next == 'i' {
        Some(WordOp::NotAmong)
    } else {
        None
    }
}

#[tactic(auto, unfolding(crate::specs::Infixes::single_of))]
fn single_of(c: char) -> Option<Op2>
    ensures { result ≡ spec.single_of c }
{
    if c == '*' {
        Some(Op2::Times)
    } else if c == '/' {
        Some(Op2::Divide)
    } else if c == '%' {
        Some(Op2::Remainder)
    } else if c == '+' {
        Some(Op2::Add)
    } else if c == '-' {
        Some(Op2::Subtract)
    } else if c == '<' {
        Some(Op2::Less)
    } else if c == '>' {
        Some(Op2::Greater)
    } else if c == '&' {
        Some(Op2::BitAnd)
    } else if c == '^' {
        Some(Op2::BitXor)
    } else if c == '|' {
        Some(Op2::BitOr)
    } else {
        None
    }
}

#[tactic(auto, unfolding(crate::specs::Infixes::double_of))]
fn double_of(c: char, next: char) -> Option<Infix>
    ensures { result ≡ spec.double_of c next }
{
    if c == '*' && next == '*' {
        Some(Infix::Number(Op2::Power))
    } else if c == '<' && next == '<' {
        Some(Infix::Number(Op2::ShiftLeft))
    } else if c == '>' && next == '>' {
        Some(Infix::Number(Op2::ShiftRight))
    } else if c == '<' && next == '=' {
        Some(Infix::Number(Op2::LessEqual))
    } else if c == '>' && next == '=' {
        Some(Infix::Number(Op2::GreaterEqual))
    } else if c == '=' && next == '=' {
        Some(Infix::Number(Op2::Equal))
    } else if c == '!' && next == '=' {
        Some(Infix::Number(Op2::NotEqual))
    } else if c == '&' && next == '&' {
        Some(Infix::And)
    } else if c == '|' && next == '|' {
        Some(Infix::Or)
    } else {
        None
    }
}

/// A word operator that no letter follows.
fn ended_word(c: char, next: char, third: char) -> Option<WordOp>
    ensures { result ≡ spec.ended_word (spec.word_of c next) third }
{
    match word_of(c, next) {
        None => None,
        Some(op) => {
            if third.is_ascii_alphabetic() {
                None
            } else {
                Some(op)
            }
        }
    }
}

/// The longest operator that begins with these characters.
#[tactic(auto, unfolding(crate::specs::Infixes::infix_of))]
fn infix_of(c: char, next: char, third: char) -> Option<Infix>
    ensures { result ≡ spec.infix_of c next third }
{
    match double_of(c, next) {
        Some(op) => Some(op),
        None => match ended_word(c, next, third) {
            Some(op) => Some(Infix::Words(op)),
            None => match single_of(c) {
                Some(op) => Some(Infix::Number(op)),
                None => None,
            },
        },
    }
}

/// The row of an operator, the tightest first.
fn level_of(op: Infix) -> u8
    ensures { result ≡ spec.level_of op }
{
    match op {
        Infix::Number(op) => match op {
            Op2::Power => POWER,
            Op2::Times | Op2::Divide | Op2::Remainder => 0,
            Op2::Add | Op2::Subtract => 1,
            Op2::ShiftLeft | Op2::ShiftRight => 2,
            Op2::Less | Op2::Greater | Op2::LessEqual | Op2::GreaterEqual => 3,
            Op2::Equal | Op2::NotEqual => 5,
            Op2::BitAnd => 8,
            Op2::BitXor => 9,
            Op2::BitOr => 10,
        },
        Infix::Words(op) => match op {
            WordOp::Lt | WordOp::Gt | WordOp::Le | WordOp::Ge => 4,
            WordOp::Eq | WordOp::Ne => 6,
            WordOp::Among | WordOp::NotAmong => 7,
        },
        Infix::And => 11,
        Infix::Or => 12,
    }
}

/// Whether an operator is one character long.
fn is_single(op: Infix) -> bool
    ensures { result ≡ spec.is_single op }
{
    match op {
        Infix::Number(op) => match op {
            Op2::Times | Op2::Divide | Op2::Remainder | Op2::Add | Op2::Subtract => true,
            Op2::Less | Op2::Greater | Op2::BitAnd | Op2::BitXor | Op2::BitOr => true,
            _ => false,
        },
        _ => false,
    }
}

#[tactic(auto, unfolding(crate::specs::Infixes::operator))]
fn operator(cursor: &Cursor<'_>) -> Option<Infix>
    ensures { result ≡ spec.operator cursor.now }
{
    infix_of(first(cursor), second(cursor), third(cursor))
}

/// The operator of this row that comes next.
#[tactic(auto, unfolding(crate::specs::Infixes::at_level))]
pub(crate) fn at_level(level: u8, cursor: &Cursor<'_>) -> Option<Infix>
    ensures { result ≡ spec.at_level level cursor.now }
{
    match operator(cursor) {
        Some(op) => {
            if level_of(op) == level {
                Some(op)
            } else {
                None
            }
        }
        None => None,
    }
}

/// Goes past an operator.
#[tactic(auto, unfolding(crate::specs::Infixes::behind), using(crate::proofs::FrontLemmas::drops))]
pub(crate) fn pass_operator(op: Infix, cursor: &mut Cursor<'_>)
    ensures rest { cursor.new ≡ spec.behind op cursor.old }
    ensures left { length cursor.new ≤ length cursor.old }
{
    cursor.skip();
    if !is_single(op) {
        cursor.skip();
    }
}

/// A character that is the first of two of an operator, or of a backslash-newline, and no operator
/// itself.
fn is_half(c: char) -> bool
    ensures { result ≡ spec.is_half c }
{
    matches!(c, '=' | '!' | 'e' | 'n' | 'l' | 'g' | 'i' | '\\')
}

/// How many characters could still begin an operator or white space, where neither comes.
#[tactic(auto, unfolding(crate::specs::Infixes::half_len))]
pub(crate) fn half_len(cursor: &Cursor<'_>) -> usize
    ensures { result ≡ spec.half_len cursor.now }
{
    let c = first(cursor);
    match word_of(c, second(cursor)) {
        Some(_) => 2,
        None => { if is_half(c) { 1 } else { 0 } }
    }
}
