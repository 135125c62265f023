// Operators, and why one gives no number.

use thiserror::Error;

/// Why an operator gives no number.
#[derive(Clone, Copy, Debug, PartialEq, Eq, Error)]
pub enum OpFault {
    /// The divisor is 0.
    #[error("the divisor is 0")]
    DivideByZero,
    /// The result is outside -2^63..2^63-1.
    #[error("the result needs more than 64 bits")]
    TooLarge,
    /// A number is to be shifted by less than 0 places.
    #[error("the number of places to shift by is negative")]
    NegativeShift,
    /// 0 is to be raised to a negative power.
    #[error("0 has no negative power")]
    ZeroPower,
}

/// An operator of one number, by its sign.
#[derive(Clone, Copy, Debug, PartialEq, Eq)]
pub enum Op1 {
    /// `-`
    Minus,
    /// `+`
    Plus,
    /// `~`: each bit the other way round.
    Invert,
    /// `!`: 1 for 0, and else 0.
    Not,
}

/// An operator of two numbers, by its sign.
#[derive(Clone, Copy, Debug, PartialEq, Eq)]
pub enum Op2 {
    /// `**`
    Power,
    /// `*`
    Times,
    /// `/`: rounds down.
    Divide,
    /// `%`: has the divisor's sign.
    Remainder,
    /// `+`
    Add,
    /// `-`
    Subtract,
    /// `<<`
    ShiftLeft,
    /// `>>`: rounds down.
    ShiftRight,
    /// `&`
    BitAnd,
    /// `^`
    BitXor,
    /// `|`
    BitOr,
    /// `==`: 1 or 0, as the further ones.
    Equal,
    /// `!=`
    NotEqual,
    /// `<`
    Less,
    /// `>`
    Greater,
    /// `<=`
    LessEqual,
    /// `>=`
    GreaterEqual,
}

/// An operator of two texts, by its word. Each gives 1 or 0.
#[derive(Clone, Copy, Debug, PartialEq, Eq)]
pub enum WordOp {
    /// `eq`
    Eq,
    /// `ne`
    Ne,
    /// `lt`: by code points, as the next three.
    Lt,
    /// `gt`
    Gt,
    /// `le`
    Le,
    /// `ge`
    Ge,
    /// `in`: the left text is an element of the right list.
    Among,
    /// `ni`: it is none.
    NotAmong,
}

/// An operator between two operands.
#[derive(Clone, Copy, Debug, PartialEq, Eq)]
pub enum Infix {
    /// An operator of two numbers; those that compare also compare other texts.
    Number(Op2),
    /// An operator of two texts.
    Words(WordOp),
    /// `&&`: the right operand counts only where the left one is true.
    And,
    /// `||`: the right operand counts only where the left one is false.
    Or,
}
