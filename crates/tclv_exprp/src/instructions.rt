// What the evaluation of an expression does, one instruction after another.

use crate::{Op1, Op2, WordOp};
use sqlite_items::Items;
use tclv_parse::Part;
use tclv_text::Text;

/// What puts one text on top of a stack, in place of those that it takes from there.
#[derive(Drop)]
pub enum Operation {
    /// A text as it is.
    Literal(Text),
    /// What a variable, an element, a script in brackets, or a text in quotes stands for.
    Parts(Items<Part>),
    /// An operator of one operand.
    Unary(Op1),
    /// An operator of two numbers, of which the right one is on top.
    Number(Op2),
    /// An operator of two texts, of which the right one is on top.
    Words(WordOp),
    /// The truth value of a text, as 1 or 0.
    Truth,
    /// A function, by its name, and how many arguments it has, of which the last is on top.
    Call(Text, usize),
    /// An operand that stands too deep. No expression that is read has one.
    TooDeep,
}

/// One instruction of an expression. Behind it comes the next that isn't passed over.
#[derive(Drop)]
pub enum Instruction {
    /// Puts a text on top.
    Operate(Operation),
    /// Passes over so many instructions where the truth value of the top text is this. The text
    /// stays.
    SkipIf(bool, usize),
    /// Passes over so many instructions.
    Skip(usize),
    /// Lets the top text go.
    Forget,
}
