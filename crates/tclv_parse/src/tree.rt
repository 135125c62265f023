// Scripts as trees.

use crate::ParseFault;
use sqlite_items::{Boxed, Items};
use tclv_text::Text;

/// A part of a word.
#[cycle(tree)]
#[derive(Drop)]
pub enum Part {
    /// Characters that stand for themselves, with the escapes read.
    Literal(Text),
    /// The value of the variable of this name.
    Variable(Text),
    /// The value of the element of the array of this name, at the index that the parts give.
    Element(Text, Items<Part>),
    /// The result of a script in brackets.
    Script(Boxed<Script>),
}

/// A word of a command.
#[cycle(tree)]
#[derive(Drop)]
pub struct Word {
    /// Whether the word is read as a list, whose elements become words.
    pub expand: bool,
    pub parts: Items<Part>,
}

/// A command of a script.
#[cycle(tree)]
#[derive(Drop)]
pub struct Command {
    /// The place of its first character in the whole text, in bytes from 0.
    pub at: usize,
    /// One word or more.
    pub words: Items<Word>,
}

/// A script: the commands before its first fault, and the fault.
#[cycle(tree)]
#[derive(Drop)]
pub struct Script {
    pub commands: Items<Command>,
    pub fault: Option<ParseFault>,
}
