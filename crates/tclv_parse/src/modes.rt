// What is being read at a place of a script.

use crate::ParseFault;
use crate::runs::Form;

/// What is being read at a place of a script.
#[derive(Clone, Copy, Debug, PartialEq, Eq)]
pub enum Mode {
    /// A script, where a command may begin.
    Begin,
    /// A command, behind one of its words.
    Words,
    /// A word, behind its `{*}`.
    Expanded,
    /// The parts of a word of this form, or of an index.
    Parts(Form),
    /// The same, behind the plain name of a variable.
    Named(Form),
    /// A word in braces, inside so many braces of its own.
    Braced(usize),
    /// Behind the closing mark of a word, whose end is missing with this fault.
    Closed(ParseFault),
}
