// What a command wants done, where `K` is what can be done behind a script.

use crate::each_groups::Groups;
use crate::endings::Carried;
use std::rc::Rc;
use tclv_model::MessageId;
use tclv_value::ProcDef;

/// What a test leads to that is true.
#[derive(Clone, Copy, Debug, PartialEq, Eq)]
pub enum Way {
    /// The script at this place of the stack.
    Body(usize),
    /// An error with this message; its first part is the text of this place of the stack, if it has
    /// one. Its error code is `NONE`.
    Refused(MessageId, Option<usize>),
    /// Nothing: the result is empty.
    Nothing,
}

/// A test, by its place on the stack, and what it leads to.
#[derive(Clone, Copy, Debug, PartialEq, Eq)]
pub struct Branch {
    pub test: usize,
    pub way: Way,
}

/// Tests, and what counts where none of them is true.
#[derive(Drop)]
pub struct Branches {
    pub items: Vec<Branch>,
    pub last: Way,
}

/// What is run that something stands behind.
#[derive(Drop)]
pub enum Inner {
    /// The script of a place.
    Script(usize),
    /// The body of a procedure, whose parameters get the top texts, in a frame of its own.
    Body(Rc<ProcDef>),
    /// The script of a place, in the frame of a level.
    AtLevel(usize, usize),
}

/// What the evaluation is to do for a command. Texts are named by their places on the stack.
#[derive(Drop)]
pub enum Plan<K> {
    /// Nothing more: the result is the top text of the stack.
    Finished(Carried),
    /// Run one script, and then finish, however it ended.
    Run(usize, K),
    /// Run the body of a procedure, whose parameters get the top texts, in a frame of its own, and
    /// then finish, however it ended.
    Called(Rc<ProcDef>, K),
    /// Run a script in the frame of this level, and then finish, however it ended.
    AtLevel(usize, usize, K),
    /// The value of an expression is the result.
    Value(usize),
    /// Evaluate tests up to the first that is true, and then what it leads to.
    Choice(Branches),
    /// A loop: its test and its body.
    Tested(usize, usize),
    /// A loop: its start, its test, the script between two turns, and its body.
    Started(usize, usize, usize, usize),
    /// A loop over lists: its variables with their values, by the places of their lists, its body, and
    /// whether the list of the body's results is the result.
    Each(Groups, usize, bool),
}
