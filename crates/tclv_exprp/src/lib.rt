//! Expressions: their trees, and their operators over whole numbers of 64 bits.
//!
//! `parse_expr` promises the tree of each text by the table of precedence, or the first fault from
//! the left with its place, exactly as `specs/ExpressionGrammar` says. `parse_instructions` promises
//! the same as instructions: the tree, laid flat as `specs/Flat` says. `apply1` and `apply2` promise
//! the result of each operator, or the fault that it has, exactly by the table in
//! `specs/Operators`; they take no memory. Whoever evaluates an expression walks its tree and
//! applies its operators.
#![tactic(auto)]

mod arithmetic;
mod expressions;
mod faults;
mod flattening;
mod fronts;
mod functions;
mod infixes;
mod instructions;
pub mod laws;
mod leaves;
mod numerals;
mod operands;
mod operators;
mod tree;

pub use arithmetic::{apply1, apply2};
pub use expressions::parse_expr;
pub use faults::ExprFault;
pub use flattening::{flatten, parse_instructions};
pub use instructions::{Instruction, Operation};
pub use operators::{Infix, Op1, Op2, OpFault, WordOp};
pub use tree::{ExprTree, Step};

#[cfg(test)]
mod tests;
#[cfg(test)]
mod tree_tests;
