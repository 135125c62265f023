//! Scripts: their pieces and their commands.
//!
//! A script is a text, read from the left by the rules of Tcl(n) as `specs/Grammar.antt` states
//! them. [`Tokens`] cuts a script into slices of it, [`is_complete`] tells whether a closing mark is
//! missing; neither takes memory. [`parse`] gives the commands of a script as a tree. [`Reader`] and
//! [`braced`] read the parts of words at a cursor, for readers of other languages that hold them.
#![tactic(auto)]

mod complete;
mod faults;
mod joining;
pub mod laws;
mod literals;
mod modes;
mod pieces;
mod readers;
mod runs;
mod stops;
#[cfg(test)]
mod tests;
mod tokens;
mod tree;
#[cfg(test)]
mod tree_tests;

pub use complete::is_complete;
pub use faults::ParseFault;
pub use literals::braced;
pub use pieces::{Piece, PieceKind};
pub use readers::{Reader, parse};
pub use runs::Form;
pub use stops::Stop;
pub use tokens::Tokens;
pub use tree::{Command, Part, Script, Word};
