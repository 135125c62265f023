//! The commands over texts.
//!
//! `string` is one call over a store, which looks up its subcommand by name; each subcommand is a call
//! too. The words after the command's name are the top texts of the stack, the word of the subcommand
//! first, and the word of the call lies below them. On `Ok` the result takes the words' place. On a
//! refusal the message and the error code do. What comes is said by the command's row, a definition
//! over the texts of the words, and it comes exactly there. All other places keep their texts. Places
//! in a text count its code points.
//!
//! The layer promises this to the shell that evaluates scripts, which knows of each command its row
//! alone.
#![tactic(auto)]

mod changing;
mod characters;
mod classes;
mod comparing;
mod finding;
mod folding;
mod making;
mod mapping;
mod measuring;
mod places;
mod reading;
mod subcommands;
mod trimming;
mod words;

pub use subcommands::cmd_string;
