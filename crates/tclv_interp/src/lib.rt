//! The commands of the shell, and the interpreter.
//!
//! Here stands the table of commands: each name has its command, and each command says what its words
//! want done, by a row of the crates of commands. The evaluation is that of tclv_engine, over this
//! table. `Interp` keeps the variables and the result between evaluations.
#![tactic(auto)]

mod builtins;
mod calls;
mod commands;
mod interpreters;
pub mod laws;
mod proc_info;
mod procedures;

pub use interpreters::{Interp, Stop};
