//! The store: values behind places, where contracts see only texts.
//!
//! A store has a stack and cells, and each of their places has a text. Contracts see the texts of
//! the stack as a list, those of the cells as a map, and of each place whether its text is made.
//! Behind the places are objects of `tclv_heap`, which places share; a text may be kept as a form,
//! such as a number, until someone wants to read it. No contract speaks of them.
//!
//! The layer promises to those above it:
//!
//! - A call changes the text of the place that it names, and every other place keeps its text.
//! - A copy shares its object: it takes no memory for the text, and constant time.
//! - Cells are found in constant time.
//! - After a refusal each place has the text that it had, and a made text stays made.
#![tactic(auto)]

mod appending;
mod changes;
mod elements;
mod faults;
mod forms;
mod kept_lists;
pub mod laws;
mod list_paths;
mod lists;
mod numbers;
mod places;
mod procedures;
mod readings;
mod replacing;
mod sequences;
mod setting;
mod store;
mod ways;

pub use faults::ValueFault;
pub use places::At;
pub use procedures::{Param, ProcDef};
pub use store::Store;
