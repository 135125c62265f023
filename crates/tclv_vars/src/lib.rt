//! Variables and frames: which cell a name stands for.
//!
//! A frame is local and has names of its own, or shows the names of its namespace. A name stands
//! for a cell, by its number; a cell that is set holds a value or an array, which has a cell for
//! each index. What the cells' values are is kept elsewhere, under the cells' numbers.
//!
//! The layer promises to those above it:
//!
//! - Contracts see the variables as one plain record (`Table`): frames, namespaces, what each cell
//!   holds, and the next new number. Each call answers exactly as the record says.
//! - After a refusal all is as before. Only want of memory comes without a cause in the record.
//! - Names and indices are found in constant time, and that takes no memory.
#![tactic(auto)]

mod clearing;
mod ending;
mod faults;
mod indices;
pub mod laws;
mod links;
mod parts;
mod places;
mod scopes;
mod spares;
mod tables;
mod unsetting;
mod variables;

pub use faults::VarFault;
pub use indices::Indices;
pub use places::{Missing, Place, Root};
pub use variables::Vars;
