//! Tables by name and by number, which contracts see as finite maps.
//!
//! They hide the map in insertion order below them: callers put, find and take out entries, and
//! learn nothing of their order. A look-up takes constant time and no memory.
#![tactic(auto)]

mod by_name;
mod by_number;

pub use by_name::Names;
pub use by_number::Numbered;

#[cfg(test)]
mod tests;
