//! Laws of the definitions that the readers and writers of this crate keep. Each is the contract of
//! a function that does nothing.

pub mod escapes;
pub mod globs;
pub mod indices;
pub mod lists;
pub mod numbers;
pub mod pairs;
