//! Containers of objects, from which a value's internal forms are made.
//!
//! `ListForm` is a list of objects of `tclv_heap`. It knows nothing of counts: who puts an object in
//! has a holder of it to give, and who takes one out gets it back. Each call says exactly what the list
//! is afterwards, and the list shows how many more objects it takes without memory, so that what may
//! fail can be done before a value is taken apart.
#![tactic(auto)]

mod lists;

pub use lists::ListForm;

#[cfg(test)]
mod tests;
