// What runs scripts.

use crate::values::Values;
use std::alloc::Global;

/// What runs scripts: its values, the tables that the commands keep of their own, and what is
/// counted.
#[derive(Drop)]
pub struct Machine<W> {
    pub alloc: Global,
    pub values: Values,
    /// What the commands keep. No evaluation reads it.
    pub own: W,
    /// How many units are left.
    pub units: u64,
    /// The number of the current evaluation, from 1; 0 outside of all.
    pub depth: u64,
    /// How many events there were.
    pub writes: u64,
}
