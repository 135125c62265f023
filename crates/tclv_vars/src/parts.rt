// What the tables are made of.

use tclv_names::Names;

/// What a name stands for.
#[derive(Clone, Copy, Debug, PartialEq, Eq)]
pub struct Slot {
    /// The number of the cell.
    pub cell: u64,
    /// Whether the cell is the name's own. The name is a link otherwise.
    pub own: bool,
}

/// A frame: where the names of a call stand.
#[derive(Drop)]
pub struct Frame {
    /// The level, 0 for the global frame.
    pub level: usize,
    /// The number of the frame that was current when this one was pushed.
    pub caller: usize,
    /// The number of the namespace.
    pub space: u64,
    /// Whether the names are the frame's own, and not those of its namespace.
    pub local: bool,
    /// The names of a local frame.
    pub names: Names<Slot>,
}

/// What a cell that is set holds.
#[derive(Drop)]
pub enum Content {
    /// A value. Its text lies elsewhere.
    Plain,
    /// An array: the cells of its elements by index.
    Array(Names<u64>),
}
