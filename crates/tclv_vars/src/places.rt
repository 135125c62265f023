// Where a name is looked up, and how much of it is there.

/// Where a name is looked up.
#[derive(Clone, Copy, Debug, PartialEq, Eq)]
pub enum Place {
    /// In the current frame.
    Frame,
    /// In the namespace of this number.
    Space(u64),
}

/// Where the other name of a link stands.
#[derive(Clone, Copy, Debug, PartialEq, Eq)]
pub enum Root {
    /// In the frame of this level, of the current frame and those that called it.
    Level(usize),
    /// In the namespace of this number.
    Space(u64),
}

/// Where names stand.
#[derive(Clone, Copy, Debug, PartialEq, Eq)]
pub enum Home {
    /// In the local frame of this number.
    Local(usize),
    /// In the namespace of this number.
    Of(u64),
}

/// What of a variable isn't there, so that a write makes it.
#[derive(Clone, Copy, Debug, PartialEq, Eq)]
pub enum Missing {
    /// At most the value: the cell is there.
    Value,
    /// The element of an array that is there.
    Element,
    /// The array: the name is there, and isn't set.
    Array,
    /// The name.
    Name,
    /// The name, and every other one in its namespace.
    Names,
}
