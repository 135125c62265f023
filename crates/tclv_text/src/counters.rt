// The counters of the value layer.

/// How much work the value layer did. Each counter stops at the greatest `u64`.
#[derive(Clone, Copy, Debug, PartialEq, Eq)]
pub struct Stats {
    /// Code points read to make internal forms.
    pub read: u64,
    /// Code points written to make strings of internal forms.
    pub spelled: u64,
    /// Elements copied by duplication, or by writing an abstract list out.
    pub copied: u64,
}

impl Stats {
    /// Nothing was counted yet.
    pub const ZERO: Stats = Stats {
        read: 0,
        spelled: 0,
        copied: 0,
    };
}
