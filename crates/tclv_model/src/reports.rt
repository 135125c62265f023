// How a run ended, and what it reports.

use tclv_text::Stats;

/// How a run ended. The status that belongs to each end is 0, 1, 2, 125, 124 and 123, in order.
#[derive(Clone, Copy, Debug, PartialEq, Eq)]
pub enum End {
    /// The script came to its end without an error.
    Done,
    /// An error, or a script file that can't be run. Its message is on standard error.
    Failed,
    /// The words of the command line are in no form.
    Usage,
    /// The budget of commands was spent.
    Budget,
    /// A device failed.
    Device,
    /// Memory ran out.
    Memory,
}

/// What a run reports.
#[derive(Clone, Copy, Debug, PartialEq, Eq)]
pub struct Report {
    /// How the run ended.
    pub end: End,
    /// The exit status.
    pub status: u8,
    /// How many openings for writing and writes were completed.
    pub writes: u64,
    /// How much work the value layer did.
    pub stats: Stats,
}
