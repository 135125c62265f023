// What is wrong with a file of rows.

use std::alloc::{AllocError, AllocFailed};
use tclv_text::NoMemory;
use thiserror::Error;

/// What is wrong with a line of a file of rows.
#[derive(Clone, Copy, Debug, Error)]
pub enum FaultKind {
    /// A line that begins a row has no name.
    #[error("a row has a name")]
    NoName,
    /// Two rows have one name.
    #[error("an earlier row has this name")]
    SameName,
    /// A section has a name that no section has.
    #[error("there is no section of this name")]
    NoSuchSection,
    /// A row has a section twice.
    #[error("the row has this section already")]
    SameSection,
    /// A section that isn't bytes is escaped.
    #[error("this section can't be escaped")]
    NotBytes,
    /// A backslash of an escaped section stands before something else.
    #[error("a backslash is followed by n, r, t, a backslash, or x and two hexadecimal digits")]
    BadEscape,
    /// A section that is one number is something else.
    #[error("this section is one number")]
    NotANumber,
    /// A line of failing calls is in no form.
    #[error("a failing call is its number and how many bytes it takes")]
    BadCall,
    /// A line of counters is in no form.
    #[error("a counter is read, spelled or copied, then at most or at least or neither, then a number")]
    BadCounter,
    /// A line of what is wrong in a row names nothing that a row wants.
    #[error("what can be wrong is stdout, stderr, status, writes, read, spelled, copied or after")]
    NoSuchField,
}

/// Why a file of rows wasn't read.
#[derive(Clone, Copy, Debug, Error)]
pub enum FileFault {
    /// A line is in no form. Lines are counted from 1.
    #[error("line {line}: {kind}")]
    Malformed { line: usize, kind: FaultKind },
    /// Memory ran out.
    #[error("out of memory")]
    NoMemory,
}

impl FileFault {
    /// What is wrong with a line.
    pub fn at(line: usize, kind: FaultKind) -> FileFault {
        FileFault::Malformed { line, kind }
    }
}

impl From<NoMemory> for FileFault {
    fn from(_: NoMemory) -> Self {
        FileFault::NoMemory
    }
}

impl From<AllocError> for FileFault {
    fn from(_: AllocError) -> Self {
        FileFault::NoMemory
    }
}

impl<T: Drop> From<AllocFailed<T>> for FileFault {
    fn from(_: AllocFailed<T>) -> Self {
        FileFault::NoMemory
    }
}
