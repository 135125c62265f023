// What a row can want of a run.

use tclv_text::Stats;

/// What a row can want of a run.
#[derive(Clone, Copy, PartialEq, Eq)]
pub enum Field {
    /// The bytes on standard output.
    Output,
    /// The bytes on standard error.
    Errors,
    /// The exit status.
    Status,
    /// The number of writes and openings for writing.
    Writes,
    /// A counter of the value layer.
    Counter(Counter),
    /// A file after the run.
    FileAfter,
    /// That nothing changes where the first reads are short.
    ShortReads,
    /// What is left where a call fails.
    Faults,
}

/// A counter of the value layer.
#[derive(Clone, Copy, PartialEq, Eq)]
pub enum Counter {
    Read,
    Spelled,
    Copied,
}

/// How a counter is bounded.
#[derive(Clone, Copy)]
pub enum Bound {
    Exactly,
    AtMost,
    AtLeast,
}

/// What a row wants of a counter.
#[derive(Clone, Copy)]
pub struct CounterWish {
    pub counter: Counter,
    pub bound: Bound,
    pub number: u64,
}

impl Counter {
    /// The counter of a name.
    pub fn named(name: &str) -> Option<Counter> {
        match name {
            "read" => Some(Counter::Read),
            "spelled" => Some(Counter::Spelled),
            "copied" => Some(Counter::Copied),
            _ => None,
        }
    }

    /// The name of the counter.
    pub fn name(self) -> &'static str {
        match self {
            Counter::Read => "read",
            Counter::Spelled => "spelled",
            Counter::Copied => "copied",
        }
    }

    /// The counter's value.
    pub fn of(self, stats: Stats) -> u64 {
        match self {
            Counter::Read => stats.read,
            Counter::Spelled => stats.spelled,
            Counter::Copied => stats.copied,
        }
    }
}

impl Bound {
    /// The words before the number.
    pub fn words(self) -> &'static str {
        match self {
            Bound::Exactly => "",
            Bound::AtMost => "at most ",
            Bound::AtLeast => "at least ",
        }
    }
}

impl CounterWish {
    /// Reads a line `COUNTER ?at most|at least? NUMBER`.
    pub fn read(line: &str) -> Option<CounterWish> {
        let (name, rest) = line.split_once(' ')?;
        let (bound, number) = if let Some(number) = rest.strip_prefix("at most ") {
            (Bound::AtMost, number)
        } else if let Some(number) = rest.strip_prefix("at least ") {
            (Bound::AtLeast, number)
        } else {
            (Bound::Exactly, rest)
        };
        Some(CounterWish {
            counter: Counter::named(name)?,
            bound,
            number: number.parse().ok()?,
        })
    }

    /// Whether a counter's value is as wanted.
    pub fn is_met(self, value: u64) -> bool {
        match self.bound {
            Bound::Exactly => value == self.number,
            Bound::AtMost => value <= self.number,
            Bound::AtLeast => value >= self.number,
        }
    }
}

impl Field {
    /// The field of a name, where a row can name it as wrong.
    pub fn named(name: &str) -> Option<Field> {
        match name {
            "stdout" => Some(Field::Output),
            "stderr" => Some(Field::Errors),
            "status" => Some(Field::Status),
            "writes" => Some(Field::Writes),
            "after" => Some(Field::FileAfter),
            _ => Some(Field::Counter(Counter::named(name)?)),
        }
    }
}
