// Runs of a row: whole, with short reads, and with each call failing.

use crate::differences::{Difference, compared};
use crate::fields::Field;
use crate::outcomes::{DEVICE_STATUS, Outcome, ended_before_fault, is_part, is_same, run_row};
use crate::rows::Row;
use std::alloc::Global;
use tclv_text::NoMemory;

/// The most calls of a run that fail in turn.
const MOST_CALLS: u64 = 20_000;

/// How many bytes the first reads give, where they are short.
const SHORT_READS: [usize; 3] = [1, 2, 3];

/// How many bytes a failing write takes.
const TAKEN: usize = 1;

// What came of a run, in one line.
fn said_of(alloc: Global, outcome: &Outcome) -> Result<String, NoMemory> {
    let status = outcome.report.status;
    let writes = outcome.report.writes;
    let output = outcome.outside.output().len();
    let errors = outcome.outside.errors().len();
    Ok(format!(in alloc;
        "status {status}, {writes} writes, {output} bytes on stdout and {errors} on stderr"
    )?)
}

// What changes where the first reads are short.
fn with_short_reads(
    alloc: Global,
    row: &Row,
    whole: &Outcome,
) -> Result<Option<Difference>, NoMemory> {
    let other = run_row(alloc, row, &SHORT_READS, &[])?;
    if is_same(&other, whole) && compared(alloc, &row.wanted, &other)?.is_empty() {
        return Ok(None);
    }
    Ok(Some(Difference {
        field: Field::ShortReads,
        place: String::from_str(alloc, "with short reads")?,
        wanted: said_of(alloc, whole)?,
        got: said_of(alloc, &other)?,
    }))
}

// The first call whose fault leaves something else than a part of the whole run.
fn with_faults(alloc: Global, row: &Row, whole: &Outcome) -> Result<Option<Difference>, NoMemory> {
    for call in 1..=MOST_CALLS {
        let mut other = run_row(alloc, row, &[], &[(call, TAKEN)])?;
        if ended_before_fault(&mut other) && is_same(&other, whole) {
            return Ok(None);
        }
        if !is_part(&other, whole) {
            let all = said_of(alloc, whole)?;
            return Ok(Some(Difference {
                field: Field::Faults,
                place: format!(in alloc; "with call {call} failing")?,
                wanted: format!(in alloc; "status {DEVICE_STATUS} and a front of {all}")?,
                got: said_of(alloc, &other)?,
            }));
        }
    }
    Ok(Some(Difference {
        field: Field::Faults,
        place: String::from_str(alloc, "with each call failing")?,
        wanted: format!(in alloc; "at most {MOST_CALLS} calls")?,
        got: String::from_str(alloc, "more")?,
    }))
}

/// What of a row isn't as it must be.
///
/// The row is run whole. Where that comes to what is wanted and the row names no failing calls, it
/// is run with short reads, and then with each of its calls failing in turn: the status is 124
/// then, and what was written is a front of what the whole run writes.
pub fn differences_of(alloc: Global, row: &Row) -> Result<Vec<Difference>, NoMemory> {
    let whole = run_row(alloc, row, &[], &row.fails)?;
    let mut found = compared(alloc, &row.wanted, &whole)?;
    if !found.is_empty() || !row.fails.is_empty() {
        return Ok(found);
    }
    if let Some(difference) = with_short_reads(alloc, row, &whole)? {
        found.push(difference)?;
    } else if let Some(difference) = with_faults(alloc, row, &whole)? {
        found.push(difference)?;
    }
    Ok(found)
}
