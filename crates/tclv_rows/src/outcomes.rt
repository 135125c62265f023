// Runs of a row over an outside in memory, and what came of them.

use crate::rows::Row;
use std::alloc::Global;
use tclv_io::{MemoryOutside, Outside};
use tclv_model::{End, Report};
use tclv_shell::run;
use tclv_text::NoMemory;

/// The status of a run that a device's fault ended.
pub const DEVICE_STATUS: u8 = 124;

/// What came of a run.
#[derive(Drop)]
pub struct Outcome {
    pub report: Report,
    pub outside: MemoryOutside,
}

fn copied_files(
    alloc: Global,
    files: &[(String, Vec<u8>)],
) -> Result<Vec<(String, Vec<u8>)>, NoMemory> {
    let mut copies = Vec::new(alloc);
    for (name, bytes) in files {
        copies.push((name.clone()?, bytes.clone()?))?;
    }
    Ok(copies)
}

/// Runs a row, where the first reads give at most so many bytes and these calls fail.
pub fn run_row(
    alloc: Global,
    row: &Row,
    pieces: &[usize],
    fails: &[(u64, usize)],
) -> Result<Outcome, NoMemory> {
    let mut outside = MemoryOutside::new(
        alloc,
        row.input.clone()?,
        copied_files(alloc, &row.files)?,
        pieces.to_vec(alloc)?,
        fails.to_vec(alloc)?,
    );
    let report = run(alloc, &row.words, &mut outside);
    Ok(Outcome { report, outside })
}

/// Whether two runs came to the same.
pub fn is_same(one: &Outcome, other: &Outcome) -> bool {
    one.report.end == other.report.end
        && one.report.status == other.report.status
        && one.report.writes == other.report.writes
        && one.outside.output() == other.outside.output()
        && one.outside.errors() == other.outside.errors()
}

/// Whether a device's fault ended a run after a part of what the whole run writes.
pub fn is_part(part: &Outcome, whole: &Outcome) -> bool {
    part.report.end == End::Device
        && part.report.status == DEVICE_STATUS
        && part.report.writes <= whole.report.writes
        && whole.outside.output().starts_with(part.outside.output())
        && whole.outside.errors().starts_with(part.outside.errors())
}

/// Whether a run came to its own end before the call that was to fail: then the next call fails. A
/// fault that was passed over isn't taken for such an end.
pub fn ended_before_fault(outcome: &mut Outcome) -> bool {
    outcome.report.end != End::Device && outcome.outside.exists("").is_err()
}
