// What of a row isn't as it must be.

use crate::fields::Field;
use crate::outcomes::Outcome;
use crate::rows::Wanted;
use std::alloc::Global;
use std::fmt;
use tclv_text::NoMemory;

/// The most bytes of a text that are shown.
const MOST_SHOWN: usize = 300;

/// What of a row isn't as it must be.
#[derive(Drop)]
pub struct Difference {
    pub field: Field,
    /// Which part of the run it is.
    pub place: String,
    pub wanted: String,
    pub got: String,
}

impl fmt::Display for Difference {
    fn fmt<W: fmt::Write>(&self, f: &mut fmt::Formatter<W>) -> fmt::Result {
        let place = self.place.as_str();
        let wanted = self.wanted.as_str();
        let got = self.got.as_str();
        write!(f, "{place}: wanted {wanted}, got {got}")
    }
}

// A line of a text, counted from 0.
fn nth_line(text: &[u8], number: usize) -> Option<&[u8]> {
    text.split(|byte| *byte == b'\n').nth(number)
}

// The first line, counted from 0, that two texts don't share.
fn first_difference(wanted: &[u8], got: &[u8]) -> usize {
    let mut number: usize = 0;
    for line in wanted.split(|byte| *byte == b'\n') {
        if nth_line(got, number) != Some(line) {
            return number;
        }
        number = number.saturating_add(1);
    }
    number
}

// A line as a report shows it.
fn shown(alloc: Global, line: Option<&[u8]>) -> Result<String, NoMemory> {
    let Some(line) = line else {
        return Ok(String::from_str(alloc, "no line")?);
    };
    let (front, end) = match line.split_at_checked(MOST_SHOWN) {
        Some((front, _)) => (front, "\"..."),
        None => (line, "\""),
    };
    let escaped = front.escape_ascii();
    Ok(format!(in alloc; "\"{escaped}{end}")?)
}

// Notes where two texts differ.
fn compare_texts(
    alloc: Global,
    field: Field,
    name: &str,
    wanted: &[u8],
    got: &[u8],
    found: &mut Vec<Difference>,
) -> Result<(), NoMemory> {
    if wanted == got {
        return Ok(());
    }
    let number = first_difference(wanted, got);
    let line = number.saturating_add(1);
    found.push(Difference {
        field,
        place: format!(in alloc; "{name}, line {line}")?,
        wanted: shown(alloc, nth_line(wanted, number))?,
        got: shown(alloc, nth_line(got, number))?,
    })?;
    Ok(())
}

// Notes that a number isn't as wanted.
fn add_number(
    alloc: Global,
    field: Field,
    name: &str,
    wanted: u64,
    got: u64,
    found: &mut Vec<Difference>,
) -> Result<(), NoMemory> {
    found.push(Difference {
        field,
        place: String::from_str(alloc, name)?,
        wanted: format!(in alloc; "{wanted}")?,
        got: format!(in alloc; "{got}")?,
    })?;
    Ok(())
}

// Notes which counters aren't as wanted.
fn compare_counters(
    alloc: Global,
    wanted: &Wanted,
    outcome: &Outcome,
    found: &mut Vec<Difference>,
) -> Result<(), NoMemory> {
    for wish in &wanted.counters {
        let got = wish.counter.of(outcome.report.stats);
        if !wish.is_met(got) {
            let words = wish.bound.words();
            let number = wish.number;
            found.push(Difference {
                field: Field::Counter(wish.counter),
                place: String::from_str(alloc, wish.counter.name())?,
                wanted: format!(in alloc; "{words}{number}")?,
                got: format!(in alloc; "{got}")?,
            })?;
        }
    }
    Ok(())
}

// Notes which files aren't as wanted.
fn compare_files(
    alloc: Global,
    wanted: &Wanted,
    outcome: &Outcome,
    found: &mut Vec<Difference>,
) -> Result<(), NoMemory> {
    for (name, bytes) in &wanted.files {
        let place = format!(in alloc; "after/{name}")?;
        match outcome.outside.file(name) {
            Some(got) => compare_texts(alloc, Field::FileAfter, &place, bytes, got, found)?,
            None => found.push(Difference {
                field: Field::FileAfter,
                place,
                wanted: String::from_str(alloc, "a file")?,
                got: String::from_str(alloc, "none")?,
            })?,
        }
    }
    Ok(())
}

/// What of a whole run isn't as wanted.
pub fn compared(
    alloc: Global,
    wanted: &Wanted,
    outcome: &Outcome,
) -> Result<Vec<Difference>, NoMemory> {
    let mut found = Vec::new(alloc);
    let report = outcome.report;
    if report.status != wanted.status {
        let status = u64::from(wanted.status);
        add_number(
            alloc,
            Field::Status,
            "status",
            status,
            u64::from(report.status),
            &mut found,
        )?;
    }
    let output = outcome.outside.output();
    compare_texts(
        alloc,
        Field::Output,
        "stdout",
        &wanted.output,
        output,
        &mut found,
    )?;
    let errors = outcome.outside.errors();
    compare_texts(
        alloc,
        Field::Errors,
        "stderr",
        &wanted.errors,
        errors,
        &mut found,
    )?;
    if let Some(writes) = wanted.writes
        && report.writes != writes
    {
        add_number(
            alloc,
            Field::Writes,
            "writes",
            writes,
            report.writes,
            &mut found,
        )?;
    }
    compare_counters(alloc, wanted, outcome, &mut found)?;
    compare_files(alloc, wanted, outcome, &mut found)?;
    Ok(found)
}

fn is_found(field: Field, found: &[Difference]) -> bool {
    for difference in found {
        if difference.field == field {
            return true;
        }
    }
    false
}

/// Whether just these fields are wrong, and at least one.
pub fn is_as_wrong(wrong: &[Field], found: &[Difference]) -> bool {
    for difference in found {
        if !wrong.contains(&difference.field) {
            return false;
        }
    }
    for field in wrong {
        if !is_found(*field, found) {
            return false;
        }
    }
    !found.is_empty()
}
