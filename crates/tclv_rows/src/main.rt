//! The program `tclv_rows`: runs each row of files of rows over an outside in memory, and says
//! which don't hold.
//!
//! A row is a script with what it is given and what must come of it; `docs/ARCHITECTURE.md` gives
//! the form of a file. The words of the command line are `?-wrong FILE? ?PLACE ...?`: a place is a
//! file of rows, or a folder whose files named `*.rows` are taken in the order of their names; with
//! none the working folder is taken. No row of the file behind `-wrong` holds: each names what is
//! wrong in it.
//!
//! Where all is so, the program writes `all rows hold` and ends with status 0. Else it writes a
//! line for each thing that isn't, and ends with status 1; a file that can't be read, that is in
//! no form or that has no row is said on standard error, with status 2.
#![tactic(auto)]

mod archive;
mod differences;
mod escapes;
mod faults;
mod fields;
mod outcomes;
mod places;
mod rows;
mod runs;

use crate::archive::read_drafts;
use crate::differences::{Difference, is_as_wrong};
use crate::faults::FileFault;
use crate::places::{Asked, files_of, read_words};
use crate::rows::{Row, read_row};
use crate::runs::differences_of;
use anyhow::{Context, Result, bail};
use std::alloc::Global;
use std::process::ExitCode;
use std::rt::Runtime;
use std::{env, fs};

/// The status where a row doesn't hold.
const NOT_ALL_HOLD: u8 = 1;

/// The status where the rows can't be read.
const NOT_READ: u8 = 2;

// The rows of a file's text.
fn rows_of(alloc: Global, text: &str) -> Result<Vec<Row>, FileFault> {
    let mut rows = Vec::new(alloc);
    for draft in read_drafts(alloc, text)? {
        rows.push(read_row(alloc, draft)?)?;
    }
    Ok(rows)
}

// The rows of a file, of which there must be one.
fn read_rows<R: Runtime + AllocGlobal>(rt: &R, file: &str) -> Result<Vec<Row>> {
    let text = fs::read_to_string(rt, file).context(format_args!("{file}"))?;
    let rows = rows_of(rt.alloc(), &text).context(format_args!("{file}"))?;
    if rows.is_empty() {
        bail!("{file}: no row");
    }
    Ok(rows)
}

// Writes what of a row isn't as it must be.
fn say_differences<R: Runtime>(
    rt: &R,
    file: &str,
    row: &Row,
    differences: &[Difference],
) -> Result<()> {
    let name = row.name.as_str();
    for difference in differences {
        println!(rt; "{file}: {name}: {difference}")?;
    }
    Ok(())
}

// Whether each row of a file holds; writes what doesn't.
fn file_holds<R: Runtime + AllocGlobal>(rt: &R, file: &str) -> Result<bool> {
    let mut all = true;
    for row in &read_rows(rt, file)? {
        let differences = differences_of(rt.alloc(), row)?;
        say_differences(rt, file, row, &differences)?;
        all = all && differences.is_empty();
    }
    Ok(all)
}

// Whether each row of a file is wrong just as it says; writes what isn't so.
fn file_is_wrong<R: Runtime + AllocGlobal>(rt: &R, file: &str) -> Result<bool> {
    let mut all = true;
    for row in &read_rows(rt, file)? {
        let differences = differences_of(rt.alloc(), row)?;
        if !is_as_wrong(&row.wrong, &differences) {
            let name = row.name.as_str();
            println!(rt; "{file}: {name}: not just what it says is wrong")?;
            say_differences(rt, file, row, &differences)?;
            all = false;
        }
    }
    Ok(all)
}

// The words behind the program's name.
fn command_words<R: Runtime + AllocGlobal>(rt: &R) -> Result<Vec<String>> {
    let mut words = Vec::new(rt.alloc());
    for word in env::args(rt)?.skip(1) {
        words.push(word)?;
    }
    Ok(words)
}

// Whether all that was asked for is as it must be.
fn all_hold<R: Runtime + AllocGlobal>(rt: &R) -> Result<bool> {
    let asked: Asked = read_words(rt.alloc(), &command_words(rt)?)?;
    let mut all = true;
    for file in &files_of(rt, &asked.places)? {
        all = file_holds(rt, file)? && all;
    }
    for file in &asked.wrong {
        all = file_is_wrong(rt, file)? && all;
    }
    if all {
        println!(rt; "all rows hold")?;
    }
    Ok(all)
}

fn main(rt: HostRuntime) -> ExitCode {
    match all_hold(&rt) {
        Ok(true) => ExitCode::SUCCESS,
        Ok(false) => ExitCode::from(NOT_ALL_HOLD),
        Err(error) => {
            let _ = eprintln!(rt; "tclv_rows: {error:#}");
            ExitCode::from(NOT_READ)
        }
    }
}
