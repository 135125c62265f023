// Rows: what a run is given, and what must come of it.

use crate::archive::{Draft, Section};
use crate::escapes::{EscapeFault, unescaped};
use crate::faults::{FaultKind, FileFault};
use crate::fields::{CounterWish, Field};
use std::alloc::Global;

/// The name of the script file, where no words are given.
const SCRIPT: &str = "script";

/// What must come of a run.
#[derive(Drop)]
pub struct Wanted {
    pub output: Vec<u8>,
    pub errors: Vec<u8>,
    pub status: u8,
    pub writes: Option<u64>,
    pub counters: Vec<CounterWish>,
    pub files: Vec<(String, Vec<u8>)>,
}

/// A row: what a run is given, and what must come of it.
#[derive(Drop)]
pub struct Row {
    pub name: String,
    /// The words of the command line.
    pub words: Vec<String>,
    /// The bytes of standard input.
    pub input: Vec<u8>,
    pub files: Vec<(String, Vec<u8>)>,
    /// The calls that fail, each with how many bytes it takes if it is a write. Where there are
    /// none, each call fails in turn.
    pub fails: Vec<(u64, usize)>,
    pub wanted: Wanted,
    /// What is wrong in a row that must not hold.
    pub wrong: Vec<Field>,
}

// What a section is, by its name.
#[derive(Clone, Copy)]
enum Kind<'a> {
    Words,
    Input,
    File(&'a str),
    Fails,
    Output,
    Errors,
    Status,
    Writes,
    Counters,
    FileAfter(&'a str),
    Wrong,
}

fn kind_of(name: &str) -> Option<Kind<'_>> {
    if let Some(file) = name.strip_prefix("files/") {
        return Some(Kind::File(file));
    }
    if let Some(file) = name.strip_prefix("after/") {
        return Some(Kind::FileAfter(file));
    }
    match name {
        "words" => Some(Kind::Words),
        "script" => Some(Kind::File(SCRIPT)),
        "stdin" => Some(Kind::Input),
        "fails" => Some(Kind::Fails),
        "stdout" => Some(Kind::Output),
        "stderr" => Some(Kind::Errors),
        "status" => Some(Kind::Status),
        "writes" => Some(Kind::Writes),
        "stats" => Some(Kind::Counters),
        "wrong" => Some(Kind::Wrong),
        _ => None,
    }
}

// The bytes of a section.
fn bytes_of(alloc: Global, section: &Section) -> Result<Vec<u8>, FileFault> {
    if !section.is_escaped {
        return Ok(section.text.as_bytes().to_vec(alloc)?);
    }
    match unescaped(alloc, &section.text) {
        Ok(bytes) => Ok(bytes),
        Err(EscapeFault::BadEscape) => Err(FileFault::at(section.line, FaultKind::BadEscape)),
        Err(EscapeFault::NoMemory) => Err(FileFault::NoMemory),
    }
}

// The one number of a section.
fn number_of(section: &Section) -> Result<u64, FileFault> {
    match section.text.trim().parse() {
        Ok(number) => Ok(number),
        Err(_) => Err(FileFault::at(section.line, FaultKind::NotANumber)),
    }
}

// The status of a section.
fn status_of(section: &Section) -> Result<u8, FileFault> {
    match section.text.trim().parse() {
        Ok(number) => Ok(number),
        Err(_) => Err(FileFault::at(section.line, FaultKind::NotANumber)),
    }
}

fn words_of(alloc: Global, section: &Section) -> Result<Vec<String>, FileFault> {
    let mut words = Vec::new(alloc);
    for line in section.text.lines() {
        words.push(String::from_str(alloc, line)?)?;
    }
    Ok(words)
}

// A line `CALL TAKEN`.
fn failing_call(line: &str) -> Option<(u64, usize)> {
    let (call, taken) = line.split_once(' ')?;
    Some((call.parse().ok()?, taken.parse().ok()?))
}

fn fails_of(alloc: Global, section: &Section) -> Result<Vec<(u64, usize)>, FileFault> {
    let mut fails = Vec::new(alloc);
    for line in section.text.lines() {
        match failing_call(line) {
            Some(call) => fails.push(call)?,
            None => return Err(FileFault::at(section.line, FaultKind::BadCall)),
        }
    }
    Ok(fails)
}

fn counters_of(alloc: Global, section: &Section) -> Result<Vec<CounterWish>, FileFault> {
    let mut counters = Vec::new(alloc);
    for line in section.text.lines() {
        match CounterWish::read(line) {
            Some(wish) => counters.push(wish)?,
            None => return Err(FileFault::at(section.line, FaultKind::BadCounter)),
        }
    }
    Ok(counters)
}

fn fields_of(alloc: Global, section: &Section) -> Result<Vec<Field>, FileFault> {
    let mut fields = Vec::new(alloc);
    for line in section.text.lines() {
        match Field::named(line) {
            Some(field) => fields.push(field)?,
            None => return Err(FileFault::at(section.line, FaultKind::NoSuchField)),
        }
    }
    Ok(fields)
}

// A file's name with the bytes of a section.
fn named_file(
    alloc: Global,
    name: &str,
    section: &Section,
) -> Result<(String, Vec<u8>), FileFault> {
    Ok((String::from_str(alloc, name)?, bytes_of(alloc, section)?))
}

// Whether sections of this kind are bytes.
fn is_bytes(kind: Kind<'_>) -> bool {
    matches!(
        kind,
        Kind::Input | Kind::File(_) | Kind::Output | Kind::Errors | Kind::FileAfter(_)
    )
}

impl Row {
    // A row that is given an empty script and wants nothing to be written.
    fn new(alloc: Global, name: String) -> Result<Row, FileFault> {
        let mut words = Vec::new(alloc);
        words.push(String::from_str(alloc, SCRIPT)?)?;
        let mut files = Vec::new(alloc);
        files.push((String::from_str(alloc, SCRIPT)?, Vec::new(alloc)))?;
        let wanted = Wanted {
            output: Vec::new(alloc),
            errors: Vec::new(alloc),
            status: 0,
            writes: None,
            counters: Vec::new(alloc),
            files: Vec::new(alloc),
        };
        Ok(Row {
            name,
            words,
            input: Vec::new(alloc),
            files,
            fails: Vec::new(alloc),
            wanted,
            wrong: Vec::new(alloc),
        })
    }

    // Takes what a section says.
    fn take(&mut self, alloc: Global, kind: Kind<'_>, section: &Section) -> Result<(), FileFault> {
        match kind {
            Kind::Words => self.words = words_of(alloc, section)?,
            Kind::Input => self.input = bytes_of(alloc, section)?,
            Kind::File(name) => self.files.push(named_file(alloc, name, section)?)?,
            Kind::Fails => self.fails = fails_of(alloc, section)?,
            Kind::Output => self.wanted.output = bytes_of(alloc, section)?,
            Kind::Errors => self.wanted.errors = bytes_of(alloc, section)?,
            Kind::Status => self.wanted.status = status_of(section)?,
            Kind::Writes => self.wanted.writes = Some(number_of(section)?),
            Kind::Counters => self.wanted.counters = counters_of(alloc, section)?,
            Kind::FileAfter(name) => self.wanted.files.push(named_file(alloc, name, section)?)?,
            Kind::Wrong => self.wrong = fields_of(alloc, section)?,
        }
        Ok(())
    }
}

/// Makes a row of its draft.
///
/// What no section says has a default: the one word `script`, an empty file of that name, empty
/// standard input; nothing written, and status 0; any number of writes and any counters. Refuses a
/// section of a name that none has, one that is escaped though it isn't bytes, and one whose text
/// is in no form.
pub fn read_row(alloc: Global, draft: Draft) -> Result<Row, FileFault> {
    let mut row = Row::new(alloc, draft.name)?;
    for section in &draft.sections {
        let Some(kind) = kind_of(&section.name) else {
            return Err(FileFault::at(section.line, FaultKind::NoSuchSection));
        };
        if section.is_escaped && !is_bytes(kind) {
            return Err(FileFault::at(section.line, FaultKind::NotBytes));
        }
        row.take(alloc, kind, section)?;
    }
    Ok(row)
}
