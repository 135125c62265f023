// A file of rows as drafts: the name of each row, and its sections as they stand there.

use crate::faults::{FaultKind, FileFault};
use std::alloc::Global;
use tclv_text::NoMemory;

/// What begins the line of a row's name.
const ROW_MARK: &str = "==== ";

/// What stands behind a section's name where its text is escaped.
const ESCAPED_MARK: &str = " (escaped)";

/// A section of a row.
#[derive(Drop)]
pub struct Section {
    pub name: String,
    /// Whether its text is bytes that are written with escapes.
    pub is_escaped: bool,
    /// The line with its name.
    pub line: usize,
    /// The lines below its name, each with a newline behind it.
    pub text: String,
}

/// A row as it stands in a file.
#[derive(Drop)]
pub struct Draft {
    pub name: String,
    pub sections: Vec<Section>,
}

// The name of the row that a line begins.
fn row_name(line: &str) -> Option<&str> {
    line.strip_prefix(ROW_MARK)
}

// The name of the section that a line begins.
fn section_name(line: &str) -> Option<&str> {
    line.strip_prefix("-- ")?.strip_suffix(" --")
}

// A section that has no line yet.
fn new_section(alloc: Global, name: &str, line: usize) -> Result<Section, NoMemory> {
    let escaped = name.strip_suffix(ESCAPED_MARK);
    Ok(Section {
        name: String::from_str(alloc, escaped.unwrap_or(name))?,
        is_escaped: escaped.is_some(),
        line,
        text: String::new(alloc),
    })
}

// Whether a row has this name.
fn has_row(drafts: &[Draft], name: &str) -> bool {
    for draft in drafts {
        if draft.name.as_str() == name {
            return true;
        }
    }
    false
}

// Whether a row has a section of this name.
fn has_section(sections: &[Section], name: &str) -> bool {
    for section in sections {
        if section.name.as_str() == name {
            return true;
        }
    }
    false
}

impl Draft {
    // Adds a line. What stands above the first section is a comment.
    fn add_line(&mut self, alloc: Global, number: usize, line: &str) -> Result<(), FileFault> {
        if let Some(name) = section_name(line) {
            let section = new_section(alloc, name, number)?;
            if has_section(&self.sections, section.name.as_str()) {
                return Err(FileFault::at(number, FaultKind::SameSection));
            }
            self.sections.push(section)?;
        } else if let Some(section) = self.sections.last_mut() {
            section.text.push_str(line)?;
            section.text.push('\n')?;
        }
        Ok(())
    }
}

// Begins a row.
fn begin_row(
    drafts: &mut Vec<Draft>,
    alloc: Global,
    number: usize,
    name: &str,
) -> Result<(), FileFault> {
    if name.trim().is_empty() {
        return Err(FileFault::at(number, FaultKind::NoName));
    }
    if has_row(drafts, name) {
        return Err(FileFault::at(number, FaultKind::SameName));
    }
    drafts.push(Draft {
        name: String::from_str(alloc, name)?,
        sections: Vec::new(alloc),
    })?;
    Ok(())
}

/// Cuts the text of a file of rows into rows and their sections.
///
/// A row begins at a line `==== NAME`, a section at a line `-- NAME --`, or `-- NAME (escaped) --`.
/// What stands above the first row, or in a row above its first section, is a comment. Refuses a
/// row without a name or with the name of another row, and a section that the row has already.
pub fn read_drafts(alloc: Global, text: &str) -> Result<Vec<Draft>, FileFault> {
    let mut drafts = Vec::new(alloc);
    for (index, line) in text
        .strip_suffix('\n')
        .unwrap_or(text)
        .split('\n')
        .enumerate()
    {
        let number = index.saturating_add(1);
        if let Some(name) = row_name(line) {
            begin_row(&mut drafts, alloc, number, name)?;
        } else if let Some(draft) = drafts.last_mut() {
            draft.add_line(alloc, number, line)?;
        }
    }
    Ok(drafts)
}
