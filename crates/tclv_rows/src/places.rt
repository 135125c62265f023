// Where rows are looked for.

use anyhow::{Context, Result, bail};
use std::alloc::Global;
use std::fs;
use std::rt::Runtime;

/// How the name of a file of rows ends, in a folder.
const ENDING: &str = ".rows";

/// What the words of the command line ask for.
#[derive(Drop)]
pub struct Asked {
    /// The file of rows that are wrong.
    pub wrong: Option<String>,
    /// The files and folders of rows.
    pub places: Vec<String>,
}

/// Reads the words of the command line, `?-wrong FILE? ?PLACE ...?`; with no place the working
/// folder is meant.
pub fn read_words(alloc: Global, words: &[String]) -> Result<Asked> {
    let (wrong, words) = match words {
        [word, file, rest @ ..] if word.as_str() == "-wrong" => (Some(file.clone()?), rest),
        _ => (None, words),
    };
    let mut places = Vec::new(alloc);
    for word in words {
        if word.starts_with('-') {
            bail!("usage: tclv_rows ?-wrong FILE? ?PLACE ...?");
        }
        places.push(word.clone()?)?;
    }
    if places.is_empty() {
        places.push(String::from_str(alloc, ".")?)?;
    }
    Ok(Asked { wrong, places })
}

// The files of rows of a folder, by name.
fn files_in<R: Runtime + AllocGlobal>(rt: &R, folder: &str) -> Result<Vec<String>> {
    let alloc = rt.alloc();
    let mut files = Vec::new(alloc);
    for entry in fs::read_dir(rt, folder)? {
        let entry = entry?;
        let path = entry.path();
        if path.as_str().ends_with(ENDING) {
            files.push(String::from_str(alloc, path.as_str())?)?;
        }
    }
    files.sort()?;
    Ok(files)
}

/// The files of rows in these places: a place is a file, or a folder, whose files with names that
/// end in `.rows` are taken by name. A folder without such a file is refused.
pub fn files_of<R: Runtime + AllocGlobal>(rt: &R, places: &[String]) -> Result<Vec<String>> {
    let mut files = Vec::new(rt.alloc());
    for place in places {
        let about = fs::metadata(rt, place.as_str()).context(format_args!("{place}"))?;
        if !about.is_dir() {
            files.push(place.clone()?)?;
            continue;
        }
        let found = files_in(rt, place.as_str()).context(format_args!("{place}"))?;
        if found.is_empty() {
            bail!("{place}: no file of rows");
        }
        for file in found {
            files.push(file)?;
        }
    }
    Ok(files)
}
