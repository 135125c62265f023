// Files in memory: a list of names with their bytes. Of several files of one name the first counts.
ghost use Rattle.std.specs.Prelude.{◌≡◌, [], IfSome, IfNone, OnErr, OnOk};
ghost use Rattle.std.specs.Option.{option_copied};
ghost use Rattle.std.specs.FinMap as finite;
ghost use Rattle.tclv_io.specs.World.{Out, add, made};
ghost use Rattle.tclv_io.specs.World.Target.{File};
ghost use Rattle.tclv_io.specs.Held.{files_of, HasName};

use crate::Mode;
use std::alloc::Global;
use tclv_text::NoMemory;

// The place of the first file of a name.
fn place_of(files: &[(String, Vec<u8>)], name: &str) -> Option<usize>
    ensures found { IfSome result (λ i. HasName files.now i name.now) }
    ensures absent { IfNone result (finite.get (files_of files.now) name.now ≡ None) }
{
    for (i, (key, _)) in files.iter().enumerate() {
        if key.as_str() == name {
            return Some(i);
        }
    }
    None
}

/// The bytes of a file.
pub fn find_file<'a>(files: &'a [(String, Vec<u8>)], name: &str) -> Option<&'a [u8]>
    ensures { option_copied result ≡ finite.get (files_of files.now) name.now }
{
    let place = place_of(files, name)?;
    Some(files[place].1.as_slice())
}

// Puts an empty file in front of the others.
fn add_empty(files: &mut Vec<(String, Vec<u8>)>, alloc: Global, name: &str) -> Result<(), NoMemory>
    ensures ok { OnOk result (files_of files.new.items ≡ finite.insert (files_of files.old.items) name.now []) }
    ensures err { OnErr result (files.new.items ≡ files.old.items) }
{
    let key = String::from_str(alloc, name)?;
    files.insert(0, (key, Vec::new(alloc)))?;
    Ok(())
}

// Makes the file of a name empty, a new one where it isn't there.
fn make_empty(files: &mut Vec<(String, Vec<u8>)>, alloc: Global, name: &str) -> Result<(), NoMemory>
    ensures ok { OnOk result (files_of files.new.items ≡ finite.insert (files_of files.old.items) name.now []) }
    ensures err { OnErr result (files_of files.new.items ≡ files_of files.old.items) }
{
    match place_of(files, name) {
        Some(place) => {
            files[place].1.clear();
            Ok(())
        }
        None => add_empty(files, alloc, name),
    }
}

/// Does to the file of a name what opening it in a mode does.
pub fn make(
    files: &mut Vec<(String, Vec<u8>)>,
    alloc: Global,
    name: &str,
    mode: Mode,
) -> Result<(), NoMemory>
    ensures ok { OnOk result ((o : Out) → record o { files = files_of files.new.items }
        ≡ made mode name.now (record o { files = files_of files.old.items })) }
    ensures err { OnErr result (files_of files.new.items ≡ files_of files.old.items) }
{
    match mode {
        Mode::Read => Ok(()),
        Mode::Write => make_empty(files, alloc, name),
        Mode::Append => match find_file(files, name) {
            Some(_) => Ok(()),
            None => add_empty(files, alloc, name),
        },
    }
}

/// Adds a piece at the end of a file; where it isn't there, nothing happens.
pub fn append(files: &mut Vec<(String, Vec<u8>)>, name: &str, piece: &[u8]) -> Result<(), NoMemory>
    ensures ok { OnOk result ((o : Out) → record o { files = files_of files.new.items }
        ≡ add (record o { files = files_of files.old.items }) (File name.now) piece.now) }
    ensures err { OnErr result (files_of files.new.items ≡ files_of files.old.items) }
{
    if let Some(place) = place_of(files, name) {
        files[place].1.extend_from_slice(piece)?;
    }
    Ok(())
}
