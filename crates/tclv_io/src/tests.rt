// Calls over the outsides in memory.
ghost use Rattle.std.specs.Prelude.{◌≢◌};

use super::*;
use std::alloc::{AllocError, Global};
use std::test::Fail;

// The name `f` twice: the second counts.
fn one_file(alloc: Global) -> Result<Vec<(String, Vec<u8>)>, AllocError> {
    let mut files = Vec::new(alloc);
    files.push((String::from_str(alloc, "f")?, b"old".to_vec(alloc)?))?;
    files.push((String::from_str(alloc, "f")?, b"abcd".to_vec(alloc)?))?;
    Ok(files)
}

// Opens a file, writes a piece and closes it.
fn put<O: Outside>(out: &mut O, name: &str, mode: Mode, piece: &[u8]) -> Result<(), Fail>
    requires { mode ≢ Mode.Read }
{
    let file = out.open(name, mode)?;
    out.write(file, piece)?;
    out.flush(file)?;
    out.close(file)?;
    Ok(())
}

// Opens a file, reads a block and closes it.
fn get<O: Outside>(out: &mut O, name: &str, into: &mut [u8]) -> Result<usize, Fail> {
    let file = out.open(name, Mode::Read)?;
    let count = out.read(file, into)?;
    out.close(file)?;
    Ok(count)
}

#[test]
fn pieces_and_faults(rt: HostRuntime) -> Result<(), Fail> {
    let alloc = rt.alloc();
    let mut out = MemoryOutside::new(
        alloc,
        b"in".to_vec(alloc)?,
        one_file(alloc)?,
        [0, 2].to_vec(alloc)?,
        [(4, 9), (6, 1)].to_vec(alloc)?,
    );
    let mut block = [0u8; 8];
    assert_eq!(rt; out.read(0, &mut block), Ok(1));
    assert_eq!(rt; out.read(0, &mut block), Ok(1));
    assert_eq!(rt; out.write(1, b"x"), Ok(()));
    assert_eq!(rt; out.write(2, b"yz"), Err(WriteFault::Partly { taken: 2 }));
    assert_eq!(rt; out.open("g", Mode::Read), Err(OpenFault::Missing));
    assert_eq!(rt; out.open("f", Mode::Write), Err(OpenFault::Failed));
    assert_eq!(rt; out.flush(1), Ok(()));
    assert_eq!(rt; out.output(), b"x".as_slice());
    assert_eq!(rt; out.errors(), b"yz".as_slice());
    assert_eq!(rt; out.file("f"), Some(b"abcd".as_slice()));
    Ok(())
}

#[test]
fn files_in_memory(rt: HostRuntime) -> Result<(), Fail> {
    let alloc = rt.alloc();
    let mut out = MemoryOutside::new(
        alloc,
        Vec::new(alloc),
        one_file(alloc)?,
        Vec::new(alloc),
        Vec::new(alloc),
    );
    let mut block = [0u8; 3];
    assert_eq!(rt; out.exists("g"), Ok(false));
    put(&mut out, "g", Mode::Write, b"ab")?;
    assert_eq!(rt; out.exists("g"), Ok(true));
    put(&mut out, "g", Mode::Append, b"c")?;
    assert_eq!(rt; out.file("g"), Some(b"abc".as_slice()));
    put(&mut out, "f", Mode::Write, b"x")?;
    assert_eq!(rt; out.file("f"), Some(b"x".as_slice()));
    put(&mut out, "h", Mode::Append, b"")?;
    assert_eq!(rt; out.file("h"), Some(b"".as_slice()));
    assert_eq!(rt; get(&mut out, "g", &mut block)?, 3);
    assert_eq!(rt; block, [97, 98, 99]);
    Ok(())
}

#[test]
fn quiet(rt: HostRuntime) -> Result<(), Fail> {
    let alloc = rt.alloc();
    let mut out = QuietOutside::new(alloc, Vec::new(alloc), one_file(alloc)?);
    let mut block = [0u8; 3];
    assert_eq!(rt; out.read(0, &mut block), Ok(0));
    assert_eq!(rt; out.write(1, b"x"), Ok(()));
    assert_eq!(rt; out.flush(1), Ok(()));
    assert_eq!(rt; out.open("g", Mode::Read), Err(OpenFault::Missing));
    assert_eq!(rt; get(&mut out, "f", &mut block)?, 3);
    assert_eq!(rt; block, [97, 98, 99]);
    put(&mut out, "f", Mode::Append, b"e")?;
    assert_eq!(rt; out.file("f"), Some(b"abcde".as_slice()));
    assert_eq!(rt; out.exists("f"), Ok(true));
    assert_eq!(rt; out.output(), b"x".as_slice());
    assert_eq!(rt; out.errors(), b"".as_slice());
    assert_eq!(rt; out.file("g"), None);
    Ok(())
}
