// The script file.
ghost use Rattle.std.specs.Prelude.{◌≡◌, ◌≢◌, ℕ, ◌<◌, ◌≤◌, ◌^◌, IsTrue, IfOk, OnOk, length, vec_len};
ghost use Rattle.std.specs.Option.{option_map};
ghost use Rattle.std.specs.FinMap as finite;
ghost use Rattle.tclv_io.specs.World.{WhereTold, can_read, can_close, left, closed};
ghost use Rattle.tclv_shell.specs.Halts.{HaltCause, SeesSame, seen};
ghost use Rattle.tclv_shell.specs.Loaded.{Gives, Judged, IsWhole};

use crate::halts::Halt;
use std::alloc::Global;
use tclv_io::{Mode, OpenFault, Outside};
use tclv_text::Text;

/// The most bytes that a script file may have.
const MAX_BYTES: usize = 1 << 30;

/// How many bytes one read asks for.
const BLOCK: usize = 65536;

/// What reading a script file gives.
#[derive(Drop)]
pub enum Loaded {
    /// There is no such file.
    Missing,
    /// The file has more than 2^30 bytes.
    TooLarge,
    /// The bytes of the file are no UTF-8.
    NotUtf8,
    /// The text of the file.
    Text(Text),
}

// A buffer of zeros.
fn zeros(alloc: Global, count: usize) -> Result<Vec<u8>, Halt>
    ensures block { IfOk result (λ block. vec_len block ≡ count) }
    ensures memory { result ≢ Err Halt.Device }
{
    match vec![in alloc; 0u8; count] {
        Ok(block) => Ok(block),
        Err(_) => Err(Halt::Memory),
    }
}

// Reads to the end, or until the bytes are too many.
fn read_all<O: Outside>(alloc: Global, file: u64, out: &mut O) -> Result<Vec<u8>, Halt>
    requires standard { 3 ≤ file }
    requires is_open { WhereTold (O.told out.old) (λ w. IsTrue (can_read w file)) }
    ensures whole { WhereTold (O.told out.old) (λ w. IfOk result (λ bytes. IsWhole (left w file) bytes.items)) }
    ensures same { SeesSame (seen (O.told out.old) (O.faults out.old) (O.torn out.old)) (seen (O.told out.new) (O.faults out.new) (O.torn out.new)) }
    ensures still_open { OnOk result (WhereTold (O.told out.old)
        (λ w. IsTrue (can_close w file) → WhereTold (O.told out.new) (λ v. IsTrue (can_close v file)))) }
    ensures others { OnOk result (option_map (closed file) (O.told out.new) ≡ option_map (closed file) (O.told out.old)) }
    ensures cause { HaltCause (seen (O.told out.old) (O.faults out.old) (O.torn out.old)) (seen (O.told out.new) (O.faults out.new) (O.torn out.new)) result }
{
    let mut block = zeros(alloc, BLOCK)?;
    let mut bytes = Vec::new(alloc);
    while bytes.len() <= MAX_BYTES {
        let count = match out.read(file, &mut block) {
            Ok(count) => count,
            Err(_) => return Err(Halt::Device),
        };
        if count == 0 {
            return Ok(bytes);
        }
        if bytes.extend_from_slice(&block[..count]).is_err() {
            return Err(Halt::Memory);
        }
    }
    Ok(bytes)
}

fn close<O: Outside>(file: u64, out: &mut O) -> Result<(), Halt>
    requires standard { 3 ≤ file }
    requires is_open { WhereTold (O.told out.old) (λ w. IsTrue (can_close w file)) }
    ensures same { SeesSame (seen (O.told out.old) (O.faults out.old) (O.torn out.old)) (seen (O.told out.new) (O.faults out.new) (O.torn out.new)) }
    ensures world { OnOk result (O.told out.new ≡ option_map (closed file) (O.told out.old)) }
    ensures cause { HaltCause (seen (O.told out.old) (O.faults out.old) (O.torn out.old)) (seen (O.told out.new) (O.faults out.new) (O.torn out.new)) result }
{
    match out.close(file) {
        Ok(()) => Ok(()),
        Err(_) => Err(Halt::Device),
    }
}

// What the bytes of a file are: too many, no UTF-8, or a text.
fn judged(bytes: Vec<u8>) -> Loaded
    ensures { Judged bytes.items result }
{
    if bytes.len() > MAX_BYTES {
        return Loaded::TooLarge;
    }
    match str::from_utf8(&bytes) {
        Ok(_) => Loaded::Text(Text::new(bytes)),
        Err(_) => Loaded::NotUtf8,
    }
}

/// Opens a script file, reads it and closes it, and then looks at its size and whether it is UTF-8.
/// Where this doesn't halt, the outside holds what it held before.
pub fn load<O: Outside>(alloc: Global, name: &str, out: &mut O) -> Result<Loaded, Halt>
    ensures gives { WhereTold (O.told out.old) (λ w. Gives (finite.get w.out.files name.now) result) }
    ensures same { SeesSame (seen (O.told out.old) (O.faults out.old) (O.torn out.old)) (seen (O.told out.new) (O.faults out.new) (O.torn out.new)) }
    ensures world { OnOk result (O.told out.new ≡ O.told out.old) }
    ensures cause { HaltCause (seen (O.told out.old) (O.faults out.old) (O.torn out.old)) (seen (O.told out.new) (O.faults out.new) (O.torn out.new)) result }
{
    let file = match out.open(name, Mode::Read) {
        Ok(file) => file,
        Err(OpenFault::Missing) => return Ok(Loaded::Missing),
        Err(OpenFault::Failed) => return Err(Halt::Device),
        Err(OpenFault::NoMemory) => return Err(Halt::Memory),
    };
    let text = read_all(alloc, file, out)?;
    close(file, out)?;
    Ok(judged(text))
}
