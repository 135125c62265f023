// Bytes that are written with escapes.

use std::alloc::{AllocError, Global};

// What stands before the next character.
#[derive(Clone, Copy)]
enum Behind {
    Nothing,
    Backslash,
    /// A backslash and `x`.
    Letter,
    /// A backslash, `x` and a digit.
    Digit(u8),
}

/// Why bytes weren't read from their escapes.
#[derive(Clone, Copy)]
pub enum EscapeFault {
    /// A backslash stands before something that isn't an escape.
    BadEscape,
    /// Memory ran out.
    NoMemory,
}

impl From<AllocError> for EscapeFault {
    fn from(_: AllocError) -> Self {
        EscapeFault::NoMemory
    }
}

impl<T: Drop> From<std::alloc::AllocFailed<T>> for EscapeFault {
    fn from(_: std::alloc::AllocFailed<T>) -> Self {
        EscapeFault::NoMemory
    }
}

// The value of a hexadecimal digit.
fn digit_value(byte: u8) -> Option<u8> {
    match byte {
        b'0'..=b'9' => Some(byte - b'0'),
        b'a'..=b'f' => Some(byte - b'a' + 10),
        b'A'..=b'F' => Some(byte - b'A' + 10),
        _ => None,
    }
}

// The byte that a backslash and a character other than `x` stand for.
fn named(byte: u8) -> Option<u8> {
    match byte {
        b'n' => Some(b'\n'),
        b'r' => Some(b'\r'),
        b't' => Some(b'\t'),
        b'\\' => Some(b'\\'),
        _ => None,
    }
}

// Reads one byte; what it stands for is added once it is whole.
fn step(bytes: &mut Vec<u8>, behind: Behind, byte: u8) -> Result<Behind, EscapeFault> {
    match behind {
        Behind::Nothing => match byte {
            b'\\' => return Ok(Behind::Backslash),
            b'\n' => {}
            _ => bytes.push(byte)?,
        },
        Behind::Backslash if byte == b'x' => return Ok(Behind::Letter),
        Behind::Backslash => bytes.push(named(byte).ok_or(EscapeFault::BadEscape)?)?,
        Behind::Letter => {
            let first = digit_value(byte).ok_or(EscapeFault::BadEscape)?;
            return Ok(Behind::Digit(first));
        }
        Behind::Digit(first) => {
            let second = digit_value(byte).ok_or(EscapeFault::BadEscape)?;
            bytes.push(first.wrapping_mul(16).wrapping_add(second))?;
        }
    }
    Ok(Behind::Nothing)
}

/// The bytes that a text with escapes stands for.
///
/// The ends of its lines stand for nothing. `\n`, `\r`, `\t` and `\\` stand for a newline, a
/// carriage return, a tab and a backslash, and `\x` with two hexadecimal digits for the byte of
/// that number. A backslash before anything else is refused, one at the end too.
pub fn unescaped(alloc: Global, text: &str) -> Result<Vec<u8>, EscapeFault> {
    let mut bytes = Vec::new(alloc);
    let mut behind = Behind::Nothing;
    for byte in text.as_bytes() {
        behind = step(&mut bytes, behind, *byte)?;
    }
    match behind {
        Behind::Nothing => Ok(bytes),
        _ => Err(EscapeFault::BadEscape),
    }
}
