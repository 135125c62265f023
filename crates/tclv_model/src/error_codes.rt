// The codes of errors: which there are, and their texts.
ghost use Rattle.std.specs.Prelude.{◌≡◌, IsTrue, IfOk};
ghost use Rattle.std.specs.List.{list_all};
ghost use Rattle.std.specs.Char.{is_ascii};
ghost use Rattle.std.specs.Str.{chars};
ghost use Rattle.tclv_text.specs.Texts.{IsText};
ghost use Rattle.tclv_model.specs.ErrorCodes.{code_front, is_naming, error_code};

use std::alloc::Global;
use tclv_text::{NoMemory, Text, quote};

/// Which error code an error has: a list that begins with a class of errors.
#[derive(Clone, Copy, Debug, PartialEq, Eq)]
pub enum ErrorCode {
    /// `NONE`.
    NoCode,
    /// `TCL WRONGARGS`.
    WrongArguments,
    /// `TCL LOOKUP COMMAND x`, for the name x.
    UnknownCommand,
    /// `TCL LOOKUP VARNAME x`, for the name x.
    UnknownVariable,
    /// `TCL VALUE NUMBER`.
    NotNumber,
    /// `ARITH IOVERFLOW {integer value too large to represent}`.
    Overflow,
    /// `ARITH DIVZERO {divide by zero}`.
    DivideByZero,
    /// `ARITH DOMAIN {exponentiation of zero by negative power}`.
    ZeroToNegativePower,
}

/// What the text of an error code begins with: all of it, but for the codes that end with a name.
pub fn code_front(errorcode: ErrorCode) -> &'static str
    ensures text { result.now ≡ code_front errorcode }
    ensures ascii { IsTrue (list_all is_ascii result.now) }
{
    match errorcode {
        ErrorCode::NoCode => "NONE",
        ErrorCode::WrongArguments => "TCL WRONGARGS",
        ErrorCode::UnknownCommand => "TCL LOOKUP COMMAND ",
        ErrorCode::UnknownVariable => "TCL LOOKUP VARNAME ",
        ErrorCode::NotNumber => "TCL VALUE NUMBER",
        ErrorCode::Overflow => "ARITH IOVERFLOW {integer value too large to represent}",
        ErrorCode::DivideByZero => "ARITH DIVZERO {divide by zero}",
        ErrorCode::ZeroToNegativePower => "ARITH DOMAIN {exponentiation of zero by negative power}",
    }
}

/// Whether the error code ends with the name of what the error is about.
fn is_naming(errorcode: ErrorCode) -> bool
    ensures { result ≡ is_naming errorcode }
{
    matches!(
        errorcode,
        ErrorCode::UnknownCommand | ErrorCode::UnknownVariable
    )
}

/// The text of an error code. Some end with the name, given as UTF-8, of what the error is about;
/// for the others the name counts for nothing. `NoMemory` leaves nothing behind.
pub fn code_text(alloc: Global, errorcode: ErrorCode, name: &[u8]) -> Result<Text, NoMemory>
    requires { IsText name.now }
    ensures { IfOk result (λ code. code ≡ error_code errorcode (chars name.now)) }
{
    let mut bytes = Vec::from_slice(alloc, code_front(errorcode).as_bytes())?;
    if !is_naming(errorcode) {
        return Ok(Text::new(bytes));
    }
    quote(name, false, &mut bytes)?;
    Ok(Text::new(bytes))
}

#[cfg(test)]
mod tests {
    use super::*;
    use std::test::Fail;

    #[test]
    fn writes_error_codes(rt: HostRuntime) -> Result<(), Fail> {
        for (errorcode, name, text) in [
            (ErrorCode::NoCode, "x", "NONE"),
            (ErrorCode::NotNumber, "", "TCL VALUE NUMBER"),
            (ErrorCode::UnknownVariable, "x", "TCL LOOKUP VARNAME x"),
            (ErrorCode::UnknownCommand, "a b", "TCL LOOKUP COMMAND {a b}"),
            (ErrorCode::UnknownCommand, "", "TCL LOOKUP COMMAND {}"),
        ] {
            let code = code_text(rt.alloc(), errorcode, name.as_bytes())?;
            assert_eq!(rt; code.bytes(), text.as_bytes());
        }
        Ok(())
    }
}
