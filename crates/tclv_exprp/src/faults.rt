// Why an expression isn't read.

use std::alloc::AllocError;
use tclv_parse::ParseFault;
use tclv_text::NoMemory;
use thiserror::Error;

/// The first fault of an expression, read from the left. The numbers are the place of the offending
/// part in the whole text, in bytes from 0, and its length in bytes.
#[derive(Clone, Copy, Debug, PartialEq, Eq, Error)]
pub enum ExprFault {
    /// No expression can have the byte at this place. It is the length of the text where the text
    /// ends too early. A fault of a script inside an operand is one at the operand's first byte.
    #[error("no expression can have the byte {0}")]
    Syntax(usize),
    /// A word at an operand's place that is neither a truth value nor a function.
    #[error("the {1} bytes at {0} are no operand")]
    Bareword(usize, usize),
    /// A word before a parenthesis that names no function.
    #[error("the {1} bytes at {0} name no function")]
    UnknownFunction(usize, usize),
    /// A call, whose function is named here, has a wrong number of arguments. It is met at the
    /// closing parenthesis.
    #[error("the function named by the {1} bytes at {0} has a wrong number of arguments")]
    WrongCount(usize, usize),
    /// A floating point number.
    #[error("the {1} bytes at {0} are a floating point number")]
    FloatLiteral(usize, usize),
    /// A number that stands in the text, with the sign before it, needs more than 64 bits.
    #[error("a number needs more than 64 bits")]
    TooLarge,
    /// An operand stands inside more than 100 levels, or brackets and indices inside an operand are
    /// nested too deep.
    #[error("the expression is nested too deep")]
    TooDeep,
    /// Memory ran out.
    #[error("out of memory")]
    NoMemory,
}

/// What is wrong with the text of an expression.
#[derive(Clone, Copy, Debug, PartialEq, Eq)]
pub(crate) enum Fault {
    Syntax(usize),
    Bareword(usize, usize),
    UnknownFunction(usize, usize),
    WrongCount(usize, usize),
    FloatLiteral(usize, usize),
    TooLarge,
    TooDeep,
}

/// Why a reader of a part of an expression stops.
#[derive(Clone, Copy, Debug, PartialEq, Eq)]
pub(crate) enum Stop {
    /// The text has this fault.
    Fault(Fault),
    /// Memory ran out.
    NoMemory,
}

impl From<AllocError> for Stop {
    ghost use Rattle.std.specs.Prelude.{◌≡◌};
    ghost use Rattle.tclv_exprp.specs.declared.faults.Stop.TheVariants.{NoMemory};

    ghost from_gives = { λ _ e. e ≡ NoMemory };

    fn from(_: AllocError) -> Stop {
        Stop::NoMemory
    }
}

impl From<NoMemory> for Stop {
    ghost use Rattle.std.specs.Prelude.{◌≡◌};
    ghost use Rattle.tclv_exprp.specs.declared.faults.Stop.TheVariants.{NoMemory};

    ghost from_gives = { λ _ e. e ≡ NoMemory };

    fn from(_: NoMemory) -> Stop {
        Stop::NoMemory
    }
}

impl From<NoMemory> for ExprFault {
    ghost use Rattle.std.specs.Prelude.{◌≡◌};
    ghost use Rattle.tclv_exprp.specs.declared.faults.ExprFault.TheVariants.{NoMemory};

    ghost from_gives = { λ _ e. e ≡ NoMemory };

    fn from(_: NoMemory) -> ExprFault {
        ExprFault::NoMemory
    }
}

impl From<Stop> for ExprFault {
    ghost use Rattle.std.specs.Prelude.{◌≡◌};
    ghost use Rattle.tclv_exprp.specs.Outcomes.{stop_fault};

    ghost from_gives = { λ stop e. e ≡ stop_fault stop };

    fn from(stop: Stop) -> ExprFault {
        match stop {
            Stop::NoMemory => ExprFault::NoMemory,
            Stop::Fault(fault) => match fault {
                Fault::Syntax(at) => ExprFault::Syntax(at),
                Fault::Bareword(at, len) => ExprFault::Bareword(at, len),
                Fault::UnknownFunction(at, len) => ExprFault::UnknownFunction(at, len),
                Fault::WrongCount(at, len) => ExprFault::WrongCount(at, len),
                Fault::FloatLiteral(at, len) => ExprFault::FloatLiteral(at, len),
                Fault::TooLarge => ExprFault::TooLarge,
                Fault::TooDeep => ExprFault::TooDeep,
            },
        }
    }
}
