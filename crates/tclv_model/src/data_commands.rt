// Data commands: commands that touch only values, and at most one variable.
ghost use Rattle.std.specs.Prelude.{◌≡◌};

use tclv_text::NoMemory;
use thiserror::Error;

/// Why a data command gives no result. On `WrongArgs` and `Message` the texts that take the place of
/// the command's words are the message and the error code, which is a list.
#[derive(Clone, Copy, Debug, PartialEq, Eq, Error)]
pub enum CmdFault {
    /// The number of words is none that the command takes. The message gives the usage.
    #[error("wrong number of words")]
    WrongArgs,
    /// The command refuses its words or the variable for the reason that the message gives.
    #[error("refused")]
    Message,
    /// Memory ran out.
    #[error("out of memory")]
    NoMemory,
}

impl From<NoMemory> for CmdFault {
    ghost use Rattle.tclv_model.specs.declared.data_commands.CmdFault.TheVariants as fault;

    ghost from_gives = { λ _ e. e ≡ fault.NoMemory };

    fn from(_: NoMemory) -> CmdFault {
        CmdFault::NoMemory
    }
}

/// What the variable is that a data command's first word names.
#[derive(Clone, Copy, Debug, PartialEq, Eq)]
pub enum VarState {
    /// No word names a variable.
    NoName,
    /// The cell of this number, which has no text where the variable is not set.
    Cell(u64),
    /// A whole array, which has no value of its own.
    IsArray,
    /// An element of a variable that is no array.
    NotArray,
    /// A variable of a namespace that is not there.
    NoParent,
}
