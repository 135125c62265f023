// Why a variable can't be had.

use tclv_text::NoMemory;
use thiserror::Error;

/// Why a call on variables is refused.
#[derive(Clone, Copy, Debug, PartialEq, Eq, Error)]
pub enum VarFault {
    /// The variable isn't set.
    #[error("no such variable")]
    NoVariable,
    /// The variable is an array, whose element isn't set.
    #[error("no such element")]
    NoElement,
    /// A whole array is used as a value.
    #[error("variable is an array")]
    IsArray,
    /// An element is asked of a variable that has a value.
    #[error("variable is no array")]
    NotArray,
    /// The local name of a link is a variable that is no link.
    #[error("variable exists")]
    LinkExists,
    /// The level is above the current one.
    #[error("no such level")]
    NoLevel,
    /// Memory ran out.
    #[error("out of memory")]
    NoMemory,
}

impl From<NoMemory> for VarFault {
    ghost use Rattle.std.specs.Prelude.{◌≡◌};
    ghost use Rattle.tclv_vars.specs.declared.faults.VarFault.TheVariants as fault;

    ghost from_gives = { λ _ e. e ≡ fault.NoMemory };

    fn from(_: NoMemory) -> VarFault {
        VarFault::NoMemory
    }
}
