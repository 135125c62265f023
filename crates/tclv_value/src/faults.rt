// Why a value is refused.
ghost use Rattle.std.specs.Prelude.{◌≡◌};

use tclv_text::{ListFault, NoMemory, WholeFault};
use thiserror::Error;

/// Why a text is not what a call wants of it.
#[derive(Clone, Copy, Debug, PartialEq, Eq, Error)]
pub enum ValueFault {
    /// It has the form of no number.
    #[error("not a whole number")]
    NotWhole,
    /// It has the form of a whole number, whose value is outside -2^63..2^63-1.
    #[error("whole number too large")]
    TooLarge,
    /// It has the form of a floating point number.
    #[error("a floating point number")]
    FloatForm,
    /// It is no truth value.
    #[error("not a truth value")]
    NotTruth,
    /// It is no list, and this is why: the first fault from the left, but never its want of memory.
    #[error("not a list: {0}")]
    NotList(ListFault),
    /// It has the form of no index.
    #[error("not an index")]
    BadIndex,
    /// It names no place of its list. The number is its own place in the path, from 0 for the index
    /// that is used first.
    #[error("index {0} of the path is out of range")]
    OutOfRange(usize),
    /// Memory ran out.
    #[error("out of memory")]
    NoMemory,
}

impl From<WholeFault> for ValueFault {
    ghost use Rattle.tclv_value.specs.Answers.{value_fault};

    ghost from_gives = { λ f e. e ≡ value_fault f };

    fn from(fault: WholeFault) -> ValueFault {
        match fault {
            WholeFault::NotWhole => ValueFault::NotWhole,
            WholeFault::TooLarge => ValueFault::TooLarge,
            WholeFault::FloatForm => ValueFault::FloatForm,
        }
    }
}

impl From<ListFault> for ValueFault {
    ghost use Rattle.tclv_value.specs.Answers.{list_fault};

    ghost from_gives = { λ f e. e ≡ list_fault f };

    fn from(fault: ListFault) -> ValueFault {
        match fault {
            ListFault::NoMemory => ValueFault::NoMemory,
            _ => ValueFault::NotList(fault),
        }
    }
}

impl From<NoMemory> for ValueFault {
    ghost use Rattle.tclv_value.specs.declared.faults.ValueFault.TheVariants as fault;

    ghost from_gives = { λ _ e. e ≡ fault.NoMemory };

    fn from(_: NoMemory) -> ValueFault {
        ValueFault::NoMemory
    }
}
