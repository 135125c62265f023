// How a computation ends, when not with a value.

use tclv_model::{Code, Options};
use tclv_text::{NoMemory, Text};

/// The options that an outcome with a code carries.
#[derive(Drop)]
pub enum Carried {
    /// None but the code and the level 0.
    Plain,
    /// These.
    Kept(Options),
}

/// A code that isn't ok, with all that belongs to it but the result, which is the top text of the
/// stack.
#[derive(Drop)]
pub enum Leaving {
    /// An error, with its error code and no other options.
    Error(Text),
    /// A code, with its options.
    Other(Code, Carried),
}

/// How a script ended that nothing stopped. Its result is the top text of the stack.
#[derive(Drop)]
pub enum Ended {
    /// Ok, with its options.
    Ok(Carried),
    /// With another code.
    Left(Leaving),
}

/// An ending that isn't ok.
#[derive(Drop)]
pub enum End {
    /// A code.
    Left(Leaving),
    /// No unit was left.
    Budget,
    /// The end of the run was asked for, with this status.
    Exit(u8),
    /// A device failed.
    Device,
    /// Memory ran out.
    Memory,
}

impl From<NoMemory> for End {
    ghost use Rattle.std.specs.Prelude.{◌≡◌};
    ghost use Rattle.tclv_engine.specs.declared.endings.End.TheVariants as end;

    ghost from_gives = { λ _ e. e ≡ end.Memory };

    fn from(_: NoMemory) -> End {
        End::Memory
    }
}
