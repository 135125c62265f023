// The interpreter, and why it stops.
ghost use Rattle.std.specs.Prelude.{◌≡◌, ◌<◌, [], false, true, length};

use crate::builtins::Tables;
use tclv_engine::Machine;
use tclv_model::Options;
use tclv_text::NoMemory;

/// Why an evaluation has no code: nothing of the script runs any more.
#[derive(Clone, Copy, Debug, PartialEq, Eq)]
pub enum Stop {
    /// No unit was left for a command.
    Budget,
    /// A device failed.
    Device,
    /// Memory ran out.
    Memory,
    /// The script asked for the end of the run, with this status.
    Exit(u8),
    /// An earlier evaluation was stopped.
    Stopped,
}

/// An interpreter of scripts: its variables, and the result of the last evaluation.
#[derive(Drop)]
pub struct Interp {
    pub machine: Machine<Tables>,
    pub options: Options,
    pub stopped: bool,
    ghost has_result: { stopped ≡ false → 0 < length machine.values.store.stack },
    ghost no_options: { stopped ≡ true → options ≡ [] },
}

impl From<NoMemory> for Stop {
    ghost use Rattle.tclv_interp.specs.declared.interpreters.Stop.TheVariants as stop;

    ghost from_gives = { λ _ e. e ≡ stop.Memory };

    fn from(_: NoMemory) -> Stop {
        Stop::Memory
    }
}
