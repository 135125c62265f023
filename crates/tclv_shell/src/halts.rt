// What cuts a run short, and the writes that can.
ghost use Rattle.std.specs.Prelude.{◌≡◌, ◌⊎◌, ℕ, IsTrue};
ghost use Rattle.tclv_shell.specs.Run.{status_of};
ghost use Rattle.tclv_shell.specs.Halts.{HaltCause, Written, end_of, standard, seen};

use tclv_io::{Outside, WriteFault};
use tclv_model::{End, Report};
use tclv_text::Stats;

/// What cuts a run short: after it nothing more is written.
#[derive(Clone, Copy, Debug, PartialEq, Eq)]
pub enum Halt {
    /// A device failed.
    Device,
    /// Memory ran out.
    Memory,
}

/// The report of a run that was cut short.
pub fn cut_short(halt: Halt, writes: u64) -> Report
    ensures end { result.end ≡ end_of halt }
    ensures status { result.status ≡ status_of (end_of halt) }
    ensures writes { result.writes ≡ writes }
{
    match halt {
        Halt::Device => Report {
            end: End::Device,
            status: 124,
            writes,
            stats: Stats::ZERO,
        },
        Halt::Memory => Report {
            end: End::Memory,
            status: 123,
            writes,
            stats: Stats::ZERO,
        },
    }
}

/// Writes a piece on standard output or standard error.
pub fn write_piece<O: Outside>(to: u64, piece: &[u8], out: &mut O) -> Result<(), Halt>
    requires { (to ≡ 1) ⊎ (to ≡ 2) }
    ensures written { Written (standard to) piece.now result (seen (O.told out.old) (O.faults out.old) (O.torn out.old))
        (seen (O.told out.new) (O.faults out.new) (O.torn out.new)) }
    ensures cause { HaltCause (seen (O.told out.old) (O.faults out.old) (O.torn out.old)) (seen (O.told out.new) (O.faults out.new) (O.torn out.new)) result }
{
    match out.write(to, piece) {
        Ok(()) => Ok(()),
        Err(WriteFault::Partly { .. }) => Err(Halt::Device),
        Err(WriteFault::NoMemory) => Err(Halt::Memory),
    }
}
