//! Why a script ends early.
ghost use Rattle.std.specs.Prelude.{◌≡◌};
ghost use Rattle.script_replay.specs.Faults.{status_of};

use thiserror::Error;

/// Why a script ends early.
#[derive(Clone, Copy, Debug, PartialEq, Eq, Error)]
pub enum ReplayFault {
    /// The line of this number, counted from 1, can't be read. The lines before it are answered.
    #[error("line {0} can't be read")]
    Line(u32),
    /// The reader or the writer failed, or 4,294,967,295 lines were answered.
    #[error("input or output failed")]
    Io,
    /// A line or the pool can't be held.
    #[error("out of memory")]
    Memory,
}

impl ReplayFault {
    /// The status that the program ends with.
    pub fn status(self) -> u8
        ensures { result ≡ status_of self }
    {
        match self {
            ReplayFault::Line(_) => 2,
            ReplayFault::Io => 3,
            ReplayFault::Memory => 4,
        }
    }
}
