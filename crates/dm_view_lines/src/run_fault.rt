//! Why a run over a reader stops before its end.
ghost use Rattle.std.specs.Prelude.{◌≡◌};

use crate::put_fault::PutFault;
use std::io;
use thiserror::Error;

/// Why a run over a reader stopped before its end.
#[derive(Debug, Drop, Error)]
pub enum RunFault {
    /// No memory was left.
    #[error("no memory is left")]
    Memory,
    /// The reader failed.
    #[error("{0}")]
    Read(io::Error),
    /// The line of this number has more octets than a line may have.
    #[error("line {0}: more than 67108864 octets")]
    TooLong(u64),
    /// The writer failed.
    #[error("{0}")]
    Write(io::Error),
}

impl From<PutFault> for RunFault {
    ghost use Rattle.dm_view_lines.specs.Faults.{run_fault};

    ghost from_gives = { λ put fault. fault ≡ run_fault put };

    fn from(fault: PutFault) -> RunFault {
        match fault {
            PutFault::Memory => RunFault::Memory,
            PutFault::TooLong(number) => RunFault::TooLong(number),
            PutFault::Write(error) => RunFault::Write(error),
        }
    }
}
