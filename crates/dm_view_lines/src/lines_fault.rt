//! Why a run over an input at hand stops before its end.
ghost use Rattle.std.specs.Prelude.{◌≡◌};

use dm_dict::NoMemory;
use std::alloc::AllocError;
use std::io;
use thiserror::Error;

/// Why a run stopped before its end.
#[derive(Debug, Drop, Error)]
pub enum LinesFault {
    /// No memory was left.
    #[error("no memory is left")]
    Memory,
    /// The writer failed.
    #[error("{0}")]
    Write(io::Error),
}

impl From<NoMemory> for LinesFault {
    ghost use Rattle.dm_view_lines.specs.declared.lines_fault.LinesFault.TheVariants.{Memory};

    ghost from_gives = { λ _ fault. fault ≡ Memory };

    fn from(_: NoMemory) -> LinesFault {
        LinesFault::Memory
    }
}

impl From<AllocError> for LinesFault {
    ghost use Rattle.dm_view_lines.specs.declared.lines_fault.LinesFault.TheVariants.{Memory};

    ghost from_gives = { λ _ fault. fault ≡ Memory };

    fn from(_: AllocError) -> LinesFault {
        LinesFault::Memory
    }
}
