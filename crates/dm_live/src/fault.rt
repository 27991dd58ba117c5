//! Why a run of the program stops before its input ends.
ghost use Rattle.std.specs.Prelude.{◌≡◌};

use std::alloc::AllocError;
use thiserror::Error;

/// Why a run stopped before its input did.
#[derive(Clone, Copy, Debug, PartialEq, Eq, Error)]
pub enum LiveFault {
    /// The reader failed, or a run had as many lines as it may have.
    #[error("the input can't be read")]
    Read,
    /// The writer failed.
    #[error("the output can't be written")]
    Write,
    /// No memory was left.
    #[error("no memory is left")]
    Memory,
}

impl From<AllocError> for LiveFault {
    ghost use Rattle.dm_live.specs.declared.fault.LiveFault.TheVariants.{Memory};

    ghost from_gives = { λ _ e. e ≡ Memory };

    fn from(_e: AllocError) -> LiveFault {
        LiveFault::Memory
    }
}
