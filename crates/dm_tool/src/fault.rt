//! Why a run of the program stops before its end.
ghost use Rattle.std.specs.Prelude.{◌≡◌};

use dm_dict::NoMemory;
use std::alloc::{AllocError, AllocFailed};
use thiserror::Error;

/// Why a run stopped before its end.
#[derive(Clone, Copy, Debug, PartialEq, Eq, Error)]
pub enum ToolFault {
    /// The reader failed, or gave more octets or took more reads than a run may take.
    #[error("the input can't be read")]
    Read,
    /// The writer failed.
    #[error("the output can't be written")]
    Write,
    /// No memory was left.
    #[error("no memory is left")]
    Memory,
}

impl From<AllocError> for ToolFault {
    ghost use Rattle.dm_tool.specs.declared.fault.ToolFault.TheVariants.{Memory};

    ghost from_gives = { λ _ e. e ≡ Memory };

    fn from(_e: AllocError) -> ToolFault {
        ToolFault::Memory
    }
}

impl<T: Drop> From<AllocFailed<T>> for ToolFault {
    ghost use Rattle.dm_tool.specs.declared.fault.ToolFault.TheVariants.{Memory};

    ghost from_gives = { λ _ e. e ≡ Memory };

    fn from(_e: AllocFailed<T>) -> ToolFault {
        ToolFault::Memory
    }
}

impl From<NoMemory> for ToolFault {
    ghost use Rattle.dm_tool.specs.declared.fault.ToolFault.TheVariants.{Memory};

    ghost from_gives = { λ _ e. e ≡ Memory };

    fn from(_e: NoMemory) -> ToolFault {
        ToolFault::Memory
    }
}
