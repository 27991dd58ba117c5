//! Why something can't be said or written.
ghost use Rattle.std.specs.Prelude.{◌≡◌};

use dm_dict::NoMemory;
use std::alloc::AllocError;
use std::io;

/// Why something can't be said or written.
#[derive(Debug, Drop)]
pub enum PutFault {
    /// No memory is left.
    Memory,
    /// The line of this number has more octets than a line may have.
    TooLong(u64),
    /// The writer fails.
    Write(io::Error),
}

impl From<NoMemory> for PutFault {
    ghost use Rattle.dm_view_lines.specs.declared.put_fault.PutFault.TheVariants.{Memory};

    ghost from_gives = { λ _ fault. fault ≡ Memory };

    fn from(_: NoMemory) -> PutFault {
        PutFault::Memory
    }
}

impl From<AllocError> for PutFault {
    ghost use Rattle.dm_view_lines.specs.declared.put_fault.PutFault.TheVariants.{Memory};

    ghost from_gives = { λ _ fault. fault ≡ Memory };

    fn from(_: AllocError) -> PutFault {
        PutFault::Memory
    }
}
