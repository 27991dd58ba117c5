//! What a stream can have wrong.
ghost use Rattle.std.specs.Prelude.{◌≡◌};

use std::alloc::AllocError;
use thiserror::Error;

/// Why a stream gives no further message (RFC 6733, 3 and 7.1.5), or none now.
#[derive(Clone, Copy, Debug, PartialEq, Eq, Error)]
pub enum FrameFault {
    /// The next octet, where a message begins, isn't 1 (Result-Code 5011).
    #[error("unsupported version")]
    BadVersion,
    /// The Message Length is below 20, or no multiple of 4 (5015).
    #[error("wrong message length")]
    BadLength,
    /// The Message Length is above the framer's maximum.
    #[error("message longer than the maximum")]
    TooLong,
    /// A growth was refused.
    #[error("out of memory")]
    NoMemory,
}

impl From<AllocError> for FrameFault {
    ghost use Rattle.dm_framer.specs.declared.fault.FrameFault.TheVariants.{NoMemory};

    ghost from_gives = { λ _ fault. fault ≡ NoMemory };

    fn from(_: AllocError) -> FrameFault {
        FrameFault::NoMemory
    }
}
