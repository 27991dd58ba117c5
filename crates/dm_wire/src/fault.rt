//! What octets can have wrong, and what can't be written.
ghost use Rattle.std.specs.Prelude.{◌≡◌};
ghost use Rattle.dm_wire.specs.Making.{fault_code};

use crate::codes::results;
use std::alloc::{AllocError, AllocFailed};
use thiserror::Error;

/// Why octets are no message, or a message has no octets (RFC 6733, 7.1.3 to 7.1.5 and 7.2).
#[derive(Clone, Copy, Debug, PartialEq, Eq, Error)]
pub enum WireFault {
    /// Fewer than 20 octets (Result-Code 5015).
    #[error("fewer octets than a header has")]
    TooShort,
    /// The first octet isn't 1 (5011).
    #[error("unsupported version")]
    Version,
    /// The Message Length isn't the number of octets, or is no multiple of 4 (5015).
    #[error("wrong message length")]
    Length,
    /// The first bad AVP begins at this octet, from 0 (5014).
    #[error("wrong AVP length at octet {0}")]
    AvpLength(usize),
    /// An AVP Length, the Message Length or the Command Code would not fit its field.
    #[error("too long for its field")]
    TooLong,
    /// A growth was refused.
    #[error("out of memory")]
    NoMemory,
}

impl WireFault {
    /// The Result-Code that tells the fault to a peer (RFC 6733, 7.1): 5011, 5014 or 5015. `TooLong` and `NoMemory` are
    /// no faults of a peer's, and have none.
    pub fn result_code(&self) -> Option<u32>
        ensures { result ≡ fault_code self.now }
    {
        match self {
            WireFault::TooShort | WireFault::Length => Some(results::INVALID_MESSAGE_LENGTH),
            WireFault::Version => Some(results::UNSUPPORTED_VERSION),
            WireFault::AvpLength(_) => Some(results::INVALID_AVP_LENGTH),
            WireFault::TooLong | WireFault::NoMemory => None,
        }
    }
}

impl From<AllocError> for WireFault {
    ghost use Rattle.dm_wire.specs.declared.fault.WireFault.TheVariants.{NoMemory};

    ghost from_gives = { λ _ fault. fault ≡ NoMemory };

    fn from(_: AllocError) -> WireFault {
        WireFault::NoMemory
    }
}

impl<T: Drop> From<AllocFailed<T>> for WireFault {
    ghost use Rattle.dm_wire.specs.declared.fault.WireFault.TheVariants.{NoMemory};

    ghost from_gives = { λ _ fault. fault ≡ NoMemory };

    fn from(_: AllocFailed<T>) -> WireFault {
        WireFault::NoMemory
    }
}
