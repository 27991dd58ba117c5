//! What data of a type can have wrong, and want of memory.
ghost use Rattle.std.specs.Prelude.{◌≡◌};
ghost use Rattle.dm_value.specs.Making.{value_fault_code};

use dm_wire::codes::results;
use std::alloc::{AllocError, AllocFailed};
use thiserror::Error;

/// Why octets have no value of their type, or a value has no octets (RFC 6733, 7.1.5).
#[derive(Clone, Copy, Debug, PartialEq, Eq, Error)]
pub enum ValueFault {
    /// The type has no data of this length (Result-Code 5014).
    #[error("wrong length for the type")]
    WrongLength,
    /// The octets aren't of the type's form, or no octets have this value (5004).
    #[error("wrong value for the type")]
    WrongValue,
    /// An AVP of a group would be longer than its AVP Length can say.
    #[error("too long for its field")]
    TooLong,
    /// A growth was refused.
    #[error("out of memory")]
    NoMemory,
}

impl ValueFault {
    /// The Result-Code that tells the fault to a peer (RFC 6733, 7.1.5): 5014 or 5004. `TooLong` and `NoMemory` are no
    /// faults of a peer's, and have none.
    pub fn result_code(&self) -> Option<u32>
        ensures { result ≡ value_fault_code self.now }
    {
        match self {
            ValueFault::WrongLength => Some(results::INVALID_AVP_LENGTH),
            ValueFault::WrongValue => Some(results::INVALID_AVP_VALUE),
            ValueFault::TooLong | ValueFault::NoMemory => None,
        }
    }
}

impl From<AllocError> for ValueFault {
    ghost use Rattle.dm_value.specs.declared.fault.ValueFault.TheVariants.{NoMemory};

    ghost from_gives = { λ _ fault. fault ≡ NoMemory };

    fn from(_: AllocError) -> ValueFault {
        ValueFault::NoMemory
    }
}

impl<T: Drop> From<AllocFailed<T>> for ValueFault {
    ghost use Rattle.dm_value.specs.declared.fault.ValueFault.TheVariants.{NoMemory};

    ghost from_gives = { λ _ fault. fault ≡ NoMemory };

    fn from(_: AllocFailed<T>) -> ValueFault {
        ValueFault::NoMemory
    }
}

/// A growth was refused.
#[derive(Clone, Copy, Debug, PartialEq, Eq, Error)]
#[error("out of memory")]
pub struct NoMemory;

impl From<AllocError> for NoMemory {
    fn from(_: AllocError) -> NoMemory {
        NoMemory
    }
}

impl<T: Drop> From<AllocFailed<T>> for NoMemory {
    fn from(_: AllocFailed<T>) -> NoMemory {
        NoMemory
    }
}

impl From<NoMemory> for ValueFault {
    ghost use Rattle.dm_value.specs.declared.fault.ValueFault.TheVariants.{NoMemory};

    ghost from_gives = { λ _ fault. fault ≡ NoMemory };

    fn from(_: NoMemory) -> ValueFault {
        ValueFault::NoMemory
    }
}

impl From<NoMemory> for AllocError {
    fn from(_: NoMemory) -> AllocError {
        AllocError
    }
}
