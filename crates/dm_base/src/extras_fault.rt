//! Why a node has no such extras.
ghost use Rattle.std.specs.Prelude.{◌≡◌};

use dm_dict::NoMemory;
use thiserror::Error;

/// Why a node can't say this of itself (RFC 6733, 5.3; the limits are own).
#[derive(Clone, Copy, Debug, PartialEq, Eq, Error)]
pub enum ExtrasFault {
    /// There are over 256 vendor-specific applications, or over 256 supported vendors.
    #[error("too long")]
    TooLong,
    /// A growth was refused.
    #[error("out of memory")]
    NoMemory,
}

impl From<NoMemory> for ExtrasFault {
    ghost use Rattle.dm_base.specs.declared.extras_fault.ExtrasFault.TheVariants.{NoMemory};

    ghost from_gives = { λ _ fault. fault ≡ NoMemory };

    fn from(_: NoMemory) -> ExtrasFault {
        ExtrasFault::NoMemory
    }
}
