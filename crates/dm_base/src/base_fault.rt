//! Why a message has no kind.
ghost use Rattle.std.specs.Prelude.{◌≡◌};

use dm_dict::{NoMemory, Verdict};
use thiserror::Error;

/// Why a message has no kind (RFC 6733, 7).
#[derive(Debug, Drop, PartialEq, Eq, Error)]
pub enum BaseFault {
    /// The message is bad, and why.
    #[error("a bad message")]
    Bad(Verdict),
    /// A growth was refused.
    #[error("out of memory")]
    NoMemory,
}

impl From<NoMemory> for BaseFault {
    ghost use Rattle.dm_base.specs.declared.base_fault.BaseFault.TheVariants.{NoMemory};

    ghost from_gives = { λ _ fault. fault ≡ NoMemory };

    fn from(_: NoMemory) -> BaseFault {
        BaseFault::NoMemory
    }
}
