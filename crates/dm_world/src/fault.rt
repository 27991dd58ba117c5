//! What comes of a happening, and why there is no world or no next one.
ghost use Rattle.std.specs.Prelude.{◌≡◌};

use dm_dict::NoMemory;
use thiserror::Error;

/// What a happening came to.
#[derive(Clone, Copy, Debug, PartialEq, Eq)]
pub enum Effect {
    /// It was done.
    Done,
    /// It was ignored: nothing changed.
    Ignored,
}

/// Why two configurations make no world.
#[derive(Clone, Copy, Debug, PartialEq, Eq, Error)]
pub enum NewFault {
    /// A configured peer isn't the other side's host.
    #[error("the two sides are not each other's peers")]
    NotPeers,
    /// The two sides have no application in common.
    #[error("the two sides have no application in common")]
    NothingCommon,
}

/// Why a happening wasn't applied. The world is as it was.
#[derive(Clone, Copy, Debug, PartialEq, Eq, Error)]
pub enum WorldFault {
    /// It names a link that isn't there.
    #[error("no such link")]
    NoLink,
    /// A growth was refused.
    #[error("out of memory")]
    NoMemory,
}

impl From<NoMemory> for WorldFault {
    ghost use Rattle.dm_world.specs.declared.fault.WorldFault.TheVariants.{NoMemory};

    ghost from_gives = { λ _ fault. fault ≡ NoMemory };

    fn from(_: NoMemory) -> WorldFault {
        WorldFault::NoMemory
    }
}
