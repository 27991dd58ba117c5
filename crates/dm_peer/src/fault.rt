//! Why a configuration or an event is refused.
ghost use Rattle.std.specs.Prelude.{◌≡◌};

use dm_dict::NoMemory;
use dm_machine::Refusal;
use thiserror::Error;

/// Why there is no such configuration.
#[derive(Clone, Copy, Debug, PartialEq, Eq, Error)]
pub enum ConfigFault {
    /// The peer's name is empty, has an octet outside 0x21 to 0x7E, or is over 255 octets.
    #[error("the peer's name is no name of a host")]
    BadHost,
    /// The peer's name is that of the node, upper and lower case taken as one.
    #[error("the peer has the node's own name")]
    SameHost,
    /// A growth was refused.
    #[error("out of memory")]
    NoMemory,
}

/// Why an event was refused. The peer is as it was.
#[derive(Clone, Copy, Debug, PartialEq, Eq, Error)]
pub enum PeerFault {
    /// A Start outside Closed.
    #[error("the peer is not closed")]
    NotClosed,
    /// A Stop or Submit outside R-Open and I-Open.
    #[error("the peer is not open")]
    NotOpen,
    /// A Submit of octets that are no message, or of a message of a base command.
    #[error("no message to submit")]
    BadSubmit,
    /// A growth was refused.
    #[error("out of memory")]
    NoMemory,
}

impl From<NoMemory> for PeerFault {
    ghost use Rattle.dm_peer.specs.declared.fault.PeerFault.TheVariants.{NoMemory};

    ghost from_gives = { λ _ fault. fault ≡ NoMemory };

    fn from(_: NoMemory) -> PeerFault {
        PeerFault::NoMemory
    }
}

impl From<Refusal> for PeerFault {
    ghost use Rattle.dm_peer.specs.Faults.{fault_of};

    ghost from_gives = { λ refusal fault. fault ≡ fault_of refusal };

    fn from(refusal: Refusal) -> PeerFault {
        match refusal {
            Refusal::NotClosed => PeerFault::NotClosed,
            Refusal::NotOpen => PeerFault::NotOpen,
        }
    }
}
