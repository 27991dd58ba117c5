//! Why a packet gives no segment, or no SCTP packet.
use thiserror::Error;

/// Why a packet gives no segment, or no SCTP packet.
#[derive(Clone, Copy, Debug, PartialEq, Eq, Error)]
pub enum Passed {
    /// Its type of link isn't read here.
    #[error("link of another type")]
    OtherLink,
    /// It is no IP packet.
    #[error("no IP packet")]
    NotIp,
    /// It is a fragment of an IP packet.
    #[error("fragment of an IP packet")]
    Fragment,
    /// It carries another protocol than the one asked for: no TCP for `segment_of`, no SCTP for `sctp_packet_of`.
    #[error("another protocol than TCP")]
    OtherProtocol,
    /// It was captured in part, and what is there doesn't reach.
    #[error("packet captured in part")]
    Cut,
    /// Its lengths contradict each other, or its version is another one.
    #[error("wrong header")]
    Bad,
}
