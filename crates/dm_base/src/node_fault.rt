//! Why there is no node.
use thiserror::Error;

/// Why there is no node of these parts (RFC 6733, 4.3.1 and 5.3; the limits are own).
#[derive(Clone, Copy, Debug, PartialEq, Eq, Error)]
pub enum NodeFault {
    /// The host or the realm is empty or has an octet outside 0x21 to 0x7E.
    #[error("a host or realm that isn't a name")]
    BadHost,
    /// There is no address.
    #[error("no address")]
    NoAddress,
    /// A name or the product is over 255 octets, or there are over 64 addresses or over 256 auth or acct ids.
    #[error("too long")]
    TooLong,
}
