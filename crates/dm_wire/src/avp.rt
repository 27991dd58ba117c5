//! Attribute-Value Pairs (RFC 6733, 4.1).
use crate::{Listed, Octets};

/// An Attribute-Value Pair (RFC 6733, 4.1).
#[derive(Clone, Debug, Drop, PartialEq, Eq)]
pub struct Avp {
    /// The AVP Code.
    pub code: u32,
    /// The Vendor-ID, where the V bit is set (4.1). RFC 6733 gives 0 to no vendor: AVPs of the IETF's own have no V
    /// bit. Here it is kept as `Some(0)`, which isn't `None`, so that what was read can be written again.
    pub vendor: Option<u32>,
    /// The M bit: a receiver that doesn't know the AVP refuses the message.
    pub mandatory: bool,
    /// The P bit, reserved for end-to-end security.
    pub protected: bool,
    /// The data, without padding.
    pub bytes: Octets,
}

/// AVPs in order.
pub type AvpList = Listed<Avp>;
