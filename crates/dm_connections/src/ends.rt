//! Both ends of a connection.
use dm_flows::Endpoint;

/// Both ends of a connection (RFC 9293, 3.1; RFC 9260, 1.3): the one that sent what it came to be held by, and the
/// other one.
#[derive(Clone, Copy, Debug, PartialEq, Eq, Hash)]
pub struct Ends {
    pub first: Endpoint,
    pub second: Endpoint,
}
