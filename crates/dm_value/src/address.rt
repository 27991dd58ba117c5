//! Addresses (RFC 6733, 4.3.1).
use dm_wire::Octets;

/// An IP address: its octets in network byte order.
#[derive(Clone, Copy, Debug, PartialEq, Eq)]
pub enum Ip {
    /// Address family 1.
    V4([u8; 4]),
    /// Address family 2.
    V6([u8; 16]),
}

/// The value of an AVP of type Address (RFC 6733, 4.3.1).
#[derive(Clone, Debug, Drop, PartialEq, Eq)]
pub enum Address {
    /// An IPv4 or IPv6 address.
    Ip(Ip),
    /// An address of another family: the family and the octets behind it.
    Other(u16, Octets),
}
