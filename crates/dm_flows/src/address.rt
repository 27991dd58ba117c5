//! Addresses of IP, and the ends of connections.
ghost use Rattle.std.specs.Prelude.{◌≡◌, ◌↔◌, IsTrue};

/// An address of IP, as the number that its octets are, the highest first (RFC 791, 3.1; RFC 8200, 3).
#[derive(Clone, Copy, Debug, PartialEq, Eq, Hash)]
pub enum Address {
    V4(u32),
    V6(u128),
}

/// One end of a connection (RFC 9293, 3.1).
#[derive(Clone, Copy, Debug, PartialEq, Eq, Hash)]
pub struct Endpoint {
    pub address: Address,
    pub port: u16,
}

/// Whether both are the same address.
fn is_same_address(one: Address, other: Address) -> bool
    ensures { IsTrue result ↔ one ≡ other }
{
    match (one, other) {
        (Address::V4(one), Address::V4(other)) => one == other,
        (Address::V6(one), Address::V6(other)) => one == other,
        _ => false,
    }
}

/// Whether both are the same end of a connection: of one address and one port.
pub(crate) fn is_same_end(one: Endpoint, other: Endpoint) -> bool
    ensures { IsTrue result ↔ one ≡ other }
{
    one.port == other.port && is_same_address(one.address, other.address)
}
