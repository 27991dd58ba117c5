//! The ends of a connection, as text.
ghost use Rattle.std.specs.Prelude.{◌≡◌, ◌++◌, OnOk};
ghost use Rattle.std.specs.String.{string_bytes};
ghost use Rattle.dm_trace.specs.Ends.{endpoint_text};

use dm_flows::{Address, Endpoint};
use std::alloc::AllocError;
use std::net::{Ipv4Addr, Ipv6Addr, SocketAddrV4, SocketAddrV6};

/// Appends an end of a connection as std writes a socket address: `10.0.0.1:41234`, `[2001:db8::1]:3868`.
#[tactic(auto, unfolding(std::specs::Net::Addr::IsIpv4OfBits, std::specs::Net::Addr::IsIpv6OfBits))]
pub fn put_endpoint(text: &mut String, endpoint: Endpoint) -> Result<(), AllocError>
    ensures { OnOk result (string_bytes text.new ≡ string_bytes text.old ++ endpoint_text endpoint) }
{
    match endpoint.address {
        Address::V4(bits) => {
            let address = Ipv4Addr::from_bits(bits);
            write!(text, "{}", SocketAddrV4::new(address, endpoint.port))
        }
        Address::V6(bits) => {
            let address = Ipv6Addr::from_bits(bits);
            write!(text, "{}", SocketAddrV6::new(address, endpoint.port, 0, 0))
        }
    }
}
