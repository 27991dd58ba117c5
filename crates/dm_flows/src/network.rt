//! The versions of IP, and the numbers that name them.
ghost use Rattle.std.specs.Prelude.{◌≡◌, ◌/◌, ◌≤◌, length};
ghost use Rattle.byteorder.specs.Endian.{big_number};
ghost use Rattle.dm_flows.specs.Links.{network_of, network_of_family, network_of_version, host_network};

use byteorder::{BigEndian, ByteOrder, LittleEndian};

/// A version of IP.
#[derive(Clone, Copy, Debug)]
pub(crate) enum Network {
    Ipv4,
    Ipv6,
}

/// An IP packet where it lies, up to the end of what was captured.
#[derive(Clone, Copy, Debug)]
pub(crate) struct IpOctets<'a> {
    pub(crate) network: Network,
    pub(crate) octets: &'a [u8],
}

/// The version of IP that an EtherType names; None where it names none.
pub(crate) fn network_by_ethertype(kind: u16) -> Option<Network>
    ensures { result ≡ network_of kind }
{
    match kind {
        0x0800 => Some(Network::Ipv4),
        0x86dd => Some(Network::Ipv6),
        _ => None,
    }
}

/// The version of IP that a family of addresses names, as BSD counts these; None where it names none.
fn network_by_bsd_family(family: u32) -> Option<Network>
    ensures { result ≡ network_of_family family }
{
    match family {
        2 => Some(Network::Ipv4),
        24 | 28 | 30 => Some(Network::Ipv6),
        _ => None,
    }
}

/// The version of IP that a family of addresses in network byte order names; None where it names none.
pub(crate) fn network_by_big_endian_family(octets: &[u8]) -> Option<Network>
    requires { 4 ≤ length octets.now }
    ensures { result ≡ network_of_family (big_number 4 octets.now) }
{
    network_by_bsd_family(BigEndian::read_u32(octets))
}

/// The version of IP that a family of addresses names in either order of its octets; None where it names none.
pub(crate) fn network_by_host_family(octets: &[u8]) -> Option<Network>
    requires { 4 ≤ length octets.now }
    ensures { result ≡ host_network octets.now }
{
    match network_by_bsd_family(BigEndian::read_u32(octets)) {
        Some(network) => Some(network),
        None => network_by_bsd_family(LittleEndian::read_u32(octets)),
    }
}

/// The version of IP that a packet's first octet tells; None where it is neither 4 nor 6.
pub(crate) fn network_by_first_octet(octet: u8) -> Option<Network>
    ensures { result ≡ network_of_version (octet / 16) }
{
    match octet / 16 {
        4 => Some(Network::Ipv4),
        6 => Some(Network::Ipv6),
        _ => None,
    }
}
