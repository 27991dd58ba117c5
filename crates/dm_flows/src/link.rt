//! What stands in front of an IP packet on a link.
ghost use Rattle.std.specs.Prelude.{◌≡◌, ◌≤◌, length, IfOk, IfErr};
ghost use Rattle.dm_flows.specs.Links.{link_kind, HoldsIp, HasLinkFault, IsTyped, IsNoneTyped};
ghost use Rattle.dm_flows.specs.Links.{IsBehind, IsNoneBehind};

use crate::network::{
    IpOctets, Network, network_by_big_endian_family, network_by_ethertype, network_by_first_octet,
    network_by_host_family,
};
use crate::passed::Passed;
use crate::tags::ethertype_behind_tags;
use byteorder::{BigEndian, ByteOrder};

/// The types of links that are read.
#[derive(Clone, Copy, Debug)]
pub(crate) enum LinkKind {
    Ethernet,
    /// Linux cooked capture.
    Cooked,
    /// Linux cooked capture, version 2.
    CookedSecond,
    /// BSD loopback, in the order of octets of the host that captured.
    HostLoopback,
    /// BSD loopback, in network byte order.
    Loopback,
    /// IP of either version.
    RawIp,
    RawIpv4,
    RawIpv6,
    Unknown,
}

/// The type of link with a number of the registry.
fn kind_of_link(link: u16) -> LinkKind
    ensures { result ≡ link_kind link }
{
    match link {
        1 => LinkKind::Ethernet,
        113 => LinkKind::Cooked,
        276 => LinkKind::CookedSecond,
        0 => LinkKind::HostLoopback,
        108 => LinkKind::Loopback,
        101 => LinkKind::RawIp,
        228 => LinkKind::RawIpv4,
        229 => LinkKind::RawIpv6,
        _ => LinkKind::Unknown,
    }
}

/// The IP packet behind so many octets, any number of tags and an EtherType, or why there is none.
fn ip_behind_ethertype(front: usize, octets: &[u8]) -> Result<IpOctets<'_>, Passed>
    ensures found { IfOk result (λ ip. IsTyped front octets.now ip.network ip.octets.now) }
    ensures none { IfErr result (IsNoneTyped front octets.now) }
{
    if octets.len() < front {
        return Err(Passed::Cut);
    }
    let Some(found) = ethertype_behind_tags(&octets[front..]) else {
        return Err(Passed::Cut);
    };
    match network_by_ethertype(found.kind) {
        Some(network) => Ok(IpOctets {
            network,
            octets: found.octets,
        }),
        None => Err(Passed::NotIp),
    }
}

/// The IP packet behind a header of so many octets, which names this version; an Err where it names none.
fn ip_behind_header(
    size: usize,
    network: Option<Network>,
    octets: &[u8],
) -> Result<IpOctets<'_>, Passed>
    requires { size ≤ length octets.now }
    ensures found { IfOk result (λ ip. IsBehind size network octets.now ip.network ip.octets.now) }
    ensures none { IfErr result (IsNoneBehind size network octets.now) }
{
    match network {
        Some(network) => Ok(IpOctets {
            network,
            octets: &octets[size..],
        }),
        None => Err(Passed::NotIp),
    }
}

/// The IP packet behind a Linux cooked header of version 2, or why there is none.
fn ip_of_linux_cooked_v2(octets: &[u8]) -> Result<IpOctets<'_>, Passed>
    ensures found { IfOk result (λ ip. HoldsIp LinkKind.CookedSecond octets.now ip.network ip.octets.now) }
    ensures none { IfErr result (HasLinkFault LinkKind.CookedSecond octets.now) }
{
    if octets.len() < 20 {
        return Err(Passed::Cut);
    }
    ip_behind_header(
        20,
        network_by_ethertype(BigEndian::read_u16(octets)),
        octets,
    )
}

/// The IP packet behind a BSD loopback header, a family of addresses in either order of octets, or why there is none.
fn ip_of_host_loopback(octets: &[u8]) -> Result<IpOctets<'_>, Passed>
    ensures found { IfOk result (λ ip. HoldsIp LinkKind.HostLoopback octets.now ip.network ip.octets.now) }
    ensures none { IfErr result (HasLinkFault LinkKind.HostLoopback octets.now) }
{
    if octets.len() < 4 {
        return Err(Passed::Cut);
    }
    ip_behind_header(4, network_by_host_family(octets), octets)
}

/// The IP packet behind a BSD loopback header, a family of addresses in network byte order, or why there is none.
fn ip_of_loopback(octets: &[u8]) -> Result<IpOctets<'_>, Passed>
    ensures found { IfOk result (λ ip. HoldsIp LinkKind.Loopback octets.now ip.network ip.octets.now) }
    ensures none { IfErr result (HasLinkFault LinkKind.Loopback octets.now) }
{
    if octets.len() < 4 {
        return Err(Passed::Cut);
    }
    ip_behind_header(4, network_by_big_endian_family(octets), octets)
}

/// The IP packet that all octets are, of the version that the first one tells, or why they are none.
fn ip_of_raw_link(octets: &[u8]) -> Result<IpOctets<'_>, Passed>
    ensures found { IfOk result (λ ip. HoldsIp LinkKind.RawIp octets.now ip.network ip.octets.now) }
    ensures none { IfErr result (HasLinkFault LinkKind.RawIp octets.now) }
{
    if octets.is_empty() {
        return Err(Passed::Cut);
    }
    match network_by_first_octet(octets[0]) {
        Some(network) => Ok(IpOctets { network, octets }),
        None => Err(Passed::NotIp),
    }
}

/// The IP packet in what was captured on a link of this type, or why there is none.
pub(crate) fn ip_of_link(link: u16, octets: &[u8]) -> Result<IpOctets<'_>, Passed>
    ensures found { IfOk result (λ ip. HoldsIp (link_kind link) octets.now ip.network ip.octets.now) }
    ensures none { IfErr result (HasLinkFault (link_kind link) octets.now) }
{
    match kind_of_link(link) {
        LinkKind::Ethernet => ip_behind_ethertype(12, octets),
        LinkKind::Cooked => ip_behind_ethertype(14, octets),
        LinkKind::CookedSecond => ip_of_linux_cooked_v2(octets),
        LinkKind::HostLoopback => ip_of_host_loopback(octets),
        LinkKind::Loopback => ip_of_loopback(octets),
        LinkKind::RawIp => ip_of_raw_link(octets),
        LinkKind::RawIpv4 => Ok(IpOctets {
            network: Network::Ipv4,
            octets,
        }),
        LinkKind::RawIpv6 => Ok(IpOctets {
            network: Network::Ipv6,
            octets,
        }),
        LinkKind::Unknown => Err(Passed::OtherLink),
    }
}
