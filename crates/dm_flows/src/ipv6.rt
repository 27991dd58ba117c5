//! IP packets of version 6 (RFC 8200, 3).
ghost use Rattle.std.specs.Prelude.{◌≡◌, ◌≤◌, length, if◌then◌else◌, IfOk, IfErr};
ghost use Rattle.dm_flows.specs.Ips.{IsIpv6, HasIpv6Fault, carried_of, ipv6_size, ipv6_rest, ipv6_whole};
ghost use Rattle.dm_flows.specs.Ips.{ipv6_carried};

use crate::address::Address;
use crate::carried::Carried;
use crate::extensions::{Astray, Upper, upper_layer_behind_extensions};
use crate::octet_slices::first_octets;
use crate::passed::Passed;
use byteorder::{BigEndian, ByteOrder};

/// The octets of a header.
const HEADER_LEN: usize = 40;

/// What an IP packet of version 6 carries behind its extension headers, or why it gives nothing.
///
/// ```text
///  0                   1                   2                   3
///  0 1 2 3 4 5 6 7 8 9 0 1 2 3 4 5 6 7 8 9 0 1 2 3 4 5 6 7 8 9 0 1
/// |Version| Traffic Class |           Flow Label                  |
/// |         Payload Length        |  Next Header  |   Hop Limit   |
/// |                       Source Address, 16 octets               |
/// |                    Destination Address, 16 octets             |
/// ```
pub(crate) fn carried_by_ipv6(octets: &[u8]) -> Result<Carried<'_>, Passed>
    ensures carried { IfOk result (λ carried. IsIpv6 octets.now (carried_of carried)) }
    ensures fault { IfErr result (HasIpv6Fault octets.now) }
{
    if octets.len() < HEADER_LEN {
        return Err(Passed::Cut);
    }
    if octets[0] / 16 != 6 {
        return Err(Passed::Bad);
    }
    match upper_layer_behind_extensions(octets[6], captured_payload(octets)) {
        Ok(upper) => Ok(carried_with_upper_layer(octets, upper)),
        Err(Astray::Fragmented) => Err(Passed::Fragment),
        Err(Astray::Ends) => Err(cut_or_bad(octets)),
    }
}

/// How many octets there are behind the header, as the Payload Length says.
fn payload_len(octets: &[u8]) -> usize
    requires { 40 ≤ length octets.now }
    ensures { result ≡ ipv6_size octets.now }
{
    BigEndian::read_u16(&octets[4..]) as usize
}

/// What was captured of the octets behind the header.
fn captured_payload(octets: &[u8]) -> &[u8]
    requires { 40 ≤ length octets.now }
    ensures { result.now ≡ ipv6_rest octets.now }
{
    first_octets(&octets[HEADER_LEN..], payload_len(octets))
}

/// Whether all octets behind the header were captured.
fn is_payload_whole(octets: &[u8]) -> bool
    requires { 40 ≤ length octets.now }
    ensures { result ≡ ipv6_whole octets.now }
{
    payload_len(octets) <= octets.len() - HEADER_LEN
}

/// Why extension headers end in the middle of one: the packet is bad where all of it was captured, else it is cut.
fn cut_or_bad(octets: &[u8]) -> Passed
    requires { 40 ≤ length octets.now }
    ensures { result ≡ (if ipv6_whole octets.now then Passed.Bad else Passed.Cut) }
{
    if is_payload_whole(octets) {
        Passed::Bad
    } else {
        Passed::Cut
    }
}

/// What a packet carries whose extension headers lead to this protocol.
fn carried_with_upper_layer<'a>(octets: &[u8], upper: Upper<'a>) -> Carried<'a>
    requires { 40 ≤ length octets.now }
    ensures { carried_of result ≡ ipv6_carried octets.now upper.entry.protocol upper.entry.payload.now }
{
    Carried {
        source: Address::V6(BigEndian::read_u128(&octets[8..])),
        destination: Address::V6(BigEndian::read_u128(&octets[24..])),
        protocol: upper.protocol,
        payload: upper.payload,
        whole: is_payload_whole(octets),
    }
}
