//! IP packets of version 4 (RFC 791, 3.1).
ghost use Rattle.std.specs.Prelude.{◌≡◌, ◌≤◌, length, IfOk, IfErr};
ghost use Rattle.dm_flows.specs.Ips.{IsIpv4, HasIpv4Fault, ipv4_header, ipv4_total, ipv4_carried, carried_of};

use crate::address::Address;
use crate::carried::Carried;
use crate::octet_slices::first_octets;
use crate::passed::Passed;
use byteorder::{BigEndian, ByteOrder};

/// The octets of a header without options.
const LEAST_LEN: usize = 20;

/// MF and the Fragment Offset, without the reserved bit and DF.
const FRAGMENT: u16 = 16_384;

/// How many octets the header of an IP packet has, by its IHL, which counts 32-bit words.
fn ipv4_header_len(octets: &[u8]) -> usize
    requires { 1 ≤ length octets.now }
    ensures { result ≡ ipv4_header octets.now }
{
    4 * (octets[0] as usize % 16)
}

/// What an IP packet of version 4 carries, or why it gives nothing.
///
/// ```text
///  0                   1                   2                   3
///  0 1 2 3 4 5 6 7 8 9 0 1 2 3 4 5 6 7 8 9 0 1 2 3 4 5 6 7 8 9 0 1
/// |Version|  IHL  |Type of Service|          Total Length         |
/// |         Identification        |Flags|      Fragment Offset    |
/// |  Time to Live |    Protocol   |         Header Checksum       |
/// |                       Source Address                          |
/// |                    Destination Address                        |
/// ```
pub(crate) fn carried_by_ipv4(octets: &[u8]) -> Result<Carried<'_>, Passed>
    ensures carried { IfOk result (λ carried. IsIpv4 octets.now (carried_of carried)) }
    ensures fault { IfErr result (HasIpv4Fault octets.now) }
{
    if octets.len() < LEAST_LEN {
        return Err(Passed::Cut);
    }
    let header = ipv4_header_len(octets);
    let total = BigEndian::read_u16(&octets[2..]) as usize;
    if octets[0] / 16 != 4 || header < LEAST_LEN || total < header {
        return Err(Passed::Bad);
    }
    if octets.len() < header {
        return Err(Passed::Cut);
    }
    if BigEndian::read_u16(&octets[6..]) % FRAGMENT != 0 {
        return Err(Passed::Fragment);
    }
    Ok(carried_with_lengths(octets, header, total))
}

/// What an IP packet of version 4 carries, of which the header and the whole have so many octets.
fn carried_with_lengths(octets: &[u8], header: usize, total: usize) -> Carried<'_>
    requires least { 20 ≤ length octets.now }
    requires header { header ≤ length octets.now }
    requires total { header ≤ total }
    requires header_is { header ≡ ipv4_header octets.now }
    requires total_is { total ≡ ipv4_total octets.now }
    ensures { carried_of result ≡ ipv4_carried octets.now }
{
    Carried {
        source: Address::V4(BigEndian::read_u32(&octets[12..])),
        destination: Address::V4(BigEndian::read_u32(&octets[16..])),
        protocol: octets[9],
        payload: first_octets(&octets[header..], total - header),
        whole: total <= octets.len(),
    }
}
