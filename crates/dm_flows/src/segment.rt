//! TCP segments (RFC 9293, 3.1).
ghost use Rattle.std.specs.Prelude.{◌≡◌, ◌<◌, ◌≤◌, length, IfOk, IfErr};
ghost use Rattle.dm_flows.specs.Connections.{first_number};
ghost use Rattle.dm_flows.specs.Ips.{carried_of};
ghost use Rattle.dm_flows.specs.Tcps.{segment_seen, tcp_header, has_control, CarriesSegment, CarriesNone};
ghost use Rattle.dm_flows.specs.Tcps.{IsSegment, IsNoSegment};

use crate::address::Endpoint;
use crate::carried::Carried;
use crate::ip::carried_by_ip;
use crate::link::ip_of_link;
use crate::passed::Passed;
use byteorder::{BigEndian, ByteOrder};

/// The number of TCP among protocols.
const TCP: u8 = 6;

/// The octets of a header without options.
const LEAST_LEN: usize = 20;

/// A segment where it lies.
#[derive(Clone, Copy, Debug)]
pub struct Segment<'a> {
    /// Who sent it.
    pub source: Endpoint,
    /// Whom it is for.
    pub destination: Endpoint,
    /// The number of its first octet, or of its SYN.
    pub sequence: u32,
    pub syn: bool,
    pub fin: bool,
    pub rst: bool,
    /// The octets of the stream in it.
    pub payload: &'a [u8],
}

/// How many octets the header of a TCP segment has, by its Data Offset, which counts 32-bit words.
fn tcp_header_len(octets: &[u8]) -> usize
    requires { 13 ≤ length octets.now }
    ensures { result ≡ tcp_header octets.now }
{
    4 * (octets[12] as usize / 16)
}

/// Whether the control bit of this worth is set.
fn is_control_bit_set(octets: &[u8], worth: u8) -> bool
    requires there { 14 ≤ length octets.now }
    requires some { 0 < worth }
    ensures { result ≡ has_control worth octets.now }
{
    octets[13] / worth % 2 == 1
}

/// The TCP segment that an IP packet carries, or why it gives none.
///
/// ```text
///  0                   1                   2                   3
///  0 1 2 3 4 5 6 7 8 9 0 1 2 3 4 5 6 7 8 9 0 1 2 3 4 5 6 7 8 9 0 1
/// |          Source Port          |       Destination Port        |
/// |                        Sequence Number                        |
/// |                    Acknowledgment Number                      |
/// | Offset|       |C|E|U|A|P|R|S|F|            Window             |
/// |           Checksum            |         Urgent Pointer        |
/// ```
fn carried_segment(carried: Carried<'_>) -> Result<Segment<'_>, Passed>
    ensures segment { IfOk result (λ segment. CarriesSegment (carried_of carried.entry) (segment_seen segment)) }
    ensures none { IfErr result (CarriesNone (carried_of carried.entry)) }
{
    if carried.protocol != TCP {
        return Err(Passed::OtherProtocol);
    }
    if !carried.whole {
        return Err(Passed::Cut);
    }
    let octets = carried.payload;
    if octets.len() < LEAST_LEN {
        return Err(Passed::Bad);
    }
    let header = tcp_header_len(octets);
    if header < LEAST_LEN || octets.len() < header {
        return Err(Passed::Bad);
    }
    Ok(Segment {
        source: Endpoint {
            address: carried.source,
            port: BigEndian::read_u16(octets),
        },
        destination: Endpoint {
            address: carried.destination,
            port: BigEndian::read_u16(&octets[2..]),
        },
        sequence: BigEndian::read_u32(&octets[4..]),
        syn: is_control_bit_set(octets, 2),
        fin: is_control_bit_set(octets, 1),
        rst: is_control_bit_set(octets, 4),
        payload: &octets[header..],
    })
}

/// The sequence number of a segment's first octet: that behind its SYN, where it has one (RFC 9293, 3.4).
pub(crate) fn first_octet_number(segment: Segment<'_>) -> u32
    ensures { result ≡ first_number (segment_seen segment.entry) }
{
    if segment.syn {
        segment.sequence.wrapping_add(1)
    } else {
        segment.sequence
    }
}

/// The TCP segment in what was captured on a link of this type, or what it is instead. It takes no memory.
pub fn segment_of(link: u16, octets: &[u8]) -> Result<Segment<'_>, Passed>
    ensures segment { IfOk result (λ segment. IsSegment link octets.now (segment_seen segment)) }
    ensures none { IfErr result (IsNoSegment link octets.now) }
{
    match ip_of_link(link, octets) {
        Ok(ip) => match carried_by_ip(ip) {
            Ok(carried) => carried_segment(carried),
            Err(passed) => Err(passed),
        },
        Err(passed) => Err(passed),
    }
}
