//! SCTP packets (RFC 9260, 3.1).
ghost use Rattle.std.specs.Prelude.{IfOk, IfErr};
ghost use Rattle.dm_flows.specs.Ips.{carried_of};
ghost use Rattle.dm_flows.specs.Sctps.{sctp_seen, CarriesSctp, CarriesNoSctp, IsSctp, IsNoSctp};

use crate::address::Endpoint;
use crate::carried::Carried;
use crate::ip::carried_by_ip;
use crate::link::ip_of_link;
use crate::passed::Passed;
use byteorder::{BigEndian, ByteOrder};

/// The number of SCTP among protocols.
const SCTP: u8 = 132;

/// The octets of the common header.
const COMMON_LEN: usize = 12;

/// A packet where it lies.
#[derive(Clone, Copy, Debug)]
pub struct SctpPacket<'a> {
    /// Who sent it.
    pub source: Endpoint,
    /// Whom it is for.
    pub destination: Endpoint,
    pub verification_tag: u32,
    /// The octets behind the common header; [`DataChunks`](crate::DataChunks) reads them.
    pub chunks: &'a [u8],
}

/// The SCTP packet that an IP packet carries, or why it gives none.
///
/// ```text
///  0                   1                   2                   3
///  0 1 2 3 4 5 6 7 8 9 0 1 2 3 4 5 6 7 8 9 0 1 2 3 4 5 6 7 8 9 0 1
/// |      Source Port Number       |    Destination Port Number    |
/// |                       Verification Tag                        |
/// |                           Checksum                            |
/// ```
fn carried_sctp_packet(carried: Carried<'_>) -> Result<SctpPacket<'_>, Passed>
    ensures packet { IfOk result (λ packet. CarriesSctp (carried_of carried.entry) (sctp_seen packet)) }
    ensures none { IfErr result (CarriesNoSctp (carried_of carried.entry)) }
{
    if carried.protocol != SCTP {
        return Err(Passed::OtherProtocol);
    }
    if !carried.whole {
        return Err(Passed::Cut);
    }
    let octets = carried.payload;
    if octets.len() < COMMON_LEN {
        return Err(Passed::Bad);
    }
    Ok(SctpPacket {
        source: Endpoint {
            address: carried.source,
            port: BigEndian::read_u16(octets),
        },
        destination: Endpoint {
            address: carried.destination,
            port: BigEndian::read_u16(&octets[2..]),
        },
        verification_tag: BigEndian::read_u32(&octets[4..]),
        chunks: &octets[COMMON_LEN..],
    })
}

/// The SCTP packet in what was captured on a link of this type, or what it is instead: `OtherProtocol` where it carries
/// no SCTP. Its checksum isn't looked at. It takes no memory.
pub fn sctp_packet_of(link: u16, octets: &[u8]) -> Result<SctpPacket<'_>, Passed>
    ensures packet { IfOk result (λ packet. IsSctp link octets.now (sctp_seen packet)) }
    ensures none { IfErr result (IsNoSctp link octets.now) }
{
    match ip_of_link(link, octets) {
        Ok(ip) => match carried_by_ip(ip) {
            Ok(carried) => carried_sctp_packet(carried),
            Err(passed) => Err(passed),
        },
        Err(passed) => Err(passed),
    }
}
