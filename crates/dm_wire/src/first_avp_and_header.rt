//! The first AVP of octets, and the header of a message (RFC 6733, 3 and 4.1).
ghost use Rattle.std.specs.Prelude.{◌≡◌, ◌<◌, ◌≤◌, ◌⊎◌, ◌↔◌, None, [], ◌∷◌, length, take, drop};
ghost use Rattle.std.specs.Prelude.{option_map, IfOk, IfErr, IfSome, IfNone, IsErrOf};
ghost use Rattle.dm_wire.specs.Spelling.{SpellsAvp, SpellsHeader};
ghost use Rattle.dm_wire.specs.Members.{members};
ghost use Rattle.dm_wire.specs.Borrowed.{avp_of};
ghost use Rattle.dm_wire.specs.Refusal.{BeginsWithNoAvp, IsTooShort, IsOtherVersion, IsOtherLength};

use crate::avp_extent::{avp_of_extent, first_avp_extent};
use crate::{AvpRef, Header, WireFault};
use byteorder::{BigEndian, ByteOrder};

/// The AVP at the front, and how many octets it takes, padding included; `None` where no AVP begins there. It never
/// answers want of memory.
///
/// ```text
///  0                   1                   2                   3
///  0 1 2 3 4 5 6 7 8 9 0 1 2 3 4 5 6 7 8 9 0 1 2 3 4 5 6 7 8 9 0 1
/// |                           AVP Code                            |
/// |V M P r r r r r|                  AVP Length                   |
/// |                        Vendor-ID (opt)                        |
/// |    Data ...
/// ```
pub fn first_avp(octets: &[u8]) -> Option<(AvpRef<'_>, usize)>
    ensures within { IfSome result (λ read. read.1 ≤ length octets.now) }
    ensures moves { IfSome result (λ read. 0 < read.1) }
    ensures found { IfSome result (λ read. SpellsAvp (avp_of read.0) (take read.1 octets.now)) }
    ensures none { IfNone result (BeginsWithNoAvp octets.now) }
{
    let extent = first_avp_extent(octets)?;
    Some((avp_of_extent(octets, extent), extent.size))
}

/// The first of the AVPs that the octets spell, and how many octets it takes; None where there are no octets, or they
/// spell no AVPs.
pub(crate) fn first_spelled_avp(octets: &[u8]) -> Option<(AvpRef<'_>, usize)>
    ensures within { IfSome result (λ read. read.1 ≤ length octets.now) }
    ensures moves { IfSome result (λ read. 0 < read.1) }
    ensures found { IfSome result (λ read.
        members octets.now ≡ option_map (λ l. avp_of read.0 ∷ l) (members (drop read.1 octets.now))) }
    ensures none { IfNone result ((octets.now ≡ []) ⊎ (members octets.now ≡ None)) }
{
    first_avp(octets)
}

/// The header of the whole message that the octets are.
///
/// ```text
///  0                   1                   2                   3
///  0 1 2 3 4 5 6 7 8 9 0 1 2 3 4 5 6 7 8 9 0 1 2 3 4 5 6 7 8 9 0 1
/// |    Version    |                 Message Length                |
/// |R P E T r r r r|                  Command Code                 |
/// |                         Application-ID                        |
/// |                      Hop-by-Hop Identifier                    |
/// |                      End-to-End Identifier                    |
/// ```
pub(crate) fn read_header(octets: &[u8]) -> Result<Header, WireFault>
    ensures found { IfOk result (λ header. SpellsHeader header (length octets.now) (take 20 octets.now)) }
    ensures long { IfOk result (λ header. 20 ≤ length octets.now) }
    ensures short { IsErrOf result WireFault.TooShort ↔ IsTooShort octets.now }
    ensures version { IsErrOf result WireFault.Version ↔ IsOtherVersion octets.now }
    ensures len { IsErrOf result WireFault.Length ↔ IsOtherLength octets.now }
    ensures fault { IfErr result (λ fault. (fault ≡ WireFault.TooShort) ⊎ (fault ≡ WireFault.Version)
        ⊎ (fault ≡ WireFault.Length)) }
{
    if octets.len() < 20 {
        return Err(WireFault::TooShort);
    }
    if octets[0] != 1 {
        return Err(WireFault::Version);
    }
    if BigEndian::read_u24(&octets[1..]) as usize != octets.len() || octets.len() % 4 != 0 {
        return Err(WireFault::Length);
    }
    let flags = octets[4];
    Ok(Header {
        request: flags & 0x80 != 0,
        proxiable: flags & 0x40 != 0,
        error: flags & 0x20 != 0,
        retransmit: flags & 0x10 != 0,
        command: BigEndian::read_u24(&octets[5..]),
        application: BigEndian::read_u32(&octets[8..]),
        hop_id: BigEndian::read_u32(&octets[12..]),
        end_id: BigEndian::read_u32(&octets[16..]),
    })
}
