//! The header of a Diameter message (RFC 6733, 3).
ghost use Rattle.std.specs.Prelude.{◌↔◌, IsTrue};
ghost use Rattle.dm_flows.specs.Headers.{BeginsWithHeader, BeginsWithExchange};

use byteorder::{BigEndian, ByteOrder};

/// The octets of a header, and so of the least message.
const HEADER_LEN: usize = 20;

/// The Command Code of the Capabilities-Exchange (RFC 6733, 5.3).
const CAPABILITIES_EXCHANGE: u32 = 257;

/// Whether a whole header may stand at the front of the octets: not where they are fewer than 20. It takes no memory.
///
/// ```text
///  0                   1                   2                   3
///  0 1 2 3 4 5 6 7 8 9 0 1 2 3 4 5 6 7 8 9 0 1 2 3 4 5 6 7 8 9 0 1
/// |    Version    |                 Message Length                |
/// |R P E T r r r r|                 Command Code                  |
/// |                         Application-ID                        |
/// |                      Hop-by-Hop Identifier                    |
/// |                      End-to-End Identifier                    |
/// ```
pub fn begins_with_whole_header(octets: &[u8]) -> bool
    ensures { IsTrue result ↔ BeginsWithHeader octets.now }
{
    if octets.len() < HEADER_LEN || octets[0] != 1 || octets[4] % 16 != 0 {
        return false;
    }
    let size = BigEndian::read_u24(&octets[1..]);
    size >= 20 && size % 4 == 0
}

/// Whether the header of a Capabilities-Exchange-Request may stand at the front of the octets. It takes no memory.
pub fn begins_with_exchange_request(octets: &[u8]) -> bool
    ensures { IsTrue result ↔ BeginsWithExchange octets.now }
{
    if !begins_with_whole_header(octets) || octets.len() < HEADER_LEN {
        return false;
    }
    octets[4] / 128 == 1
        && BigEndian::read_u24(&octets[5..]) == CAPABILITIES_EXCHANGE
        && BigEndian::read_u32(&octets[8..]) == 0
}
