//! The header of octets whose AVPs aren't all good (RFC 6733, 3).
ghost use Rattle.std.specs.Prelude.{◌≡◌, ◌≤◌, length};
ghost use Rattle.dm_wire.specs.Whole.{header_in};

use byteorder::{BigEndian, ByteOrder};
use dm_wire::Header;

/// The fields of the header at the front, whatever stands behind it.
pub(crate) fn header_at_front(octets: &[u8]) -> Header
    requires { 20 ≤ length octets.now }
    ensures { result ≡ header_in octets.now }
{
    let flags = octets[4];
    Header {
        request: flags & 0x80 != 0,
        proxiable: flags & 0x40 != 0,
        error: flags & 0x20 != 0,
        retransmit: flags & 0x10 != 0,
        command: BigEndian::read_u24(&octets[5..]),
        application: BigEndian::read_u32(&octets[8..]),
        hop_id: BigEndian::read_u32(&octets[12..]),
        end_id: BigEndian::read_u32(&octets[16..]),
    }
}
