//! EtherTypes, and the tags in front of them.
ghost use Rattle.std.specs.Prelude.{ℕ, IfSome, IfNone};
ghost use Rattle.dm_flows.specs.Links.{HasTags, EndsInTags};

use byteorder::{BigEndian, ByteOrder};

/// The EtherType of an 802.1Q tag.
const CUSTOMER_TAG: u16 = 0x8100;

/// The EtherType of an 802.1ad tag.
const SERVICE_TAG: u16 = 0x88a8;

/// An EtherType, and the octets of that type.
#[derive(Clone, Copy, Debug)]
pub(crate) struct TypedOctets<'a> {
    pub(crate) kind: u16,
    pub(crate) octets: &'a [u8],
}

/// Passes tags, up to the EtherType that is no tag's; `None` where the octets end before.
///
/// ```text
///  0                   1                   2                   3
///  0 1 2 3 4 5 6 7 8 9 0 1 2 3 4 5 6 7 8 9 0 1 2 3 4 5 6 7 8 9 0 1
/// |       EtherType 0x8100        | PCP |D|     VLAN Identifier   |
/// ```
pub(crate) fn ethertype_behind_tags(octets: &[u8]) -> Option<TypedOctets<'_>>
    ensures typed { IfSome result (λ found. (n : ℕ) × HasTags n octets.now found.kind found.octets.now) }
    ensures none { IfNone result ((n : ℕ) × EndsInTags n octets.now) }
{
    let mut rest = octets;
    'tags: while 2 <= rest.len() {
        let kind = BigEndian::read_u16(rest);
        if kind != CUSTOMER_TAG && kind != SERVICE_TAG {
            return Some(TypedOctets {
                kind,
                octets: &rest[2..],
            });
        }
        if rest.len() < 4 {
            return None;
        }
        rest = &rest[4..];
    }
    None
}
