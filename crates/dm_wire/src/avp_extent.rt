//! The AVP at the front of octets: how far it goes, and then its fields (RFC 6733, 4.1).
ghost use Rattle.std.specs.Prelude.{◌≡◌, ◌^◌, ◌<◌, ◌≤◌, false, ◌∷◌, length};
ghost use Rattle.std.specs.Prelude.{drop, slice_index, option_map, IfSome, IfNone, IfOk};
ghost use Rattle.byteorder.specs.Endian.{big_number};
ghost use Rattle.dm_wire.specs.Borrowed.{avp_of};
ghost use Rattle.dm_wire.specs.Members.{avp_at, begins_with_avp, members};
ghost use Rattle.dm_wire.specs.Extents.{IsExtent};

use crate::{Avp, AvpRef, Octets};
use byteorder::{BigEndian, ByteOrder};
use std::alloc::{AllocError, Global};

/// How far the parts of an AVP go, in octets from its first.
#[derive(Clone, Copy)]
pub(crate) struct Extent {
    /// The end of its header, where its data begins.
    pub header: usize,
    /// The end of its data: the AVP Length.
    pub length: usize,
    /// The end of its padding.
    pub size: usize,
}

/// The flag octet and the AVP Length of an AVP's header: one number is read, and parted.
fn flag_octet_and_length(octets: &[u8]) -> (u32, usize)
    requires { 8 ≤ length octets.now }
    ensures flags { result.0 ≡ slice_index octets.now 4 }
    ensures len { result.1 ≡ big_number 3 (drop 5 octets.now) }
    ensures fits { result.1 < 256 ^ 3 }
{
    let word = BigEndian::read_u32(&octets[4..]);
    (word / 0x100_0000, (word % 0x100_0000) as usize)
}

/// How far the AVP at the front goes; `None` where no AVP begins there. It never answers want of memory.
pub(crate) fn first_avp_extent(octets: &[u8]) -> Option<Extent>
    ensures found { IfSome result (λ extent. IsExtent extent octets.now) }
    ensures members { IfSome result (λ extent.
        members octets.now ≡ option_map (λ l. avp_at octets.now ∷ l) (members (drop extent.size octets.now))) }
    ensures none { IfNone result (begins_with_avp octets.now ≡ false) }
{
    if octets.len() < 8 {
        return None;
    }
    let (flags, length) = flag_octet_and_length(octets);
    let header = if flags & 0x80 == 0 { 8 } else { 12 };
    let size = (length + 3) / 4 * 4;
    if length < header || octets.len() < size {
        return None;
    }
    Some(Extent {
        header,
        length,
        size,
    })
}

/// The AVP at the front, which goes so far.
pub(crate) fn avp_of_extent(octets: &[u8], extent: Extent) -> AvpRef<'_>
    requires { IsExtent extent octets.now }
    ensures { avp_of result ≡ avp_at octets.now }
{
    let (flags, _) = flag_octet_and_length(octets);
    AvpRef {
        code: BigEndian::read_u32(octets),
        vendor: if flags & 0x80 == 0 {
            None
        } else {
            Some(BigEndian::read_u32(&octets[8..]))
        },
        mandatory: flags & 0x40 != 0,
        protected: flags & 0x20 != 0,
        bytes: &octets[extent.header..extent.length],
    }
}

/// The AVP at the front, which goes so far, with a copy of its data; or want of memory.
///
/// The data comes first and the header behind it, so that no field waits while memory is asked for.
pub(crate) fn copy_first_avp(
    alloc: Global,
    octets: &[u8],
    extent: Extent,
) -> Result<Avp, AllocError>
    requires { IsExtent extent octets.now }
    ensures { IfOk result (λ avp. avp ≡ avp_at octets.now) }
{
    let bytes = Octets::from_slice(alloc, &octets[extent.header..extent.length])?;
    let read = avp_of_extent(octets, extent);
    Ok(Avp {
        code: read.code,
        vendor: read.vendor,
        mandatory: read.mandatory,
        protected: read.protected,
        bytes,
    })
}
