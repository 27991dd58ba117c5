//! Where the AVPs of octets begin, the AVP that begins at such a place, and the first of a code (RFC 6733, 4.1).
ghost use Rattle.std.specs.Prelude.{◌≡◌, Some, true, is_some, option_map, List, drop, slice_get};
ghost use Rattle.std.specs.Prelude.{IfOk, IfSome, IfNone};
ghost use Rattle.std.specs.List.{find};
ghost use Rattle.dm_wire.specs.declared.avp.Avp.{Avp};
ghost use Rattle.dm_wire.specs.Members.{members};
ghost use Rattle.dm_wire.specs.Borrowed.{avp_of};
ghost use Rattle.dm_wire.specs.Finding.{is_of};
ghost use Rattle.dm_wire.specs.Held.{ArePlaces};

use crate::AvpRef;
use crate::avp_extent::{avp_of_extent, first_avp_extent};
use std::alloc::{AllocError, Global};

/// The fewest octets of an AVP: a header without a Vendor-ID, and no data.
const LEAST_AVP: usize = 8;

/// The place of each AVP of the octets, which are AVPs one after the other: the offset of its first octet. Their list
/// takes its room at once.
pub(crate) fn avp_places(alloc: Global, octets: &[u8]) -> Result<Vec<usize>, AllocError>
    requires { is_some (members octets.now) ≡ true }
    ensures { IfOk result (λ places. (avps : List Avp) → members octets.now ≡ Some avps
        → ArePlaces places.items avps octets.now) }
{
    let mut places = Vec::with_capacity(alloc, octets.len() / LEAST_AVP)?;
    let mut place = 0;
    while let Some(extent) = first_avp_extent(&octets[place..]) {
        places.push(place)?;
        place += extent.size;
    }
    Ok(places)
}

/// The AVP that begins at the place, `None` where none does. It never answers want of memory.
pub(crate) fn avp_at(octets: &[u8], place: usize) -> Option<AvpRef<'_>>
    ensures { (avps : List Avp) → members (drop place octets.now) ≡ Some avps
        → option_map avp_of result ≡ slice_get avps 0 }
{
    if octets.len() < place {
        return None;
    }
    let left = &octets[place..];
    let extent = first_avp_extent(left)?;
    Some(avp_of_extent(left, extent))
}

/// Whether the AVP is of this code and vendor.
fn has_code_and_vendor(avp: AvpRef<'_>, code: u32, vendor: Option<u32>) -> bool
    ensures { result ≡ is_of code vendor (avp_of avp.entry) }
{
    avp.code == code && avp.vendor == vendor
}

/// The AVP that begins at the place, where it is of this code and vendor; else None.
fn matching_avp_at(
    octets: &[u8],
    place: usize,
    code: u32,
    vendor: Option<u32>,
) -> Option<AvpRef<'_>>
    ensures found { IfSome result (λ avp. (avps : List Avp) → members (drop place octets.now) ≡ Some avps
        → find (is_of code vendor) avps ≡ Some (avp_of avp)) }
    ensures passed { IfNone result ((avps : List Avp) → members (drop place octets.now) ≡ Some avps
        → find (is_of code vendor) avps ≡ find (is_of code vendor) (drop 1 avps)) }
{
    let avp = avp_at(octets, place)?;
    if has_code_and_vendor(avp, code, vendor) {
        Some(avp)
    } else {
        None
    }
}

/// The first AVP of this code and vendor, of those that begin at the places. It never answers want of memory.
pub(crate) fn first_matching_avp<'a>(
    octets: &'a [u8],
    places: &[usize],
    code: u32,
    vendor: Option<u32>,
) -> Option<AvpRef<'a>>
    ensures { (avps : List Avp) → ArePlaces places.now avps octets.now
        → option_map avp_of result ≡ find (is_of code vendor) avps }
{
    for place in places {
        if let Some(avp) = matching_avp_at(octets, *place, code, vendor) {
            return Some(avp);
        }
    }
    None
}
