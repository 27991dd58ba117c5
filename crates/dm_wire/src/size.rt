//! How many octets AVPs take (RFC 6733, 4.1).
ghost use Rattle.std.specs.Prelude.{◌≡◌, ◌-◌, ◌%◌, ◌^◌, ◌<◌, ◌≤◌, ◌⊎◌, length, IfSome, IfNone};
ghost use Rattle.dm_wire.specs.Spelling.{avp_header_len, avp_length, SpellsAvp, SpellsList};
ghost use Rattle.dm_wire.specs.Canonical.{canonical_avp, canonical_list};
ghost use Rattle.dm_wire.specs.Borrowed.{avp_of};
ghost use Rattle.dm_wire.specs.Codes.{max_avp_len};
ghost use Rattle.dm_wire.specs.Limits.{IsLongAvp, IsLongList};

use crate::codes::limits::{HEADER_LEN, MAX_AVP_LEN, MAX_MESSAGE_LEN};
use crate::{Avp, AvpRef};

/// The most octets that the AVPs of a message take.
const MAX_REST: usize = (MAX_MESSAGE_LEN - HEADER_LEN) as usize;

/// The most AVPs of a message: each takes at least 8 octets.
const MAX_AVPS: usize = MAX_REST / 8;

impl Avp {
    /// The AVP Length: the octets of header and data, without padding (RFC 6733, 4.1). `None` where it would pass
    /// 16777215, the greatest that its field holds. It never answers want of memory.
    pub fn wire_len(&self) -> Option<u32>
        ensures some { IfSome result (λ n. (n ≡ avp_length self.now) × (n ≤ max_avp_len)) }
        ensures none { IfNone result (IsLongAvp self.now) }
    {
        let length = unpadded_avp_len(self);
        if length > MAX_AVP_LEN as usize {
            return None;
        }
        Some(length as u32)
    }
}

impl AvpRef<'_> {
    /// The octets that the AVP takes: header, data and padding (RFC 6733, 4.1). It never answers want of memory.
    #[tactic(auto, using(crate::proofs::Canonicals::canonical_size))]
    pub fn padded_len(&self) -> usize
        ensures { result ≡ length (canonical_avp (avp_of self.now)) }
    {
        (avp_header_len(self.vendor) + self.bytes.len() + 3) / 4 * 4
    }
}

/// The octets of the header of an AVP with this Vendor-ID.
pub(crate) fn avp_header_len(vendor: Option<u32>) -> usize
    ensures len { result ≡ avp_header_len vendor }
    ensures fits { IfSome vendor (λ v. v < 256 ^ 4) }
{
    match vendor {
        None => 8,
        Some(_) => 12,
    }
}

/// The octets of header and data.
fn unpadded_avp_len(avp: &Avp) -> usize
    ensures len { result ≡ avp_length avp.now }
    ensures fits { result < 2 ^ 64 - 3 }
    ensures spelled { result ≤ max_avp_len → SpellsAvp avp.now (canonical_avp avp.now) }
{
    // The contract speaks of the code, whose range is known once it is read.
    let _code = avp.code;
    avp_header_len(avp.vendor) + avp.bytes.as_slice().len()
}

/// 1 for a Length that its field doesn't hold, else 0: a number to add up, and no branch.
fn one_if_too_long(length: usize) -> usize
    ensures one { result ≤ 1 }
    ensures none { result ≡ 0 → length ≤ max_avp_len }
    ensures some { 0 < result → max_avp_len < length }
{
    usize::from(length > MAX_AVP_LEN as usize)
}

/// The octets that the AVPs take, of which the lowest 64 bits are told. `None` where the Length of one doesn't fit.
///
/// The loop has neither a branch nor an end before the last AVP, so that it becomes vector code.
pub(crate) fn wrapping_avp_list_size(avps: &[Avp]) -> Option<usize>
    ensures some { IfSome result (λ n. n ≡ length (canonical_list avps.now) % 2 ^ 64) }
    ensures spelled { IfSome result (λ n. SpellsList avps.now (canonical_list avps.now)) }
    ensures none { IfNone result (IsLongList avps.now) }
{
    let mut size: usize = 0;
    let mut long: usize = 0;
    for avp in avps {
        let length = unpadded_avp_len(avp);
        long += one_if_too_long(length);
        size = size.wrapping_add((length + 3) / 4 * 4);
    }
    if long == 0 { Some(size) } else { None }
}

/// How many octets the AVPs of a message take. `None` where the Length of one, or the Message Length, doesn't fit.
pub(crate) fn checked_message_avps_size(avps: &[Avp]) -> Option<usize>
    ensures size { IfSome result (λ n. n ≡ length (canonical_list avps.now)) }
    ensures fits { IfSome result (λ n. n ≤ MAX_REST) }
    ensures spelled { IfSome result (λ n. SpellsList avps.now (canonical_list avps.now)) }
    ensures none { IfNone result (IsLongList avps.now ⊎ (MAX_REST < length (canonical_list avps.now))) }
{
    // So few AVPs that the sum of their sizes is exact.
    if avps.len() > MAX_AVPS {
        return None;
    }
    let rest = wrapping_avp_list_size(avps)?;
    if rest > MAX_REST {
        return None;
    }
    Some(rest)
}
