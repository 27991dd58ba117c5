//! What stands at the front of a stream (RFC 6733, 3).
ghost use Rattle.std.specs.Prelude.{◌≡◌, ◌<◌, ◌≤◌, ◌+◌, ◌⊎◌, ◌++◌, ℕ, List, length, take};
ghost use Rattle.std.specs.Prelude.{IfOk, IfErr, IfSome, IfNone, OnErr};
ghost use Rattle.dm_framer.specs.declared.fault.FrameFault.{FrameFault};
ghost use Rattle.dm_framer.specs.Frames.{IsFrame, HasFault, HasLength, IsPartial, BeginsWithFrame, BeginsWithNoFrame};

use crate::FrameFault;
use byteorder::{BigEndian, ByteOrder};

/// The one version of the protocol (RFC 6733, 3).
const VERSION: u8 = 1;

/// The octets of a message's header, and so of the least message.
const HEADER_LEN: u32 = 20;

/// The octets of a header by which its Message Length is told.
pub(crate) const HEADER_FRONT: usize = 4;

/// How many octets the message at the front takes; `None` where it isn't whole yet, or nothing is there. It never
/// answers want of memory.
///
/// Answers the faults that [`Framer::front`](crate::Framer::front) answers.
///
/// ```text
///  0                   1                   2                   3
///  0 1 2 3 4 5 6 7 8 9 0 1 2 3 4 5 6 7 8 9 0 1 2 3 4 5 6 7 8 9 0 1
/// |    Version    |                 Message Length                |
/// ```
pub fn front_len(octets: &[u8], max: u32) -> Result<Option<usize>, FrameFault>
    ensures within { IfOk result (λ found. IfSome found (λ size. size ≤ length octets.now)) }
    ensures frame { IfOk result (λ found. IfSome found (λ size. IsFrame max (take size octets.now))) }
    ensures partial { IfOk result (λ found. IfNone found (IsPartial max octets.now)) }
    ensures fault { IfErr result (λ fault. HasFault max octets.now fault) }
    // Where no length is answered none is there.
    ensures none { OnErr result (BeginsWithNoFrame max octets.now) }
{
    if octets.is_empty() {
        return Ok(None);
    }
    if octets[0] != VERSION {
        return Err(FrameFault::BadVersion);
    }
    if octets.len() < 4 {
        return Ok(None);
    }
    let size = BigEndian::read_u24(&octets[1..]);
    if size < HEADER_LEN || size % 4 != 0 {
        return Err(FrameFault::BadLength);
    }
    if max < size {
        return Err(FrameFault::TooLong);
    }
    let size = size as usize;
    if octets.len() < size {
        return Ok(None);
    }
    Ok(Some(size))
}

/// The Message Length at the front, where it is told, and is one that a message may have. It never answers want of
/// memory.
fn announced_good_length(octets: &[u8], max: u32) -> Option<usize>
    ensures told { IfSome result (HasLength max octets.now) }
    ensures none { IfNone result ((length octets.now < 4) ⊎ ((fault : FrameFault) × HasFault max octets.now fault)) }
{
    if octets.len() < HEADER_FRONT {
        return None;
    }
    match front_len(octets, max) {
        Ok(_) => Some(BigEndian::read_u24(&octets[1..]) as usize),
        Err(_) => None,
    }
}

/// How many of so many octets that come the message at the front wants: all where it isn't whole with fewer, and
/// where its length isn't told yet or the front is bad. It never answers want of memory.
pub(crate) fn len_until_front_is_whole(octets: &[u8], max: u32, coming: usize) -> usize
    ensures within { result ≤ coming }
    ensures front { result < coming → (t : List ℕ) → length t ≡ result → BeginsWithFrame max (octets.now ++ t) }
    ensures least { (t : List ℕ) → 4 ≤ length octets.now → length t < result
        → BeginsWithNoFrame max (octets.now ++ t) }
{
    match announced_good_length(octets, max) {
        Some(size) => size.saturating_sub(octets.len()).min(coming),
        None => coming,
    }
}
