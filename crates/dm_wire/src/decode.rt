//! Messages and lists of AVPs from octets (RFC 6733, 3 and 4.1).
ghost use Rattle.std.specs.Prelude.{◌≡◌, ◌≢◌, ◌≤◌, ◌⊎◌, ◌↔◌, true, ℕ, List, []};
ghost use Rattle.std.specs.Prelude.{Ok, IfOk, IfErr, IsErrOf, IfSome, MatchResult};
ghost use Rattle.dm_wire.specs.declared.avp.Avp.{Avp};
ghost use Rattle.dm_wire.specs.declared.fault.WireFault.{WireFault};
ghost use Rattle.dm_wire.specs.Spelling.{SpellsList, SpellsMessage};
ghost use Rattle.dm_wire.specs.Refusal.{IsTooShort, IsOtherVersion, IsOtherLength, IsBadAt, Refuses};

use crate::avp_extent::{copy_first_avp, first_avp_extent};
use crate::first_avp_and_header::read_header;
use crate::message_ref::HEADER_LEN;
use crate::walk::check_avps;
use crate::{Avp, AvpList, Message, MessageRef, WireFault};
use std::alloc::{AllocError, Global};

/// The most AVPs that are counted ahead, so that their list takes its room at once. A longer one grows as it is read.
const SHORT_LIST: usize = 25;

/// How many AVPs the octets begin with, or 0 where they are more than a short list has. It is for their room alone: no
/// clause says more than that it is 25 at most.
fn count_avps_if_few(octets: &[u8]) -> usize
    ensures { result ≤ 25 }
{
    let mut left = octets;
    for count in 0..SHORT_LIST + 1 {
        let Some(extent) = first_avp_extent(left) else {
            return count;
        };
        left = &left[extent.size..];
    }
    0
}

/// Copies of the AVPs at the front of the octets, pushed one after the other up to the first bad one; true only where
/// there is none.
// (A function of its own in the machine's code too: among its caller's values the loop would lack registers.)
#[inline(never)]
fn push_avps_up_to_bad_one(
    alloc: Global,
    avps: &mut Vec<Avp>,
    octets: &[u8],
) -> Result<bool, AllocError>
    requires empty { avps.old.items ≡ [] }
    ensures { result ≡ Ok true → SpellsList avps.new.items octets.now }
{
    let mut left = octets;
    while let Some(extent) = first_avp_extent(left) {
        avps.reserve(1)?;
        avps.push_reserved(copy_first_avp(alloc, left, extent)?);
        left = &left[extent.size..];
    }
    Ok(left.is_empty())
}

/// Copies of the AVPs that the octets are. `None` where they are no AVPs, or memory runs out.
fn copy_spelled_avps(alloc: Global, octets: &[u8]) -> Option<Vec<Avp>>
    ensures { IfSome result (λ avps. SpellsList avps.items octets.now) }
{
    let mut avps = Vec::with_capacity(alloc, count_avps_if_few(octets)).ok()?;
    match push_avps_up_to_bad_one(alloc, &mut avps, octets) {
        Ok(true) => Some(avps),
        _ => None,
    }
}

/// Why no AVPs came of these octets: a bad one, or want of memory.
fn avp_list_fault_or_no_memory(octets: &[u8]) -> WireFault
    ensures { ((l : List Avp) × (result ≡ WireFault.NoMemory) × SpellsList l octets.now)
        ⊎ ((o : ℕ) × (result ≡ WireFault.AvpLength o) × IsBadAt 0 octets.now o) }
{
    match check_avps(octets) {
        Ok(_) => WireFault::NoMemory,
        Err(offset) => WireFault::AvpLength(offset),
    }
}

/// Why no message came of these octets: what is wrong with them, or want of memory.
fn message_fault_or_no_memory(octets: &[u8]) -> WireFault
    ensures { ((m : Message) × (result ≡ WireFault.NoMemory) × SpellsMessage m octets.now) ⊎ Refuses octets.now result }
{
    match MessageRef::read(octets) {
        Ok(_) => WireFault::NoMemory,
        Err(fault) => fault,
    }
}

/// The message that the octets spell, or why they spell none. Where its AVPs can't be copied, a walk tells why.
fn read_message(alloc: Global, octets: &[u8]) -> Result<Message, WireFault>
    ensures found { IfOk result (λ message. SpellsMessage message octets.now) }
    ensures fault { IfErr result (λ fault.
        ((m : Message) × (fault ≡ WireFault.NoMemory) × SpellsMessage m octets.now) ⊎ Refuses octets.now fault) }
{
    let header = read_header(octets)?;
    let Some(avps) = copy_spelled_avps(alloc, &octets[HEADER_LEN..]) else {
        return Err(message_fault_or_no_memory(octets));
    };
    Ok(Message {
        header,
        avps: AvpList::from_vec(avps),
    })
}

impl Message {
    /// The message that the octets spell. Padding octets and reserved bits may hold anything, and
    /// are not kept.
    ///
    /// Refuses in this order, whatever memory there is: `TooShort`, `Version`, `Length`, `AvpLength` with the
    /// offset of the first bad AVP from the first octet of the message. `NoMemory` comes only where the octets
    /// spell a message. It never answers `TooLong`.
    pub fn decode(alloc: Global, octets: &[u8]) -> Result<Message, WireFault>
        // What is read is spelled so.
        ensures found { IfOk result (λ message. SpellsMessage message octets.now) }
        // What is spelled so is read, unless memory runs out.
        ensures only { (message : Message) → SpellsMessage message octets.now
            → (result ≡ Ok message) ⊎ (result ≡ Err WireFault.NoMemory) }

        ensures short { IsErrOf result WireFault.TooShort ↔ IsTooShort octets.now }
        ensures version { IsErrOf result WireFault.Version ↔ IsOtherVersion octets.now }
        ensures length { IsErrOf result WireFault.Length ↔ IsOtherLength octets.now }
        // Up to the offset the octets have a list of AVPs, and there no AVP begins.
        ensures avp { (o : ℕ) → IsErrOf result (WireFault.AvpLength o) → IsBadAt 20 octets.now o }
        ensures fits { result ≢ Err WireFault.TooLong }
        // Every refusal but want of memory is the octets' own.
        ensures fault { IfErr result (λ fault. (fault ≡ WireFault.NoMemory) ⊎ Refuses octets.now fault) }
        // What is wrong with the octets is answered, whatever memory there is.
        ensures refuses { (fault : WireFault) → Refuses octets.now fault → IsErrOf result fault }
        // Memory is wanted only for a message that is spelled.
        ensures memory { IsErrOf result WireFault.NoMemory → (m : Message) × SpellsMessage m octets.now }
    {
        read_message(alloc, octets)
    }
}

/// The AVPs that the octets spell, one after the other, as the data of a Grouped AVP (RFC 6733,
/// 4.4). Padding octets and reserved bits may hold anything, and are not kept.
///
/// Refuses with `AvpLength` and the offset of the first bad AVP from the first octet, whatever memory there is; a last
/// AVP without its padding is bad. `NoMemory` comes only where the octets spell a list. There is no other refusal.
pub fn decode_avps(alloc: Global, octets: &[u8]) -> Result<Vec<Avp>, WireFault>
    // What is read is spelled so.
    ensures found { IfOk result (λ avps. SpellsList avps.items octets.now) }
    // What is spelled so is read, unless memory runs out.
    ensures only { (l : List Avp) → SpellsList l octets.now
        → MatchResult result (λ avps. avps.items ≡ l) (λ fault. fault ≡ WireFault.NoMemory) }

    // Up to the offset the octets have a list of AVPs, and there no AVP begins.
    ensures avp { (o : ℕ) → IsErrOf result (WireFault.AvpLength o) → IsBadAt 0 octets.now o }
    // Every refusal but want of memory is the octets' own.
    ensures fault { IfErr result (λ fault. (fault ≡ WireFault.NoMemory)
        ⊎ ((o : ℕ) × (fault ≡ WireFault.AvpLength o) × IsBadAt 0 octets.now o)) }
    // A bad AVP is answered, whatever memory there is.
    ensures refuses { (o : ℕ) → IsBadAt 0 octets.now o → IsErrOf result (WireFault.AvpLength o) }
    // Memory is wanted only for a list that is spelled.
    ensures memory { IsErrOf result WireFault.NoMemory → (l : List Avp) × SpellsList l octets.now }
{
    match copy_spelled_avps(alloc, octets) {
        Some(avps) => Ok(avps),
        None => Err(avp_list_fault_or_no_memory(octets)),
    }
}
