//! Messages and lists of AVPs to octets (RFC 6733, 3 and 4.1).
ghost use Rattle.std.specs.Prelude.{◌≡◌, ◌⊎◌, ◌↔◌, ℕ, List, IfOk, IfErr, IfSome, IfNone, IsErrOf};
ghost use Rattle.dm_wire.specs.Spelling.{SpellsList, SpellsMessage};
ghost use Rattle.dm_wire.specs.Canonical.{canonical_list, canonical_header, canonical_message, message_size};
ghost use Rattle.dm_wire.specs.Limits.{IsLongList, IsLongMessage};

use crate::avp_and_header_octets::{fill_with_message, header_octets, push_avp_list};
use crate::codes::limits::HEADER_LEN;
use crate::size::{checked_message_avps_size, wrapping_avp_list_size};
use crate::{Avp, Message, WireFault};
use std::alloc::Global;

/// The AVPs as octets, one after the other, with zero padding and zero reserved bits, as the data of
/// a Grouped AVP (RFC 6733, 4.4).
///
/// Refuses with `TooLong` where the AVP Length of one would pass 16777215, whatever memory there is,
/// else with `NoMemory`. There is no limit on the whole.
#[tactic(auto, using(crate::proofs::Limit::long_list))]
pub fn encode_avps(alloc: Global, avps: &[Avp]) -> Result<Vec<u8>, WireFault>
    ensures octets { IfOk result (λ octets. octets.items ≡ canonical_list avps.now) }
    ensures spelled { IfOk result (λ octets. SpellsList avps.now octets.items) }
    ensures long { IsErrOf result WireFault.TooLong ↔ IsLongList avps.now }
    // What is too long is just what no octets spell.
    ensures unspelled { IsErrOf result WireFault.TooLong ↔ ((s : List ℕ) → SpellsList avps.now s → ⊥) }
    ensures fault { IfErr result (λ fault. (fault ≡ WireFault.TooLong) ⊎ (fault ≡ WireFault.NoMemory)) }
{
    let Some(size) = wrapping_avp_list_size(avps) else {
        return Err(WireFault::TooLong);
    };
    let mut list = Vec::with_capacity(alloc, size)?;
    push_avp_list(&mut list, avps)?;
    Ok(list)
}

/// The header of the message as octets, and how many octets the whole takes. `None` where a field is
/// too small for what it must hold.
fn header_octets_and_size(message: &Message) -> Option<([u8; 20], usize)>
    ensures header { IfSome result (λ sized. sized.0 ≡ canonical_header message.now.header (message_size message.now)) }
    ensures size { IfSome result (λ sized. sized.1 ≡ message_size message.now) }
    ensures list { IfSome result (λ sized. SpellsList message.now.avps (canonical_list message.now.avps)) }
    ensures spelled { IfSome result (λ sized. SpellsMessage message.now (canonical_message message.now)) }
    ensures none { IfNone result (IsLongMessage message.now) }
{
    let rest = checked_message_avps_size(message.avps.as_slice())?;
    let size = HEADER_LEN as usize + rest;
    let header = header_octets(message.header, size as u32)?;
    Some((header, size))
}

impl Message {
    /// The message as octets, with zero padding and zero reserved bits (RFC 6733, 3).
    ///
    /// Refuses with `TooLong` where the AVP Length of an AVP would pass 16777215, the Message Length
    /// 16777212 or the Command Code 16777215, whatever memory there is, else with `NoMemory`.
    #[tactic(auto, using(crate::proofs::Limit::long_message))]
    pub fn encode(&self, alloc: Global) -> Result<Vec<u8>, WireFault>
        ensures octets { IfOk result (λ octets. octets.items ≡ canonical_message self.now) }
        ensures spelled { IfOk result (λ octets. SpellsMessage self.now octets.items) }
        ensures long { IsErrOf result WireFault.TooLong ↔ IsLongMessage self.now }
        // What is too long is just what no octets spell.
        ensures unspelled { IsErrOf result WireFault.TooLong ↔ ((s : List ℕ) → SpellsMessage self.now s → ⊥) }
        ensures fault { IfErr result (λ fault. (fault ≡ WireFault.TooLong) ⊎ (fault ≡ WireFault.NoMemory)) }
    {
        let Some(sized) = header_octets_and_size(self) else {
            return Err(WireFault::TooLong);
        };
        let (header, size) = sized;
        let mut octets = vec![in alloc; 0; size]?;
        fill_with_message(octets.as_mut_slice(), &header, self.avps.as_slice());
        Ok(octets)
    }
}
