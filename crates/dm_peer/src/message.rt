//! Messages where they lie in octets, and octets of messages.
ghost use Rattle.std.specs.Prelude.{◌≡◌, IfOk, List, Some, None};
ghost use Rattle.std.specs.Option.{MatchOption};
ghost use Rattle.dm_wire.specs.declared.avp.Avp.{Avp};
ghost use Rattle.dm_wire.specs.Spelling.{SpellsList, SpellsMessage};
ghost use Rattle.dm_wire.specs.Whole.{message_in};
ghost use Rattle.dm_peer.specs.Octets.{octets_of};

use dm_dict::NoMemory;
use dm_wire::laws::{message_in_octets_is_what_they_spell, octets_of_messages_have_no_fault};
use dm_wire::{Message, MessageRef, Octets};
use std::alloc::Global;

/// The message that the octets spell, where they spell one (RFC 6733, 3). It never answers want of memory.
pub fn read_message(octets: &[u8]) -> Option<MessageRef<'_>>
    ensures { MatchOption result
        (message_in octets.now ≡ None)
        (λ read. (l : List Avp) × SpellsList l read.rest.now
        × (message_in octets.now ≡ Some (record { header = read.header; avps = l }))) }
{
    message_in_octets_is_what_they_spell();
    octets_of_messages_have_no_fault();
    match MessageRef::read(octets) {
        Ok(message) => Some(message),
        Err(_) => None,
    }
}

/// The octets that the message is sent as; or want of memory.
#[tactic(auto, unfolding(crate::specs::Octets::octets_of))]
pub fn sent_octets(alloc: Global, message: &Message) -> Result<Octets, NoMemory>
    ensures octets { IfOk result (λ octets. octets ≡ octets_of message.now) }
    ensures spelled { IfOk result (λ octets. SpellsMessage message.now octets) }
{
    match message.encode(alloc) {
        Ok(octets) => Ok(Octets::from_vec(octets)),
        Err(_) => Err(NoMemory),
    }
}
