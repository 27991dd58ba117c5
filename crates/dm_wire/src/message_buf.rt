//! Messages held as they came, in one block (RFC 6733, 3).
ghost use Rattle.std.specs.Prelude.{◌≡◌, ◌⊎◌, option_map, length, slice_get, IfOk, IfErr, IsErrOf, MatchResult};
ghost use Rattle.std.specs.List.{find};
ghost use Rattle.dm_wire.specs.declared.fault.WireFault.{WireFault};
ghost use Rattle.dm_wire.specs.declared.message.Message.{Message};
ghost use Rattle.dm_wire.specs.Borrowed.{avp_of};
ghost use Rattle.dm_wire.specs.Finding.{is_of};
ghost use Rattle.dm_wire.specs.Spelling.{SpellsList, SpellsMessage};
ghost use Rattle.dm_wire.specs.Refusal.{Refuses};

use crate::avp_places::{avp_at, avp_places, first_matching_avp};
use crate::message_ref::HEADER_LEN;
use crate::{AvpRef, Header, MessageRef, WireFault};
use std::alloc::Global;
use std::marker::Model;

/// A message held as it came: its octets in one block, and beside them where each AVP begins (RFC 6733, 3). Its AVPs
/// are read where they lie, so that there are two requests for memory, however many AVPs it has.
///
/// A contract sees it as its octets.
#[derive(Debug, Drop)]
pub struct MessageBuf {
    header: Header,
    octets: Vec<u8>,
    places: Vec<usize>,
}

impl Model for MessageBuf {
    ghost use Rattle.std.specs.Prelude.{ℕ, List};
    ghost use Rattle.dm_wire.specs.Held.{HoldsMessage};

    ghost Value = { List ℕ };

    ghost view = { λ held. held.octets.items };

    ghost invariant = { λ held. HoldsMessage held.header held.octets.items held.places.items };
}

impl MessageBuf {
    /// The message that the octets spell. They are moved and not copied, and dropped where they spell none.
    ///
    /// Refuses as `Message::decode` does, in this order, whatever memory there is: `TooShort`, `Version`, `Length`,
    /// `AvpLength` with the offset of the first bad AVP from the first octet of the message. `NoMemory` comes only
    /// where the octets spell a message. It never answers `TooLong`.
    pub fn new(alloc: Global, octets: Vec<u8>) -> Result<MessageBuf, WireFault>
        ensures held { IfOk result (λ held. held ≡ octets.items) }
        // What is held spells a message.
        ensures found { IfOk result (λ held. (m : Message) × SpellsMessage m octets.items) }
        // What is spelled so is held, unless memory runs out.
        ensures only { (m : Message) → SpellsMessage m octets.items
            → MatchResult result (λ held. held ≡ octets.items) (λ fault. fault ≡ WireFault.NoMemory) }
        // Every refusal but want of memory is the octets' own.
        ensures fault { IfErr result (λ fault. (fault ≡ WireFault.NoMemory) ⊎ Refuses octets.items fault) }
        // What is wrong with the octets is answered, whatever memory there is.
        ensures refuses { (fault : WireFault) → Refuses octets.items fault → IsErrOf result fault }
        // Memory is wanted only for a message that is spelled.
        ensures memory { IsErrOf result WireFault.NoMemory → (m : Message) × SpellsMessage m octets.items }
    {
        let header = match MessageRef::read(octets.as_slice()) {
            Ok(message) => message.header,
            Err(fault) => return Err(fault),
        };
        match avp_places(alloc, &octets[HEADER_LEN..]) {
            Ok(places) => Ok(MessageBuf {
                header,
                octets,
                places,
            }),
            Err(_) => Err(WireFault::NoMemory),
        }
    }

    /// The octets, as they came. It never answers want of memory.
    pub fn octets(&self) -> &[u8]
        ensures { result.now ≡ self.now }
    {
        self.octets.as_slice()
    }

    /// The octets, as they came, which are moved and not copied.
    pub fn into_octets(self) -> Vec<u8>
        ensures { result.items ≡ self }
    {
        let MessageBuf { octets, .. } = self;
        octets
    }

    /// The header. It never answers want of memory.
    pub fn header(&self) -> Header
        ensures { (m : Message) → SpellsMessage m self.now → result ≡ m.header }
    {
        self.header
    }

    /// How many AVPs there are. Those inside a group count as one with it. It never answers want of memory.
    pub fn len(&self) -> usize
        ensures { (m : Message) → SpellsMessage m self.now → result ≡ length m.avps }
    {
        self.places.len()
    }

    /// The AVP of this number, from 0 on, where it lies; `None` where there are no more. It never answers want of
    /// memory.
    pub fn get(&self, index: usize) -> Option<AvpRef<'_>>
        ensures { (m : Message) → SpellsMessage m self.now → option_map avp_of result ≡ slice_get m.avps index }
    {
        let place = *self.places.get(index)?;
        avp_at(&self.octets[HEADER_LEN..], place)
    }

    /// The first AVP of this code and vendor, where it lies. It never answers want of memory.
    pub fn avp(&self, code: u32, vendor: Option<u32>) -> Option<AvpRef<'_>>
        ensures { (m : Message) → SpellsMessage m self.now
            → option_map avp_of result ≡ find (is_of code vendor) m.avps }
    {
        first_matching_avp(
            &self.octets[HEADER_LEN..],
            self.places.as_slice(),
            code,
            vendor,
        )
    }

    /// The message where it lies. It never answers want of memory.
    pub fn borrowed(&self) -> MessageRef<'_>
        ensures { (m : Message) → SpellsMessage m self.now
            → (result.header ≡ m.header) × SpellsList m.avps result.rest.now }
    {
        MessageRef {
            header: self.header,
            rest: &self.octets[HEADER_LEN..],
        }
    }
}
