//! Messages where they lie (RFC 6733, 3).
ghost use Rattle.std.specs.Prelude.{◌≡◌, ◌↔◌, true, ℕ, List, drop, is_some, IfOk, IsOkAnd, IfErr, IsErrOf};
ghost use Rattle.dm_wire.specs.declared.avp.Avp.{Avp};
ghost use Rattle.dm_wire.specs.declared.fault.WireFault.{WireFault};
ghost use Rattle.dm_wire.specs.declared.message.Message.{Message};
ghost use Rattle.dm_wire.specs.Members.{members};
ghost use Rattle.dm_wire.specs.Spelling.{SpellsList, SpellsMessage};
ghost use Rattle.dm_wire.specs.Refusal.{IsTooShort, IsOtherVersion, IsOtherLength, IsBadAt, Refuses};

use crate::first_avp_and_header::read_header;
use crate::walk::check_avps;
use crate::{Header, WireFault};

/// The octets that a header takes.
pub(crate) const HEADER_LEN: usize = 20;

/// A message where it lies: its header, and the octets that spell its AVPs (RFC 6733, 3).
#[derive(Clone, Copy, Debug)]
pub struct MessageRef<'a> {
    /// The header.
    pub header: Header,
    /// The octets behind the header: AVPs, one after the other.
    pub rest: &'a [u8],
    pub ghost framed: { is_some (members rest.now) ≡ true },
}

/// The message that the octets spell, or what is wrong with them.
fn read_message_ref(octets: &[u8]) -> Result<MessageRef<'_>, WireFault>
    ensures found { IfOk result (λ read. (avps : List Avp) × SpellsList avps read.rest.now
        × SpellsMessage (record { header = read.header; avps = avps }) octets.now) }
    ensures rest { IfOk result (λ read. read.rest.now ≡ drop 20 octets.now) }
    ensures each { IfOk result (λ read. (avps : List Avp) → SpellsList avps read.rest.now
        → SpellsMessage (record { header = read.header; avps = avps }) octets.now) }
    ensures fault { IfErr result (Refuses octets.now) }
{
    let header = read_header(octets)?;
    let rest = &octets[HEADER_LEN..];
    match check_avps(rest) {
        Ok(()) => Ok(MessageRef { header, rest }),
        Err(offset) => Err(WireFault::AvpLength(HEADER_LEN + offset)),
    }
}

impl<'a> MessageRef<'a> {
    /// The message that the octets spell, where it lies. It never answers want of memory.
    ///
    /// Refuses as `Message::decode` does, in this order: `TooShort`, `Version`, `Length`, `AvpLength` with the offset
    /// of the first bad AVP from the first octet of the message. It never answers `TooLong` or `NoMemory`.
    pub fn read(octets: &'a [u8]) -> Result<MessageRef<'a>, WireFault>
        // What is read is spelled so.
        ensures found { IfOk result (λ read. (avps : List Avp) × SpellsList avps read.rest.now
            × SpellsMessage (record { header = read.header; avps = avps }) octets.now) }
        ensures rest { IfOk result (λ read. read.rest.now ≡ drop 20 octets.now) }
        // What is spelled so is read.
        ensures only { (message : Message) → SpellsMessage message octets.now
            → IsOkAnd result (λ read. (read.header ≡ message.header) × SpellsList message.avps read.rest.now) }

        ensures short { IsErrOf result WireFault.TooShort ↔ IsTooShort octets.now }
        ensures version { IsErrOf result WireFault.Version ↔ IsOtherVersion octets.now }
        ensures length { IsErrOf result WireFault.Length ↔ IsOtherLength octets.now }
        // Up to the offset the octets have a list of AVPs, and there no AVP begins.
        ensures avp { (o : ℕ) → IsErrOf result (WireFault.AvpLength o) → IsBadAt 20 octets.now o }
        // Every refusal is the octets' own, and what is wrong with them is answered.
        ensures fault { IfErr result (Refuses octets.now) }
        ensures refuses { (fault : WireFault) → Refuses octets.now fault → IsErrOf result fault }
    {
        let read = read_message_ref(octets)?;
        Ok(read)
    }
}
