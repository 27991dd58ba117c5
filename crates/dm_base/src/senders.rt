//! What a capabilities exchange says of its sender, and a disconnect of its cause, where it lies in the message
//! (RFC 6733, 5.3 and 5.4.3).
ghost use Rattle.std.specs.Prelude.{◌≡◌, ◌≢◌, List, [], is_some, nat_eq, OnErr, IfSome};
ghost use Rattle.std.specs.List.{flat_map};
ghost use Rattle.dm_wire.specs.declared.avp.Avp.{Avp};
ghost use Rattle.dm_wire.specs.Spelling.{SpellsList};
ghost use Rattle.dm_base.specs.Codes.{capabilities_exchange};
ghost use Rattle.dm_base.specs.Senders.{HasAvps, number_told, numbers_told, cause_told};

use crate::codes::{
    CAPABILITIES_EXCHANGE, DISCONNECT_CAUSE, DISCONNECT_PEER, FIRMWARE_REVISION, ORIGIN_HOST,
    ORIGIN_REALM, ORIGIN_STATE_ID, PRODUCT_NAME, SUPPORTED_VENDOR_ID, VENDOR_ID,
};
use crate::private_laws::members_are_what_these_octets_spell;
use crate::received_avps::{
    first_data_of_code, first_number_of_code, push_all_numbers_of_code, read_application_ids,
};
use crate::{IdList, SenderRef};
use dm_dict::NoMemory;
use dm_wire::{AvpsRef, MessageRef};
use std::alloc::Global;

impl<'a> SenderRef<'a> {
    ghost use Rattle.std.specs.Prelude.{IfOk};
    ghost use Rattle.dm_base.specs.Codes.{firmware_revision, origin_host, origin_realm, origin_state_id};
    ghost use Rattle.dm_base.specs.Codes.{product_name, supported_vendor_id, vendor_id};
    ghost use Rattle.dm_base.specs.Kinds.{data_at, application_ids};

    /// The first Origin-Host; where there is none, no octets (6.3). It never answers want of memory.
    pub fn host(&self) -> &'a [u8]
        ensures { (l : List Avp) → HasAvps self.now l → result.now ≡ data_at origin_host l }
    {
        first_data_of_code(AvpsRef::Spelled(self.rest), ORIGIN_HOST)
    }

    /// The first Origin-Realm; where there is none, no octets (6.4). It never answers want of memory.
    pub fn realm(&self) -> &'a [u8]
        ensures { (l : List Avp) → HasAvps self.now l → result.now ≡ data_at origin_realm l }
    {
        first_data_of_code(AvpsRef::Spelled(self.rest), ORIGIN_REALM)
    }

    /// The octets of the first Product-Name; where there is none, no octets (5.3.7). It never answers want of memory.
    pub fn product(&self) -> &'a [u8]
        ensures { (l : List Avp) → HasAvps self.now l → result.now ≡ data_at product_name l }
    {
        first_data_of_code(AvpsRef::Spelled(self.rest), PRODUCT_NAME)
    }

    /// The number of the first Vendor-Id, where it has four octets (5.3.3). It never answers want of memory.
    pub fn vendor(&self) -> Option<u32>
        ensures { (l : List Avp) → HasAvps self.now l → result ≡ number_told vendor_id l }
    {
        first_number_of_code(AvpsRef::Spelled(self.rest), VENDOR_ID)
    }

    /// The number of the first Firmware-Revision, where it has four octets (5.3.4). It never answers want of memory.
    pub fn firmware(&self) -> Option<u32>
        ensures { (l : List Avp) → HasAvps self.now l → result ≡ number_told firmware_revision l }
    {
        first_number_of_code(AvpsRef::Spelled(self.rest), FIRMWARE_REVISION)
    }

    /// The number of the first Origin-State-Id, where it has four octets; a greater one than before says that the
    /// sender has lost its state (8.16). It never answers want of memory.
    pub fn state_id(&self) -> Option<u32>
        ensures { (l : List Avp) → HasAvps self.now l → result ≡ number_told origin_state_id l }
    {
        first_number_of_code(AvpsRef::Spelled(self.rest), ORIGIN_STATE_ID)
    }

    /// The ids of its applications, in order of the message, those of Vendor-Specific-Application-Id too (6.8, 6.9 and
    /// 6.11); or want of memory, which comes only where there are some.
    pub fn applications(&self, alloc: Global) -> Result<IdList, NoMemory>
        ensures ids { (l : List Avp) → HasAvps self.now l → IfOk result (λ ids. ids ≡ flat_map application_ids l) }
        ensures memory { (l : List Avp) → HasAvps self.now l → OnErr result (flat_map application_ids l ≢ []) }
    {
        read_application_ids(alloc, AvpsRef::Spelled(self.rest))
    }

    /// The vendors that it names with Supported-Vendor-Id, in order of the message (5.3.6); or want of memory,
    /// which comes only where there are some.
    pub fn vendors(&self, alloc: Global) -> Result<IdList, NoMemory>
        ensures ids { (l : List Avp) → HasAvps self.now l
            → IfOk result (λ ids. ids ≡ numbers_told supported_vendor_id l) }
        ensures memory { (l : List Avp) → HasAvps self.now l → OnErr result (numbers_told supported_vendor_id l ≢ []) }
    {
        let mut ids = Vec::new(alloc);
        push_all_numbers_of_code(&mut ids, AvpsRef::Spelled(self.rest), SUPPORTED_VENDOR_ID)?;
        Ok(IdList::from_vec(ids))
    }
}

/// What the message says of its sender, where its command is 257 (Capabilities-Exchange): a CER or a CEA (RFC 6733,
/// 5.3). The message isn't checked: whether it is good says `view`. It never answers want of memory.
pub fn sender<'a>(message: &MessageRef<'a>) -> Option<SenderRef<'a>>
    ensures some { is_some result ≡ nat_eq message.now.header.command capabilities_exchange }
    ensures tells { (l : List Avp) → SpellsList l message.now.rest.now → IfSome result (λ r. HasAvps r l) }
{
    if message.header.command != CAPABILITIES_EXCHANGE {
        return None;
    }
    members_are_what_these_octets_spell(message.rest);
    Some(SenderRef { rest: message.rest })
}

/// The Disconnect-Cause of a Disconnect-Peer-Request, where it has one of four octets: BUSY (1) and
/// DO_NOT_WANT_TO_TALK_TO_YOU (2) ask the receiver not to call again (RFC 6733, 5.4.3). None for other messages. It
/// never answers want of memory.
pub fn disconnect_cause(message: &MessageRef<'_>) -> Option<i32>
    ensures { (l : List Avp) → SpellsList l message.now.rest.now → result ≡ cause_told message.now.header l }
{
    if message.header.command != DISCONNECT_PEER || !message.header.request {
        return None;
    }
    members_are_what_these_octets_spell(message.rest);
    match first_number_of_code(AvpsRef::Spelled(message.rest), DISCONNECT_CAUSE) {
        Some(number) => Some(number.cast_signed()),
        None => None,
    }
}
