//! Who calls, as the first message of a connection says.
ghost use Rattle.std.specs.Prelude.{◌≡◌, List, IfSome, IfNone, Some, None};
ghost use Rattle.std.specs.Option.{option_copied};
ghost use Rattle.dm_base.specs.Codes.{origin_host};
ghost use Rattle.dm_base.specs.Kinds.{is_plain};
ghost use Rattle.dm_node.specs.Calling.{calling_host, is_cer_header, caller_in, caller_of};
ghost use Rattle.dm_wire.specs.declared.avp.Avp.{Avp};
ghost use Rattle.dm_wire.specs.Borrowed.{avp_of, Lists};
ghost use Rattle.dm_wire.specs.Members.{members};
ghost use Rattle.dm_wire.specs.Spelling.{SpellsList};

use dm_base::codes::{CAPABILITIES_EXCHANGE, ORIGIN_HOST};
use dm_peer::read_message;
use dm_wire::laws::members_are_what_octets_spell;
use dm_wire::{AvpRef, AvpsRef, Header, MessageRef};

/// Whether the AVP is an Origin-Host.
fn is_origin_host(avp: AvpRef<'_>) -> bool
    ensures { result ≡ is_plain origin_host (avp_of avp.entry) }
{
    avp.code == ORIGIN_HOST && avp.vendor.is_none()
}

/// The data of the first Origin-Host; None where there is none.
fn first_origin_host<'a>(avps: AvpsRef<'a>) -> Option<&'a [u8]>
    ensures { (l : List Avp) → Lists avps.entry l → option_copied result ≡ calling_host l }
{
    let mut left = avps;
    while let Some((avp, rest)) = left.split_first() {
        if is_origin_host(avp) {
            return Some(avp.bytes);
        }
        left = rest;
    }
    None
}

/// Whether the header is that of a CER.
fn is_cer(header: &Header) -> bool
    ensures { result ≡ is_cer_header header.now }
{
    header.command == CAPABILITIES_EXCHANGE && header.request
}

/// Does nothing: its contract says that octets which spell AVPs are read as those.
fn spelled_avps_are_read(octets: &[u8])
    ensures { (l : List Avp) → SpellsList l octets.now → members octets.now ≡ Some l }
{
    members_are_what_octets_spell();
}

/// The header of a message that is a CER, and the host that it says it is from. None where it is no CER, or names none.
fn cer_header_and_host<'a>(message: &MessageRef<'a>) -> Option<(Header, &'a [u8])>
    ensures found { (l : List Avp) → SpellsList l message.now.rest.now → IfSome result (λ r.
        caller_in (Some (record { header = message.now.header; avps = l })) ≡ Some (r.0, r.1.now)) }
    ensures none { (l : List Avp) → SpellsList l message.now.rest.now → IfNone result
        (caller_in (Some (record { header = message.now.header; avps = l })) ≡ None) }
{
    if !is_cer(&message.header) {
        return None;
    }
    spelled_avps_are_read(message.rest);
    match first_origin_host(AvpsRef::Spelled(message.rest)) {
        Some(host) => Some((message.header, host)),
        None => None,
    }
}

/// The header of a CER, and the host that it says it is from. None where the octets are no CER, or it names none. It
/// never answers want of memory.
pub(crate) fn read_cer_header_and_host<'a>(octets: &'a [u8]) -> Option<(Header, &'a [u8])>
    ensures found { IfSome result (λ r. caller_of octets.now ≡ Some (r.0, r.1.now)) }
    ensures none { IfNone result (caller_of octets.now ≡ None) }
{
    match read_message(octets) {
        Some(message) => cer_header_and_host(&message),
        None => None,
    }
}
