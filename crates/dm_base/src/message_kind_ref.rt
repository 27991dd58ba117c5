//! What kind of message a message is, where it lies (RFC 6733, 5.3 to 5.5).
ghost use Rattle.std.specs.Prelude.{◌≡◌, List, true, is_some, Some, Ok, Err, IfOk, IfErr};
ghost use Rattle.dm_wire.specs.declared.avp.Avp.{Avp};
ghost use Rattle.dm_wire.specs.Members.{members};
ghost use Rattle.dm_wire.specs.Spelling.{SpellsList};
ghost use Rattle.dm_dict.specs.Faults.{Fault};
ghost use Rattle.dm_dict.specs.Judgement.{shown};
ghost use Rattle.dm_base.specs.declared.kind.Kind.{Kind};
ghost use Rattle.dm_base.specs.Kinds.{kind, kind_by};
ghost use Rattle.dm_base.specs.Shown.{ShowsKind, LiesIn, kind_with};

use crate::BaseCommand;
use crate::caps_ref::CapsRef;
use crate::codes::{DISCONNECT_CAUSE, ORIGIN_HOST, ORIGIN_REALM, RESULT_CODE};
use crate::kind_ref::KindRef;
use crate::private_laws::members_are_what_these_octets_spell;
use crate::received_avps::{first_data_of_code, first_number_or_zero};
use dm_dict::{Dictionary, Judged};
use dm_wire::{AvpsRef, MessageRef};

/// The kind of a message of this command and R bit with the AVPs in these octets, its parts where they lie.
fn kind_with_borrowed_parts<'a>(command: BaseCommand, request: bool, rest: &'a [u8]) -> KindRef<'a>
    requires { is_some (members rest.now) ≡ true }
    ensures told { (l : List Avp) → members rest.now ≡ Some l → kind_with l result ≡ kind_by (Some command) request l }
    ensures lies { LiesIn result rest.now }
{
    let avps = AvpsRef::Spelled(rest);
    match command {
        BaseCommand::CapabilitiesExchange if request => KindRef::Cer(CapsRef {
            host: first_data_of_code(avps, ORIGIN_HOST),
            realm: first_data_of_code(avps, ORIGIN_REALM),
            rest,
        }),
        BaseCommand::CapabilitiesExchange => KindRef::Cea(first_number_or_zero(avps, RESULT_CODE)),
        BaseCommand::DeviceWatchdog if request => KindRef::Dwr,
        BaseCommand::DeviceWatchdog => KindRef::Dwa,
        BaseCommand::DisconnectPeer if request => {
            KindRef::Dpr(first_number_or_zero(avps, DISCONNECT_CAUSE).cast_signed())
        }
        BaseCommand::DisconnectPeer => KindRef::Dpa,
    }
}

/// What kind of message the message is (RFC 6733, 5.3 to 5.5), with its parts where they lie: what `classify` tells of
/// the message that it stands for. It never answers want of memory.
///
/// Refuses with the first fault where a message of the commands 257, 280 and 282 is bad.
pub fn view<'a>(
    dictionary: &Dictionary,
    message: &MessageRef<'a>,
) -> Result<KindRef<'a>, Judged<'a>>
    ensures found { (l : List Avp) → SpellsList l message.now.rest.now
        → IfOk result (λ shows. (k : Kind)
        × (kind dictionary.now (record { header = message.now.header; avps = l }) ≡ Ok k) × ShowsKind shows k) }
    ensures fault { (l : List Avp) → SpellsList l message.now.rest.now
        → IfErr result (λ judged. (e : Fault)
        × (kind dictionary.now (record { header = message.now.header; avps = l }) ≡ Err e) × (shown judged ≡ Some e)) }
    // The AVPs of a CER's capabilities are those of the message, where they lie.
    ensures lies { IfOk result (λ shows. LiesIn shows message.now.rest.now) }
{
    let header = message.header;
    let Some(command) = BaseCommand::of(header.command) else {
        return Ok(KindRef::Other);
    };
    match dictionary.judge(message) {
        Judged::Good => {
            members_are_what_these_octets_spell(message.rest);
            Ok(kind_with_borrowed_parts(command, header.request, message.rest))
        }
        bad => Err(bad),
    }
}
