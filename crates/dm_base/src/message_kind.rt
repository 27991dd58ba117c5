//! What kind of message a message is, with copies of its parts (RFC 6733, 5.3 to 5.5).
ghost use Rattle.std.specs.Prelude.{◌≡◌, ◌⊎◌, List, Some, Ok, Err, IfOk, IfErr, IsErrOf, OnErr};
ghost use Rattle.dm_wire.specs.declared.avp.Avp.{Avp};
ghost use Rattle.dm_dict.specs.Faults.{Fault};
ghost use Rattle.dm_dict.specs.Judgement.{verdict_of};
ghost use Rattle.dm_wire.specs.Borrowed.{Lists};
ghost use Rattle.dm_base.specs.Kinds.{kind_by, kind, HoldsCopy};
ghost use Rattle.dm_base.specs.declared.base_fault.BaseFault.TheVariants as faults_of;

use crate::codes::{DISCONNECT_CAUSE, RESULT_CODE};
use crate::received_avps::{first_number_or_zero, read_caps};
use crate::{BaseCommand, BaseFault, Kind};
use dm_dict::{Dictionary, NoMemory, Verdict};
use dm_wire::{AvpsRef, Message};
use std::alloc::Global;

/// The kind of a message of this command and R bit with these AVPs, with copies of its parts; or want of memory for
/// these.
fn kind_with_copied_parts(
    alloc: Global,
    command: BaseCommand,
    request: bool,
    avps: AvpsRef<'_>,
) -> Result<Kind, NoMemory>
    ensures kind { (l : List Avp) → Lists avps.entry l → IfOk result (λ k. k ≡ kind_by (Some command) request l) }
    ensures memory { (l : List Avp) → OnErr result (HoldsCopy (Ok (kind_by (Some command) request l))) }
{
    Ok(match command {
        BaseCommand::CapabilitiesExchange if request => Kind::Cer(read_caps(alloc, avps)?),
        BaseCommand::CapabilitiesExchange => Kind::Cea(first_number_or_zero(avps, RESULT_CODE)),
        BaseCommand::DeviceWatchdog if request => Kind::Dwr,
        BaseCommand::DeviceWatchdog => Kind::Dwa,
        BaseCommand::DisconnectPeer if request => {
            Kind::Dpr(first_number_or_zero(avps, DISCONNECT_CAUSE).cast_signed())
        }
        BaseCommand::DisconnectPeer => Kind::Dpa,
    })
}

/// What kind of message the message is (RFC 6733, 5.3 to 5.5). One of the commands 257, 280 and 282 is checked by the
/// dictionary, and its command and R bit tell the kind then; one of another command is `Other`, and isn't checked.
///
/// Refuses with `Bad` and the verdict where such a message is bad, else with `NoMemory`, which comes only for the
/// capabilities of a good CER and for the failed AVP of a bad message.
pub fn classify(
    alloc: Global,
    dictionary: &Dictionary,
    message: &Message,
) -> Result<Kind, BaseFault>
    ensures found { IfOk result (λ k. kind dictionary.now message.now ≡ Ok k) }
    ensures fault { IfErr result (λ f. (f ≡ faults_of.NoMemory)
        ⊎ ((e : Fault) × (kind dictionary.now message.now ≡ Err e) × (f ≡ faults_of.Bad (verdict_of (Some e))))) }
    // Memory is wanted for the capabilities of a CER and for a failed AVP alone.
    ensures memory { IsErrOf result faults_of.NoMemory → HoldsCopy (kind dictionary.now message.now) }
{
    let Some(command) = BaseCommand::of(message.header.command) else {
        return Ok(Kind::Other);
    };
    match dictionary.check(alloc, message)? {
        Verdict::Good => Ok(kind_with_copied_parts(
            alloc,
            command,
            message.header.request,
            AvpsRef::Held(message.avps.as_slice()),
        )?),
        bad => Err(BaseFault::Bad(bad)),
    }
}
