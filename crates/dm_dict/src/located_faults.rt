//! All faults of a message, each with the groups round its failed AVP or, where none are kept, without (RFC 6733, 3,
//! 4.4 and 7).
ghost use Rattle.std.specs.Prelude.{◌≡◌, false, List, map, IfOk, IfSome, OnOk, OnErr};
ghost use Rattle.std.specs.Option.{option_copied};
ghost use Rattle.dm_wire.specs.declared.avp.Avp.{Avp};
ghost use Rattle.dm_wire.specs.Borrowed.{Lists};
ghost use Rattle.dm_wire.specs.Spelling.{SpellsList};
ghost use Rattle.dm_tables.specs.Tables.{defined};
ghost use Rattle.dm_dict.specs.Faults.{faults, has_none};
ghost use Rattle.dm_dict.specs.Linked.{IsLinked};
ghost use Rattle.dm_dict.specs.Listing.{AreFoundIn};
ghost use Rattle.dm_dict.specs.Located.{located_faults};
ghost use Rattle.dm_dict.specs.Locating.{told_at, AddsAt};

use crate::avp_faults::add_faults_under_rule;
use crate::codes::{COMMAND_UNSUPPORTED, INVALID_HDR_BITS};
use crate::fault::Fault;
use crate::findings::Findings;
use crate::judge::{GROUPS, command_for_header, has_wrong_e_or_t_bit, is_message_good};
use crate::judged::Failed;
use crate::linked::{Linked, LinkedCommand, LinkedRule};
use crate::located_fault::LocatedFault;
use crate::path::Path;
use crate::{Dictionary, NoMemory};
use dm_wire::laws::members_are_what_octets_spell;
use dm_wire::{AvpsRef, Header, Message, MessageRef};
use std::alloc::Global;

/// Adds the faults of a message of this header and these AVPs, in no groups.
fn add_message_faults<'a>(
    alloc: Global,
    findings: &mut Findings<'a>,
    path: Option<&Path>,
    dictionary: &Linked,
    header: &Header,
    list: AvpsRef<'a>,
) -> Result<(), NoMemory>
    requires linked { IsLinked dictionary.now }
    requires top { IfSome (option_copied path) (λ top. top.size ≡ 0) }
    ensures { OnOk result ((l : List Avp) → Lists list.entry l
        → AddsAt findings.old findings.new (option_copied path.entry)
        (located_faults (defined dictionary.now.tables) (record { header = header.now; avps = l }))) }
{
    let failed = Failed::Nothing;
    let Some(LinkedCommand { def, links }) = command_for_header(dictionary, header) else {
        let code = COMMAND_UNSUPPORTED;
        return findings.add_fault(path, Fault { code, failed });
    };
    if has_wrong_e_or_t_bit(header) {
        let code = INVALID_HDR_BITS;
        findings.add_fault(path, Fault { code, failed })?;
    }
    let rule = LinkedRule {
        entries: &def.rule,
        links,
    };
    add_faults_under_rule(alloc, findings, path, dictionary, rule, list, GROUPS)
}

/// Adds what is wrong with a message of this header and these AVPs, in no groups. It wants memory only where something
/// is.
pub(crate) fn add_message_faults_if_bad<'a>(
    alloc: Global,
    findings: &mut Findings<'a>,
    path: Option<&Path>,
    dictionary: &Linked,
    header: &Header,
    list: AvpsRef<'a>,
) -> Result<(), NoMemory>
    requires linked { IsLinked dictionary.now }
    requires top { IfSome (option_copied path) (λ top. top.size ≡ 0) }
    ensures all { OnOk result ((l : List Avp) → Lists list.entry l
        → AddsAt findings.old findings.new (option_copied path.entry)
        (located_faults (defined dictionary.now.tables) (record { header = header.now; avps = l }))) }
    ensures memory { OnErr result ((l : List Avp) → Lists list.entry l
        → has_none (faults (defined dictionary.now.tables) (record { header = header.now; avps = l })) ≡ false) }
{
    if is_message_good(alloc, dictionary, header, list) {
        return Ok(());
    }
    add_message_faults(alloc, findings, path, dictionary, header, list)
}

/// All faults of a message of this header and these AVPs with their paths, in order.
fn collect_located_faults<'a>(
    alloc: Global,
    dictionary: &Linked,
    header: &Header,
    list: AvpsRef<'a>,
) -> Result<Vec<LocatedFault<'a>>, NoMemory>
    requires linked { IsLinked dictionary.now }
    ensures all { IfOk result (λ listed. (l : List Avp) → Lists list.entry l
        → map told_at listed.items
        ≡ located_faults (defined dictionary.now.tables) (record { header = header.now; avps = l })) }
    ensures memory { OnErr result ((l : List Avp) → Lists list.entry l
        → has_none (faults (defined dictionary.now.tables) (record { header = header.now; avps = l })) ≡ false) }
{
    let mut findings = Findings::empty(alloc);
    let top = Path::top();
    let done = add_message_faults_if_bad(
        alloc,
        &mut findings,
        Some(&top),
        dictionary,
        header,
        list,
    );
    let Findings { faults, located } = findings;
    drop(faults);
    done.and(Ok(located))
}

/// All faults of a message of this header, whose AVPs the octets spell, with their paths, in order.
fn located_faults_of_spelled_message<'a>(
    alloc: Global,
    dictionary: &Linked,
    header: &Header,
    octets: &'a [u8],
) -> Result<Vec<LocatedFault<'a>>, NoMemory>
    requires linked { IsLinked dictionary.now }
    ensures all { IfOk result (λ listed. (l : List Avp) → SpellsList l octets.now
        → map told_at listed.items
        ≡ located_faults (defined dictionary.now.tables) (record { header = header.now; avps = l })) }
    ensures memory { OnErr result ((l : List Avp) → SpellsList l octets.now
        → has_none (faults (defined dictionary.now.tables) (record { header = header.now; avps = l })) ≡ false) }
{
    members_are_what_octets_spell();
    collect_located_faults(alloc, dictionary, header, AvpsRef::Spelled(octets))
}

impl Dictionary {
    /// All that is wrong with the message, each fault with the groups round its failed AVP; they are those of `faults`,
    /// in the same order.
    pub fn located<'a>(
        &self,
        alloc: Global,
        message: &'a Message,
    ) -> Result<Vec<LocatedFault<'a>>, NoMemory>
        // All faults with their paths, in order.
        ensures all { IfOk result (λ listed. map told_at listed.items ≡ located_faults self.now message.now) }
        // What is found for each is one of the message's AVPs, or lies in a group of them; or is such a group emptied.
        ensures found { IfOk result (λ listed.
            AreFoundIn message.now.avps (map (λ located. located.fault) listed.items)) }
        // Memory is wanted for faults alone: not where the message is good.
        ensures memory { OnErr result (has_none (faults self.now message.now) ≡ false) }
    {
        let list = AvpsRef::Held(message.avps.as_slice());
        collect_located_faults(alloc, &self.linked, &message.header, list)
    }

    /// All that is wrong with the message where it lies: the same as `located` of the decoded message.
    pub fn located_in<'a>(
        &self,
        alloc: Global,
        message: &MessageRef<'a>,
    ) -> Result<Vec<LocatedFault<'a>>, NoMemory>
        // All faults of the message that the reference stands for with their paths, in order.
        ensures all { IfOk result (λ listed. (l : List Avp) → SpellsList l message.now.rest.now
            → map told_at listed.items ≡ located_faults self.now (record { header = message.now.header; avps = l })) }
        // What is found for each is one of the message's AVPs, or lies in a group of them; or is such a group emptied.
        ensures found { IfOk result (λ listed. (l : List Avp) → SpellsList l message.now.rest.now
            → AreFoundIn l (map (λ located. located.fault) listed.items)) }
        // Memory is wanted for faults alone: not where the message is good.
        ensures memory { OnErr result ((l : List Avp) → SpellsList l message.now.rest.now
            → has_none (faults self.now (record { header = message.now.header; avps = l })) ≡ false) }
    {
        located_faults_of_spelled_message(alloc, &self.linked, &message.header, message.rest)
    }
}
