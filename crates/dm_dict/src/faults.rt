//! All faults of a message (RFC 6733, 3 and 7).
ghost use Rattle.std.specs.Prelude.{◌≡◌, false, List, IfOk, OnErr};
ghost use Rattle.dm_wire.specs.declared.avp.Avp.{Avp};
ghost use Rattle.dm_wire.specs.Borrowed.{Lists};
ghost use Rattle.dm_wire.specs.Spelling.{SpellsList};
ghost use Rattle.dm_tables.specs.Tables.{defined};
ghost use Rattle.dm_dict.specs.Faults.{faults, has_none};
ghost use Rattle.dm_dict.specs.Linked.{IsLinked};
ghost use Rattle.dm_dict.specs.Listing.{all_told, AreFoundIn};

use crate::fault::Fault;
use crate::findings::Findings;
use crate::linked::Linked;
use crate::located_faults::add_message_faults_if_bad;
use crate::{Dictionary, NoMemory};
use dm_wire::laws::members_are_what_octets_spell;
use dm_wire::{AvpsRef, Header, Message, MessageRef};
use std::alloc::Global;

/// All faults of a message of this header and these AVPs, in order.
fn collect_faults<'a>(
    alloc: Global,
    dictionary: &Linked,
    header: &Header,
    list: AvpsRef<'a>,
) -> Result<Vec<Fault<'a>>, NoMemory>
    requires linked { IsLinked dictionary.now }
    ensures all { IfOk result (λ listed. (l : List Avp) → Lists list.entry l
        → all_told listed.items ≡ faults (defined dictionary.now.tables) (record { header = header.now; avps = l })) }
    ensures memory { OnErr result ((l : List Avp) → Lists list.entry l
        → has_none (faults (defined dictionary.now.tables) (record { header = header.now; avps = l })) ≡ false) }
{
    let mut findings = Findings::empty(alloc);
    let done = add_message_faults_if_bad(alloc, &mut findings, None, dictionary, header, list);
    let Findings { faults, located } = findings;
    drop(located);
    done.and(Ok(faults))
}

/// All faults of a message of this header, whose AVPs the octets spell, in order.
fn faults_of_spelled_message<'a>(
    alloc: Global,
    dictionary: &Linked,
    header: &Header,
    octets: &'a [u8],
) -> Result<Vec<Fault<'a>>, NoMemory>
    requires linked { IsLinked dictionary.now }
    ensures all { IfOk result (λ listed. (l : List Avp) → SpellsList l octets.now
        → all_told listed.items ≡ faults (defined dictionary.now.tables) (record { header = header.now; avps = l })) }
    ensures memory { OnErr result ((l : List Avp) → SpellsList l octets.now
        → has_none (faults (defined dictionary.now.tables) (record { header = header.now; avps = l })) ≡ false) }
{
    members_are_what_octets_spell();
    collect_faults(alloc, dictionary, header, AvpsRef::Spelled(octets))
}

impl Dictionary {
    /// All that is wrong with the message, in the order in which `check` looks for it; the first is what `check`
    /// says. Each failed AVP is told where it lies.
    ///
    /// It takes time by the message and the rules alone. A good message is judged, and no more; of another each AVP is
    /// looked up twice more. Memory is taken for the list of faults, and while a list of AVPs is counted for a tally of
    /// each entry of its rule.
    pub fn faults<'a>(
        &self,
        alloc: Global,
        message: &'a Message,
    ) -> Result<Vec<Fault<'a>>, NoMemory>
        // All faults, in order; none where the message is good.
        ensures all { IfOk result (λ listed. all_told listed.items ≡ faults self.now message.now) }
        // What is found for each is one of the message's AVPs, or lies in a group of them; or is such a group emptied.
        ensures found { IfOk result (λ listed. AreFoundIn message.now.avps listed.items) }
        // Memory is wanted for faults alone: not where the message is good.
        ensures memory { OnErr result (has_none (faults self.now message.now) ≡ false) }
    {
        let list = AvpsRef::Held(message.avps.as_slice());
        collect_faults(alloc, &self.linked, &message.header, list)
    }

    /// All that is wrong with the message where it lies: the same as `faults` of the decoded message.
    pub fn faults_in<'a>(
        &self,
        alloc: Global,
        message: &MessageRef<'a>,
    ) -> Result<Vec<Fault<'a>>, NoMemory>
        // All faults of the message that the reference stands for, in order.
        ensures all { IfOk result (λ listed. (l : List Avp) → SpellsList l message.now.rest.now
            → all_told listed.items ≡ faults self.now (record { header = message.now.header; avps = l })) }
        // What is found for each is one of the message's AVPs, or lies in a group of them; or is such a group emptied.
        ensures found { IfOk result (λ listed. (l : List Avp) → SpellsList l message.now.rest.now
            → AreFoundIn l listed.items) }
        // Memory is wanted for faults alone: not where the message is good.
        ensures memory { OnErr result ((l : List Avp) → SpellsList l message.now.rest.now
            → has_none (faults self.now (record { header = message.now.header; avps = l })) ≡ false) }
    {
        faults_of_spelled_message(alloc, &self.linked, &message.header, message.rest)
    }
}
