//! A dictionary for each application, and what they say of messages (RFC 6733, 2.4, 3 and 7).
ghost use Rattle.std.specs.Prelude.{◌≡◌, ℕ, Some, [], List, nat_eq, if◌then◌else◌};
ghost use Rattle.std.specs.Prelude.{IfOk, OnOk, OnErr, IsSome, IsSomeAnd};
ghost use Rattle.dm_wire.specs.declared.avp.Avp.{Avp};
ghost use Rattle.dm_wire.specs.Spelling.{SpellsList};
ghost use Rattle.dm_dict.specs.Faults.{faults, first};
ghost use Rattle.dm_dict.specs.Found.{IsOneOf, IfFound};
ghost use Rattle.dm_dict.specs.Judgement.{shown, verdict_of};
ghost use Rattle.dm_dict.specs.Listing.{all_told};
ghost use Rattle.dm_dictionaries.specs.Choosing.{own_definitions, definitions_of, judging};

use dm_base::is_base_command;
use dm_dict::{Dictionary, Fault, Judged, NoMemory, Verdict};
use dm_wire::{Header, Message, MessageRef};
use indexmap::IndexMap;
use std::alloc::Global;
use std::marker::Model;

/// A dictionary for each application that has one of its own, and one for all others.
///
/// A contract sees the definitions of each application that has its own, and those of all others.
#[derive(Debug, Drop)]
pub struct Dictionaries {
    base: Dictionary,
    others: Dictionary,
    own: IndexMap<u32, Dictionary>,
}

impl Model for Dictionaries {
    ghost use Rattle.std.specs.Prelude.{◌≡◌};
    ghost use Rattle.dm_tables.specs.Base.{base_definitions};
    ghost use Rattle.dm_dictionaries.specs.Choosing.{Choices};

    ghost Value = { Choices };

    ghost view = { λ d. record { others = d.others; own = d.own.entries } };

    ghost invariant = { λ d. d.base ≡ base_definitions };
}

impl Dictionaries {
    /// No application has a dictionary of its own; this one is that of all. Or want of memory for the base dictionary.
    pub fn new(alloc: Global, others: Dictionary) -> Result<Dictionaries, NoMemory>
        ensures others { IfOk result (λ d. d.others ≡ others) }
        ensures alone { IfOk result (λ d. d.own ≡ []) }
    {
        match Dictionary::base(alloc) {
            Ok(base) => Ok(Dictionaries {
                base,
                others,
                own: IndexMap::new(alloc),
            }),
            Err(fault) => Err(fault),
        }
    }

    /// From now on this is the dictionary of the application, in place of the one that it had. After want of memory
    /// all is as it was.
    pub fn set(&mut self, application: u32, dictionary: Dictionary) -> Result<(), NoMemory>
        ensures own { OnOk result ((asked : ℕ) → own_definitions self.new asked
            ≡ (if nat_eq application asked then Some dictionary else own_definitions self.old asked)) }
        ensures others { self.new.others ≡ self.old.others }
        ensures unchanged { OnErr result (self.new.own ≡ self.old.own) }
    {
        self.own.insert(application, dictionary)?;
        Ok(())
    }

    /// The dictionary of the application: its own, or the one for all others. It never answers want of memory.
    pub fn own_or_others(&self, application: u32) -> &Dictionary
        ensures { result.now ≡ definitions_of self.now application }
    {
        match self.own.get(&application) {
            Some(dictionary) => dictionary,
            None => &self.others,
        }
    }

    /// The dictionary by which a message of this header is judged: that of its application; for the base commands (257,
    /// 280 and 282; RFC 6733, 5.3 to 5.5) the base dictionary, whatever the Application-ID says. It never answers want
    /// of memory.
    pub fn judging(&self, header: &Header) -> &Dictionary
        ensures { result.now ≡ judging self.now header.now }
    {
        if is_base_command(header.command) {
            &self.base
        } else {
            self.own_or_others(header.application)
        }
    }

    /// What the message's dictionary says of it: good, or its first fault, as `Dictionary::check`.
    pub fn check(&self, alloc: Global, message: &Message) -> Result<Verdict, NoMemory>
        // The first of all faults by the dictionary that is chosen, or good where there is none.
        ensures verdict { IfOk result (λ verdict.
            verdict ≡ verdict_of (first (faults (judging self.now message.now.header) message.now))) }
        // Memory is wanted for the failed AVP alone.
        ensures memory { OnErr result (IsSomeAnd (first (faults (judging self.now message.now.header) message.now))
            (λ fault. IsSome fault.failed)) }
    {
        self.judging(&message.header).check(alloc, message)
    }

    /// What the message's dictionary says of it where it lies, as `Dictionary::judge`. It never answers want of memory.
    pub fn judge<'a>(&self, message: &MessageRef<'a>) -> Judged<'a>
        // The first of all faults by the dictionary that is chosen, or good where there is none.
        ensures verdict { (l : List Avp) → SpellsList l message.now.rest.now → shown result
            ≡ first (faults (judging self.now message.now.header) (record { header = message.now.header; avps = l })) }
        // What is found is one of the message's AVPs, or lies in a group of them; or it is such a group without data.
        ensures found { (l : List Avp) → SpellsList l message.now.rest.now → IfFound result (IsOneOf l) }
    {
        self.judging(&message.header).judge(message)
    }

    /// All that is wrong with the message by its dictionary, in order, as `Dictionary::faults`.
    pub fn faults<'a>(
        &self,
        alloc: Global,
        message: &'a Message,
    ) -> Result<Vec<Fault<'a>>, NoMemory>
        ensures all { IfOk result (λ listed.
            all_told listed.items ≡ faults (judging self.now message.now.header) message.now) }
    {
        self.judging(&message.header).faults(alloc, message)
    }

    /// All that is wrong with the message by its dictionary, where it lies, as `Dictionary::faults_in`.
    pub fn faults_in<'a>(
        &self,
        alloc: Global,
        message: &MessageRef<'a>,
    ) -> Result<Vec<Fault<'a>>, NoMemory>
        ensures all { IfOk result (λ listed. (l : List Avp) → SpellsList l message.now.rest.now → all_told listed.items
            ≡ faults (judging self.now message.now.header) (record { header = message.now.header; avps = l })) }
    {
        self.judging(&message.header).faults_in(alloc, message)
    }
}
