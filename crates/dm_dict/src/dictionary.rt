//! Dictionaries: their look-ups, and the verdict on a message (RFC 6733, 3.2 and 7).
ghost use Rattle.std.specs.Prelude.{◌≡◌, ◌⊎◌, true, List, IfOk, IfErr, Ok, Err, OnErr, IsSome, IsSomeAnd, find, filter};
ghost use Rattle.std.specs.Option.{option_copied, option_to_list};
ghost use Rattle.dm_wire.specs.declared.avp.Avp.{Avp};
ghost use Rattle.dm_wire.specs.declared.message.Message.{Message};
ghost use Rattle.dm_wire.specs.Spelling.{SpellsList};
ghost use Rattle.dm_dict_text.specs.declared.fault.DictFault.{DictFault};
ghost use Rattle.dm_dict_text.specs.declared.fault.DictFault.TheVariants as faults_of;
ghost use Rattle.dm_tables.specs.Definitions.{Definitions, nothing_defined, is_vendor};
ghost use Rattle.dm_tables.specs.Definitions.{is_named, is_coded, is_headed, vendor_number};
ghost use Rattle.dm_tables.specs.Tables.{defined, IsDictionary};
ghost use Rattle.dm_tables.specs.Sound.{is_sound, is_closed};
ghost use Rattle.dm_tables.specs.Base.{base_definitions};
ghost use Rattle.dm_dict_text.specs.Printed.{printed};
ghost use Rattle.dm_dict_text.specs.Outcome.{Defines, IsFirstFault};
ghost use Rattle.dm_dict.specs.Faults.{faults, first};
ghost use Rattle.dm_dict.specs.Found.{IsOneOf, IfFound};
ghost use Rattle.dm_dict.specs.Judgement.{shown, verdict_of};
ghost use Rattle.dm_dict.specs.Typed.{AreTyped};
ghost use Rattle.dm_dict.specs.Limits.{list_limit};

use crate::judge::{judge_message, judge_spelled_message};
use crate::laws::good_messages_have_typed_values;
use crate::linked::Linked;
use crate::{AvpDef, CommandDef, DictFault, Judged, NoMemory, Verdict};
use dm_dict_text::laws::{
    defining_texts_have_no_fault, each_text_defines_one_dictionary_at_most,
    each_text_has_one_first_fault_at_most,
};
use dm_dict_text::{print_tables, read_tables};
use dm_tables::laws::each_name_and_code_defines_one_at_most;
use dm_tables::{Tables, base_tables};
use dm_wire::{AvpsRef, Message, MessageRef};
use std::alloc::Global;
use std::marker::Model;

/// What AVPs and commands are defined, and what messages must keep to.
///
/// A contract sees it as three lists of definitions, in order: vendors, AVPs and commands.
#[derive(Debug, Drop)]
pub struct Dictionary {
    pub(crate) linked: Linked,
}

impl Model for Dictionary {
    ghost use Rattle.dm_tables.specs.Definitions.{Definitions};

    ghost Value = { Definitions };

    ghost use Rattle.dm_tables.specs.Tables.{defined};
    ghost use Rattle.dm_dict.specs.Linked.{IsLinked};

    ghost view = { λ dictionary. defined dictionary.linked.tables };

    ghost invariant = { λ dictionary. IsLinked dictionary.linked };
}

/// The dictionary of the tables, or want of memory for the links of their rules.
fn dictionary_of_tables(alloc: Global, tables: Tables) -> Result<Dictionary, NoMemory>
    requires { IsDictionary tables }
    ensures { IfOk result (λ dictionary. dictionary ≡ defined tables) }
{
    Ok(Dictionary {
        linked: Linked::new(alloc, tables)?,
    })
}

impl Dictionary {
    /// No definitions. It never answers want of memory.
    pub fn empty(alloc: Global) -> Dictionary
        ensures { result ≡ nothing_defined }
    {
        Dictionary {
            linked: Linked::empty(alloc),
        }
    }

    /// The base dictionary (RFC 6733, 4.5 and 5.3 to 7.5), or want of memory.
    pub fn base(alloc: Global) -> Result<Dictionary, NoMemory>
        ensures { IfOk result (λ dictionary. dictionary ≡ base_definitions) }
    {
        let tables = base_tables(alloc)?;
        dictionary_of_tables(alloc, tables)
    }

    /// The definitions of the old dictionary, followed by those of the text in the command code format
    /// (RFC 6733, 3.2), of version 1 or 2. The old dictionary stays as it is.
    ///
    /// Refuses with the first `Syntax` of the whole text, at its last line where it ends too early; else,
    /// token by token, with `Range`, `Duplicate` or `Order`; else with the first `UnknownName`. Where one
    /// token shows two of them, they come in this order. `NoMemory` may come before any of them.
    pub fn read(alloc: Global, text: &[u8], old: &Dictionary) -> Result<Dictionary, DictFault>
        ensures defines { IfOk result (λ new. Defines text.now old.now new) }
        ensures fault { IfErr result (λ f. (f ≡ faults_of.NoMemory) ⊎ IsFirstFault text.now old.now f) }
        // What the text defines is read, and its first fault is answered, unless memory runs out.
        ensures only { (new : Definitions) → Defines text.now old.now new
            → (result ≡ Ok new) ⊎ (result ≡ Err faults_of.NoMemory) }
        ensures refuses { (f : DictFault) → IsFirstFault text.now old.now f
            → (result ≡ Err f) ⊎ (result ≡ Err faults_of.NoMemory) }
    {
        each_text_defines_one_dictionary_at_most();
        each_text_has_one_first_fault_at_most();
        defining_texts_have_no_fault();
        match read_tables(alloc, text, &old.linked.tables) {
            Ok(tables) => Ok(dictionary_of_tables(alloc, tables)?),
            Err(fault) => Err(fault),
        }
    }

    /// The text of the definitions (RFC 6733, 3.2): vendors, AVPs, then commands, each in order of definition and
    /// on a line of its own; or want of memory. Where there is a vendor or a list of values, it begins with the
    /// line `@ 2`.
    pub fn print(&self, alloc: Global) -> Result<Vec<u8>, NoMemory>
        ensures text { IfOk result (λ text. text.items ≡ printed self.now) }
        // Read over the empty dictionary it gives this dictionary again.
        ensures again { IfOk result (λ text. Defines text.items nothing_defined self.now) }
    {
        print_tables(alloc, &self.linked.tables)
    }

    /// The number of the vendor of the name (own). It never answers want of memory.
    pub fn vendor_by_name(&self, name: &[u8]) -> Option<u32>
        ensures found { result ≡ vendor_number self.now.vendors name.now }
        // No other vendor has the name.
        ensures one { filter (is_vendor name.now) self.now.vendors
            ≡ option_to_list (find (is_vendor name.now) self.now.vendors) }
    {
        each_name_and_code_defines_one_at_most();
        self.linked.tables.vendors.number_of(name)
    }

    /// The AVP of the name (RFC 6733, 3.2). It never answers want of memory.
    pub fn avp_by_name(&self, name: &[u8]) -> Option<&AvpDef>
        ensures found { option_copied result ≡ find (is_named name.now) self.now.avps }
        // No other definition has the name.
        ensures one { filter (is_named name.now) self.now.avps ≡ option_to_list (option_copied result) }
    {
        each_name_and_code_defines_one_at_most();
        self.linked.tables.avp_by_name(name)
    }

    /// The AVP of the AVP Code and Vendor-ID (4.1). No vendor and vendor 0 are two. It never answers want of memory.
    pub fn avp_by_code(&self, code: u32, vendor: Option<u32>) -> Option<&AvpDef>
        ensures found { option_copied result ≡ find (is_coded code vendor) self.now.avps }
        // No other definition has the code with the vendor.
        ensures one { filter (is_coded code vendor) self.now.avps ≡ option_to_list (option_copied result) }
    {
        each_name_and_code_defines_one_at_most();
        self.linked.avp_by_code(code, vendor)
    }

    /// The command of the Command Code, for a request or an answer, with or without the E bit (3.1). It never answers
    /// want of memory.
    pub fn command(&self, code: u32, request: bool, err: bool) -> Option<&CommandDef>
        ensures found { option_copied result ≡ find (is_headed code request err) self.now.commands }
        // No other definition has the code with the bits.
        ensures one { filter (is_headed code request err) self.now.commands ≡ option_to_list (option_copied result) }
    {
        each_name_and_code_defines_one_at_most();
        self.linked.tables.command_by_code(code, request, err)
    }

    /// The laws that every dictionary keeps to: each definition is sound beside those before it, and each entry
    /// of a rule is `AVP` or names an AVP that is defined (RFC 6733, 3.2). It does nothing.
    pub fn soundness(&self)
        ensures sound { is_sound self.now ≡ true }
        ensures closed { is_closed self.now ≡ true }
    {
        let _tables = &self.linked.tables;
    }

    /// What the dictionary says of the message: good, or its first fault in this order (own; the codes
    /// are those of RFC 6733, 7.1).
    ///
    /// 1. 3001, where no command has the message's code with its R and E bits. An answer with the E bit
    ///    goes by the rule of command 0 with ERR, whatever its command.
    /// 2. 3008, for the E bit in a request or the T bit in an answer.
    /// 3. For each AVP in order: 5001, where no definition has its code and vendor and the M bit is set;
    ///    5008, where the rule doesn't allow it; then its data, that of Failed-AVP aside: of a group 5004
    ///    inside eight others, 5014 with no data where it isn't AVPs one after the other, and then steps
    ///    3 and 4 for its AVPs and its own rule; of another type 5014 for its length, 5004 for its value, also
    ///    for one that its list leaves out.
    /// 4. For each entry of the rule in order: 5005 with an example of what is missing, 5009 with the
    ///    first AVP past the maximum.
    ///
    /// It takes time by the message and the rules alone, and memory only for the failed AVP. `judge` says the
    /// same of a message that isn't copied.
    pub fn check(&self, alloc: Global, message: &Message) -> Result<Verdict, NoMemory>
        // The first of all faults, or good where there is none.
        ensures verdict { IfOk result (λ verdict. verdict ≡ verdict_of (first (faults self.now message.now))) }
        // Where it is good each AVP that is defined has a value of its type, in eight groups inside each other too.
        ensures typed { IfOk result (λ verdict. verdict ≡ Verdict.Good
            → AreTyped list_limit self.now.avps message.now.avps) }
        // Memory is wanted for the failed AVP alone.
        ensures memory { OnErr result (IsSomeAnd (first (faults self.now message.now)) (λ fault. IsSome fault.failed)) }
    {
        good_messages_have_typed_values();
        let list = AvpsRef::Held(message.avps.as_slice());
        judge_message(&self.linked, &message.header, list, Some(alloc)).verdict(alloc)
    }

    /// What the dictionary says of the message where it lies: the verdict of `check`, with the parts of the same failed
    /// AVP. It never answers want of memory.
    pub fn judge<'a>(&self, message: &MessageRef<'a>) -> Judged<'a>
        // The first of all faults of the message that the reference stands for, or good where there is none.
        ensures verdict { (l : List Avp) → SpellsList l message.now.rest.now
            → shown result ≡ first (faults self.now (record { header = message.now.header; avps = l })) }
        // It is what `check` says of the decoded message.
        ensures checked { (decoded : Message) → decoded.header ≡ message.now.header
            → SpellsList decoded.avps message.now.rest.now
            → verdict_of (shown result) ≡ verdict_of (first (faults self.now decoded)) }
        // What is found is one of the message's AVPs, or lies in a group of them; or it is such a group without data.
        ensures found { (l : List Avp) → SpellsList l message.now.rest.now → IfFound result (IsOneOf l) }
    {
        judge_spelled_message(&self.linked, &message.header, message.rest)
    }
}
