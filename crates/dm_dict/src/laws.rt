//! Laws of what a message has wrong. Each function is a law: it does nothing but call the laws that it stands
//! on, and its contract is the law.
ghost use Rattle.dm_dict.specs.Examples.{MissingHasExample};
ghost use Rattle.dm_dict.specs.Found.{EachFailedIsThere};
ghost use Rattle.dm_dict.specs.Keeping.{GoodKeepsRules};
ghost use Rattle.dm_dict.specs.Located.{LocatedAreFaults};
ghost use Rattle.dm_dict.specs.WithoutLists.{OpenDiffersInListsAlone};
ghost use Rattle.dm_dict.specs.Texts.{NamesAreText};
ghost use Rattle.dm_dict.specs.Typed.{GoodIsTyped};

use dm_value::laws::flaw_decides_fault_or_value;

/// Where nothing is wrong with a message, each AVP that is defined has a value of its type, in its
/// groups too, the data of Failed-AVP aside.
pub fn good_messages_have_typed_values()
    ensures { GoodIsTyped }
{
    flaw_decides_fault_or_value();
}

/// Where nothing is wrong with a message, its command is defined, the bits of its header are right, each AVP
/// that is defined may stand where it stands and has a value of its type, and each entry of the rule counts
/// as many AVPs as its bounds allow; so in its groups under their rules. It stands for users.
pub fn good_messages_keep_rules()
    ensures { GoodKeepsRules }
{
    flaw_decides_fault_or_value();
}

/// Where each entry is `AVP` or names an AVP that is defined, as in every `Dictionary`, each entry other than
/// `AVP` has an example, so that 5005 for it has a failed AVP (RFC 6733, 7.5). It stands for users.
pub fn missing_avps_have_examples()
    ensures { MissingHasExample }
{}

/// The failed AVP of each fault of a message, but of one for an AVP that is missing, is one of the message's AVPs, or
/// lies in a group of them; or it is such a group without data, where its data isn't AVPs (RFC 6733, 7.1.5 and 7.5). It
/// stands for users.
pub fn failed_avps_are_missing_or_in_the_message()
    ensures { EachFailedIsThere }
{}

/// Where each definition is sound, as in every `Dictionary`, the names of vendors, AVPs, listed values and commands are
/// UTF-8, so that `as_str` of a name has its text. It stands for users.
pub fn names_of_definitions_are_text()
    ensures { NamesAreText }
{}

/// Without the lists of its Enumerated AVPs a dictionary finds just the faults that no list makes, in the same order:
/// what a list leaves out passes, and nothing else changes. It stands for users of `Dictionary::open_lists`.
pub fn open_lists_remove_list_faults_alone()
    ensures { OpenDiffersInListsAlone }
{}

/// The faults of a message with their paths are, without these, its faults in their order. It stands for users.
pub fn located_faults_are_the_faults()
    ensures { LocatedAreFaults }
{}
