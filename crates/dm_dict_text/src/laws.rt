//! Laws of what a text says as a dictionary. Each function is a law: it does nothing but call the law that it
//! stands on, and its contract is the law.
ghost use Rattle.dm_dict_text.specs.FirstOutcome.{DefinesFirstVersion, FaultsOfFirstVersion, StaysFirstVersion};
ghost use Rattle.dm_dict_text.specs.FirstVersion.{PrintsFirstVersion};
ghost use Rattle.dm_dict_text.specs.OneOutcome.{OneDefinition, OneFault, NoDefinitionRefused, SomeOutcome};

use dm_grammar::{tokens_are_items_or_have_a_fault, unmarked_texts_have_first_version_items};

/// Behind the same old definitions a text defines one dictionary at most (RFC 6733, 3.2).
pub fn each_text_defines_one_dictionary_at_most()
    ensures { OneDefinition }
{
    tokens_are_items_or_have_a_fault();
}

/// One fault at most is a text's first.
pub fn each_text_has_one_first_fault_at_most()
    ensures { OneFault }
{
    tokens_are_items_or_have_a_fault();
}

/// A text that defines something has no first fault.
pub fn defining_texts_have_no_fault()
    ensures { NoDefinitionRefused }
{
    tokens_are_items_or_have_a_fault();
}

/// A text defines something or has a first fault. The law stands for users.
pub fn each_text_defines_or_has_fault()
    ensures { SomeOutcome }
{
    tokens_are_items_or_have_a_fault();
}

/// Definitions without vendors and lists of values are printed as a text of version 1. The law stands for
/// users.
pub fn plain_definitions_print_first_version()
    ensures { PrintsFirstVersion }
{}

/// Of a text whose first two tokens aren't `@` and `2` both what it defines and its first fault are those of
/// version 1, behind any definitions; and behind definitions without vendors and lists of values it makes
/// none. The law stands for users.
pub fn unmarked_texts_read_as_first_version()
    ensures defines { DefinesFirstVersion }
    ensures fault { FaultsOfFirstVersion }
    ensures stays { StaysFirstVersion }
{
    unmarked_texts_have_first_version_items();
}
