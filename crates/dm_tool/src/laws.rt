//! Laws of what the program prints. Each function is a law: it calls the laws that it stands on, and its contract is
//! the law.
ghost use Rattle.dm_tool.specs.OnePrint.{OnePrint};
ghost use Rattle.dm_tool.specs.OneText.{OneText, SomeText};

/// Under one command an input has at most one text and one status. The law stands for users.
pub fn commands_print_one_text_at_most()
    ensures { OneText }
{
    dm_wire::laws::octets_begin_with_one_message_at_most();
    dm_wire::laws::octets_have_at_most_one_fault();
    dm_wire::laws::octets_of_messages_have_no_fault();
    dm_dict_text::laws::each_text_defines_one_dictionary_at_most();
    dm_dict_text::laws::each_text_has_one_first_fault_at_most();
    dm_dict_text::laws::defining_texts_have_no_fault();
    dm_text::laws::joined_lines_have_joined_content();
    dm_replay::laws::one_reading_and_replay_at_most();
}

/// Under each command each input has a text and a status. The law stands for users.
pub fn commands_always_have_a_text_to_print()
    ensures { SomeText }
{
    dm_wire::laws::octets_spell_message_or_have_fault();
    dm_wire::laws::canonical_octets_spell_message();
    dm_wire::laws::encoded_messages_read_back();
    dm_wire::laws::equal_messages_are_the_same();
    dm_wire::laws::octets_of_messages_have_no_fault();
    dm_dict_text::laws::each_text_defines_or_has_fault();
    dm_text::laws::joined_lines_have_joined_content();
    dm_replay::laws::each_text_has_a_replay();
}

/// Headers, AVPs and verdicts are printed just as their `Display` prints them. The law stands for users.
pub fn program_prints_as_display_does()
    ensures { OnePrint }
{}
