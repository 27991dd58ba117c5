//! Laws of what is said. A law calls those that it stands on, and its contract is the law.
ghost use Rattle.dm_view_lines.specs.Gathering.{GathersNothing, GathersInTurn, GathersAndWrites, GathersAndFails};
ghost use Rattle.dm_view_lines.specs.Gathering.{LeavesNothing, LeavesInTurn};
ghost use Rattle.dm_view_lines.specs.Joined.{JoinedSaid};
ghost use Rattle.dm_view_lines.specs.OneText.{OneSaid, SomeSaid};

/// Under one dictionary one text at most is said of the lines of an input, each by itself, and it is either good or
/// not. The law stands for users.
pub fn lines_have_at_most_one_report()
    ensures { OneSaid }
{
    dm_wire::laws::octets_begin_with_one_message_at_most();
    dm_wire::laws::octets_have_at_most_one_fault();
    dm_wire::laws::octets_of_messages_have_no_fault();
}

/// Under each dictionary something is said of the lines of each input, each by itself, and it is good or not. The law
/// stands for users.
pub fn lines_always_have_a_report()
    ensures { SomeSaid }
{
    dm_wire::laws::octets_spell_message_or_have_fault();
}

/// What is said of the lines of two inputs, each by itself, the first of which ends with a line's end, is what is said
/// of each, numbers going on. The law stands for users.
pub fn joined_inputs_are_reported_in_turn()
    ensures { JoinedSaid }
{}

/// Texts that are gathered one behind the other are gathered as one, whatever was written meanwhile.
pub fn texts_gathered_in_turn_gather_as_one()
    ensures nothing { GathersNothing }
    ensures turns { GathersInTurn }
    ensures writes { GathersAndWrites }
    ensures fails { GathersAndFails }
    ensures leaves_nothing { LeavesNothing }
    ensures leaves { LeavesInTurn }
{}
