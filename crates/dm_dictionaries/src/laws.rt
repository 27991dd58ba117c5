//! Laws of which dictionary judges a message. Each function is a law: it does nothing, and its contract is the law.
ghost use Rattle.dm_dictionaries.specs.Laws.{BaseCommandsGoByBase, OneAloneJudgesAll, OwnJudgesItsApplication};

/// A base command, that of a CER, a DWR or a DPR, is judged by the base dictionary, whatever the Application-ID
/// and whatever dictionaries there are. It stands for users.
pub fn base_commands_go_by_base_dictionary()
    ensures { BaseCommandsGoByBase }
{}

/// Where no application has a dictionary of its own, the one for all others judges each message but base commands
/// (CER, DWR, DPR), and every message at all where it is the base dictionary. It stands for users.
pub fn lone_dictionary_judges_all_but_base()
    ensures { OneAloneJudgesAll }
{}

/// Where an application has a dictionary of its own, that judges its messages, but for base commands. It stands for
/// users.
pub fn own_dictionary_judges_its_application()
    ensures { OwnJudgesItsApplication }
{}
