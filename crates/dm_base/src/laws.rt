//! Laws of the base messages. Each function is a law: it does nothing but call the laws that it stands on, and its
//! contract is the law. All stand for users and the layers above.
ghost use Rattle.dm_base.specs.Before.{OneComesFirst};
ghost use Rattle.dm_base.specs.Common.{CommonIsShared, NodesShare, OwnInCommon, CommonBothWays, SecureNamesNone};
ghost use Rattle.dm_base.specs.Laws.{CerIsOwn, CeaIsOwn, DwrIsOwn, DwaIsOwn, DprIsOwn, DpaIsOwn, ErrorIsGood};
ghost use Rattle.dm_base.specs.Told.{CerTellsNode, CeaTellsNode, DwrTellsState, DwaTellsState};
ghost use Rattle.dm_base.specs.Laws.{CerIsSpelled, CeaIsSpelled, DwrIsSpelled};
ghost use Rattle.dm_base.specs.Laws.{DprIsSpelled, AnswerIsSpelled, ErrorIsSpelled};

use dm_wire::laws::{canonical_avps_have_padded_length, fitting_messages_have_canonical_spelling};

/// Of two hosts that differ in lower case just one comes before the other, so just one side wins an election
/// (RFC 6733, 5.6.4).
pub fn one_of_two_hosts_comes_first()
    ensures { OneComesFirst }
{}

/// The messages that a node builds are good under the base dictionary, and of their kind: of a CER the capabilities are
/// the node's own, of a DPR the cause and of a CEA the Result-Code are those that were asked for; of a DWA and a DPA no
/// Result-Code is told (5.3 to 5.5).
pub fn built_messages_are_good_and_as_meant()
    ensures cer { CerIsOwn }
    ensures cea { CeaIsOwn }
    ensures dwr { DwrIsOwn }
    ensures dwa { DwaIsOwn }
    ensures dpr { DprIsOwn }
    ensures dpa { DpaIsOwn }
    // An answer with the E bit is good, whatever its command and Result-Code.
    ensures error { ErrorIsGood }
{}

/// Octets spell the messages that a node builds; an answer, where the numbers of the request's header fit their fields
/// (3).
pub fn built_messages_have_spellings()
    ensures cer { CerIsSpelled }
    ensures cea { CeaIsSpelled }
    ensures dwr { DwrIsSpelled }
    ensures dpr { DprIsSpelled }
    // A Device-Watchdog-Answer and a Disconnect-Peer-Answer.
    ensures answer { AnswerIsSpelled }
    ensures error { ErrorIsSpelled }
{
    fitting_messages_have_canonical_spelling();
    canonical_avps_have_padded_length();
}

/// What the capabilities exchanges of a node tell, as `sender` reads them, is what the node says of itself, extras too;
/// and its watchdogs tell the number of its state (5.3 and 8.16). It stands for users.
pub fn exchanges_tell_sender_watchdogs_state_id()
    ensures cer { CerTellsNode }
    ensures cea { CeaTellsNode }
    ensures dwr { DwrTellsState }
    ensures dwa { DwaTellsState }
{}

/// Two sides have an application in common just where some Application-ID is on both, or one side is a relay
/// (5.3).
pub fn applications_are_common_by_shared_id_or_relay()
    ensures caps { CommonIsShared }
    ensures nodes { NodesShare }
    // What a node says of itself tells the same of it.
    ensures own { OwnInCommon }
    ensures both { CommonBothWays }
{}

/// A side takes connections without security just where it names no Inband-Security-Id, or
/// NO_INBAND_SECURITY among them (6.10).
pub fn sides_without_security_name_zero_or_no_id()
    ensures { SecureNamesNone }
{}
