//! Laws of what packets hold of SCTP. Each function is a law: it does nothing, and its contract is the law.
ghost use Rattle.dm_flows.specs.SctpLaws.{OneSctp, SctpOrReason, OneSctpReason};
ghost use Rattle.dm_flows.specs.SctpLaws.{EachHasDataList, OneDataList};

/// A packet holds one SCTP packet at most, or there is one reason at most why it holds none, never both.
pub fn packets_hold_one_sctp_or_reason()
    ensures packet { OneSctp }
    ensures either { SctpOrReason }
    ensures reason { OneSctpReason }
{}

/// All chunks of a packet are read, and it has one list of DATA chunks.
pub fn packets_have_one_data_list()
    ensures some { EachHasDataList }
    ensures one { OneDataList }
{}
