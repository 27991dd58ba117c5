//! Laws of how a capture is read. Each function is a law: it does nothing, and its contract is the law.
ghost use Rattle.dm_capture.specs.Laws.{LaterChangesNothing, EachPcapIsRead, EachPcapngIsRead, ItemOrFault};
ghost use Rattle.dm_capture.specs.Laws.{ItemOrPart, PartOrFault, OneFrontFault, RunsJoin, OneItem, OneReading};

/// At most one of these stands at the front of what is left: one header, record or block, a part of one, one fault.
pub fn fronts_hold_one_item_part_or_fault()
    ensures item { OneItem }
    ensures part { ItemOrPart }
    ensures fault { ItemOrFault }
    ensures either { PartOrFault }
    ensures one { OneFrontFault }
{}

/// What is read of a capture is read in one way.
pub fn captures_are_read_in_one_way()
    ensures { OneReading }
{}

/// What was read stays so, whatever comes behind it, and reading goes on from there. So it doesn't matter into which
/// pieces the file was cut.
pub fn read_items_stay_and_runs_join()
    ensures stays { LaterChangesNothing }
    ensures joins { RunsJoin }
{}

/// Each pcap file is read to its end, and its packets are those that its records spell.
pub fn each_pcap_is_read()
    ensures { EachPcapIsRead }
{}

/// Each pcapng file is read to its end, and its packets are those that its blocks spell.
pub fn each_pcapng_is_read()
    ensures { EachPcapngIsRead }
{}
