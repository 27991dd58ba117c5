//! Laws of associations. Each function is a law, and its contract says it.
ghost use Rattle.dm_associations.specs.Laws.{ForeignPacketsChangeNothing, EndedUntilInit};
ghost use Rattle.dm_associations.specs.WayAccounts.{EachWayOctetIsAccounted};

use dm_association::laws::octets_of_chunks_add_up as each_octet_of_a_flow;

/// A packet with another Verification Tag than that of its direction, where that is known, changes nothing, if it is no
/// INIT, INIT ACK, ABORT or SHUTDOWN COMPLETE.
pub fn data_with_another_tag_changes_nothing()
    ensures { ForeignPacketsChangeNothing }
{}

/// Where the association ended no packet changes anything, up to an INIT.
pub fn ended_associations_ignore_all_but_init()
    ensures { EndedUntilInit }
{}

/// As many octets of user data as a direction took are in messages that were handed out or can be, wait for others of
/// their message, came before, were passed over, or are of Diameter over DTLS (both counted up to 2^64 - 1): in
/// whatever order chunks come, associations begin and end, and messages are handed out.
pub fn octets_of_each_way_add_up()
    ensures { EachWayOctetIsAccounted }
{
    each_octet_of_a_flow();
}
