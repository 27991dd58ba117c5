//! Laws of two nodes. Each function is a law: it does nothing but call the laws that it stands on, and its contract is
//! the law. They stand for users.
ghost use Rattle.dm_two_nodes.specs.Delivering.{OthersLeaveTheStory, TwoNodesDeliver};
ghost use Rattle.dm_two_nodes.specs.Histories.{HistoryTellsThePeer, HistoriesGoByNoNumber, SameHistoryMakesTheSame};
ghost use Rattle.dm_two_nodes.specs.Meeting.{EachNeighbourIsItsSide, EachRunIsPlayed};
ghost use Rattle.dm_two_nodes.specs.Meeting.{TwoNodesAgree, QuietNodesAreShutOrOpen};
ghost use Rattle.dm_two_nodes.specs.Numbering.{StepsGoByNoNumber};
ghost use Rattle.dm_two_nodes.specs.Renaming.{PeersGoByNoNumber};

use dm_machine::laws::shaped_cores_have_eight_forms;
use dm_octet_peers::laws::{
    each_octet_quiet_run_is_closed_or_open, each_octet_run_delivers_in_order,
    octet_peers_move_as_the_machine,
};
use dm_peer::Peer;
use dm_peer::laws::{
    done_events_are_steps_or_drops, each_event_keeps_peers_settled,
    events_are_steps_drops_or_refusals,
};
use dm_two_peers::laws::closed_peers_agree_after_each_run;
use dm_wire::Octets;

/// The state machine goes by no number of a connection: under other numbers, no two alike, it takes the same steps with
/// the same commands, under those numbers, and refuses the same (RFC 6733, 5.6).
pub fn steps_go_by_no_connection_number()
    ensures { StepsGoByNoNumber }
{}

/// A peer goes by no number of a connection: a driver may number connections as it likes, no two alike. Under other
/// numbers a peer does the same at the same events, octet for octet, under those numbers, and refuses the same.
pub fn peers_go_by_no_connection_number()
    ensures { PeersGoByNoNumber }
{
    steps_go_by_no_connection_number();
}

/// What happened to a peer determines it; under other numbers that is a history too, of the same peer under these. So
/// two new peers of one configuration, to which the same happened but for numbers, are the same but for these.
pub fn histories_go_by_no_connection_number()
    ensures determined { HistoryTellsThePeer }
    ensures renumbered { HistoriesGoByNoNumber }
    ensures same { SameHistoryMakesTheSame }
{
    peers_go_by_no_connection_number();
}

/// A neighbour of a node is what a side of a run of two peers is, but for numbers of connections, where what befell it
/// since it was added is what befell the side: the same events taken, and set back where the side restarted. What it
/// refused counts for nothing, nor does an event on a connection that is held neither before it nor behind it; and
/// whatever happens to the other neighbours stands freely in between.
pub fn neighbours_become_the_sides_they_play()
    ensures { EachNeighbourIsItsSide }
{
    peers_go_by_no_connection_number();
    done_events_are_steps_or_drops();
    shaped_cores_have_eight_forms();
    events_are_steps_drops_or_refusals();
    each_event_keeps_peers_settled();
}

/// What happens to the rest of a node is no part of what befalls a neighbour: a step that concerns another neighbour,
/// or nobody, leaves what befell this one, and its turns.
pub fn steps_of_others_stay_out_of_history()
    ensures { OthersLeaveTheStory }
{}

/// Each run of two new peers is played by neighbours: there are two nodes with a neighbour each to which just that
/// happened, under whatever numbers.
pub fn each_run_is_played_by_neighbours()
    ensures { EachRunIsPlayed }
{
    peers_go_by_no_connection_number();
    done_events_are_steps_or_drops();
}

/// Two nodes agree as two peers do, whatever happens to the rest: where a neighbour of the one and a neighbour of the
/// other play the sides of one run, neither is open on two connections, and if both are open, it is on one link in
/// opposite roles, or each has a disconnect coming to it.
pub fn two_nodes_agree()
    ensures { TwoNodesAgree }
{
    neighbours_become_the_sides_they_play();
    octet_peers_move_as_the_machine();
    closed_peers_agree_after_each_run::<Peer, Octets>();
}

/// Where a neighbour of one node and a neighbour of another, configured for each other, play the sides of one run:
/// wherever that run falls quiet, whatever was lost and restarted, both are Closed, or both are open on one link in
/// opposite roles, I-Open against R-Open.
pub fn quiet_neighbours_are_closed_or_open_together()
    ensures { QuietNodesAreShutOrOpen }
{
    neighbours_become_the_sides_they_play();
    each_octet_quiet_run_is_closed_or_open();
}

/// Where a neighbour of one node and a neighbour of another play the sides of one run, what was handed up to the one on
/// a link is a front of what the other's user submitted on it: each message once, in order, octet for octet, and
/// nothing else. Where the side is open on the link and the link had no loss, the rest is what is under way.
pub fn two_nodes_deliver_in_order()
    ensures { TwoNodesDeliver }
{
    peers_go_by_no_connection_number();
    done_events_are_steps_or_drops();
    shaped_cores_have_eight_forms();
    events_are_steps_drops_or_refusals();
    each_event_keeps_peers_settled();
    each_octet_run_delivers_in_order();
}
