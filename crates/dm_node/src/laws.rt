//! Laws of neighbours. Each function is a law: it does nothing, and its contract is the law.
ghost use Rattle.dm_node.specs.Neighbourhoods.{IsNeighbourhood};
ghost use Rattle.dm_node.specs.NodeHistory.{EachNeighbourHasItsHistory};
ghost use Rattle.dm_node.specs.OneConcerned.{OneIsConcerned};
ghost use Rattle.dm_node.specs.NodeEnding.{NodeCloseIsLast, NodeGoneIsSilent, NodeGoneTellsNothing};
ghost use Rattle.dm_node.specs.NodeEnding.{NodeGoneKeepsNothing};
ghost use Rattle.dm_node.specs.NodeFrames.{StreamsAreToldByFrames};
ghost use Rattle.dm_node.specs.NodeHearing.{NodeHeardAlike, NodeHeardOut};
ghost use Rattle.dm_node.specs.NodeHeld.{AllHeldAreThere, AreRaised};
ghost use Rattle.dm_node.specs.NodeLaws.{AreSoundNeighbours, EventLeavesOthers, NextLeavesOthers};
ghost use Rattle.dm_node.specs.NodeLaws.{OneDoesAsItsPeer, OneTurnsAsItsPeer, ConcernedTurnsAsItsPeer};
ghost use Rattle.dm_node.specs.NodeSeen.{node_state_of};
ghost use Rattle.dm_node.specs.NodeSteps.{OrderIsSteps, TurnIsSteps, AddingIsAStep, RemovingIsAStep};
ghost use Rattle.dm_node.specs.NodeStreams.{NodeCutsAlike, NodeOneTelling, NodeCutsToldOut, NodePiecesToldOut};

use crate::{Node, neighbours};
use dm_framer::laws::one_front_frame_or_lasting_fault;
use dm_machine::laws::given_up_is_closed_unnamed_stays_unheld;
use dm_peer::laws::{
    done_events_are_steps_or_drops, each_event_keeps_peers_settled,
    events_take_named_release_closed_connections,
};
use dm_slots::laws::connections_stay_until_closed;

/// No connection is held by two neighbours, and no two neighbours have one host, upper and lower case taken as one;
/// whatever the node was told.
pub fn neighbours_are_apart(node: &Node)
    ensures { IsNeighbourhood (node_state_of node.now).peers }
{
    neighbours::neighbours_are_apart_and_sound(&node.neighbours);
}

/// Where no connection is held by two neighbours and no two have one host, an event concerns one neighbour at most.
pub fn each_event_concerns_one_neighbour_at_most()
    ensures { OneIsConcerned }
{}

/// Whatever happens to a node, each neighbour's part of it is the history of a peer of its own. So what dm_history's
/// laws say of one peer, whatever the other side is, holds of each neighbour, whatever happens to the others.
pub fn each_neighbour_has_its_history()
    ensures { EachNeighbourHasItsHistory }
{
    done_events_are_steps_or_drops();
}

/// Each call of a node is a step of its history, or none, or two where a host is taken in: an order, a turn of what
/// came, a neighbour more and one less. So what is said of each history of a node holds behind each list of calls.
pub fn calls_are_steps()
    ensures order { OrderIsSteps }
    ensures turn { TurnIsSteps }
    ensures added { AddingIsAStep }
    ensures removed { RemovingIsAStep }
{}

/// Each connection that a neighbour holds is there among those on which octets may come.
pub fn each_held_connection_is_there(node: &Node)
    ensures { AllHeldAreThere (node_state_of node.now).peers (node_state_of node.now).intakes }
{
    let _count = node.neighbours.iter();
}

/// Each connection that an open neighbour holds takes messages up to the maximum behind the capabilities exchange
/// (RFC 6733, 5.3).
pub fn connections_of_open_neighbours_take_longer_messages(node: &Node)
    ensures { AreRaised (node_state_of node.now).most
        (node_state_of node.now).peers (node_state_of node.now).intakes }
{
    let _count = node.neighbours.iter();
}

/// No connection is held by two neighbours, no two have one host, and each is what events make of a new peer. The law
/// stands for users, as the premise of the others.
pub fn neighbours_are_apart_and_sound(node: &Node)
    ensures { AreSoundNeighbours (node_state_of node.now).peers }
{
    neighbours::neighbours_are_apart_and_sound(&node.neighbours);
}

/// What is told one neighbour leaves the others alone: each is what it was, and so is what came on the connections that
/// it holds; at an order's event, and at what came on a connection, whatever the policy. A host that becomes a
/// neighbour leaves them alone too.
pub fn other_neighbours_are_left_alone()
    ensures event { EventLeavesOthers }
    ensures octets { NextLeavesOthers }
{
    done_events_are_steps_or_drops();
    each_event_keeps_peers_settled();
    events_take_named_release_closed_connections();
    given_up_is_closed_unnamed_stays_unheld();
    connections_stay_until_closed();
}

/// A node of one neighbour is its peer: at an order's event it does what that does, and with `Alone` each turn of what
/// came is one of its peer's, also of what a stranger sends, and of a fault. By any other policy so is each turn of the
/// neighbour.
pub fn one_is_its_peer()
    ensures event { OneDoesAsItsPeer }
    ensures octets { OneTurnsAsItsPeer }
    ensures concerned { ConcernedTurnsAsItsPeer }
{}

/// What is heard of a piece is told as if the whole piece had been kept first, and what is left of it came behind,
/// whatever the policy. And where nothing was left to tell of the connection, nothing is left then but that rest of the
/// piece: so who hears each piece until nothing is left of it heard all of it.
pub fn heard_pieces_are_told_as_kept_ones()
    ensures turn { NodeHeardAlike }
    ensures out { NodeHeardOut }
{
    one_front_frame_or_lasting_fault();
}

/// Whatever cuts a stream, telling the pieces is a telling of the whole, whatever the policy.
pub fn telling_pieces_tells_the_whole()
    ensures { NodeCutsAlike }
{
    one_front_frame_or_lasting_fault();
}

/// What is told of a stream until nothing is left is its frames and its fault, whatever the policy: in order, each by
/// one turn as it stands, told to the neighbours as the turn before left them; and behind a turn that closes the
/// connection nothing. So it is on a connection on which nothing is kept and which takes messages as long as behind the
/// capabilities exchange: on each, where a node has one maximum for both.
pub fn frames_of_streams_are_told_in_order()
    ensures { StreamsAreToldByFrames }
{
    one_front_frame_or_lasting_fault();
}

/// However a stream is cut, what is told until nothing is left is the same: the turns, in order, of which neighbour
/// each is, and the node behind them. So it is by every policy, since each makes one configuration for a host.
pub fn every_cut_tells_the_same()
    ensures once { NodeOneTelling }
    ensures cut { NodeCutsToldOut }
    ensures pieces { NodePiecesToldOut }
{
    one_front_frame_or_lasting_fault();
    done_events_are_steps_or_drops();
    each_event_keeps_peers_settled();
    given_up_is_closed_unnamed_stays_unheld();
}

/// Nothing is told of a connection behind its Close or its end, whatever the policy.
pub fn closed_connections_tell_nothing_more()
    ensures close { NodeCloseIsLast }
    ensures order { NodeGoneIsSilent }
    ensures octets { NodeGoneTellsNothing }
    ensures piece { NodeGoneKeepsNothing }
{}
