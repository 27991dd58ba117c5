//! Events one after the other, and what is promised of every list of them, whatever the other side is.
ghost use Rattle.std.specs.Prelude.{◌≡◌, ◌+◌, ◌≤◌, ◌<◌, ◌∷◌, List, IfOk, OnOk, OnErr};
ghost use Rattle.std.specs.Prelude.{true, reverse, length, vec_len, vec_capacity};
ghost use Rattle.dm_machine.specs.declared.connection.Conn.{Conn};
ghost use Rattle.dm_peer.specs.declared.peer.Peer as declared_peer;
ghost use Rattle.dm_peer.specs.Events.{PeerEvent, event_told};
ghost use Rattle.dm_history.specs.Carrying.{StandsOpen};
ghost use Rattle.dm_history.specs.InOrder.{all_ups, all_came_open, SendsIfSubmitted};
ghost use Rattle.dm_history.specs.Promised.{LeadsOn, LeavesOpened, CarriesThrough, LeavesEnded, ClosesThrough};
ghost use Rattle.dm_history.specs.Replaying.{HoldsThroughout};
ghost use Rattle.dm_history.specs.Staying.{never_ends, ticks_since};
ghost use Rattle.dm_history.specs.Telling.{RepliesSo, Replied, events_told, run_of};

use crate::laws::{
    each_done_submit_is_sent_once, each_opening_follows_cer_and_cea,
    ended_connections_stay_silent_until_named, only_listed_events_end_open_connections,
    runs_hand_up_all_in_order, user_messages_have_submits_or_arrivals,
    watchdogs_count_ticks_since_something_came,
};
use dm_dict::NoMemory;
use dm_peer::laws::peers_are_settled_with_encodable_numbers;
use dm_peer::{Actions, Event, Peer, PeerFault};
use std::alloc::Global;

/// What came of a list of events.
#[derive(Debug, Drop)]
pub struct Report {
    /// What the peer did at each event, in order, or why it refused it. An event behind the last of them wasn't told:
    /// memory was wanted for it, and the peer stands before it.
    pub replies: Vec<Result<Actions, PeerFault>>,
}

/// What the peer does at the event, or the rule by which it refuses it. It is as it was where memory was wanted.
fn tell_peer_and_get_reply(
    peer: &mut Peer,
    alloc: Global,
    event: Event<'_>,
) -> Result<Result<Actions, PeerFault>, NoMemory>
    ensures replied { IfOk result (λ reply. RepliesSo peer.old (event_told event.entry) reply peer.new) }
    ensures unchanged { OnErr result (peer.new ≡ peer.old) }
{
    match peer.on(alloc, event) {
        Ok(actions) => Ok(Ok(actions)),
        Err(PeerFault::NoMemory) => Err(NoMemory),
        Err(fault) => Ok(Err(fault)),
    }
}

/// Makes room for one reply more.
fn reserve_room_for_reply(replies: &mut Vec<Result<Actions, PeerFault>>) -> Result<(), NoMemory>
    ensures same { replies.new.items ≡ replies.old.items }
    ensures room { OnOk result (vec_len replies.new < vec_capacity replies.new) }
{
    match replies.reserve(1) {
        Ok(()) => Ok(()),
        Err(_) => Err(NoMemory),
    }
}

/// Tells the peer of the event, and appends its reply. Where memory is wanted all is as it was.
fn tell_event_and_push_reply(
    peer: &mut Peer,
    alloc: Global,
    event: Event<'_>,
    replies: &mut Vec<Result<Actions, PeerFault>>,
) -> Result<(), NoMemory>
    ensures told { OnOk result ((first : declared_peer.Peer) (events : List PeerEvent) →
        Replied first events (reverse replies.old.items) peer.old →
        Replied first (event_told event.entry ∷ events) (reverse replies.new.items) peer.new) }
    ensures counted { OnOk result (length replies.new.items ≡ length replies.old.items + 1) }
    ensures peer { OnErr result (peer.new ≡ peer.old) }
    ensures replies { OnErr result (replies.new.items ≡ replies.old.items) }
{
    reserve_room_for_reply(replies)?;
    let reply = tell_peer_and_get_reply(peer, alloc, event)?;
    replies.push_reserved(reply);
    Ok(())
}

/// Tells a peer the events, one after the other, up to the first for which memory is wanted.
fn tell_events_while_memory_lasts(peer: &mut Peer, alloc: Global, events: &[Event<'_>]) -> Report
    ensures few { length result.replies.items ≤ length events.now }
    ensures replied { Replied peer.old (events_told events.now result.replies.items)
        (reverse result.replies.items) peer.new }
{
    let mut replies = Vec::new(alloc);
    for event in events {
        match tell_event_and_push_reply(peer, alloc, *event, &mut replies) {
            Ok(()) => {}
            Err(_) => break,
        }
    }
    Report { replies }
}

/// Tells a peer the events, one after the other, up to the first for which memory is wanted: of that nothing is done,
/// and no later one is told. The report has what came of each event that was told.
///
/// Whatever the other side is, and whatever the driver does: what is handed up is just the messages of other commands
/// than 257, 280 and 282 that came on the connection on which the peer was open, each once, in order, octet for octet.
/// Each Submit that is done is one Send of its octets on that connection.
/// An open connection stays open until a Stop, its disconnect, the third Tick since something came on it, octets on it
/// that are no message, a CER on it, or a good DPR; and the watchdog's count is that of the Ticks since something came
/// on it, or since it was opened.
///
/// Of a peer that was new once, and of all that happened to it since: it is open on a connection only where that was
/// opened as RFC 6733, 5.6, asks, on an accepted one by a good CER, the first message there, and the CEA that answers
/// it, on an initiated one by the own CER and a good CEA of its number. What it sends is a base message of its node, of
/// command 257, 280 or 282, or one of another command that was submitted just then, and it goes on the open connection.
/// Behind a Close nothing is sent on its connection at the same event, and where a connection has ended it isn't held,
/// and nothing is sent on it, until an event names it again.
pub fn run(peer: &mut Peer, alloc: Global, events: &[Event<'_>]) -> Report
    ensures few { length result.replies.items ≤ length events.now }
    ensures replied { Replied peer.old (events_told events.now result.replies.items)
        (reverse result.replies.items) peer.new }
    ensures history { LeadsOn peer.old (run_of events.now result.replies.items) peer.new }
    ensures in_order { all_ups (run_of events.now result.replies.items)
        ≡ all_came_open peer.old (run_of events.now result.replies.items) }
    ensures sent { HoldsThroughout SendsIfSubmitted peer.old (run_of events.now result.replies.items) }
    ensures opened { LeavesOpened peer.old (run_of events.now result.replies.items) peer.new }
    ensures carried { CarriesThrough peer.old (run_of events.now result.replies.items) }
    ensures closed { ClosesThrough peer.old (run_of events.now result.replies.items) }
    ensures ended { LeavesEnded peer.old (run_of events.now result.replies.items) peer.new }
    ensures stays { (c : Conn) → StandsOpen peer.old c →
        never_ends peer.old c (run_of events.now result.replies.items) ≡ true → StandsOpen peer.new c }
    ensures counted { (c : Conn) → StandsOpen peer.new c →
        peer.new.standing.core.count ≡ ticks_since peer.old c (run_of events.now result.replies.items) }
{
    each_opening_follows_cer_and_cea();
    user_messages_have_submits_or_arrivals();
    ended_connections_stay_silent_until_named();
    runs_hand_up_all_in_order();
    each_done_submit_is_sent_once();
    only_listed_events_end_open_connections();
    watchdogs_count_ticks_since_something_came();
    peers_are_settled_with_encodable_numbers(peer);
    tell_events_while_memory_lasts(peer, alloc, events)
}
