//! One neighbour of many is told an event.
ghost use Rattle.std.specs.Prelude.{◌≡◌, ◌⊎◌, ℕ, true, Some, Err, IsSome, IfErr, OnOk, OnErr, All, []};
ghost use Rattle.dm_machine.specs.declared.connection.Conn.{Conn};
ghost use Rattle.dm_node.specs.Declining.{IsRuledOut, IsByRule};
ghost use Rattle.dm_node.specs.Holding.{peer_at, holds_at};
ghost use Rattle.dm_node.specs.Policies.{Policy};
ghost use Rattle.dm_node.specs.Rosters.{IsRoster};
ghost use Rattle.dm_node.specs.Telling.{conn_of, told_of, Concerns, IsAlone, PeerIsTold, IsRefusedBy, IsRefusedHere};
ghost use Rattle.dm_node.specs.declared.fault.OrderFault.TheVariants as faults;
ghost use Rattle.dm_node.specs.declared.hosts.Hosts.{Hosts};
ghost use Rattle.dm_peer.specs.Events.{event_told};
ghost use Rattle.dm_peer.specs.Spelled.{SendsSpelling};
ghost use Rattle.dm_peer.specs.declared.fault.PeerFault.{PeerFault};
ghost use Rattle.dm_peer.specs.declared.fault.PeerFault.TheVariants as peer_faults;

use crate::events::peer_event;
use crate::neighbours::{Neighbours, neighbours_are_apart_and_sound};
use crate::{Answer, NodeEvent, OrderFault};
use dm_machine::laws::given_up_is_closed_unnamed_stays_unheld;
use dm_peer::laws::{done_events_are_steps_or_drops, peers_are_settled_with_encodable_numbers};
use dm_peer::{Actions, Event, Peer, PeerFault};
use std::alloc::Global;

/// Tells the neighbour of this number the event, and puts what it does into `actions`, which are none before. No other
/// holds the connection that it names.
#[inline(always)]
fn tell_peer_at(
    alloc: Global,
    peers: &mut Vec<Option<Peer>>,
    index: usize,
    event: Event<'_>,
    actions: &mut Actions,
) -> Result<(), PeerFault>
    requires there { IsSome (peer_at peers.old.items index) }
    requires only { (j : ℕ) (c : Conn) → conn_of (event_told event) ≡ Some c → holds_at peers.old.items c j ≡ true
        → j ≡ index }
    requires none { actions.old.items ≡ [] }
    ensures told { OnOk result (
        PeerIsTold peers.old.items peers.new.items index (event_told event.entry) actions.new.items) }
    ensures spelled { OnOk result (All SendsSpelling actions.new.items) }
    ensures refused { IfErr result (IsRefusedBy peers.old.items index (event_told event.entry)) }
    ensures ruled { IfErr result (λ f. (f ≡ peer_faults.NoMemory)
        ⊎ IsRuledOut peers.old.items index (event_told event.entry) f) }
    ensures refuses { (f : PeerFault) → IsRuledOut peers.old.items index (event_told event.entry) f → result ≡ Err f }
    ensures unchanged { OnErr result (peers.new.items ≡ peers.old.items) }
    ensures roster { (hosts : Hosts) (count : ℕ) → IsRoster peers.old.items hosts count
        → IsRoster peers.new.items hosts count }
{
    done_events_are_steps_or_drops();
    given_up_is_closed_unnamed_stays_unheld();
    match &mut peers[index] {
        Some(peer) => {
            let _state = peer.state();
            let done = peer.on_into(alloc, event, actions);
            peers_are_settled_with_encodable_numbers(peer);
            done
        }
        None => unreachable!(),
    }
}

/// Tells the neighbour of this number the event, whose connection nobody else holds, and puts what it does into
/// `answer`, whose actions are none before.
#[inline(always)]
pub(crate) fn tell_one_neighbour(
    alloc: Global,
    neighbours: &mut Neighbours,
    index: usize,
    event: NodeEvent<'_>,
    answer: &mut Answer,
) -> Result<(), OrderFault>
    requires there { IsSome (peer_at neighbours.old index) }
    requires alone { IsAlone neighbours.old (told_of event) index }
    requires none { answer.old.actions.items ≡ [] }
    ensures neighbour { OnOk result (answer.new.neighbour ≡ Some index) }
    ensures told { OnOk result (PeerIsTold neighbours.old neighbours.new index (told_of event.entry)
        answer.new.actions.items) }
    ensures spelled { OnOk result (All SendsSpelling answer.new.actions.items) }
    ensures refused { (policy : Policy) → Concerns policy neighbours.old event.entry index
        → IfErr result (IsRefusedHere policy neighbours.old event.entry) }
    ensures ruled { (policy : Policy) → Concerns policy neighbours.old event.entry index
        → IfErr result (IsByRule policy neighbours.old event.entry) }
    ensures refuses { (f : PeerFault) → IsRuledOut neighbours.old index (told_of event.entry) f
        → result ≡ Err (faults.Peer f) }
    ensures unchanged { OnErr result (neighbours.new ≡ neighbours.old) }
{
    let told = peer_event(event);
    let done = tell_peer_at(
        alloc,
        &mut neighbours.peers,
        index,
        told,
        &mut answer.actions,
    );
    neighbours_are_apart_and_sound(neighbours);
    match done {
        Ok(()) => {
            answer.neighbour = Some(index);
            Ok(())
        }
        Err(fault) => Err(OrderFault::Peer(fault)),
    }
}
