//! An event is told to the one neighbour of a node that it concerns; where it concerns none it is a stranger's.
ghost use Rattle.std.specs.Prelude.{◌≡◌, ◌⊎◌, ℕ, true, List, [], All, None, Err, IfOk, IfErr, IfSome, OnOk, OnErr};
ghost use Rattle.dm_machine.specs.declared.connection.Conn.{Conn};
ghost use Rattle.dm_node.specs.Declining.{IsDeclinedHere, GoesByRule, GoesByAllRules, EventTakesMemory};
ghost use Rattle.dm_node.specs.NodeHeld.{AllHeldAreThere, AreRaised};
ghost use Rattle.dm_machine.specs.Moves.{is_open};
ghost use Rattle.dm_node.specs.Holding.{holds_it};
ghost use Rattle.dm_node.specs.NodeKnown.{known_of, peer_state, AreKnown, MeetsAny, IsCopied};
ghost use Rattle.dm_node.specs.NodeStates.{TakesMemoryAt, concerned_in};
ghost use Rattle.dm_node.specs.Owning.{has, one_held, AreOwned, IsOpenAsBefore, IsReowned};
ghost use Rattle.dm_node.specs.Strangers.{NodeMoves, NodeIsTold};
ghost use Rattle.dm_node.specs.Telling.{IsFree, IsHolder, IsStrangeCer, IsWhose, IsRefusedHere, StartsFree, told_of};
ghost use Rattle.dm_node.specs.declared.fault.OrderFault.TheVariants as faults;
ghost use Rattle.dm_peer.specs.declared.fault.PeerFault.TheVariants as peer_faults;
ghost use Rattle.dm_peer.specs.Events.{Arrived};
ghost use Rattle.dm_peer.specs.Spelled.{SendsSpelling};
ghost use Rattle.dm_slots.specs.Acquaintances.{known_after, known_at};
ghost use Rattle.dm_slots.specs.Held.{owners_of};
ghost use Rattle.dm_slots.specs.Intakes.{Intakes as AllIntakes, actions_close};
ghost use Rattle.dm_slots.specs.Naming.{NamesThere};

use crate::acquaintances::Acquaintances;
use crate::concerned_neighbour::{concerned_neighbour, neighbour_for_arrived_octets};
use crate::events::is_arrival;
use crate::meeting::{
    copy_and_reserve_if_exchange, meet_if_opened_by_event, meet_or_set_waiting_cer,
};
use crate::neighbours::{Neighbours, neighbours_are_apart_and_sound};
use crate::one_told::tell_one_neighbour;
use crate::owners::holding_one;
use crate::settling::ToSettle;
use crate::stranger_events::handle_stranger_event;
use crate::{Answer, NodeEvent, OrderFault, Strangers};
use dm_base::Node;
use dm_machine::Conn;
use dm_machine::laws::given_up_is_closed_unnamed_stays_unheld;
use dm_peer::laws::{
    done_events_are_steps_or_drops, each_event_keeps_peers_settled, event_refusals_go_by_rule,
    events_take_named_release_closed_connections,
};
use dm_slots::Slots;
use std::alloc::{AllocError, Global};

/// The connection on which the neighbour of the number is open, where the event that concerns it is no octets: these
/// may close another connection.
#[inline(always)]
fn open_connection_unless_arrival(
    neighbours: &Neighbours,
    who: Option<usize>,
    event: NodeEvent<'_>,
) -> Option<Conn>
    ensures state { IfSome result (λ conn. is_open (peer_state (concerned_in neighbours.now who)) ≡ true) }
    ensures held { IfSome result (λ conn. (c : Conn)
        → has (one_held conn) c ≡ holds_it c (concerned_in neighbours.now who)) }
    ensures arrival { (c : Conn) (octets : List ℕ) → told_of event.entry ≡ Arrived c octets → result ≡ None }
{
    if is_arrival(event) {
        None
    } else {
        neighbours.open_connection(who)
    }
}

/// What the node does at the event, which is of this neighbour, or of none, put into `answer`, whose actions are none
/// before.
#[inline(always)]
fn tell_one_or_handle_stranger<S: Strangers>(
    alloc: Global,
    own: &Node,
    neighbours: &mut Neighbours,
    strangers: &S,
    who: Option<usize>,
    event: NodeEvent<'_>,
    answer: &mut Answer,
) -> Result<(), OrderFault>
    requires whose { IsWhose (S.policy strangers.now) neighbours.old event who }
    requires none { answer.old.actions.items ≡ [] }
    ensures told { OnOk result (NodeIsTold (S.policy strangers.now) event.entry own.now neighbours.old
        answer.new.neighbour answer.new.actions.items neighbours.new) }
    ensures refused { IfErr result (IsRefusedHere (S.policy strangers.now) neighbours.old event.entry) }
    ensures rules { GoesByRule (S.policy strangers.now) neighbours.old event.entry result }
    ensures unchanged { OnErr result (neighbours.new ≡ neighbours.old) }
    ensures spelled { OnOk result (All SendsSpelling answer.new.actions.items) }
{
    neighbours_are_apart_and_sound(neighbours);
    match who {
        Some(index) => tell_one_neighbour(alloc, neighbours, index, event, answer),
        None => handle_stranger_event(alloc, own, neighbours, strangers, event, answer),
    }
}

/// Tells the event to the neighbour that it concerns, `who`, or handles it as a stranger's where it concerns none, by
/// the policy for strangers, and puts what it comes to into `answer`, whose actions are none before: what
/// [`tell_one_or_handle_stranger`] does, of which this says more.
#[inline(always)]
fn tell_neighbour_or_handle_stranger<S: Strangers>(
    alloc: Global,
    own: &Node,
    neighbours: &mut Neighbours,
    strangers: &S,
    who: Option<usize>,
    event: NodeEvent<'_>,
    answer: &mut Answer,
) -> Result<(), OrderFault>
    requires whose { IsWhose (S.policy strangers.now) neighbours.old event who }
    requires none { answer.old.actions.items ≡ [] }
    ensures told { OnOk result (NodeIsTold (S.policy strangers.now) event.entry own.now
        neighbours.old answer.new.neighbour answer.new.actions.items neighbours.new) }
    ensures closed { OnOk result ((c : Conn) → actions_close answer.new.actions.items c.0 ≡ true
        → IsFree neighbours.new c) }
    ensures held { (f : AllIntakes) → AllHeldAreThere neighbours.old f → NamesThere (told_of event.entry) f
        → AllHeldAreThere neighbours.new f }
    ensures refused { IfErr result (λ fault. (fault ≡ faults.Peer peer_faults.NoMemory)
        ⊎ IsDeclinedHere (S.policy strangers.now) neighbours.old event.entry fault) }
    ensures memory { (c : Conn) (octets : List ℕ) → told_of event.entry ≡ Arrived c octets
        → OnErr result (TakesMemoryAt (S.policy strangers.now) c octets neighbours.old) }
    ensures because { IfErr result (IsRefusedHere (S.policy strangers.now) neighbours.old event.entry) }
    ensures rules { GoesByRule (S.policy strangers.now) neighbours.old event.entry result }
    ensures spelled { OnOk result (All SendsSpelling answer.new.actions.items) }
    ensures unchanged { OnErr result (neighbours.new ≡ neighbours.old) }
{
    done_events_are_steps_or_drops();
    each_event_keeps_peers_settled();
    events_take_named_release_closed_connections();
    given_up_is_closed_unnamed_stays_unheld();
    event_refusals_go_by_rule();
    neighbours_are_apart_and_sound(neighbours);
    match tell_one_or_handle_stranger(alloc, own, neighbours, strangers, who, event, answer) {
        Ok(()) => Ok(()),
        Err(fault) => Err(fault),
    }
}

/// Tells the message that came on the connection, which `holder` holds, or nobody, to the neighbour that it concerns,
/// or handles it as a stranger's, puts what it comes to into `answer`, whose actions are none before, and keeps whom it
/// met. Returns what is settled behind it. The CER or CEA is copied first, so that behind an `Err` all is as it was.
#[inline(always)]
pub(crate) fn tell_message<S: Strangers>(
    alloc: Global,
    own: &Node,
    neighbours: &mut Neighbours,
    known: &mut Acquaintances,
    strangers: &S,
    holder: Option<usize>,
    conn: Conn,
    octets: &[u8],
    answer: &mut Answer,
) -> Result<ToSettle, AllocError>
    requires none { answer.old.actions.items ≡ [] }
    requires places { AreKnown neighbours.old (known_of known.old) }
    requires holder { IsHolder neighbours.old conn holder }
    ensures told { OnOk result (NodeMoves (S.policy strangers.now) conn octets.now own.now
        neighbours.old answer.new.neighbour answer.new.actions.items neighbours.new) }
    ensures closed { OnOk result ((c : Conn) → actions_close answer.new.actions.items c.0 ≡ true
        → IsFree neighbours.new c) }
    ensures held { (f : AllIntakes) → AllHeldAreThere neighbours.old f → NamesThere (Arrived conn octets.now) f
        → AllHeldAreThere neighbours.new f }
    ensures before { IfOk result (λ told.
        IsReowned neighbours.old neighbours.new answer.new.neighbour told.before) }
    ensures stays { (most : ℕ) (f : AllIntakes) → AreRaised most neighbours.old f
        → IfOk result (λ told. told.is_open_as_before ≡ true
        → IsOpenAsBefore most f told.before answer.new.actions.items
        (concerned_in neighbours.new answer.new.neighbour)) }
    ensures places { AreKnown neighbours.new (known_of known.new) }
    ensures met { OnOk result (MeetsAny (λ state q a. known_at conn state q octets.now a) answer.new.neighbour
        neighbours.old neighbours.new (known_of known.old) (known_of known.new)) }
    ensures memory { OnErr result (TakesMemoryAt (S.policy strangers.now) conn octets.now neighbours.old
        ⊎ IsCopied (S.policy strangers.now) conn octets.now neighbours.old) }
    ensures spelled { OnOk result (All SendsSpelling answer.new.actions.items) }
    ensures unchanged { OnErr result (neighbours.new ≡ neighbours.old) }
    ensures same { OnErr result (known_of known.new ≡ known_of known.old) }
{
    done_events_are_steps_or_drops();
    given_up_is_closed_unnamed_stays_unheld();
    neighbours_are_apart_and_sound(neighbours);
    let event = NodeEvent::Arrived(conn, octets);
    if let Some(on) = neighbours.open_connection(holder) {
        return match tell_neighbour_or_handle_stranger(
            alloc, own, neighbours, strangers, holder, event, answer,
        ) {
            Ok(()) => Ok(ToSettle {
                before: holding_one(on),
                is_open_as_before: neighbours.is_open_on(answer.neighbour, on),
            }),
            Err(_) => Err(AllocError),
        };
    }
    let who = neighbour_for_arrived_octets(neighbours, strangers, holder, conn, octets);
    let before = neighbours.snapshot(who);
    let exchange = match copy_and_reserve_if_exchange(alloc, known, before.state, octets) {
        Ok(exchange) => exchange,
        Err(error) => return Err(error),
    };
    match tell_neighbour_or_handle_stranger(alloc, own, neighbours, strangers, who, event, answer) {
        Ok(()) => {
            meet_or_set_waiting_cer(
                neighbours,
                known,
                answer.neighbour,
                exchange,
                conn,
                before.state,
            );
            Ok(ToSettle {
                before: before.held,
                is_open_as_before: false,
            })
        }
        Err(_) => Err(AllocError),
    }
}

/// Tells an event that is no stranger's CER to the neighbour that it concerns, if any, puts what it comes to into
/// `answer`, whose actions are none before, and keeps whom the end of an election met by it. Returns what is
/// settled behind it; behind an `Err` the neighbours and whom they met are as they were.
#[inline(always)]
pub(crate) fn tell_event<S: Strangers>(
    alloc: Global,
    own: &Node,
    neighbours: &mut Neighbours,
    known: &mut Acquaintances,
    slots: &Slots,
    strangers: &S,
    event: NodeEvent<'_>,
    answer: &mut Answer,
) -> Result<ToSettle, OrderFault>
    requires none { answer.old.actions.items ≡ [] }
    requires places { AreKnown neighbours.old (known_of known.old) }
    requires owned { AreOwned (owners_of slots.now) neighbours.old }
    requires calm { IsStrangeCer event → ⊥ }
    requires free { StartsFree neighbours.old event }
    ensures told { OnOk result (NodeIsTold (S.policy strangers.now) event.entry own.now
        neighbours.old answer.new.neighbour answer.new.actions.items neighbours.new) }
    ensures closed { OnOk result ((c : Conn) → actions_close answer.new.actions.items c.0 ≡ true
        → IsFree neighbours.new c) }
    ensures held { (f : AllIntakes) → AllHeldAreThere neighbours.old f → NamesThere (told_of event.entry) f
        → AllHeldAreThere neighbours.new f }
    ensures before { IfOk result (λ told.
        IsReowned neighbours.old neighbours.new answer.new.neighbour told.before) }
    ensures stays { (most : ℕ) (f : AllIntakes) → AreRaised most neighbours.old f
        → IfOk result (λ told. told.is_open_as_before ≡ true
        → IsOpenAsBefore most f told.before answer.new.actions.items
        (concerned_in neighbours.new answer.new.neighbour)) }
    ensures places { AreKnown neighbours.new (known_of known.new) }
    ensures met { OnOk result (MeetsAny known_after answer.new.neighbour neighbours.old neighbours.new
        (known_of known.old) (known_of known.new)) }
    ensures refused { IfErr result (λ fault. (fault ≡ faults.Peer peer_faults.NoMemory)
        ⊎ IsDeclinedHere (S.policy strangers.now) neighbours.old event.entry fault) }
    ensures memory { (c : Conn) (octets : List ℕ) → told_of event.entry ≡ Arrived c octets
        → OnErr result (TakesMemoryAt (S.policy strangers.now) c octets neighbours.old) }
    ensures rules { GoesByAllRules (S.policy strangers.now) neighbours.old event.entry result }
    ensures wants { result ≡ Err (faults.Peer peer_faults.NoMemory)
        → EventTakesMemory (S.policy strangers.now) neighbours.old event.entry }
    ensures spelled { OnOk result (All SendsSpelling answer.new.actions.items) }
    ensures unchanged { OnErr result (neighbours.new ≡ neighbours.old) }
    ensures same { OnErr result (known_of known.new ≡ known_of known.old) }
{
    done_events_are_steps_or_drops();
    given_up_is_closed_unnamed_stays_unheld();
    event_refusals_go_by_rule();
    neighbours_are_apart_and_sound(neighbours);
    let who = match concerned_neighbour(neighbours, slots, strangers, event) {
        Ok(who) => who,
        Err(fault) => return Err(fault),
    };
    if let Some(on) = open_connection_unless_arrival(neighbours, who, event) {
        return match tell_neighbour_or_handle_stranger(
            alloc, own, neighbours, strangers, who, event, answer,
        ) {
            Ok(()) => Ok(ToSettle {
                before: holding_one(on),
                is_open_as_before: neighbours.is_open_on(answer.neighbour, on),
            }),
            Err(fault) => Err(fault),
        };
    }
    let before = neighbours.snapshot(who);
    match tell_neighbour_or_handle_stranger(alloc, own, neighbours, strangers, who, event, answer) {
        Ok(()) => {
            meet_if_opened_by_event(neighbours, known, answer.neighbour, before.state);
            Ok(ToSettle {
                before: before.held,
                is_open_as_before: false,
            })
        }
        Err(fault) => Err(fault),
    }
}
