//! What a neighbour holds, and whose each connection is.
ghost use Rattle.std.specs.Prelude.{◌≡◌, ◌++◌, true, List, Option};
ghost use Rattle.dm_machine.specs.declared.connection.Conn.{Conn};
ghost use Rattle.std.specs.Option.{option_copied};
ghost use Rattle.dm_node.specs.Holding.{holds, holds_it, AreApart};
ghost use Rattle.dm_node.specs.NodeOrders.{close_if_any, closes_of_any};
ghost use Rattle.dm_node.specs.NodeStates.{concerned_in};
ghost use Rattle.dm_node.specs.Owning.{has, one_held, initiated_of, accepted_of, owned_after};
ghost use Rattle.dm_node.specs.Owning.{AreOwned, IsReowned};
ghost use Rattle.dm_slots.specs.Held.{intakes_of, owners_of};
ghost use Rattle.dm_slots.specs.Intakes.{is_there};
ghost use Rattle.dm_peer.specs.declared.peer.Peer.{Peer};
ghost use Rattle.dm_slots.specs.Raised.{own_of, other_of};

use dm_machine::laws::shaped_cores_have_eight_forms;
use dm_peer::{Conn, Peer, State};
use dm_slots::Slots;

/// The connections that a peer holds.
#[derive(Clone, Copy)]
pub(crate) struct Holding {
    pub(crate) initiated: Option<Conn>,
    pub(crate) accepted: Option<Conn>,
}

/// What a neighbour is at a time: its state, and what it holds.
#[derive(Clone, Copy)]
pub(crate) struct Snapshot {
    pub(crate) state: State,
    pub(crate) held: Holding,
}

/// True only where both are the same connection, or there is neither.
fn is_same_conn(one: Option<Conn>, other: Option<Conn>) -> bool
    ensures { result ≡ true → one ≡ other }
{
    match (one, other) {
        (Some(one), Some(other)) => one.0 == other.0,
        (None, None) => true,
        _ => false,
    }
}

/// True only where the same connections are held, each as it was.
fn is_holding_unchanged(before: Holding, after: Holding) -> bool
    ensures { result ≡ true → before ≡ after }
{
    is_same_conn(before.initiated, after.initiated) && is_same_conn(before.accepted, after.accepted)
}

/// One connection and no other, whichever side opened it.
pub(crate) fn holding_one(conn: Conn) -> Holding
    ensures { result ≡ one_held conn }
{
    Holding {
        initiated: Some(conn),
        accepted: None,
    }
}

/// What the peer holds.
fn held_connections_of(peer: &Peer) -> Holding
    ensures initiated { result.initiated ≡ own_of peer.now }
    ensures accepted { result.accepted ≡ other_of peer.now }
    ensures holds { (c : Conn) → has result c ≡ holds c peer.now }
{
    shaped_cores_have_eight_forms();
    let _state = peer.state();
    Holding {
        initiated: peer.initiated(),
        accepted: peer.accepted(),
    }
}

/// What a neighbour holds, where there is one.
pub(crate) fn held_connections_if_any(peer: Option<&Peer>) -> Holding
    ensures holds { (c : Conn) → has result c ≡ holds_it c (option_copied peer.entry) }
    ensures closes { close_if_any result.initiated ++ close_if_any result.accepted
        ≡ closes_of_any (option_copied peer.entry) }
    ensures initiated { result.initiated ≡ initiated_of (option_copied peer.entry) }
    ensures accepted { result.accepted ≡ accepted_of (option_copied peer.entry) }
{
    match peer {
        Some(peer) => held_connections_of(peer),
        None => Holding {
            initiated: None,
            accepted: None,
        },
    }
}

/// Notes that what was held before is nobody's, and that what is held after belongs to the neighbour of the number.
fn change_owners(slots: &mut Slots, before: Holding, after: Holding, index: usize)
    requires there { (c : Conn) → has after c ≡ true → is_there c.0 (intakes_of slots.old) ≡ true }
    ensures intakes { intakes_of slots.new ≡ intakes_of slots.old }
    ensures owners { (c : Conn) → owners_of slots.new c.0 ≡ owned_after (owners_of slots.old) before after index c }
{
    slots.disown(before.initiated);
    slots.disown(before.accepted);
    slots.set_owner(after.initiated, index);
    slots.set_owner(after.accepted, index);
}

/// Notes what the neighbour that was told something owns: it held `before`, and holds `after` now. Nothing where nobody
/// was told.
#[inline(always)]
pub(crate) fn update_owners(slots: &mut Slots, before: Holding, after: Holding, who: Option<usize>)
    requires there { (c : Conn) → has after c ≡ true → is_there c.0 (intakes_of slots.old) ≡ true }
    ensures intakes { intakes_of slots.new ≡ intakes_of slots.old }
    ensures owned { (ps qs : List (Option Peer)) → AreApart qs
        → ((c : Conn) → has after c ≡ holds_it c (concerned_in qs who)) → IsReowned ps qs who before
        → AreOwned (owners_of slots.old) ps → AreOwned (owners_of slots.new) qs }
{
    if let Some(index) = who {
        if !is_holding_unchanged(before, after) {
            change_owners(slots, before, after, index);
        }
    }
}
