//! What is left behind an event: whose the connections are, what is closed, and which take longer messages.
ghost use Rattle.std.specs.Prelude.{◌≡◌, true, List, Option};
ghost use Rattle.dm_machine.specs.declared.connection.Conn.{Conn};
ghost use Rattle.dm_node.specs.NodeHeld.{is_open_with, AllHeldAreThere, AreRaised, TakesUpTo};
ghost use Rattle.dm_node.specs.NodeStates.{concerned_in, raised_for};
ghost use Rattle.dm_node.specs.Owning.{AreOwned, IsOpenAsBefore, IsReowned};
ghost use Rattle.dm_node.specs.Telling.{IsFree};
ghost use Rattle.dm_peer.specs.declared.peer.Peer.{Peer};
ghost use Rattle.dm_slots.specs.Held.{intakes_of, owners_of};
ghost use Rattle.dm_slots.specs.Intakes.{actions_close, left_by};

use crate::Answer;
use crate::neighbours::{Neighbours, neighbours_are_apart_and_sound};
use crate::owners::{Holding, update_owners};
use dm_machine::Conn;
use dm_slots::Slots;
use dm_slots::laws::connections_stay_until_closed;

/// What is settled behind an event that was told to a neighbour: what it held before, and whether it was open on that
/// and is so still, so that nothing is left to settle.
#[derive(Clone, Copy)]
pub(crate) struct ToSettle {
    pub(crate) before: Holding,
    pub(crate) is_open_as_before: bool,
}

/// Brings the connections up to date once an event was told: notes what its neighbour owns, forgets what the answer
/// closes, and lets what an open neighbour holds take messages of at most `most` octets. Where the neighbour is open as
/// before, all is up to date.
#[inline(always)]
pub(crate) fn settle_connections(
    neighbours: &Neighbours,
    slots: &mut Slots,
    told: ToSettle,
    most: u32,
    answer: &Answer,
)
    requires there { AllHeldAreThere neighbours.now (intakes_of slots.old) }
    requires free { (c : Conn) → actions_close answer.now.actions.items c.0 ≡ true → IsFree neighbours.now c }
    requires stays { told.is_open_as_before ≡ true → IsOpenAsBefore most (intakes_of slots.old) told.before
        answer.now.actions.items (concerned_in neighbours.now answer.now.neighbour) }
    ensures settled { intakes_of slots.new ≡ raised_for most (concerned_in neighbours.now answer.now.neighbour)
        (left_by answer.now.actions.items (intakes_of slots.old)) }
    ensures held { AllHeldAreThere neighbours.now (intakes_of slots.new) }
    ensures owned { (ps : List (Option Peer)) → IsReowned ps neighbours.now answer.now.neighbour told.before
        → AreOwned (owners_of slots.old) ps → AreOwned (owners_of slots.new) neighbours.now }
    ensures raised { (ps : List (Option Peer)) → IsReowned ps neighbours.now answer.now.neighbour told.before
        → AreRaised most ps (intakes_of slots.old) → AreRaised most neighbours.now (intakes_of slots.new) }
{
    connections_stay_until_closed();
    neighbours_are_apart_and_sound(neighbours);
    if told.is_open_as_before {
        return;
    }
    settle_changed_connections(
        neighbours,
        slots,
        told.before.initiated,
        told.before.accepted,
        most,
        answer,
    );
}

/// Does what [`settle_connections`] does, whatever the neighbour held, which is lent in parts, and holds.
#[inline(never)]
fn settle_changed_connections(
    neighbours: &Neighbours,
    slots: &mut Slots,
    initiated: Option<Conn>,
    accepted: Option<Conn>,
    most: u32,
    answer: &Answer,
)
    requires there { AllHeldAreThere neighbours.now (intakes_of slots.old) }
    requires free { (c : Conn) → actions_close answer.now.actions.items c.0 ≡ true → IsFree neighbours.now c }
    ensures settled { intakes_of slots.new ≡ raised_for most (concerned_in neighbours.now answer.now.neighbour)
        (left_by answer.now.actions.items (intakes_of slots.old)) }
    ensures held { AllHeldAreThere neighbours.now (intakes_of slots.new) }
    ensures owned { (ps : List (Option Peer))
        → IsReowned ps neighbours.now answer.now.neighbour (record { initiated = initiated; accepted = accepted })
        → AreOwned (owners_of slots.old) ps → AreOwned (owners_of slots.new) neighbours.now }
    ensures raised { (c : Conn) → is_open_with c (concerned_in neighbours.now answer.now.neighbour) ≡ true
        → TakesUpTo most (intakes_of slots.new c.0) }
{
    connections_stay_until_closed();
    neighbours_are_apart_and_sound(neighbours);
    let before = Holding {
        initiated,
        accepted,
    };
    let after = neighbours.snapshot(answer.neighbour);
    update_owners(slots, before, after.held, answer.neighbour);
    slots.shut_connections_closed_by(answer.actions.as_slice());
    slots.set_max_message_len_if_open(
        after.state.is_open(),
        after.held.initiated,
        after.held.accepted,
        most,
    );
}
