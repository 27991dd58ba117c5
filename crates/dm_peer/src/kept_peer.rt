//! What holds of every peer (`Kept`) is used at an event, and kept by it: each Send spells a message, and a stranger
//! gets an answer at most.
ghost use Rattle.std.specs.Prelude.{◌≡◌, ℕ, IfErr, OnOk, OnErr, List, [], All};
ghost use Rattle.dm_machine.specs.declared.connection.Conn.{Conn};
ghost use Rattle.dm_peer.specs.Acts.{Moved, acts, standing_at, IsRefused};
ghost use Rattle.dm_peer.specs.Events.{Arrived, event_told};
ghost use Rattle.dm_peer.specs.Spelled.{SendsSpelling};
ghost use Rattle.dm_peer.specs.Strangers.{AreStrange, TurnsAway};

use crate::events::event_octets_are_below_256;
use crate::laws::{
    each_event_keeps_peers_settled, each_send_spells_a_message, strangers_change_nothing,
};
use crate::standing::{Kept, Standing};
use crate::steps::handle_event;
use crate::{Actions, Event, Peer, PeerFault};
use std::alloc::Global;

/// The standing that an event leaves with these actions, as every peer has it.
#[inline(always)]
pub(crate) fn kept_standing(
    peer: &Peer,
    event: Event<'_>,
    actions: &Actions,
    standing: Standing,
) -> Kept
    requires { acts peer.now (event_told event) ≡ Moved actions.now.items (standing_at peer.now standing) }
    ensures { result ≡ standing }
{
    each_event_keeps_peers_settled();
    each_send_spells_a_message();
    event_octets_are_below_256(event);
    let _kept = peer.standing.get();
    Kept::new(standing)
}

/// What the event comes to ([`handle_event`]), with what follows of it since the peer is what events make of a new one
/// (`Kept`): each Send spells a message (`spelled`), and a stranger's octets change nothing (`stranger`).
pub(crate) fn handle_event_of_kept_peer(
    alloc: Global,
    peer: &mut Peer,
    event: Event<'_>,
    actions: &mut Actions,
) -> Result<(), PeerFault>
    requires none { actions.old.items ≡ [] }
    ensures moved { OnOk result (acts peer.old (event_told event.entry) ≡ Moved actions.new.items peer.new) }
    ensures refused { IfErr result (IsRefused (acts peer.old (event_told event.entry))) }
    ensures unchanged { OnErr result (peer.new ≡ peer.old) }
    ensures spelled { OnOk result (All SendsSpelling actions.new.items) }
    ensures stranger { (conn : Conn) (octets : List ℕ) → event_told event.entry ≡ Arrived conn octets
        → AreStrange peer.old conn octets
        → OnOk result (TurnsAway conn actions.new.items × (peer.new ≡ peer.old)) }
{
    each_send_spells_a_message();
    strangers_change_nothing();
    event_octets_are_below_256(event);
    let _kept = peer.standing.get();
    handle_event(alloc, peer, event, actions)
}
