//! The two peers of a world, and what one of them holds, which events it takes, and what it asks for.
ghost use Rattle.std.specs.Prelude.{◌≡◌, false, None, IsTrue, IfOk, OnErr};
ghost use Rattle.dm_machine.specs.Node.{is_shaped};
ghost use Rattle.dm_two_peers.specs.Machine.{is_tie_held, tie_of};
ghost use Rattle.dm_peer.specs.Acts.{acts};
ghost use Rattle.dm_peer.specs.Events.{event_told};
ghost use Rattle.dm_world.specs.InPlace.{is_in_place};
ghost use Rattle.dm_world.specs.Asking.{peer_of, with_peer_of, reset_of, IsAnswer, IsAnswerOf, IsWant};
ghost use Rattle.dm_world.specs.Seen.{as_side};

use crate::Side;
use dm_dict::NoMemory;
use dm_peer::laws::event_refusals_go_by_rule;
use dm_peer::{Actions, Conn, Event, Peer, PeerFault, State};
use std::alloc::Global;

/// The two peers of a world.
#[derive(Drop)]
pub(crate) struct Pair {
    pub(crate) a: Peer,
    pub(crate) b: Peer,
}

/// What the peer asks for at the event. None where it refuses the event.
fn ask_peer(peer: &mut Peer, alloc: Global, event: Event<'_>) -> Result<Option<Actions>, NoMemory>
    ensures shaped { IsTrue (is_shaped peer.old.standing.core) }
    ensures answer { IfOk result (λ answer. IsAnswer
        (acts peer.old (event_told event.entry)) answer peer.old peer.new) }
    ensures want { OnErr result (IsWant (acts peer.old (event_told event.entry))) }
    ensures unchanged { OnErr result (peer.new ≡ peer.old) }
{
    let _shaped = peer.state();
    match peer.on(alloc, event) {
        Ok(actions) => Ok(Some(actions)),
        Err(PeerFault::NoMemory) => Err(NoMemory),
        Err(PeerFault::NotClosed | PeerFault::NotOpen | PeerFault::BadSubmit) => Ok(None),
    }
}

/// Whether the peer holds the connection.
pub(crate) fn holds(peer: &Peer, conn: Conn) -> bool
    ensures { result ≡ is_tie_held (tie_of peer.now.standing.core conn.0) }
{
    peer.holds(conn)
}

/// Whether a peer takes such an event in its state, whatever it carries: a Start in Closed, a Stop or a Submit where it
/// is open, all else in each.
fn peer_state_takes_event(peer: &Peer, event: Event<'_>) -> bool
    ensures { result ≡ is_in_place peer.now.standing.core.state (event_told event.entry) }
{
    match event {
        Event::Start(_) => matches!(peer.state(), State::Closed),
        Event::Stop(_) | Event::Submit(_) => peer.is_open(),
        Event::Timeout
        | Event::Tick
        | Event::Ack(_)
        | Event::Nack(_)
        | Event::Arrived(..)
        | Event::Gone(_) => true,
    }
}

impl Pair {
    /// The peer of the side.
    pub(crate) fn peer_at(&self, side: Side) -> &Peer
        ensures { result.now ≡ peer_of (as_side side) self.now }
    {
        match side {
            Side::A => &self.a,
            Side::B => &self.b,
        }
    }

    /// Whether the side's peer takes such an event in its state, whatever it carries. Where it doesn't, it refuses the
    /// event.
    #[tactic(auto, using(crate::proofs::OffPlace::off_place))]
    pub(crate) fn side_state_takes_event(&self, side: Side, event: Event<'_>) -> bool
        ensures state { result ≡ is_in_place (peer_of (as_side side) self.now).standing.core.state
            (event_told event.entry) }
        ensures refused { result ≡ false → IsAnswerOf (as_side side) (event_told event.entry) None self.now self.now }
    {
        event_refusals_go_by_rule();
        let peer = self.peer_at(side);
        let _shaped = peer.state();
        peer_state_takes_event(peer, event)
    }

    /// What the side's peer asks for at the event. None where it refuses the event.
    pub(crate) fn ask_side(
        &mut self,
        alloc: Global,
        side: Side,
        event: Event<'_>,
    ) -> Result<Option<Actions>, NoMemory>
        ensures shaped { IsTrue (is_shaped (peer_of (as_side side) self.old).standing.core) }
        ensures answer { IfOk result (λ answer. IsAnswerOf (as_side side)
            (event_told event.entry) answer self.old self.new) }
        ensures want { OnErr result (IsWant (acts (peer_of (as_side side) self.old) (event_told event.entry))) }
        ensures unchanged { OnErr result (self.new ≡ self.old) }
    {
        match side {
            Side::A => ask_peer(&mut self.a, alloc, event),
            Side::B => ask_peer(&mut self.b, alloc, event),
        }
    }

    /// The side's peer starts anew.
    pub(crate) fn reset(&mut self, side: Side)
        ensures { self.new ≡ with_peer_of (as_side side) (reset_of (peer_of (as_side side) self.old)) self.old }
    {
        match side {
            Side::A => self.a.reset(),
            Side::B => self.b.reset(),
        }
    }
}
