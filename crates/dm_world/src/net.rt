//! Two peers and the links between them, and what each event of a side does to them.
ghost use Rattle.std.specs.Prelude.{◌≡◌, ◌<◌, IfOk, IfErr, IfSome, OnErr, None, true, false, length, slice_get};
ghost use Rattle.dm_peer.specs.Events.{event_told};
ghost use Rattle.dm_two_peers.specs.Worlds as worlds;
ghost use Rattle.dm_wire.specs.Octets.{AreOctets};
ghost use Rattle.dm_octet_peers.specs.Frames.{submitted_in};
ghost use Rattle.dm_octet_peers.specs.Octets.{as_event, octet_peers};
ghost use Rattle.dm_world.specs.declared.fault.WorldFault.{WorldFault};
ghost use Rattle.dm_world.specs.Asking.{peer_of, IsAnswerOf};
ghost use Rattle.dm_world.specs.InPlace.{is_in_place};
ghost use Rattle.dm_world.specs.Rooms.{CanSend};
ghost use Rattle.dm_world.specs.Seen.{as_side, as_links};
ghost use Rattle.dm_world.specs.Telling.{is_start, FramerFits};
ghost use Rattle.dm_world.specs.Views.{as_world, Effects};

use crate::events_on_links::{follow_event_on_links, named_link};
use crate::link::Link;
use crate::pair::Pair;
use crate::rooms::make_room_for_sends;
use crate::{Effect, Side, WorldFault};
use dm_dict::NoMemory;
use dm_framer::Framer;
use dm_machine::laws::{given_up_is_closed_unnamed_stays_unheld, steps_keep_shape_in_few_commands};
use dm_octet_peers::laws::{every_message_sent_is_a_frame, octet_peers_move_as_the_machine};
use dm_peer::{Actions, Conn, Event};
use std::alloc::Global;

/// Two peers and the links between them.
#[derive(Drop)]
pub(crate) struct Net {
    pub(crate) pair: Pair,
    pub(crate) links: Vec<Link>,
}

impl Net {
    /// The index of the link that a happening names; `NoLink` where there is none.
    pub(crate) fn index_of(&self, conn: Conn) -> Result<usize, WorldFault>
        ensures there { IfOk result (λ index. (index ≡ conn.0) × (index < length self.now.links.items)) }
        ensures none { IfErr result (λ fault.
            (fault ≡ WorldFault.NoLink) × (slice_get (as_links self.now.links.items) conn.0 ≡ None)) }
    {
        let index = conn.0 as usize;
        if index < self.links.len() {
            Ok(index)
        } else {
            Err(WorldFault::NoLink)
        }
    }

    /// What the side's peer asks for at the event, with room for what it sends. None where it refuses the event.
    fn make_room_and_ask(
        &mut self,
        alloc: Global,
        side: Side,
        event: Event<'_>,
    ) -> Result<Option<Actions>, NoMemory>
        requires octets { AreOctets (submitted_in (event_told event)) }
        ensures same { as_links self.new.links.items ≡ as_links self.old.links.items }
        ensures answer { IfOk result (λ answer.
            IsAnswerOf (as_side side) (event_told event.entry) answer self.old.pair self.new.pair) }
        ensures sends { IfOk result (λ answer. IfSome answer (λ actions.
            CanSend (as_side side) self.new.links.items actions.items)) }
        ensures want { OnErr result (is_in_place (peer_of (as_side side) self.old.pair).standing.core.state
            (event_told event.entry) ≡ true) }
        ensures unchanged { OnErr result (self.new.pair ≡ self.old.pair) }
    {
        octet_peers_move_as_the_machine();
        every_message_sent_is_a_frame();
        given_up_is_closed_unnamed_stays_unheld();
        steps_keep_shape_in_few_commands();
        if !self.pair.side_state_takes_event(side, event) {
            return Ok(None);
        }
        make_room_for_sends(
            &mut self.links,
            side,
            self.pair.peer_at(side),
            named_link(event),
        )?;
        self.pair.ask_side(alloc, side, event)
    }

    /// The side's peer is told of the event; ignored where it refuses it. Where a message arrived the framer, which
    /// then has handed it out, takes the place of the one that holds octets of it.
    pub(crate) fn tell_side(
        &mut self,
        alloc: Global,
        side: Side,
        event: Event<'_>,
        framer: Option<Framer>,
    ) -> Result<Effect, NoMemory>
        requires known { is_start (event_told event) ≡ false }
        requires octets { AreOctets (submitted_in (event_told event)) }
        requires framer { FramerFits (event_told event) framer }
        ensures step { IfOk result (λ effect. Effects effect
            (worlds.tell octet_peers (as_side side) (as_event (event_told event.entry)) (as_world self.old))
            (as_world self.old) (as_world self.new)) }
        ensures want { OnErr result (is_in_place (peer_of (as_side side) self.old.pair).standing.core.state
            (event_told event.entry) ≡ true) }
        ensures unchanged { OnErr result (as_world self.new ≡ as_world self.old) }
    {
        match self.make_room_and_ask(alloc, side, event) {
            Ok(Some(actions)) => {
                let peer = self.pair.peer_at(side);
                follow_event_on_links(&mut self.links, side, peer, event, framer, actions);
                Ok(Effect::Done)
            }
            Ok(None) => Ok(Effect::Ignored),
            Err(no_memory) => Err(no_memory),
        }
    }
}
