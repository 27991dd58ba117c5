//! What reaches a side on a link.
ghost use Rattle.std.specs.Prelude.{◌≡◌, ◌<◌, ℕ, List, Some, false, IfOk, IfErr, OnErr, length, slice_get};
ghost use Rattle.dm_two_peers.specs.Machine.{conn};
ghost use Rattle.dm_two_peers.specs.Happens.{happens, Delivers, Pieces, comes, own_view};
ghost use Rattle.dm_two_peers.specs.Links.{Link};
ghost use Rattle.dm_two_peers.specs.Worlds as worlds;
ghost use Rattle.dm_two_peers.specs.Peers.{ArrivedEvent, GoneEvent};
ghost use Rattle.dm_octet_peers.specs.Octets.{octet_peers};
ghost use Rattle.dm_world.specs.Happening.{is_shut_at, is_heard_at, is_fed_at};
ghost use Rattle.dm_world.specs.Seen.{as_side, as_links};
ghost use Rattle.dm_world.specs.Views.{as_world, Effects, IsFault, front_of};

use crate::direction::{Handed, Next, empty_framer};
use crate::events_on_links::receive_event_on_link;
use crate::link::End;
use crate::net::Net;
use crate::{Effect, Side, WorldFault};
use dm_dict::NoMemory;
use dm_peer::{Conn, Event};
use std::alloc::Global;

impl Net {
    /// The side hears the front message of the link: its framer's copy hands it out, and takes the framer's place once
    /// the peer has answered.
    fn hear_front_message(
        &mut self,
        alloc: Global,
        side: Side,
        index: usize,
    ) -> Result<Effect, NoMemory>
        requires there { index < length self.old.links.items }
        ensures step { IfOk result (λ effect. (x : List ℕ) →
            front_of (as_side side) (slice_get (as_links self.old.links.items) index) ≡ Some x →
            Effects effect (worlds.tell octet_peers (as_side side) (ArrivedEvent (conn index) x) (as_world self.old))
            (as_world self.old) (as_world self.new)) }
        ensures unchanged { OnErr result (as_world self.new ≡ as_world self.old) }
    {
        match self.links[index].direction_to(side).copy_front_message()? {
            Some(Handed { message, framer }) => {
                let event = Event::Arrived(Conn(index as u64), message.as_slice());
                self.tell_side(alloc, side, event, Some(framer))
            }
            None => Ok(Effect::Ignored),
        }
    }

    /// The front message comes to the side's end of the link. A shut end drops it unread.
    fn deliver_message_to(
        &mut self,
        alloc: Global,
        side: Side,
        index: usize,
    ) -> Result<Effect, NoMemory>
        requires there { index < length self.old.links.items }
        ensures step { IfOk result (λ effect. (l : Link (List ℕ)) (x : List ℕ) →
            slice_get (as_links self.old.links.items) index ≡ Some l →
            slice_get (own_view (as_side side) l).incoming.messages 0 ≡ Some x →
            Effects effect (comes octet_peers (as_side side) (ArrivedEvent (conn index) x)
            (own_view (as_side side) l).own (as_world self.old)) (as_world self.old) (as_world self.new)) }
        ensures unchanged { OnErr result (as_world self.new ≡ as_world self.old) }
        ensures heard { OnErr result ((l : Link (List ℕ)) → slice_get (as_links self.old.links.items) index ≡ Some l →
            is_shut_at (as_side side) l ≡ false) }
    {
        match self.links[index].own_end(side) {
            End::Shut => {
                let event = Event::Arrived(Conn(index as u64), b"");
                receive_event_on_link(&mut self.links, side, event, Some(empty_framer(alloc)));
                Ok(Effect::Done)
            }
            End::Fresh | End::Open => self.hear_front_message(alloc, side, index),
        }
    }

    /// The disconnect comes to the side's end of the link. A shut end drops it.
    fn deliver_disconnect_to(
        &mut self,
        alloc: Global,
        side: Side,
        index: usize,
    ) -> Result<Effect, NoMemory>
        requires there { index < length self.old.links.items }
        ensures step { IfOk result (λ effect. (l : Link (List ℕ)) →
            slice_get (as_links self.old.links.items) index ≡ Some l →
            Effects effect (comes octet_peers (as_side side) (GoneEvent (conn index)) (own_view (as_side side) l).own
            (as_world self.old)) (as_world self.old) (as_world self.new)) }
        ensures unchanged { OnErr result (as_world self.new ≡ as_world self.old) }
        ensures heard { OnErr result ((l : Link (List ℕ)) → slice_get (as_links self.old.links.items) index ≡ Some l →
            is_shut_at (as_side side) l ≡ false) }
    {
        let event = Event::Gone(Conn(index as u64));
        match self.links[index].own_end(side) {
            End::Shut => {
                receive_event_on_link(&mut self.links, side, event, None);
                Ok(Effect::Done)
            }
            End::Fresh | End::Open => self.tell_side(alloc, side, event, None),
        }
    }

    /// What is next on the link comes to the side; ignored where nothing is.
    pub(crate) fn deliver_next(
        &mut self,
        alloc: Global,
        conn: Conn,
        side: Side,
    ) -> Result<Effect, WorldFault>
        ensures step { IfOk result (λ effect. Effects effect
            (happens octet_peers (as_world self.old) (Delivers conn.0 (as_side side))) (as_world self.old)
            (as_world self.new)) }
        ensures fault { IfErr result (λ f. IsFault f
            (is_heard_at (as_side side) (slice_get (as_links self.old.links.items) conn.0))
            (happens octet_peers (as_world self.old) (Delivers conn.0 (as_side side)))) }
        ensures unchanged { OnErr result (as_world self.new ≡ as_world self.old) }
    {
        let index = self.index_of(conn)?;
        match self.links[index].coming_next_to(side) {
            Next::Nothing => Ok(Effect::Ignored),
            Next::Message => Ok(self.deliver_message_to(alloc, side, index)?),
            Next::Disconnect => Ok(self.deliver_disconnect_to(alloc, side, index)?),
        }
    }

    /// So many next octets on the link come to the side, up to the end of the front message.
    pub(crate) fn deliver_piece(
        &mut self,
        alloc: Global,
        conn: Conn,
        side: Side,
        count: u32,
    ) -> Result<Effect, WorldFault>
        ensures step { IfOk result (λ effect. Effects effect
            (happens octet_peers (as_world self.old) (Pieces conn.0 (as_side side) count)) (as_world self.old)
            (as_world self.new)) }
        ensures fault { IfErr result (λ f. IsFault f
            (is_fed_at (as_side side) count (slice_get (as_links self.old.links.items) conn.0))
            (happens octet_peers (as_world self.old) (Pieces conn.0 (as_side side) count))) }
        ensures unchanged { OnErr result (as_world self.new ≡ as_world self.old) }
    {
        let index = self.index_of(conn)?;
        if count == 0 {
            return Ok(Effect::Ignored);
        }
        let link = &self.links[index];
        match link.coming_next_to(side) {
            Next::Disconnect | Next::Nothing => Ok(Effect::Ignored),
            Next::Message => {
                if link.direction_to(side).front_octets_left() <= count as usize {
                    return Ok(self.deliver_message_to(alloc, side, index)?);
                }
                self.links[index].deliver_octets_to(side, count as usize)?;
                Ok(Effect::Done)
            }
        }
    }
}
