//! The connect of a link that comes about, which makes an end, or that can't; and a Restart, which goes over the ends
//! that were made.
ghost use Rattle.std.specs.Prelude.{◌≡◌, IfOk, IfErr, OnErr, slice_get};
ghost use Rattle.dm_two_peers.specs.Facts.{IsSoundWorld};
ghost use Rattle.dm_two_peers.specs.Happens.{happens, Acks, Nacks, restart_links};
ghost use Rattle.dm_two_peers.specs.Worlds.{with_peer, peer_on};
ghost use Rattle.dm_octet_peers.specs.Octets.{octet_peers};
ghost use Rattle.dm_world.specs.Asking.{reset_of};
ghost use Rattle.dm_world.specs.Ends.{AreNamed, AreSameEnds, AreCleared, MakesEnds, restart_each, numbers};
ghost use Rattle.dm_world.specs.Happening.{is_pending_at};
ghost use Rattle.dm_world.specs.Seen.{as_side, as_links};
ghost use Rattle.dm_world.specs.Views.{as_world, Effects, IsFault};

use crate::link::Link;
use crate::made_ends::MadeEnds;
use crate::net::Net;
use crate::{Effect, Side, WorldFault, links};
use dm_peer::{Conn, Event};
use std::alloc::Global;

/// The side starts anew, as far as these links go.
fn close_each_link_at_restart(links: &mut Vec<Link>, side: Side, indexes: &[usize])
    ensures { as_links links.new.items ≡ restart_each (as_side side) indexes.now (as_links links.old.items) }
{
    for index in indexes {
        links::close_link_at_restart(links, side, *index);
    }
}

/// The side starts anew, as far as the link of a connection goes, if there is one.
fn close_link_if_any_at_restart(links: &mut Vec<Link>, side: Side, conn: Option<Conn>)
    ensures { as_links links.new.items ≡ restart_each (as_side side) (numbers conn) (as_links links.old.items) }
{
    match conn {
        Some(conn) => links::close_link_at_restart(links, side, conn.0 as usize),
        None => {}
    }
}

impl Net {
    /// The link's connect comes about: an end is made for the side that didn't open it.
    pub(crate) fn ack_connect(
        &mut self,
        alloc: Global,
        made: &mut MadeEnds,
        conn: Conn,
    ) -> Result<Effect, WorldFault>
        ensures step { IfOk result (λ effect. Effects effect (happens octet_peers (as_world self.old) (Acks conn.0))
            (as_world self.old) (as_world self.new)) }
        ensures fault { IfErr result (λ f. IsFault f (is_pending_at (slice_get (as_links self.old.links.items) conn.0))
            (happens octet_peers (as_world self.old) (Acks conn.0))) }
        ensures unchanged { OnErr result (as_world self.new ≡ as_world self.old) }
        ensures made { IfOk result (λ effect. MakesEnds effect (slice_get (as_links self.old.links.items) conn.0) conn.0
            made.old made.new) }
        ensures same { OnErr result (AreSameEnds made.old made.new) }
    {
        let index = self.index_of(conn)?;
        let link = &self.links[index];
        if !link.is_pending() {
            return Ok(Effect::Ignored);
        }
        let opener = link.opener;
        if made.reserve_end(opener.other()).is_err() {
            return Err(WorldFault::NoMemory);
        }
        let effect = self.tell_side(alloc, opener, Event::Ack(conn), None)?;
        if let Effect::Done = effect {
            made.add_end(opener.other(), index);
        }
        Ok(effect)
    }

    /// Tells the link's opener that its connect can't come about; ignored where no connect is pending.
    pub(crate) fn nack_connect(&mut self, alloc: Global, conn: Conn) -> Result<Effect, WorldFault>
        ensures step { IfOk result (λ effect. Effects effect (happens octet_peers (as_world self.old) (Nacks conn.0))
            (as_world self.old) (as_world self.new)) }
        ensures fault { IfErr result (λ f. IsFault f (is_pending_at (slice_get (as_links self.old.links.items) conn.0))
            (happens octet_peers (as_world self.old) (Nacks conn.0))) }
        ensures unchanged { OnErr result (as_world self.new ≡ as_world self.old) }
    {
        let index = self.index_of(conn)?;
        let link = &self.links[index];
        if !link.is_pending() {
            return Ok(Effect::Ignored);
        }
        let opener = link.opener;
        Ok(self.tell_side(alloc, opener, Event::Nack(conn), None)?)
    }

    /// The side starts anew. That changes no links but those on which an end was made for it, and those that its peer
    /// holds.
    pub(crate) fn restart_side(&mut self, made: &mut MadeEnds, side: Side)
        requires sound { IsSoundWorld octet_peers (as_world self.old) }
        requires named { AreNamed made.old (as_links self.old.links.items) }
        ensures anew { as_world self.new ≡ with_peer (as_side side)
            (reset_of (peer_on (as_side side) (as_world self.old)))
            (restart_links (as_side side) (as_links self.old.links.items)) (as_world self.old) }
        ensures cleared { AreCleared (as_side side) made.old made.new }
    {
        close_each_link_at_restart(&mut self.links, side, made.ends_made_for(side));
        let peer = self.pair.peer_at(side);
        close_link_if_any_at_restart(&mut self.links, side, peer.initiated());
        close_link_if_any_at_restart(&mut self.links, side, peer.accepted());
        made.clear(side);
        self.pair.reset(side);
    }
}
