//! One happening is one step of the world: each goes to what does it, and a loss and a Submit are done here.
ghost use Rattle.std.specs.Prelude.{◌≡◌, true, false, IfOk, IfErr, OnErr};
ghost use Rattle.dm_two_peers.specs.Facts.{IsSoundWorld};
ghost use Rattle.dm_two_peers.specs.Happens.{happens, Loses, Submits};
ghost use Rattle.dm_octet_peers.specs.Octets.{octet_peers};
ghost use Rattle.dm_machine.specs.Moves.{is_open};
ghost use Rattle.dm_world.specs.Asking.{peer_of};
ghost use Rattle.dm_world.specs.Ends.{AreNamed, AreSameEnds, AreEndsAfter};
ghost use Rattle.dm_world.specs.Happening.{as_happening, may_want};
ghost use Rattle.dm_world.specs.Seen.{as_links, as_side};
ghost use Rattle.dm_world.specs.Views.{as_world, Effects, IsFault};

use crate::made_ends::MadeEnds;
use crate::net::Net;
use crate::{Effect, Happening, Side, WorldFault};
use dm_dict::NoMemory;
use dm_peer::{Conn, Event};
use std::alloc::Global;

impl Net {
    /// The link is lost, but for so many first octets towards A and towards B; ignored where that changes nothing.
    fn lose_link_beyond_octets(
        &mut self,
        conn: Conn,
        to_a: u32,
        to_b: u32,
    ) -> Result<Effect, WorldFault>
        ensures step { IfOk result (λ effect. Effects effect
            (happens octet_peers (as_world self.old) (Loses conn.0 to_a to_b)) (as_world self.old)
            (as_world self.new)) }
        ensures fault { IfErr result (λ f. IsFault f false
            (happens octet_peers (as_world self.old) (Loses conn.0 to_a to_b))) }
        ensures unchanged { OnErr result (as_world self.new ≡ as_world self.old) }
    {
        let index = self.index_of(conn)?;
        if self.links[index].ignores_loss() {
            return Ok(Effect::Ignored);
        }
        self.links[index].lose_messages_beyond_octets(to_a, to_b);
        Ok(Effect::Done)
    }

    /// The user of the side submits octets.
    fn submit(&mut self, alloc: Global, side: Side, octets: &[u8]) -> Result<Effect, NoMemory>
        ensures step { IfOk result (λ effect. Effects effect
            (happens octet_peers (as_world self.old) (Submits (as_side side) octets.now)) (as_world self.old)
            (as_world self.new)) }
        ensures want { OnErr result (is_open (peer_of (as_side side) self.old.pair).standing.core.state ≡ true) }
        ensures unchanged { OnErr result (as_world self.new ≡ as_world self.old) }
    {
        self.tell_side(alloc, side, Event::Submit(octets), None)
    }

    /// Applies one happening. Behind an `Err` all is as it was.
    pub(crate) fn apply(
        &mut self,
        alloc: Global,
        made: &mut MadeEnds,
        happening: &Happening,
    ) -> Result<Effect, WorldFault>
        requires sound { IsSoundWorld octet_peers (as_world self.old) }
        requires named { AreNamed made.old (as_links self.old.links.items) }
        ensures step { IfOk result (λ effect. Effects effect
            (happens octet_peers (as_world self.old) (as_happening happening.now)) (as_world self.old)
            (as_world self.new)) }
        ensures fault { IfErr result (λ f. IsFault f (may_want (as_world self.old) happening.now)
            (happens octet_peers (as_world self.old) (as_happening happening.now))) }
        ensures unchanged { OnErr result (as_world self.new ≡ as_world self.old) }
        ensures made { IfOk result (λ effect. AreEndsAfter effect happening.now (as_links self.old.links.items)
            made.old made.new) }
        ensures same { OnErr result (AreSameEnds made.old made.new) }
    {
        match happening {
            Happening::Start(side) => Ok(self.start_next_link(alloc, *side)?),
            Happening::Stop(side, cause) => Ok(self.tell_side(
                alloc,
                *side,
                Event::Stop(*cause),
                None,
            )?),
            Happening::Timeout(side) => Ok(self.time_out_side(alloc, *side)),
            Happening::Tick(side) => Ok(self.tell_side(alloc, *side, Event::Tick, None)?),
            Happening::Restart(side) => {
                self.restart_side(made, *side);
                Ok(Effect::Done)
            }
            Happening::Ack(conn) => self.ack_connect(alloc, made, *conn),
            Happening::Nack(conn) => self.nack_connect(alloc, *conn),
            Happening::Deliver(conn, side) => self.deliver_next(alloc, *conn, *side),
            Happening::Piece(conn, side, count) => self.deliver_piece(alloc, *conn, *side, *count),
            Happening::Lose(conn, to_a, to_b) => self.lose_link_beyond_octets(*conn, *to_a, *to_b),
            Happening::Submit(side, octets) => Ok(self.submit(alloc, *side, octets.as_slice())?),
        }
    }
}
