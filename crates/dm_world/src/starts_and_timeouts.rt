//! A Start and a Timeout of a side, at which nothing is sent.
ghost use Rattle.std.specs.Prelude.{◌≡◌, true, IfOk, OnErr};
ghost use Rattle.dm_two_peers.specs.Happens.{happens, Starts, TimesOut};
ghost use Rattle.dm_octet_peers.specs.Octets.{octet_peers};
ghost use Rattle.dm_world.specs.Asking.{peer_of};
ghost use Rattle.dm_world.specs.InPlace.{is_closed_state};
ghost use Rattle.dm_world.specs.Seen.{as_side};
ghost use Rattle.dm_world.specs.Views.{as_world, Effects};

use crate::events_on_links::perform_sends_and_closes;
use crate::link::Link;
use crate::net::Net;
use crate::{Effect, Side};
use dm_dict::NoMemory;
use dm_octet_peers::laws::every_message_sent_is_a_frame;
use dm_peer::laws::starts_timeouts_drops_take_no_memory;
use dm_peer::{Conn, Event};
use std::alloc::Global;

impl Net {
    /// The side is asked to open a connection: the next link.
    pub(crate) fn start_next_link(&mut self, alloc: Global, side: Side) -> Result<Effect, NoMemory>
        ensures step { IfOk result (λ effect. Effects effect
            (happens octet_peers (as_world self.old) (Starts (as_side side))) (as_world self.old) (as_world self.new)) }
        ensures want { OnErr result (is_closed_state (peer_of (as_side side) self.old.pair).standing.core.state
            ≡ true) }
        ensures unchanged { OnErr result (as_world self.new ≡ as_world self.old) }
    {
        starts_timeouts_drops_take_no_memory();
        every_message_sent_is_a_frame();
        let conn = Conn(self.links.len() as u64);
        if !self.pair.side_state_takes_event(side, Event::Start(conn)) {
            return Ok(Effect::Ignored);
        }
        if self.links.reserve(1).is_err() {
            return Err(NoMemory);
        }
        match self.pair.ask_side(alloc, side, Event::Start(conn))? {
            None => Ok(Effect::Ignored),
            Some(actions) => {
                self.links.push_reserved(Link::new(alloc, side));
                perform_sends_and_closes(&mut self.links, side, actions);
                Ok(Effect::Done)
            }
        }
    }

    /// The side's state has had its time.
    pub(crate) fn time_out_side(&mut self, alloc: Global, side: Side) -> Effect
        ensures { Effects result (happens octet_peers (as_world self.old) (TimesOut (as_side side)))
            (as_world self.old) (as_world self.new) }
    {
        starts_timeouts_drops_take_no_memory();
        every_message_sent_is_a_frame();
        match self.pair.ask_side(alloc, side, Event::Timeout) {
            Ok(None) => Effect::Ignored,
            Ok(Some(actions)) => {
                perform_sends_and_closes(&mut self.links, side, actions);
                Effect::Done
            }
            Err(_) => unreachable!(),
        }
    }
}
