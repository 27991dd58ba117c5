//! A world: two peers and the links between them.
ghost use Rattle.std.specs.Prelude.{◌≡◌, None};
ghost use Rattle.dm_two_peers.specs.Laws.{world_of};
ghost use Rattle.dm_octet_peers.specs.Laws.{fresh_peer};
ghost use Rattle.dm_world.specs.New.{new_fault};

use crate::agreement::{conn_open_on_both, peers_agree};
use crate::made_ends::MadeEnds;
use crate::net::Net;
use crate::pair::Pair;
use crate::{Effect, Happening, NewFault, Side, WorldFault, links};
use dm_base::common_nodes;
use dm_octet_peers::laws::{
    octet_peers_begin_and_stay_paired, octet_peers_move_as_the_machine,
    octet_peers_send_no_empty_message,
};
use dm_peer::{Config, Conn, Peer, is_same_host};
use dm_two_peers::laws::{
    closed_peers_make_a_sound_world, each_happening_keeps_worlds_sound,
    no_front_message_is_fully_delivered, only_acks_make_ends_fresh,
};
use dm_wire::Octets;
use std::alloc::Global;
use std::fmt::{self, Debug, Formatter, Write};
use std::marker::Model;

/// Two peers, each configured for the other, and the links between them (RFC 6733, 5.6). What holds of each world is
/// said by `laws::every_world_is_sound_and_paired`.
#[derive(Drop)]
pub struct World {
    pub(crate) net: Net,
    pub(crate) made: MadeEnds,
}

impl Model for World {
    ghost use Rattle.dm_world.specs.Views.{OctetWorld};

    ghost Value = { OctetWorld };

    ghost use Rattle.dm_world.specs.WorldOf.{world_in, IsWhole};

    ghost view = { world_in };

    ghost invariant = { IsWhole };
}

impl Debug for World {
    /// The two peers alone.
    fn fmt<W: Write>(&self, f: &mut Formatter<W>) -> fmt::Result {
        f.debug_struct("World")
            .field("a", &self.net.pair.a)
            .field("b", &self.net.pair.b)
            .finish_non_exhaustive()
    }
}

/// Why there is no world of these configurations; None where there is one.
fn new_world_fault(a: &Config, b: &Config) -> Option<NewFault>
    ensures { result ≡ new_fault a.now b.now }
{
    if !is_same_host(a.peer_host(), b.node().host()) {
        return Some(NewFault::NotPeers);
    }
    if !is_same_host(b.peer_host(), a.node().host()) {
        return Some(NewFault::NotPeers);
    }
    if !common_nodes(a.node(), b.node()) {
        return Some(NewFault::NothingCommon);
    }
    None
}

/// Lets a configuration go.
fn drop_config(_config: Config) {}

/// Two closed peers of these configurations, A's the first, without links.
fn world_of_new_peers(alloc: Global, a: Config, b: Config) -> World
    requires { new_fault a b ≡ None }
    ensures { result ≡ world_of (fresh_peer a) (fresh_peer b) }
{
    closed_peers_make_a_sound_world::<Peer, Octets>();
    octet_peers_begin_and_stay_paired();
    World {
        net: Net {
            pair: Pair {
                a: Peer::new(a),
                b: Peer::new(b),
            },
            links: Vec::new(alloc),
        },
        made: MadeEnds::new(alloc),
    }
}

impl World {
    ghost use Rattle.std.specs.Prelude.{◌≡◌, ◌↔◌, ℕ, IsTrue, IfOk, IfErr, IfSome, OnErr, Some, None, Err};
    ghost use Rattle.std.specs.Option.{IfNone};
    ghost use Rattle.dm_two_peers.specs.Agreement.{Agreed};
    ghost use Rattle.dm_two_peers.specs.Happens.{happens};
    ghost use Rattle.dm_two_peers.specs.Laws.{world_of};
    ghost use Rattle.dm_two_peers.specs.Quiet.{is_quiet};
    ghost use Rattle.dm_two_peers.specs.Worlds.{peer_on};
    ghost use Rattle.dm_octet_peers.specs.Laws.{fresh_peer};
    ghost use Rattle.dm_octet_peers.specs.Octets.{octet_peers};
    ghost use Rattle.dm_world.specs.Agreeing.{is_agreed, open_link, AreBothOpenOn};
    ghost use Rattle.dm_world.specs.Happening.{as_happening, may_want};
    ghost use Rattle.dm_world.specs.New.{new_fault};
    ghost use Rattle.dm_world.specs.declared.fault.NewFault.{NewFault};
    ghost use Rattle.dm_world.specs.Seen.{as_side};
    ghost use Rattle.dm_world.specs.Views.{Effects, IsFault};

    /// One happening: it is done, or ignored with nothing changed.
    ///
    /// Refuses with `NoLink` where it names a link that isn't there, and with `NoMemory` where a growth was refused.
    /// The world is then what it was. No Timeout, Restart or Lose answers `NoMemory`; nor does a Start outside Closed,
    /// a Stop or a Submit where the side isn't open, an Ack or a Nack of a connect that isn't pending, a delivery or a
    /// piece where nothing comes, or what comes whole to a shut end, which drops it.
    pub fn apply(&mut self, alloc: Global, happening: &Happening) -> Result<Effect, WorldFault>
        ensures step { IfOk result (λ effect. Effects effect
            (happens octet_peers self.old (as_happening happening.now)) self.old self.new) }
        ensures fault { IfErr result (λ f. IsFault f (may_want self.old happening.now)
            (happens octet_peers self.old (as_happening happening.now))) }
        ensures unchanged { OnErr result (self.new ≡ self.old) }
    {
        octet_peers_move_as_the_machine();
        each_happening_keeps_worlds_sound::<Peer, Octets>();
        octet_peers_begin_and_stay_paired();
        no_front_message_is_fully_delivered::<Peer, Octets>();
        octet_peers_send_no_empty_message();
        only_acks_make_ends_fresh::<Peer, Octets>();
        self.net.apply(alloc, &mut self.made, happening)
    }

    /// The peer of a side. It never answers want of memory.
    pub fn peer(&self, side: Side) -> &Peer
        ensures { result.now ≡ peer_on (as_side side) self.now }
    {
        self.net.pair.peer_at(side)
    }

    /// Whether the two sides agree. It never answers want of memory.
    pub fn agreed(&self) -> bool
        ensures value { result ≡ is_agreed self.now }
        ensures meaning { IsTrue result ↔ Agreed octet_peers self.now }
    {
        peers_agree(
            &self.net.pair.a,
            &self.net.pair.b,
            self.net.links.as_slice(),
        )
    }

    /// Whether nothing is under way: no connect is pending, no message and no disconnect. It never answers want of
    /// memory.
    pub fn quiet(&self) -> bool
        ensures { result ≡ is_quiet self.now }
    {
        links::are_quiet(self.net.links.as_slice())
    }

    /// The connection that both sides are open on; None where there is none. It never answers want of memory.
    pub fn open_link(&self) -> Option<Conn>
        ensures value { result ≡ open_link self.now }
        ensures found { IfSome result (λ c.
            AreBothOpenOn (octet_peers.node_of self.now.a) (octet_peers.node_of self.now.b) c.0) }
        ensures none { IfNone result ((c : ℕ) →
            AreBothOpenOn (octet_peers.node_of self.now.a) (octet_peers.node_of self.now.b) c → ⊥) }
    {
        conn_open_on_both(&self.net.pair.a, &self.net.pair.b)
    }

    /// Two closed peers of these configurations, A's the first, without links.
    ///
    /// Refuses, in this order, with `NotPeers` (a configured peer isn't the other side's host, upper and lower case
    /// taken as one) and `NothingCommon`, and drops the configurations then. It never answers want of memory.
    pub fn new(alloc: Global, a: Config, b: Config) -> Result<World, NewFault>
        ensures fault { IfErr result (λ f. new_fault a b ≡ Some f) }
        ensures refuses { (f : NewFault) → new_fault a b ≡ Some f → result ≡ Err f }
        ensures fine { IfOk result (λ w. new_fault a b ≡ None) }
        ensures world { IfOk result (λ w. w ≡ world_of (fresh_peer a) (fresh_peer b)) }
    {
        match new_world_fault(&a, &b) {
            Some(fault) => {
                drop_config(a);
                drop_config(b);
                Err(fault)
            }
            None => Ok(world_of_new_peers(alloc, a, b)),
        }
    }
}
