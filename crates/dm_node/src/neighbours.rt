//! Neighbours: a peer for each, with what finds one by its host.
ghost use Rattle.dm_node.specs.Neighbourhoods.{IsNeighbourhood};
ghost use Rattle.dm_node.specs.NodeHeld.{AreKept};

use crate::AddFault;
use crate::connection_of_open_peer::connection_of_open_peer;
use crate::counting::{count_after_adding_one, count_after_removing};
use crate::hosts::Hosts;
use crate::owners::{Holding, Snapshot, held_connections_if_any};
use crate::peer_by_number::peer_at;
use crate::removal_and_reset::{reset_all_peers, reset_one_peer, take_peer_out};
use crate::reserved_place::reserve_place_and_note_new_host;
use dm_peer::laws::{
    each_event_keeps_peers_settled, each_send_spells_a_message,
    peers_are_settled_with_encodable_numbers,
};
use dm_peer::{Config, Conn, Peer, State};
use std::alloc::Global;
use std::marker::Model;
use std::slice;

/// The neighbours of a node, each a peer of its own (RFC 6733, 5.6), in order of adding: a neighbour has the number of
/// its adding, from 0, and its place stays empty where it was removed.
#[derive(Drop)]
pub(crate) struct Neighbours {
    pub(crate) peers: Vec<Option<Peer>>,
    hosts: Hosts,
    /// How many neighbours there are.
    present: usize,
}

impl Model for Neighbours {
    ghost use Rattle.std.specs.Prelude.{Option, List};
    ghost use Rattle.dm_peer.specs.declared.peer.Peer.{Peer};
    ghost use Rattle.dm_node.specs.Rosters.{IsRoster};

    ghost Value = { List (Option Peer) };

    ghost view = { λ n. n.peers.items };

    ghost invariant = { λ n. IsRoster n.peers.items n.hosts n.present };
}

impl Neighbours {
    ghost use Rattle.std.specs.Prelude.{◌≡◌, ◌⊎◌, ◌↔◌, ◌++◌, ◌∷◌, [], ℕ, true, false, Option, Some, length};
    ghost use Rattle.std.specs.Prelude.{IfOk, IfErr, IsErrOf, OnOk, OnErr, IfSome, IfNone, IsSome, option_map};
    ghost use Rattle.std.specs.Option.{option_copied};
    ghost use Rattle.std.specs.Slice.Iter.{iter_rest};
    ghost use Rattle.std.specs.Iterator.Adapters.{IterYieldsInOrder};
    ghost use Rattle.dm_base.specs.Before.{lower};
    ghost use Rattle.dm_machine.specs.Moves.{is_open};
    ghost use Rattle.dm_machine.specs.declared.connection.Conn.{Conn};
    ghost use Rattle.dm_peer.specs.declared.peer.Peer.{Peer};
    ghost use Rattle.dm_node.specs.Adding.{with_new};
    ghost use Rattle.dm_node.specs.Emptying.{without_peer, with_set_back, all_set_back};
    ghost use Rattle.dm_node.specs.Holding.{peer_at, host_at, holds, holds_it, holds_at, IsKnown};
    ghost use Rattle.dm_node.specs.NodeKnown.{peer_state};
    ghost use Rattle.dm_node.specs.NodeStates.{concerned_in, raised_for};
    ghost use Rattle.dm_node.specs.NodeOrders.{close_if_any, closes_of_any};
    ghost use Rattle.dm_node.specs.Owning.{has, one_held, initiated_of, accepted_of};
    ghost use Rattle.dm_slots.specs.Intakes.{Intakes, raised_at};
    ghost use Rattle.dm_node.specs.Strangers.{present};
    ghost use Rattle.dm_node.specs.declared.fault.AddFault.TheVariants.{Known, NoMemory};

    /// No neighbours. It never answers want of memory.
    pub(crate) fn new(alloc: Global) -> Neighbours
        ensures { result ≡ [] }
    {
        Neighbours {
            peers: Vec::new(alloc),
            hosts: Hosts::new(alloc),
            present: 0,
        }
    }

    /// Puts a peer behind the others, of which none holds a connection of its, and answers its number.
    ///
    /// # Errors
    /// `Known` just where a neighbour has its host, upper and lower case taken as one, whatever memory there is; else
    /// `NoMemory`. The neighbours are as they were after each, and the peer is dropped.
    pub(crate) fn push_peer(&mut self, peer: Peer) -> Result<usize, AddFault>
        requires { (c : Conn) (j : ℕ) → holds c peer ≡ true → holds_at self.old c j ≡ false }
        ensures number { IfOk result (λ i. i ≡ length self.old) }
        ensures added { OnOk result (self.new ≡ self.old ++ Some peer ∷ []) }
        ensures known { IsErrOf result Known ↔ IsKnown self.old peer.config.peer }
        ensures refuses { IfErr result (λ f. (f ≡ Known) ⊎ (f ≡ NoMemory)) }
        ensures unchanged { OnErr result (self.new ≡ self.old) }
    {
        peers_are_settled_with_encodable_numbers(&peer);
        let index = self.peers.len();
        match reserve_place_and_note_new_host(&mut self.peers, &mut self.hosts, peer.config()) {
            Ok(()) => {
                self.peers.push_reserved(Some(peer));
                self.present = count_after_adding_one(&self.peers, self.present);
                Ok(index)
            }
            Err(fault) => Err(fault),
        }
    }

    /// Puts a closed peer of this configuration behind the others, and answers its number.
    ///
    /// # Errors
    /// Those of [`push_peer`](Neighbours::push_peer).
    pub(crate) fn push_new_peer(&mut self, config: Config) -> Result<usize, AddFault>
        ensures number { IfOk result (λ i. i ≡ length self.old) }
        ensures added { OnOk result (self.new ≡ with_new self.old config) }
        ensures known { IsErrOf result Known ↔ IsKnown self.old config.peer }
        ensures refuses { IfErr result (λ f. (f ≡ Known) ⊎ (f ≡ NoMemory)) }
        ensures unchanged { OnErr result (self.new ≡ self.old) }
    {
        self.push_peer(Peer::new(config))
    }

    /// The number of the neighbour of this host, upper and lower case taken as one. It never answers want of memory.
    pub(crate) fn find(&self, host: &[u8]) -> Option<usize>
        ensures there { IfSome result (λ i. IsSome (peer_at self.now i)) }
        ensures found { IfSome result (λ i. host_at self.now i ≡ Some (lower host.now)) }
        ensures none { IfNone result ((j : ℕ) → host_at self.now j ≡ Some (lower host.now) → ⊥) }
    {
        self.hosts.noted_number(host)
    }

    /// How many neighbours there are, with no walk over them. It never answers want of memory.
    pub(crate) fn count(&self) -> usize
        ensures { result ≡ present self.now }
    {
        self.present
    }

    /// The neighbour of this number. It never answers want of memory.
    pub(crate) fn peer(&self, index: usize) -> Option<&Peer>
        ensures { option_copied result ≡ peer_at self.now index }
    {
        peer_at(&self.peers, index)
    }

    /// The state of the neighbour of this number. It never answers want of memory.
    pub(crate) fn state_of(&self, index: usize) -> Option<State>
        ensures { result ≡ option_map (λ p. p.standing.core.state) (peer_at self.now index) }
    {
        match self.peer(index) {
            Some(peer) => Some(peer.state()),
            None => None,
        }
    }

    /// The neighbours in order of adding. It never answers want of memory.
    pub(crate) fn iter(&self) -> slice::Iter<'_, Option<Peer>>
        ensures rest { iter_rest result ≡ self.now }
        ensures runs { IterYieldsInOrder (Option Peer) }
    {
        self.peers.as_slice().iter()
    }

    /// What the neighbour of this number holds, where there is one. It never answers want of memory.
    pub(crate) fn held_connections(&self, index: usize) -> Holding
        ensures holds { (c : Conn) → has result c ≡ holds_at self.now c index }
        ensures closes { close_if_any result.initiated ++ close_if_any result.accepted
            ≡ closes_of_any (peer_at self.now index) }
    {
        held_connections_if_any(self.peer(index))
    }

    /// The neighbour of the number, if there is a number and a neighbour has it: that which an event concerns. It never
    /// answers want of memory.
    pub(crate) fn peer_if_any(&self, who: Option<usize>) -> Option<&Peer>
        ensures { option_copied result ≡ concerned_in self.now who }
    {
        match who {
            Some(index) => self.peer(index),
            None => None,
        }
    }

    /// The state of the neighbour that an event concerns, and what it holds; Closed, with nothing held, where it
    /// concerns none. It never answers want of memory.
    pub(crate) fn snapshot(&self, who: Option<usize>) -> Snapshot
        ensures state { result.state ≡ peer_state (concerned_in self.now who) }
        ensures held { (c : Conn) → has result.held c ≡ holds_it c (concerned_in self.now who) }
        ensures initiated { result.held.initiated ≡ initiated_of (concerned_in self.now who) }
        ensures accepted { result.held.accepted ≡ accepted_of (concerned_in self.now who) }
    {
        let peer = self.peer_if_any(who);
        let held = held_connections_if_any(peer);
        match peer {
            Some(peer) => Snapshot {
                state: peer.state(),
                held,
            },
            None => Snapshot {
                state: State::Closed,
                held,
            },
        }
    }

    /// The connection on which the neighbour that an event concerns is open, which it holds and no other; None where it
    /// isn't open, and where the event concerns none. It never answers want of memory.
    #[inline(always)]
    pub(crate) fn open_connection(&self, who: Option<usize>) -> Option<Conn>
        ensures state { IfSome result (λ conn. is_open (peer_state (concerned_in self.now who)) ≡ true) }
        ensures held { IfSome result (λ conn. (c : Conn)
            → has (one_held conn) c ≡ holds_it c (concerned_in self.now who)) }
        ensures raised { IfSome result (λ conn. (most : ℕ) (f : Intakes)
            → raised_for most (concerned_in self.now who) f ≡ raised_at most (Some conn) f) }
    {
        match self.peer_if_any(who) {
            Some(peer) => connection_of_open_peer(peer),
            None => None,
        }
    }

    /// True only where the neighbour that an event concerned is open on the connection. It never answers want of
    /// memory.
    #[inline(always)]
    pub(crate) fn is_open_on(&self, who: Option<usize>, conn: Conn) -> bool
        ensures held { result ≡ true → (c : Conn) → has (one_held conn) c ≡ holds_it c (concerned_in self.now who) }
        ensures raised { result ≡ true → (most : ℕ) (f : Intakes)
            → raised_for most (concerned_in self.now who) f ≡ raised_at most (Some conn) f }
    {
        match self.open_connection(who) {
            Some(now) => now.0 == conn.0,
            None => false,
        }
    }

    /// Takes the neighbour of this number out.
    /// Its number stays unused, and the others keep theirs. The peer is handed back as it was, so that what it holds
    /// can be closed. It never answers want of memory.
    pub(crate) fn remove(&mut self, index: usize) -> Option<Peer>
        ensures gone { result ≡ peer_at self.old index }
        ensures without { self.new ≡ without_peer self.old index }
    {
        let gone = take_peer_out(&mut self.peers, index);
        self.hosts.forget_host_of(&gone);
        self.present = count_after_removing(&gone, self.present);
        gone
    }

    /// Sets the neighbour of this number back to Closed, where there is one. It never answers want of memory.
    pub(crate) fn reset_neighbour(&mut self, index: usize)
        ensures { self.new ≡ with_set_back self.old index }
    {
        each_event_keeps_peers_settled();
        each_send_spells_a_message();
        reset_one_peer(&mut self.peers, index);
    }

    /// Sets each neighbour back to Closed. It never answers want of memory.
    pub(crate) fn reset_all_neighbours(&mut self)
        ensures { self.new ≡ all_set_back self.old }
    {
        each_event_keeps_peers_settled();
        each_send_spells_a_message();
        reset_all_peers(&mut self.peers);
    }
}

/// No connection is held by two neighbours, no two have one host, upper and lower case taken as one, and each is what
/// events make of a new peer; whatever the node was told.
pub(crate) fn neighbours_are_apart_and_sound(neighbours: &Neighbours)
    ensures apart { IsNeighbourhood neighbours.now }
    ensures kept { AreKept neighbours.now }
{
    let _count = neighbours.peers.len();
}
