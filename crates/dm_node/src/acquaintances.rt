//! Whom each neighbour met, by number.
ghost use Rattle.std.specs.Prelude.{◌≡◌, [], false, nat_lt, length, OnOk};
ghost use Rattle.std.specs.Option.{option_copied};
ghost use Rattle.dm_slots.specs.Acquaintances.{known_after, known_if_any};
ghost use Rattle.dm_node.specs.NodeKnown.{known_of, HasSparePlace, acquaintance_at, with_nobody, without_known};
ghost use Rattle.dm_node.specs.NodeKnown.{with_known, given_place};

use dm_machine::{Conn, State};
use dm_peer::Peer;
use dm_slots::Acquaintance;
use dm_wire::Octets;
use std::alloc::{AllocError, Global};

/// Whom each neighbour met: a place for each of theirs.
#[derive(Drop)]
pub(crate) struct Acquaintances {
    places: Vec<Option<Acquaintance>>,
}

impl Acquaintances {
    /// No places. It takes no memory.
    pub(crate) fn new(alloc: Global) -> Acquaintances
        ensures { known_of result ≡ [] }
    {
        Acquaintances {
            places: Vec::new(alloc),
        }
    }

    /// What is known of the neighbour of the number, also where it met nobody; None where nobody has the number. It
    /// takes no memory.
    pub(crate) fn get(&self, index: usize) -> Option<&Acquaintance>
        ensures { option_copied result ≡ acquaintance_at (known_of self.now) index }
    {
        if index < self.places.len() {
            self.places[index].as_ref()
        } else {
            None
        }
    }

    /// Makes room for a place more.
    pub(crate) fn reserve_place(&mut self) -> Result<(), AllocError>
        ensures same { known_of self.new ≡ known_of self.old }
        ensures room { OnOk result (HasSparePlace self.new) }
    {
        match self.places.reserve(1) {
            Ok(()) => Ok(()),
            Err(_) => Err(AllocError),
        }
    }

    /// Puts a place behind the others, in which nobody was met yet. It takes no memory.
    pub(crate) fn push_place(&mut self)
        requires { HasSparePlace self.old }
        ensures { known_of self.new ≡ with_nobody (known_of self.old) }
    {
        let alloc = *self.places.allocator();
        self.places.push_reserved(Some(Acquaintance::new(alloc)));
    }

    /// Puts a new place behind the others where the number has none yet: that of a host that was taken in. It takes no
    /// memory.
    pub(crate) fn push_place_if_missing(&mut self, index: usize)
        requires { nat_lt index (length (known_of self.old)) ≡ false → HasSparePlace self.old }
        ensures { known_of self.new ≡ given_place index (known_of self.old) }
    {
        if index >= self.places.len() {
            self.push_place();
        }
    }

    /// Empties the place of the number, which nobody has from then on. It takes no memory.
    pub(crate) fn vacate_place(&mut self, index: usize)
        ensures { known_of self.new ≡ without_known (known_of self.old) index }
    {
        if index < self.places.len() {
            let _gone = self.places[index].take();
        }
    }

    /// What is known of the neighbour of the number behind what came on the connection
    /// ([`Acquaintance::meet_or_set_waiting_cer`]). It takes no memory.
    pub(crate) fn meet_or_set_waiting_cer(
        &mut self,
        index: usize,
        exchange: Octets,
        conn: Conn,
        before: State,
        peer: &Peer,
    )
        ensures { known_of self.new
            ≡ with_known index (known_if_any exchange conn before peer.now) (known_of self.old) }
    {
        if index < self.places.len() {
            if let Some(known) = &mut self.places[index] {
                known.meet_or_set_waiting_cer(exchange, conn, before, peer);
            }
        }
    }

    /// What is known of the neighbour of the number behind an event that brought no message
    /// ([`Acquaintance::meet_if_opened_by_event`]). It takes no memory.
    pub(crate) fn meet_if_opened_by_event(&mut self, index: usize, before: State, peer: &Peer)
        ensures { known_of self.new ≡ with_known index (known_after before peer.now) (known_of self.old) }
    {
        if index < self.places.len() {
            if let Some(known) = &mut self.places[index] {
                known.meet_if_opened_by_event(before, peer);
            }
        }
    }
}
