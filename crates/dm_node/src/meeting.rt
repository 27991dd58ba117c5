//! Whom the neighbours of a node meet by what they are told.
ghost use Rattle.std.specs.Prelude.{◌≡◌, ℕ, true, false, cond, nat_lt, length, [], None, Some, IfOk, OnOk, OnErr};
ghost use Rattle.dm_node.specs.Holding.{peer_at};
ghost use Rattle.dm_node.specs.NodeKnown.{known_of, HasSparePlace, with_known, given_place};
ghost use Rattle.dm_peer.specs.declared.peer.Peer.{Peer as OnePeer};
ghost use Rattle.dm_slots.specs.Acquaintances.{is_exchange_to, known_after, known_if_any};

use crate::acquaintances::Acquaintances;
use crate::neighbours::Neighbours;
use dm_machine::{Conn, State};
use dm_slots::is_exchange_before_open;
use dm_wire::Octets;
use std::alloc::{AllocError, Global};

/// A copy of the octets, where they are a CER or CEA and are told in a state that isn't open, and room for a neighbour
/// more then; else no octets.
pub(crate) fn copy_and_reserve_if_exchange(
    alloc: Global,
    known: &mut Acquaintances,
    before: State,
    octets: &[u8],
) -> Result<Octets, AllocError>
    ensures copied { IfOk result (λ copy. copy ≡ cond (is_exchange_to before octets.now) octets.now []) }
    ensures room { OnOk result (is_exchange_to before octets.now ≡ true → HasSparePlace known.new) }
    ensures same { known_of known.new ≡ known_of known.old }
    ensures memory { OnErr result (is_exchange_to before octets.now ≡ true) }
{
    if !is_exchange_before_open(before, octets) {
        return Ok(Octets::empty(alloc));
    }
    match known.reserve_place() {
        Ok(()) => Octets::from_slice(alloc, octets),
        Err(error) => Err(error),
    }
}

/// Changes what is known of the neighbour that was told what came on the connection: `who`, if one was.
pub(crate) fn meet_or_set_waiting_cer(
    neighbours: &Neighbours,
    known: &mut Acquaintances,
    who: Option<usize>,
    exchange: Octets,
    conn: Conn,
    before: State,
)
    requires room { (i : ℕ) → who ≡ Some i → nat_lt i (length (known_of known.old)) ≡ false → HasSparePlace known.old }
    ensures met { (i : ℕ) (q : OnePeer) → who ≡ Some i → peer_at neighbours.now i ≡ Some q → known_of known.new
        ≡ with_known i (known_if_any exchange conn before q) (given_place i (known_of known.old)) }
    ensures unmet { who ≡ None → known_of known.new ≡ known_of known.old }
{
    if let Some(index) = who {
        known.push_place_if_missing(index);
        if let Some(peer) = neighbours.peer(index) {
            known.meet_or_set_waiting_cer(index, exchange, conn, before, peer);
        }
    }
}

/// Changes what is known of the neighbour that was told an event that brought no message: `who`, if one was.
pub(crate) fn meet_if_opened_by_event(
    neighbours: &Neighbours,
    known: &mut Acquaintances,
    who: Option<usize>,
    before: State,
)
    ensures met { (i : ℕ) (q : OnePeer) → who ≡ Some i → peer_at neighbours.now i ≡ Some q → known_of known.new
        ≡ with_known i (known_after before q) (known_of known.old) }
    ensures unmet { who ≡ None → known_of known.new ≡ known_of known.old }
{
    if let Some(index) = who {
        if let Some(peer) = neighbours.peer(index) {
            known.meet_if_opened_by_event(index, before, peer);
        }
    }
}
