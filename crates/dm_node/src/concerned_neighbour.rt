//! Which neighbour an event concerns.
ghost use Rattle.std.specs.Prelude.{◌≡◌, ℕ, true, false, Err, IsSome, IfOk, IfErr, IfSome, IfNone};
ghost use Rattle.dm_node.specs.Holding.{peer_at, holds_at};
ghost use Rattle.dm_node.specs.Owning.{AreOwned};
ghost use Rattle.dm_slots.specs.Held.{owners_of};
ghost use Rattle.dm_node.specs.Telling.{told_of, IsCallOf, IsPorter, IsFirstFor, IsAddressed};
ghost use Rattle.dm_node.specs.Telling.{Concerns, IsAlone, IsHolder, IsMisdirected, StartsFree};
ghost use Rattle.dm_peer.specs.Events.{Arrived};
ghost use Rattle.dm_node.specs.declared.fault.OrderFault.{OrderFault};

use crate::calling::read_cer_header_and_host;
use crate::neighbours::{Neighbours, neighbours_are_apart_and_sound};
use crate::{NodeEvent, OrderFault, Strangers};
use dm_peer::Conn;
use dm_slots::Slots;

/// The neighbour whose host's CER the octets are; None where they are no neighbour's.
fn calling_neighbour(neighbours: &Neighbours, octets: &[u8]) -> Option<usize>
    ensures there { IfSome result (λ i. IsSome (peer_at neighbours.now i)) }
    ensures found { IfSome result (IsCallOf neighbours.now octets.now) }
    ensures none { IfNone result ((i : ℕ) → IsCallOf neighbours.now octets.now i → ⊥) }
{
    match read_cer_header_and_host(octets) {
        Some((_, host)) => neighbours.find(host),
        None => None,
    }
}

/// The porter, where there is to be one and it is there.
fn porter_if_there<S: Strangers>(neighbours: &Neighbours, strangers: &S) -> Option<usize>
    ensures there { IfSome result (λ i. IsSome (peer_at neighbours.now i)) }
    ensures found { IfSome result (IsPorter (S.policy strangers.now) neighbours.now) }
    ensures none { IfNone result ((i : ℕ) → IsPorter (S.policy strangers.now) neighbours.now i → ⊥) }
{
    match strangers.porter() {
        Some(index) => match neighbours.peer(index) {
            Some(_) => Some(index),
            None => None,
        },
        None => None,
    }
}

/// The neighbour that octets on a connection that nobody holds are for: the one whose host's CER they are, else the
/// porter; None where there is neither.
#[inline(never)]
fn calling_neighbour_or_porter<S: Strangers>(
    neighbours: &Neighbours,
    strangers: &S,
    octets: &[u8],
) -> Option<usize>
    ensures there { IfSome result (λ i. IsSome (peer_at neighbours.now i)) }
    ensures found { IfSome result (IsFirstFor (S.policy strangers.now) neighbours.now octets.now) }
    ensures none { IfNone result ((i : ℕ)
        → IsFirstFor (S.policy strangers.now) neighbours.now octets.now i → ⊥) }
{
    match calling_neighbour(neighbours, octets) {
        Some(index) => Some(index),
        None => porter_if_there(neighbours, strangers),
    }
}

/// The neighbour that holds the connection; None where none does.
#[inline(always)]
pub(crate) fn holding_neighbour(neighbours: &Neighbours, slots: &Slots, conn: Conn) -> Option<usize>
    requires { AreOwned (owners_of slots.now) neighbours.now }
    ensures there { IfSome result (λ i. IsSome (peer_at neighbours.now i)) }
    ensures found { IfSome result (λ i. holds_at neighbours.now conn i ≡ true) }
    ensures none { IfNone result ((j : ℕ) → holds_at neighbours.now conn j ≡ false) }
{
    let _count = neighbours.count();
    slots.owner(conn)
}

/// The neighbour that octets are for on a connection that `holder` holds, or nobody; None where they are for none.
#[inline(always)]
pub(crate) fn neighbour_for_arrived_octets<S: Strangers>(
    neighbours: &Neighbours,
    strangers: &S,
    holder: Option<usize>,
    conn: Conn,
    octets: &[u8],
) -> Option<usize>
    requires { IsHolder neighbours.now conn holder }
    ensures there { IfSome result (λ i. IsSome (peer_at neighbours.now i)) }
    ensures found { IfSome result (IsAddressed (S.policy strangers.now) neighbours.now conn octets.now) }
    ensures none { IfNone result ((i : ℕ)
        → IsAddressed (S.policy strangers.now) neighbours.now conn octets.now i → ⊥) }
    ensures alone { IfSome result (IsAlone neighbours.now (Arrived conn octets.now)) }
{
    neighbours_are_apart_and_sound(neighbours);
    match holder {
        Some(index) => Some(index),
        None => calling_neighbour_or_porter(neighbours, strangers, octets),
    }
}

/// The neighbour that the event concerns; None where it concerns none, `NoNeighbour` where nobody has the number in it.
#[inline(always)]
pub(crate) fn concerned_neighbour<S: Strangers>(
    neighbours: &Neighbours,
    slots: &Slots,
    strangers: &S,
    event: NodeEvent<'_>,
) -> Result<Option<usize>, OrderFault>
    requires owned { AreOwned (owners_of slots.now) neighbours.now }
    requires free { StartsFree neighbours.now event }
    ensures there { IfOk result (λ o. IfSome o (λ i. IsSome (peer_at neighbours.now i))) }
    ensures concerned { IfOk result (λ o.
        IfSome o (Concerns (S.policy strangers.now) neighbours.now event.entry)) }
    ensures nobody { IfOk result (λ o. IfNone o ((i : ℕ)
        → Concerns (S.policy strangers.now) neighbours.now event.entry i → ⊥)) }
    ensures alone { IfOk result (λ o. IfSome o (IsAlone neighbours.now (told_of event.entry))) }
    ensures fault { IfErr result (IsMisdirected neighbours.now event.entry) }
    ensures misdirected { (f : OrderFault) → IsMisdirected neighbours.now event.entry f → result ≡ Err f }
{
    match event {
        NodeEvent::Start(index, _)
        | NodeEvent::Stop(index, _)
        | NodeEvent::Timeout(index)
        | NodeEvent::Tick(index)
        | NodeEvent::Submit(index, _) => match neighbours.peer(index) {
            Some(_) => Ok(Some(index)),
            None => Err(OrderFault::NoNeighbour),
        },
        NodeEvent::Ack(conn) | NodeEvent::Nack(conn) | NodeEvent::Gone(conn) => {
            Ok(holding_neighbour(neighbours, slots, conn))
        }
        NodeEvent::Arrived(conn, octets) => {
            let holder = holding_neighbour(neighbours, slots, conn);
            Ok(neighbour_for_arrived_octets(neighbours, strangers, holder, conn, octets))
        }
    }
}
