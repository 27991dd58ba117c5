//! A host that is no neighbour becomes one.
ghost use Rattle.std.specs.Prelude.{◌≡◌, IfSome, IfNone, IfErr, OnOk, OnErr, All};
ghost use Rattle.dm_node.specs.Strangers.{Joins, StaysOut};
ghost use Rattle.dm_node.specs.Telling.{IsFree};
ghost use Rattle.dm_node.specs.declared.fault.OrderFault.TheVariants as faults;
ghost use Rattle.dm_peer.specs.Spelled.{SendsSpelling};
ghost use Rattle.dm_peer.specs.declared.fault.PeerFault.TheVariants as peer_faults;

use crate::neighbours::Neighbours;
use crate::{Answer, OrderFault};
use dm_machine::laws::given_up_is_closed_unnamed_stays_unheld;
use dm_peer::laws::done_events_are_steps_or_drops;
use dm_peer::{Config, Conn, Event, Peer, PeerFault, State};
use std::alloc::Global;

/// A new peer of the configuration is told the octets of the connection, which nobody holds, and becomes a neighbour,
/// unless it is Closed. What it does is put into `answer`.
pub(crate) fn tell_and_add_newcomer(
    alloc: Global,
    neighbours: &mut Neighbours,
    config: Config,
    conn: Conn,
    octets: &[u8],
    answer: &mut Answer,
) -> Result<(), OrderFault>
    requires { IsFree neighbours.old conn }
    ensures taken { OnOk result (IfSome answer.new.neighbour (λ i. Joins neighbours.old neighbours.new i
        conn octets.now answer.new.actions.items config)) }
    ensures left { OnOk result (IfNone answer.new.neighbour (StaysOut neighbours.old neighbours.new
        conn octets.now answer.new.actions.items config)) }
    ensures spelled { OnOk result (All SendsSpelling answer.new.actions.items) }
    ensures memory { IfErr result (λ f. f ≡ faults.Peer peer_faults.NoMemory) }
    ensures unchanged { OnErr result (neighbours.new ≡ neighbours.old) }
{
    done_events_are_steps_or_drops();
    given_up_is_closed_unnamed_stays_unheld();
    let mut peer = Peer::new(config);
    let _state = peer.state();
    match peer.on(alloc, Event::Arrived(conn, octets)) {
        Ok(actions) => {
            answer.neighbour = None;
            answer.actions = actions;
            match peer.state() {
                State::Closed => Ok(()),
                _ => match neighbours.push_peer(peer) {
                    Ok(index) => {
                        answer.neighbour = Some(index);
                        Ok(())
                    }
                    Err(_) => Err(OrderFault::Peer(PeerFault::NoMemory)),
                },
            }
        }
        Err(fault) => Err(OrderFault::Peer(fault)),
    }
}
