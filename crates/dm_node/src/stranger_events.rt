//! Events that concern no neighbour: what is done at what a stranger sends.
ghost use Rattle.std.specs.Prelude.{◌≡◌, ℕ, IfOk, IfErr, OnOk, OnErr, IsSome, All};
ghost use Rattle.dm_node.specs.Calling.{caller_of, answer_to};
ghost use Rattle.dm_node.specs.Strangers.{NodeIsTold};
ghost use Rattle.dm_node.specs.Telling.{Concerns, IsStrangeCer};
ghost use Rattle.dm_node.specs.declared.fault.OrderFault.TheVariants as faults;
ghost use Rattle.dm_peer.specs.Spelled.{SendsSpelling};
ghost use Rattle.dm_peer.specs.declared.fault.PeerFault.TheVariants as peer_faults;

use crate::calling::read_cer_header_and_host;
use crate::neighbours::Neighbours;
use crate::newcomer::tell_and_add_newcomer;
use crate::offered_config::offered_config;
use crate::{Answer, NodeEvent, OrderFault, Strangers};
use arrayvec::ArrayVec;
use dm_base::codes::UNKNOWN_PEER;
use dm_base::{Node, error_answer};
use dm_dict::NoMemory;
use dm_peer::{Action, Actions, Conn, PeerFault, sent_octets};
use std::alloc::Global;

/// What turns a stranger away: an answer 3010 (DIAMETER_UNKNOWN_PEER) where the octets are a CER, and a Close. Only the
/// answer may want memory.
fn refusing_actions(
    alloc: Global,
    own: &Node,
    conn: Conn,
    octets: &[u8],
) -> Result<Actions, NoMemory>
    ensures answer { IfOk result (λ actions. actions.items ≡ answer_to own.now conn (caller_of octets.now)) }
    ensures spelled { IfOk result (λ actions. All SendsSpelling actions.items) }
    ensures memory { OnErr result (IsSome (caller_of octets.now)) }
{
    let mut actions = ArrayVec::new();
    if let Some((header, _)) = read_cer_header_and_host(octets) {
        let answer = error_answer(alloc, own, &header, UNKNOWN_PEER)?;
        actions.push(Action::Send(conn, sent_octets(alloc, &answer)?));
    }
    actions.push(Action::Close(conn));
    Ok(actions)
}

/// What is done at an event that concerns no neighbour, put into `answer`: at what came on a connection, its sender is
/// taken in or turned away; at all else nothing.
#[inline(never)]
pub(crate) fn handle_stranger_event<S: Strangers>(
    alloc: Global,
    own: &Node,
    neighbours: &mut Neighbours,
    strangers: &S,
    event: NodeEvent<'_>,
    answer: &mut Answer,
) -> Result<(), OrderFault>
    requires { (i : ℕ) → Concerns (S.policy strangers.now) neighbours.old event i → ⊥ }
    ensures told { OnOk result (NodeIsTold (S.policy strangers.now) event.entry own.now neighbours.old
        answer.new.neighbour answer.new.actions.items neighbours.new) }
    ensures spelled { OnOk result (All SendsSpelling answer.new.actions.items) }
    ensures memory { IfErr result (λ f. (f ≡ faults.Peer peer_faults.NoMemory) × IsStrangeCer event.entry) }
    ensures unchanged { OnErr result (neighbours.new ≡ neighbours.old) }
{
    match event {
        NodeEvent::Arrived(conn, octets) => {
            match offered_config(alloc, neighbours, strangers, octets) {
                Ok(Some(config)) => {
                    tell_and_add_newcomer(alloc, neighbours, config, conn, octets, answer)
                }
                Ok(None) => match refusing_actions(alloc, own, conn, octets) {
                    Ok(actions) => {
                        answer.neighbour = None;
                        answer.actions = actions;
                        Ok(())
                    }
                    Err(_) => Err(OrderFault::Peer(PeerFault::NoMemory)),
                },
                Err(_) => Err(OrderFault::Peer(PeerFault::NoMemory)),
            }
        }
        _ => {
            answer.neighbour = None;
            answer.actions = ArrayVec::new();
            Ok(())
        }
    }
}
