//! Nodes of many neighbours, as their tests drive them.
use super::{config, node, octets_of};
use dm_node::{Answer, Conn, Node, Order, Strangers, Told};
use std::process::Abort;

/// A node a.example without neighbours.
pub(super) fn new_node(rt: &(impl Abort + AllocGlobal)) -> Node {
    Node::new(rt.alloc(), node(rt, b"a.example", 4), 1000, 16_777_212)
}

/// Adds a neighbour of this host.
pub(super) fn add(rt: &(impl Abort + AllocGlobal), node: &mut Node, host: &[u8]) {
    let config = config(rt, b"a.example", host, 4).expect(rt, "a configuration");
    let _number = node.add(config).expect(rt, "a number");
}

/// Whom it concerned, and how many actions it asks for.
pub(super) fn asked(answer: &Answer) -> (Option<usize>, usize) {
    (answer.neighbour, answer.actions.len())
}

/// Somebody makes a connection, on which a message of these digits comes, and by the policy it is told where it lies:
/// whom it concerns, and how many actions it asks for. None where it isn't told so.
pub(super) fn heard(
    rt: &(impl Abort + AllocGlobal),
    node: &mut Node,
    strangers: &impl Strangers,
    conn: Conn,
    digits: &str,
    answer: &mut Answer,
) -> Option<(Option<usize>, usize)> {
    let octets = octets_of(rt, digits);
    let accepted = node.order(rt.alloc(), Order::Accept(conn), answer);
    let heard = node
        .hear(rt.alloc(), strangers, conn, octets.as_slice(), answer)
        .expect(rt, "memory");
    let is_whole = accepted.is_ok() && heard == octets.len() && answer.told == Told::Message;
    drop(octets);
    if is_whole { Some(asked(answer)) } else { None }
}
