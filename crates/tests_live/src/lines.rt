//! Orders in lines to a peer alone, answered over its node.

use crate::single::alone;
use dm_live::{Form, answer_asked_without_dot, read_order_line};
use dm_node::{Acquaintance, Answer, Node};
use std::process::Abort;

/// The CER of b.example, of application 4, with number 9.
const OCTETS: &str =
    "octets 9 01000070800001010000000000000009000000090000010840000011622e6578616d706c65000000000001284000000f6578616d706c6500000001014000000e00017f00000100000000010a4000000c000000000000010d0000000e646d706565720000000001024000000c00000004";

/// What is answered to the line that accepts the connection, and to that CER.
const ANSWERS: &str =
    "state Closed\narrived 9\nsend 9 0100007c000001010000000000000009000000090000010c4000000c000007d10000010840000011612e6578616d706c65000000000001284000000f6578616d706c6500000001014000000e00017f00000100000000010a4000000c000000000000010d0000000e646d6c6976650000000001024000000c00000004\nstate R-Open r9\n";

/// Answers the line, where it tells an order.
fn answer(rt: &(impl Abort + AllocGlobal), node: &mut Node, line: &str, text: &mut String) {
    if let Some(order) = read_order_line(rt.alloc(), Form::Alone, line.as_bytes()).expect(
        rt, "memory",
    ) {
        let mut lent = Answer::new();
        let done = answer_asked_without_dot(
            rt.alloc(),
            Form::Alone,
            node,
            order.as_order_or_piece(),
            &mut lent,
            text,
        );
        drop(lent);
        done.expect(rt, "memory");
    }
}

/// Whether the two lines are answered as they should be, and how many octets the host has that was met.
fn met(rt: &(impl Abort + AllocGlobal)) -> (bool, Option<usize>) {
    let mut node = alone(rt);
    let mut text = String::new(rt.alloc());
    answer(rt, &mut node, "accept 9", &mut text);
    answer(rt, &mut node, OCTETS, &mut text);
    let same = text.as_str() == ANSWERS;
    let host = match node.known(0).and_then(Acquaintance::sender) {
        Some(sender) => Some(sender.host().len()),
        None => None,
    };
    drop(text);
    drop(node);
    (same, host)
}

#[test]
fn lines_are_answered_and_the_host_is_kept(rt: HostRuntime) {
    assert_eq!(rt; met(&rt), (true, Some(9)));
}
