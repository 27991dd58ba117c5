//! Orders to a node in lines, answered over it.

use crate::nodes::three;
use dm_live::{Form, answer_asked_without_dot, read_order_line};
use dm_node::{Answer, Node};
use std::process::Abort;

/// The CER of c.example, of application 4, with number 9.
const OCTETS: &str =
    "octets 9 01000070800001010000000000000009000000090000010840000011632e6578616d706c65000000000001284000000f6578616d706c6500000001014000000e00017f00000100000000010a4000000c000000000000010d0000000e646d706565720000000001024000000c00000004";

/// What is answered to the start, to the line that accepts the connection, to that CER, to orders of a neighbour that
/// isn't open and of none, and to the end of the one that was started.
const ANSWERS: &str =
    "neighbour 2\nconnect 7\nstate 2 Wait-Conn-Ack i7\nneighbour 1\narrived 9\nsend 9 0100007c000001010000000000000009000000090000010c4000000c000007d10000010840000011612e6578616d706c65000000000001284000000f6578616d706c6500000001014000000e00017f00000100000000010a4000000c000000000000010d0000000e646d6c6976650000000001024000000c00000004\nstate 1 R-Open r9\nneighbour 0\nrefused NotOpen\nstate 0 Closed\nrefused NoNeighbour\nneighbour 2\nstate 2 Closed\n";

/// Answers the line, where it tells an order to a node.
fn answer(rt: &(impl Abort + AllocGlobal), node: &mut Node, line: &str, text: &mut String) {
    if let Some(order) = read_order_line(rt.alloc(), Form::Several, line.as_bytes()).expect(
        rt, "memory",
    ) {
        let mut lent = Answer::new();
        let done = answer_asked_without_dot(
            rt.alloc(),
            Form::Several,
            node,
            order.as_order_or_piece(),
            &mut lent,
            text,
        );
        drop(lent);
        done.expect(rt, "memory");
    }
}

/// Whether the lines are answered as they should be.
fn are_answered(rt: &(impl Abort + AllocGlobal)) -> bool {
    let mut node = three(rt);
    let mut text = String::new(rt.alloc());
    answer(rt, &mut node, "start 2 7", &mut text);
    answer(rt, &mut node, "accept 9", &mut text);
    answer(rt, &mut node, OCTETS, &mut text);
    answer(rt, &mut node, "stop 0 2", &mut text);
    answer(rt, &mut node, "tick 3", &mut text);
    answer(rt, &mut node, "nack 7", &mut text);
    let same = text.as_str() == ANSWERS;
    drop(text);
    drop(node);
    same
}

#[test]
fn lines_to_a_node_are_answered(rt: HostRuntime) {
    assert!(rt; are_answered(&rt));
}
