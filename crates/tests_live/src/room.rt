//! The room that an answer takes: that of the same text appended a piece after the other, so at most twice its octets.
use crate::single::{CER_OF_B, alone};
use dm_live::{Form, answer_asked_without_dot, read_order_line};
use dm_node::{Answer, Node};
use dm_text::Hexadecimal;
use std::process::Abort;

/// A request of so many octets, a multiple of four, with one AVP that nobody defines.
fn request(rt: &(impl Abort + AllocGlobal), size: u32) -> Vec<u8> {
    let [_, high, middle, low] = size.to_be_bytes();
    let header = [
        1, high, middle, low, 0x80, 0, 1, 16, 0, 0, 0, 4, 0, 0, 0, 1, 0, 0, 0, 1,
    ];
    let [_, high, middle, low] = size.saturating_sub(20).to_be_bytes();
    let mut octets = Vec::from_slice(rt.alloc(), &header).expect(rt, "memory");
    octets
        .extend_from_slice(&[0, 0, 0x27, 0x0f, 0, high, middle, low])
        .expect(rt, "memory");
    octets.resize(size as usize, 0).expect(rt, "memory");
    octets
}

/// Appends the answer to the line, which tells an order.
fn answer(rt: &(impl Abort + AllocGlobal), node: &mut Node, line: &str, text: &mut String) {
    if let Some(order) = read_order_line(rt.alloc(), Form::Alone, line.as_bytes()).expect(
        rt, "memory",
    ) {
        let mut lent = Answer::new();
        let done = answer_asked_without_dot(
            rt.alloc(),
            Form::Alone,
            node,
            order.as_order_or_piece(),
            &mut lent,
            text,
        );
        drop(lent);
        done.expect(rt, "memory");
    }
}

/// What is answered to the order of this name with the octets.
fn answered(rt: &(impl Abort + AllocGlobal), node: &mut Node, name: &str, octets: &[u8]) -> String {
    let line = format!(in rt.alloc(); "{name} {}", Hexadecimal(octets)).expect(rt, "memory");
    let mut text = String::new(rt.alloc());
    answer(rt, node, line.as_str(), &mut text);
    drop(line);
    text
}

/// What is answered where the octets are handed up, a piece after the other.
fn handed_up(rt: &(impl Abort + AllocGlobal), octets: &[u8]) -> String {
    let mut text = String::new(rt.alloc());
    writeln!(text, "arrived {}", 9).expect(rt, "memory");
    writeln!(text, "up {}", Hexadecimal(octets)).expect(rt, "memory");
    writeln!(text, "state R-Open r{}", 9).expect(rt, "memory");
    text
}

/// What is answered where the octets are sent, a piece after the other.
fn sent(rt: &(impl Abort + AllocGlobal), octets: &[u8]) -> String {
    let mut text = String::new(rt.alloc());
    writeln!(text, "send {} {}", 9, Hexadecimal(octets)).expect(rt, "memory");
    writeln!(text, "state R-Open r{}", 9).expect(rt, "memory");
    text
}

/// Whether the two are one text, in as much room.
fn are_alike(one: String, other: String) -> bool {
    let same = one.as_str() == other.as_str() && one.capacity() == other.capacity();
    drop(one);
    drop(other);
    same
}

/// Whether a request of so many octets that comes, and one that is submitted, are answered in that room.
fn is_roomy(rt: &(impl Abort + AllocGlobal), node: &mut Node, size: u32) -> bool {
    let octets = request(rt, size);
    let came = answered(rt, node, "octets 9", octets.as_slice());
    let up = are_alike(came, handed_up(rt, octets.as_slice()));
    let submitted = answered(rt, node, "submit", octets.as_slice());
    let out = are_alike(submitted, sent(rt, octets.as_slice()));
    drop(octets);
    up && out
}

/// A node whose one neighbour has opened connection 9.
fn opened(rt: &(impl Abort + AllocGlobal)) -> Node {
    let mut node = alone(rt);
    let mut text = String::new(rt.alloc());
    answer(rt, &mut node, "accept 9", &mut text);
    let cer = format!(in rt.alloc(); "octets 9 {CER_OF_B}").expect(rt, "memory");
    answer(rt, &mut node, cer.as_str(), &mut text);
    drop(cer);
    drop(text);
    node
}

/// Sizes on both sides of six doublings.
#[test]
fn answers_take_the_room_of_their_pieces(rt: HostRuntime) {
    let mut node = opened(&rt);
    for words in 7..600 {
        assert!(rt;
            is_roomy(&rt, &mut node, 4 * words),
            "of {words} times four octets"
        );
    }
    drop(node);
}
