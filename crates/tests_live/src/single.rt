//! A node of one neighbour on its happy path, and on one that breaks.

use dm_dict::Ip;
use dm_node::{Alone, Answer, Node, Order, Told};
use dm_peer::{Config, Conn, State};
use std::process::Abort;

/// The CER of b.example, of application 4, with number 9.
pub(crate) const CER_OF_B: &str =
    "01000070800001010000000000000009000000090000010840000011622e6578616d706c65000000000001284000000f6578616d706c6500000001014000000e00017f00000100000000010a4000000c000000000000010d0000000e646d706565720000000001024000000c00000004";

/// A watchdog of b.example.
pub(crate) const DWR_OF_B: &str =
    "01000038800001180000000000000001000000010000010840000011622e6578616d706c65000000000001284000000f6578616d706c6500";

/// The connection that b.example made.
pub(crate) const R: Conn = Conn(9);

/// What the node a.example says of itself.
pub(crate) fn node(rt: &(impl Abort + AllocGlobal)) -> dm_peer::Node {
    let alloc = rt.alloc();
    let mut addresses = Vec::new(alloc);
    addresses.push(Ip::V4([127, 0, 0, 1])).expect(rt, "memory");
    let host = Vec::from_slice(alloc, b"a.example").expect(rt, "memory");
    let realm = Vec::from_slice(alloc, b"example").expect(rt, "memory");
    let product = String::from_str(alloc, "dmlive").expect(rt, "memory");
    let auth = Vec::from_slice(alloc, &[4]).expect(rt, "memory");
    dm_peer::Node::new(host, realm, addresses, 0, product, auth, Vec::new(alloc)).expect(
        rt, "a node",
    )
}

/// The node a.example, for a peer of this host.
pub(crate) fn config(rt: &(impl Abort + AllocGlobal), host: &[u8]) -> Config {
    let peer = Vec::from_slice(rt.alloc(), host).expect(rt, "memory");
    Config::new(rt.alloc(), node(rt), peer, 1).expect(rt, "a configuration")
}

/// The node a.example with b.example alone; a message takes 1,000 octets at most before the capabilities exchange.
pub(crate) fn alone(rt: &(impl Abort + AllocGlobal)) -> Node {
    let config = config(rt, b"b.example");
    let mut node = Node::new(rt.alloc(), node(rt), 1000, 16_777_212);
    let _number = node.add(config).expect(rt, "a number");
    node
}

/// The state of b.example.
pub(crate) fn state(node: &Node) -> Option<State> {
    node.state_of(0)
}

/// How many actions are asked for; None where nothing was told.
fn count(answer: &Answer) -> Option<usize> {
    match answer.told {
        Told::Nothing => None,
        _ => Some(answer.actions.len()),
    }
}

/// How many actions the order asks for; None where no event is told.
pub(crate) fn asked(
    rt: &(impl Abort + AllocGlobal),
    node: &mut Node,
    order: Order<'_>,
) -> Option<usize> {
    let mut answer = Answer::new();
    let asked = match node.order(rt.alloc(), order, &mut answer) {
        Ok(()) => count(&answer),
        Err(_) => Some(100),
    };
    drop(answer);
    asked
}

/// Of the next turn of the connection, whether it is a whole message, and how many actions it asks for.
fn turn(rt: &(impl Abort + AllocGlobal), node: &mut Node) -> Option<(bool, usize)> {
    let mut answer = Answer::new();
    let count = match node.next(rt.alloc(), &Alone, R, &mut answer) {
        Ok(()) => count(&answer),
        Err(_) => Some(100),
    };
    let is_whole = answer.told == Told::Message;
    drop(answer);
    match count {
        Some(count) => Some((is_whole, count)),
        None => None,
    }
}

/// The turns behind each half of a CER, and the state then.
fn cer_in_halves(
    rt: &(impl Abort + AllocGlobal),
    node: &mut Node,
) -> (Option<(bool, usize)>, Option<(bool, usize)>, Option<State>) {
    let octets = hex::decode(rt.alloc(), CER_OF_B.as_bytes()).expect(rt, "digits");
    let (front, back) = octets.as_slice().split_at(octets.len() / 2);
    let _first = node.keep(R, front);
    let before = turn(rt, node);
    let _second = node.keep(R, back);
    let behind = turn(rt, node);
    drop(octets);
    (before, behind, state(node))
}

/// How many octets are taken, whether a message is told, and how many actions that asks for.
type Heard = (usize, bool, usize);

/// Of the piece, how many octets are taken, whether a message is told, and how many actions that asks for.
fn heard(rt: &(impl Abort + AllocGlobal), node: &mut Node, piece: &[u8]) -> Heard {
    let mut answer = Answer::new();
    let heard = match node.hear(rt.alloc(), &Alone, R, piece, &mut answer) {
        Ok(length) => (length, answer.told == Told::Message, answer.actions.len()),
        Err(_) => (0, false, 100),
    };
    drop(answer);
    heard
}

/// What is heard of a CER; of the front of a watchdog; and of its back with a watchdog behind it. And the state.
fn cer_in_place(
    rt: &(impl Abort + AllocGlobal),
    node: &mut Node,
) -> (Heard, Heard, Heard, Option<State>) {
    let octets = hex::decode(rt.alloc(), CER_OF_B.as_bytes()).expect(rt, "digits");
    let whole = heard(rt, node, octets.as_slice());
    drop(octets);
    let (front, behind) = dwr_in_halves(rt, node);
    (whole, front, behind, state(node))
}

/// What is heard of the front of a watchdog, and of its back with its front behind it.
fn dwr_in_halves(rt: &(impl Abort + AllocGlobal), node: &mut Node) -> (Heard, Heard) {
    let octets = hex::decode(rt.alloc(), DWR_OF_B.as_bytes()).expect(rt, "digits");
    let (front, back) = octets.as_slice().split_at(octets.len() / 2);
    let mut piece = Vec::from_slice(rt.alloc(), back).expect(rt, "memory");
    piece.extend_from_slice(front).expect(rt, "memory");
    let first = heard(rt, node, front);
    let second = heard(rt, node, piece.as_slice());
    drop(piece);
    drop(octets);
    (first, second)
}

/// What an accepted connection comes to whose CER is told where it lies.
fn in_place(rt: &(impl Abort + AllocGlobal)) -> (Heard, Heard, Heard, Option<State>) {
    let mut node = alone(rt);
    let _none = asked(rt, &mut node, Order::Accept(R));
    let came = cer_in_place(rt, &mut node);
    drop(node);
    came
}

/// What an accepted connection comes to whose CER comes in halves.
fn accepted(
    rt: &(impl Abort + AllocGlobal),
) -> (Option<(bool, usize)>, Option<(bool, usize)>, Option<State>) {
    let mut node = alone(rt);
    let _none = asked(rt, &mut node, Order::Accept(R));
    let came = cer_in_halves(rt, &mut node);
    drop(node);
    came
}

/// What another version on an accepted connection comes to, and then what more octets and its end do.
fn broken(
    rt: &(impl Abort + AllocGlobal),
) -> (Option<(bool, usize)>, Option<(bool, usize)>, Option<usize>) {
    let mut node = alone(rt);
    let _none = asked(rt, &mut node, Order::Accept(R));
    let _piece = node.keep(R, &[2]);
    let fault = turn(rt, &mut node);
    let _more = node.keep(R, &[2]);
    let again = turn(rt, &mut node);
    let gone = asked(rt, &mut node, Order::Gone(R));
    drop(node);
    (fault, again, gone)
}

/// How many actions a Nack of an open connection asks for, and then what a watchdog that comes on it is told as.
fn nacked(rt: &(impl Abort + AllocGlobal)) -> (Option<usize>, Option<(bool, usize)>) {
    let mut node = alone(rt);
    let _none = asked(rt, &mut node, Order::Accept(R));
    let _opened = cer_in_halves(rt, &mut node);
    let nacked = asked(rt, &mut node, Order::Nack(R));
    let octets = hex::decode(rt.alloc(), DWR_OF_B.as_bytes()).expect(rt, "digits");
    let _fed = node.keep(R, octets.as_slice());
    let told = turn(rt, &mut node);
    drop(octets);
    drop(node);
    (nacked, told)
}

#[test]
fn nack_of_an_open_connection_leaves_it(rt: HostRuntime) {
    assert_eq!(rt; nacked(&rt), (Some(0), Some((true, 1))));
}

#[test]
fn cer_in_halves_opens(rt: HostRuntime) {
    assert_eq!(rt; accepted(&rt), (None, Some((true, 1)), Some(State::ROpen)));
}

#[test]
fn fault_closes_once(rt: HostRuntime) {
    assert_eq!(rt; broken(&rt), (Some((false, 1)), None, None));
}

#[test]
fn cer_in_place_opens(rt: HostRuntime) {
    assert_eq!(rt;
        in_place(&rt),
        (
            (112, true, 1),
            (28, false, 0),
            (28, true, 1),
            Some(State::ROpen)
        )
    );
}
