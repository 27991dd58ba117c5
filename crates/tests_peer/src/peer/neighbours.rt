//! The neighbours of a node.
use super::config;
use super::nodes::{add, asked, heard, new_node};
use super::octets::{CER, CER_OF_B};
use dm_node::{AddFault, Answer, Conn, Node, Order};
use dm_peer::State;
use std::process::Abort;

/// What happens to a node: an order, or a message of these digits on a connection that somebody makes.
#[derive(Clone, Copy, Debug)]
enum Happening<'a> {
    Order(Order<'a>),
    Call(u64, &'a str),
}

/// What happens, which neighbour it concerns, how many actions are asked for, and the states of both neighbours then.
/// What tells no event concerns nobody, and asks for none.
type Case<'a> = (Happening<'a>, Option<usize>, usize, State, State);

/// b.example calls, c.example is called, a stranger is answered and closed, and c.example can't be reached.
const CASES: &[Case<'static>] = &[
    (
        Happening::Call(9, CER_OF_B),
        Some(0),
        1,
        State::ROpen,
        State::Closed,
    ),
    (
        Happening::Order(Order::Start(1, Conn(3))),
        Some(1),
        1,
        State::ROpen,
        State::WaitConnAck,
    ),
    (
        Happening::Call(5, CER),
        None,
        2,
        State::ROpen,
        State::WaitConnAck,
    ),
    (
        Happening::Order(Order::Gone(Conn(5))),
        None,
        0,
        State::ROpen,
        State::WaitConnAck,
    ),
    (
        Happening::Order(Order::Nack(Conn(3))),
        Some(1),
        0,
        State::ROpen,
        State::Closed,
    ),
];

/// Whom the order concerns, and how many actions it asks for; none where it is refused.
fn ordered(
    rt: &(impl Abort + AllocGlobal),
    node: &mut Node,
    order: Order<'_>,
    answer: &mut Answer,
) -> Option<(Option<usize>, usize)> {
    match node.order(rt.alloc(), order, answer) {
        Ok(()) => Some(asked(answer)),
        Err(_) => None,
    }
}

/// Whether the node does so, and its neighbours are in these states then.
fn does(
    rt: &(impl Abort + AllocGlobal),
    node: &mut Node,
    case: &Case<'_>,
    answer: &mut Answer,
) -> bool {
    let (happening, concerned, count, first, second) = *case;
    let done = match happening {
        Happening::Order(order) => ordered(rt, node, order, answer),
        Happening::Call(conn, digits) => heard(rt, node, &(), Conn(conn), digits, answer),
    };
    done == Some((concerned, count))
        && node.state_of(0) == Some(first)
        && node.state_of(1) == Some(second)
}

/// One after the other, with one answer that is lent to each.
fn assert_told(rt: &(impl Abort + AllocGlobal), node: &mut Node) {
    let mut answer = Answer::new();
    for case in CASES {
        assert!(rt; does(rt, node, case, &mut answer), "at {case:?}");
    }
    drop(answer);
}

fn assert_neighbours(rt: &(impl Abort + AllocGlobal)) {
    let mut node = new_node(rt);
    add(rt, &mut node, b"b.example");
    add(rt, &mut node, b"c.example");
    assert!(rt; node.find(b"C.Example") == Some(1) && node.find(b"d.example").is_none());
    let again = config(rt, b"a.example", b"B.EXAMPLE", 4).expect(rt, "a configuration");
    assert!(rt; node.add(again) == Err(AddFault::Known));
    assert_told(rt, &mut node);
    drop(node);
}

/// Each event goes to the neighbour that it concerns, and to no other.
#[test]
fn neighbours_are_told_apart(rt: HostRuntime) {
    assert_neighbours(&rt);
}
