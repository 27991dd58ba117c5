//! What strangers send, told to a neighbour.
use super::nodes::{add, asked, new_node};
use super::octets::{BARE_CER, BARE_DWR, CER, CER_OF_B, CER_OF_WINNER, DWR_OF_B, SUBMITTED};
use super::{octets_of, peer};
use dm_node::{Alone, Answer, Conn, Node, Order, Told};
use dm_peer::{Action, Event, Peer};
use std::process::Abort;

/// Octets that are no message: another version.
const FAULT: &str = "02000014";

/// What comes first on a connection, in hexadecimal digits, and as what it is told.
type First<'a> = (u64, &'a str, Told);

/// No CER, one without a host, one of another host and a fault, and, behind the neighbour's own, all this once more.
const FIRST: &[First<'static>] = &[
    (1, DWR_OF_B, Told::Message),
    (2, BARE_CER, Told::Message),
    (3, CER, Told::Message),
    (4, FAULT, Told::Fault),
    (9, CER_OF_B, Told::Message),
    (11, BARE_DWR, Told::Message),
    (12, CER_OF_WINNER, Told::Message),
    (13, CER, Told::Message),
    (14, SUBMITTED, Told::Message),
    (15, FAULT, Told::Fault),
];

/// The octets as a peer is told them: no message of a fault.
fn message_of<'a>(octets: &'a [u8], told: Told) -> &'a [u8] {
    if told == Told::Message { octets } else { &[] }
}

/// Somebody makes the connection, the octets are kept that come first on it, and they are told.
fn tell_first(
    rt: &(impl Abort + AllocGlobal),
    node: &mut Node,
    conn: Conn,
    octets: &[u8],
    answer: &mut Answer,
) {
    let accepted = node.order(rt.alloc(), Order::Accept(conn), answer);
    let kept = node.keep(conn, octets);
    let told = node.next(rt.alloc(), &Alone, conn, answer);
    assert!(rt; accepted.is_ok() && kept.is_ok() && told.is_ok());
}

fn is_same(one: &Action, other: &Action) -> bool {
    match (one, other) {
        (Action::Close(one), Action::Close(other)) => *one == *other,
        (Action::Send(one, octets), Action::Send(other, also)) => {
            *one == *other && octets.as_slice() == also.as_slice()
        }
        _ => false,
    }
}

fn are_same(actions: &[Action], others: &[Action]) -> bool {
    if actions.len() != others.len() {
        return false;
    }
    for (one, other) in actions.iter().zip(others) {
        if !is_same(one, other) {
            return false;
        }
    }
    true
}

/// Whether the node of one does at the turn what its peer does by itself.
fn does_as_its_peer(
    rt: &(impl Abort + AllocGlobal),
    node: &mut Node,
    twin: &mut Peer,
    first: &First<'_>,
    answer: &mut Answer,
) -> bool {
    let (number, digits, told) = *first;
    let conn = Conn(number);
    let octets = octets_of(rt, digits);
    let event = Event::Arrived(conn, message_of(octets.as_slice(), told));
    let actions = twin.on(rt.alloc(), event).expect(rt, "actions");
    tell_first(rt, node, conn, octets.as_slice(), answer);
    let is_alike = answer.told == told
        && answer.neighbour == Some(0)
        && are_same(answer.actions.as_slice(), actions.as_slice())
        && node.state_of(0) == Some(twin.state());
    drop(actions);
    drop(octets);
    is_alike
}

fn assert_as_its_peer(rt: &(impl Abort + AllocGlobal), node: &mut Node, twin: &mut Peer) {
    let mut answer = Answer::new();
    for first in FIRST {
        assert!(rt;
            does_as_its_peer(rt, node, twin, first, &mut answer),
            "at {first:?}"
        );
    }
    drop(answer);
}

fn assert_alone(rt: &(impl Abort + AllocGlobal)) {
    let mut node = new_node(rt);
    add(rt, &mut node, b"b.example");
    let mut twin = peer(rt, b"a.example", b"b.example", 4);
    assert_as_its_peer(rt, &mut node, &mut twin);
    drop(twin);
    drop(node);
}

/// A node of one neighbour does what its peer does by itself, whoever sends what comes.
#[test]
fn node_of_one_is_its_peer(rt: HostRuntime) {
    assert_alone(&rt);
}

/// What comes first on a connection, in hexadecimal digits, whom it concerns, and how many actions it asks for.
type Concerned<'a> = (u64, &'a str, Option<usize>, usize);

/// c.example is the first neighbour, and b.example the second.
const WITH_THE_FIRST: &[Concerned<'static>] = &[
    (1, BARE_CER, Some(0), 2),
    (9, CER_OF_B, Some(1), 1),
    (3, DWR_OF_B, Some(0), 1),
];

/// The first is gone.
const WITHOUT_IT: &[Concerned<'static>] = &[(4, CER, None, 2), (5, DWR_OF_B, None, 1)];

fn concerns(
    rt: &(impl Abort + AllocGlobal),
    node: &mut Node,
    case: &Concerned<'_>,
    answer: &mut Answer,
) -> bool {
    let (number, digits, concerned, count) = *case;
    let octets = octets_of(rt, digits);
    tell_first(rt, node, Conn(number), octets.as_slice(), answer);
    drop(octets);
    answer.told != Told::Nothing && asked(answer) == (concerned, count)
}

fn assert_cases(rt: &(impl Abort + AllocGlobal), node: &mut Node, cases: &[Concerned<'_>]) {
    let mut answer = Answer::new();
    for case in cases {
        assert!(rt; concerns(rt, node, case, &mut answer), "at {case:?}");
    }
    drop(answer);
}

/// The first neighbour goes, which holds nothing.
fn is_removed(node: &mut Node) -> bool {
    let mut answer = Answer::new();
    let is_removed = node.remove(0, &mut answer) && answer.actions.is_empty();
    drop(answer);
    is_removed
}

fn assert_porter(rt: &(impl Abort + AllocGlobal)) {
    let mut node = new_node(rt);
    add(rt, &mut node, b"c.example");
    add(rt, &mut node, b"b.example");
    assert_cases(rt, &mut node, WITH_THE_FIRST);
    assert!(rt; is_removed(&mut node));
    assert_cases(rt, &mut node, WITHOUT_IT);
    drop(node);
}

/// A host's call is told its own neighbour, what strangers send the first one, and nobody where that is gone.
#[test]
fn first_neighbour_is_told_what_strangers_send(rt: HostRuntime) {
    assert_porter(&rt);
}
