//! A node of three neighbours with its connections.

use crate::single::{CER_OF_B, DWR_OF_B, config, node};
use dm_node::{Answer, Conn, Node, Open, Order, OrderFault, Strangers, Told};
use dm_peer::State;
use std::process::Abort;

/// Adds a neighbour of this host.
fn add(rt: &(impl Abort + AllocGlobal), node: &mut Node, host: &[u8]) {
    let config = config(rt, host);
    let _number = node.add(config).expect(rt, "a number");
}

/// The node a.example with the neighbours b.example, c.example and d.example.
pub(crate) fn three(rt: &(impl Abort + AllocGlobal)) -> Node {
    let mut node = Node::new(rt.alloc(), node(rt), 1000, 16_777_212);
    add(rt, &mut node, b"b.example");
    add(rt, &mut node, b"c.example");
    add(rt, &mut node, b"d.example");
    node
}

/// The neighbour that was told something, and how many actions are asked for; None where nothing was told.
fn done(answer: &Answer) -> Option<(Option<usize>, usize)> {
    match answer.told {
        Told::Nothing => None,
        _ => Some((answer.neighbour, answer.actions.len())),
    }
}

/// The neighbour of which the order asks something, and how many actions; None where no event is told.
fn asked(
    rt: &(impl Abort + AllocGlobal),
    node: &mut Node,
    order: Order<'_>,
) -> Option<(Option<usize>, usize)> {
    let mut answer = Answer::new();
    let asked = match node.order(rt.alloc(), order, &mut answer) {
        Ok(()) => done(&answer),
        Err(OrderFault::NoNeighbour) => Some((None, 50)),
        Err(_) => Some((None, 100)),
    };
    drop(answer);
    asked
}

/// Of the next turn of the connection, by the policy, the neighbour, and how many actions it asks for.
fn turn(
    rt: &(impl Abort + AllocGlobal),
    node: &mut Node,
    strangers: &impl Strangers,
    conn: Conn,
) -> Option<(Option<usize>, usize)> {
    let mut answer = Answer::new();
    let turn = match node.next(rt.alloc(), strangers, conn, &mut answer) {
        Ok(()) => done(&answer),
        Err(_) => Some((None, 100)),
    };
    drop(answer);
    turn
}

/// Of a message on the connection that is told where it lies, by the policy, how many octets are told, the neighbour,
/// and how many actions it asks for.
fn told_in_place(
    rt: &(impl Abort + AllocGlobal),
    node: &mut Node,
    strangers: &impl Strangers,
    conn: Conn,
    octets: &[u8],
) -> Option<(usize, Option<usize>, usize)> {
    let mut answer = Answer::new();
    let told = match node.hear(rt.alloc(), strangers, conn, octets, &mut answer) {
        Ok(length) if answer.told == Told::Message => {
            Some((length, answer.neighbour, answer.actions.len()))
        }
        Ok(_) => None,
        Err(_) => Some((0, None, 100)),
    };
    drop(answer);
    told
}

/// The message comes on the connection, where it names b.example from the host with this letter.
fn came(rt: &(impl Abort + AllocGlobal), node: &mut Node, conn: Conn, digits: &str, letter: u8) {
    let mut octets = hex::decode(rt.alloc(), digits.as_bytes()).expect(rt, "digits");
    if let Some(octet) = octets.get_mut(28) {
        *octet = letter;
    }
    let _kept = node.keep(conn, octets.as_slice());
    drop(octets);
}

/// The same, and what is told of it.
fn told(
    rt: &(impl Abort + AllocGlobal),
    node: &mut Node,
    conn: Conn,
    digits: &str,
    letter: u8,
) -> Option<(Option<usize>, usize)> {
    came(rt, node, conn, digits, letter);
    turn(rt, node, &(), conn)
}

/// The host with this letter makes a connection and says who it is: what is told of it.
fn called(
    rt: &(impl Abort + AllocGlobal),
    node: &mut Node,
    conn: Conn,
    letter: u8,
) -> Option<(Option<usize>, usize)> {
    let _none = asked(rt, node, Order::Accept(conn));
    told(rt, node, conn, CER_OF_B, letter)
}

/// The states of the three neighbours.
fn states(node: &Node) -> (Option<State>, Option<State>, Option<State>) {
    (node.state_of(0), node.state_of(1), node.state_of(2))
}

/// Two call, a third is called, and the first is lost: what each comes to, the states, and what c.example says then.
fn apart(
    rt: &(impl Abort + AllocGlobal),
) -> (
    Option<(Option<usize>, usize)>,
    (Option<State>, Option<State>, Option<State>),
    Option<(Option<usize>, usize)>,
) {
    let mut node = three(rt);
    let _first = called(rt, &mut node, Conn(1), b'b');
    let _second = called(rt, &mut node, Conn(2), b'c');
    let _third = asked(rt, &mut node, Order::Start(2, Conn(3)));
    let lost = asked(rt, &mut node, Order::Gone(Conn(1)));
    let states = states(&node);
    let watched = told(rt, &mut node, Conn(2), DWR_OF_B, b'c');
    drop(node);
    (lost, states, watched)
}

/// Calls to and from b.example cross: what its CER comes to, and the states.
fn crossed(
    rt: &(impl Abort + AllocGlobal),
) -> (
    Option<(Option<usize>, usize)>,
    Option<(Option<usize>, usize)>,
    (Option<State>, Option<State>, Option<State>),
) {
    let mut node = three(rt);
    let _asked = asked(rt, &mut node, Order::Start(0, Conn(1)));
    let made = asked(rt, &mut node, Order::Ack(Conn(1)));
    let came = called(rt, &mut node, Conn(2), b'b');
    let states = states(&node);
    drop(node);
    (made, came, states)
}

/// Of a CER that is told where it lies, of the host with this letter, how many octets are told, the neighbour, and how
/// many actions it asks for.
fn heard(rt: &(impl Abort + AllocGlobal), letter: u8) -> Option<(usize, Option<usize>, usize)> {
    let mut node = three(rt);
    let _none = asked(rt, &mut node, Order::Accept(Conn(1)));
    let mut octets = hex::decode(rt.alloc(), CER_OF_B.as_bytes()).expect(rt, "digits");
    if let Some(octet) = octets.get_mut(28) {
        *octet = letter;
    }
    let told = told_in_place(rt, &mut node, &(), Conn(1), octets.as_slice());
    drop(octets);
    drop(node);
    told
}

/// A CER and a watchdog of c.example, one behind the other.
fn stream(rt: &(impl Abort + AllocGlobal)) -> Vec<u8> {
    let mut octets = hex::decode(rt.alloc(), CER_OF_B.as_bytes()).expect(rt, "digits");
    let watchdog = hex::decode(rt.alloc(), DWR_OF_B.as_bytes()).expect(rt, "digits");
    octets
        .extend_from_slice(watchdog.as_slice())
        .expect(rt, "memory");
    for at in [28, 140] {
        if let Some(octet) = octets.get_mut(at) {
            *octet = b'c';
        }
    }
    octets
}

/// The stream comes in two pieces, cut behind so many octets: two turns behind each.
fn cut(rt: &(impl Abort + AllocGlobal), at: usize) -> [Option<(Option<usize>, usize)>; 4] {
    let mut node = three(rt);
    let octets = stream(rt);
    let (piece, more) = octets
        .as_slice()
        .split_at_checked(at)
        .expect(rt, "two pieces");
    let _none = asked(rt, &mut node, Order::Accept(Conn(1)));
    let _kept = node.keep(Conn(1), piece);
    let first = turn(rt, &mut node, &(), Conn(1));
    let second = turn(rt, &mut node, &(), Conn(1));
    let _kept = node.keep(Conn(1), more);
    let third = turn(rt, &mut node, &(), Conn(1));
    let fourth = turn(rt, &mut node, &(), Conn(1));
    drop(octets);
    drop(node);
    [first, second, third, fourth]
}

/// Of such a CER that is kept first, the neighbour, and how many actions it asks for.
fn kept(rt: &(impl Abort + AllocGlobal), letter: u8) -> Option<(Option<usize>, usize)> {
    let mut node = three(rt);
    let told = called(rt, &mut node, Conn(1), letter);
    drop(node);
    told
}

/// What a stranger comes to, and whether his connection is there then.
fn strange(rt: &(impl Abort + AllocGlobal)) -> (Option<(Option<usize>, usize)>, bool) {
    let mut node = three(rt);
    let came = called(rt, &mut node, Conn(1), b'z');
    let is_there = node.has(Conn(1));
    drop(node);
    (came, is_there)
}

/// The host with this letter calls, where each host is taken while there are fewer neighbours than so many: what it
/// comes to, the state of the fourth neighbour, and whether the connection is there then.
fn permitted(
    rt: &(impl Abort + AllocGlobal),
    most: usize,
    letter: u8,
) -> (Option<(Option<usize>, usize)>, Option<State>, bool) {
    let mut node = three(rt);
    let policy = Open::new(config(rt, b"b.example"), most);
    let _none = asked(rt, &mut node, Order::Accept(Conn(1)));
    came(rt, &mut node, Conn(1), CER_OF_B, letter);
    let turn = turn(rt, &mut node, &policy, Conn(1));
    let state = node.state_of(3);
    let is_there = node.has(Conn(1));
    drop(policy);
    drop(node);
    (turn, state, is_there)
}

/// The same where its CER is told where it lies, with how many octets are told.
fn permitted_in_place(
    rt: &(impl Abort + AllocGlobal),
    most: usize,
    letter: u8,
) -> (Option<(usize, Option<usize>, usize)>, Option<State>) {
    let mut node = three(rt);
    let policy = Open::new(config(rt, b"b.example"), most);
    let _none = asked(rt, &mut node, Order::Accept(Conn(1)));
    let mut octets = hex::decode(rt.alloc(), CER_OF_B.as_bytes()).expect(rt, "digits");
    if let Some(octet) = octets.get_mut(28) {
        *octet = letter;
    }
    let told = told_in_place(rt, &mut node, &policy, Conn(1), octets.as_slice());
    let state = node.state_of(3);
    drop(octets);
    drop(policy);
    drop(node);
    (told, state)
}

/// A host that was taken in says what is no message: what that comes to, what is told behind it, and the state then.
fn broken(
    rt: &(impl Abort + AllocGlobal),
) -> (
    Option<(Option<usize>, usize)>,
    Option<(Option<usize>, usize)>,
    Option<State>,
) {
    let mut node = three(rt);
    let policy = Open::new(config(rt, b"b.example"), 4);
    let _none = asked(rt, &mut node, Order::Accept(Conn(1)));
    came(rt, &mut node, Conn(1), CER_OF_B, b'z');
    let _taken = turn(rt, &mut node, &policy, Conn(1));
    came(rt, &mut node, Conn(1), "02000014", 0);
    let fault = turn(rt, &mut node, &policy, Conn(1));
    let behind = turn(rt, &mut node, &policy, Conn(1));
    let state = node.state_of(3);
    drop(policy);
    drop(node);
    (fault, behind, state)
}

/// How many octets the host has that the neighbour of the number met, if there is one and it met anybody.
pub(crate) fn host_met(node: &Node, index: usize) -> Option<usize> {
    match node.known(index) {
        Some(known) => match known.sender() {
            Some(sender) => Some(sender.host().len()),
            None => None,
        },
        None => None,
    }
}

/// How much is closed where the first neighbour goes; None where there is none.
fn closed(node: &mut Node) -> Option<usize> {
    let mut answer = Answer::new();
    let closed = if node.remove(0, &mut answer) {
        Some(answer.actions.len())
    } else {
        None
    };
    drop(answer);
    closed
}

/// Two call, and a host that is taken in, and the first of them is removed: the octets of each host that was met.
fn known(rt: &(impl Abort + AllocGlobal)) -> [Option<usize>; 4] {
    let mut node = three(rt);
    let policy = Open::new(config(rt, b"b.example"), 4);
    let _first = called(rt, &mut node, Conn(1), b'b');
    let _second = called(rt, &mut node, Conn(2), b'c');
    let _none = asked(rt, &mut node, Order::Accept(Conn(3)));
    came(rt, &mut node, Conn(3), CER_OF_B, b'z');
    let _taken = turn(rt, &mut node, &policy, Conn(3));
    let _closed = closed(&mut node);
    let hosts = [
        host_met(&node, 0),
        host_met(&node, 1),
        host_met(&node, 2),
        host_met(&node, 3),
    ];
    drop(policy);
    drop(node);
    hosts
}

/// How much is closed where b.example goes that called, whether its connection is there then, and whether that of
/// c.example is.
fn removed(rt: &(impl Abort + AllocGlobal)) -> (Option<usize>, bool, bool) {
    let mut node = three(rt);
    let _first = called(rt, &mut node, Conn(1), b'b');
    let _second = called(rt, &mut node, Conn(2), b'c');
    let closed = closed(&mut node);
    let left = (node.has(Conn(1)), node.has(Conn(2)));
    drop(node);
    (closed, left.0, left.1)
}

/// A Start under a number that is in use, a Tick of nobody, and a reset of all, behind which b.example is Closed.
fn misled(
    rt: &(impl Abort + AllocGlobal),
) -> (
    Option<(Option<usize>, usize)>,
    Option<(Option<usize>, usize)>,
    Option<State>,
    bool,
) {
    let mut node = three(rt);
    let _first = called(rt, &mut node, Conn(1), b'b');
    let in_use = asked(rt, &mut node, Order::Start(1, Conn(1)));
    let nobody = asked(rt, &mut node, Order::Tick(7));
    let _none = asked(rt, &mut node, Order::ResetAll);
    let state = node.state_of(0);
    let is_there = node.has(Conn(1));
    drop(node);
    (in_use, nobody, state, is_there)
}

#[test]
fn loss_leaves_the_others(rt: HostRuntime) {
    assert_eq!(rt;
        apart(&rt),
        (
            Some((Some(0), 1)),
            (
                Some(State::Closed),
                Some(State::ROpen),
                Some(State::WaitConnAck)
            ),
            Some((Some(1), 1))
        )
    );
}

#[test]
fn crossing_calls_wait_for_the_other_side(rt: HostRuntime) {
    assert_eq!(rt;
        crossed(&rt),
        (
            Some((Some(0), 1)),
            Some((Some(0), 0)),
            (
                Some(State::WaitReturns),
                Some(State::Closed),
                Some(State::Closed)
            )
        )
    );
}

#[test]
fn stranger_is_answered_and_closed(rt: HostRuntime) {
    assert_eq!(rt; strange(&rt), (Some((None, 2)), false));
}

#[test]
fn removed_neighbour_is_closed(rt: HostRuntime) {
    assert_eq!(rt; removed(&rt), (Some(1), false, true));
}

#[test]
fn whom_each_neighbour_met_is_known(rt: HostRuntime) {
    assert_eq!(rt; known(&rt), [None, Some(9), None, Some(9)]);
}

#[test]
fn number_in_use_is_not_started(rt: HostRuntime) {
    assert_eq!(rt;
        misled(&rt),
        (None, Some((None, 50)), Some(State::Closed), false)
    );
}

#[test]
fn cer_in_place_goes_to_its_neighbour(rt: HostRuntime) {
    assert_eq!(rt;
        (heard(&rt, b'd'), heard(&rt, b'z')),
        (Some((112, Some(2), 1)), Some((112, None, 2)))
    );
}

#[test]
fn cer_in_place_is_told_as_if_it_were_kept(rt: HostRuntime) {
    assert_eq!(rt;
        (kept(&rt, b'd'), kept(&rt, b'z')),
        (Some((Some(2), 1)), Some((None, 2)))
    );
}

#[test]
fn unknown_host_is_taken_in(rt: HostRuntime) {
    assert_eq!(rt;
        (permitted(&rt, 4, b'z'), permitted(&rt, 4, b'b')),
        (
            (Some((Some(3), 1)), Some(State::ROpen), true),
            (Some((Some(0), 1)), None, true)
        )
    );
}

#[test]
fn one_too_many_is_answered_and_closed(rt: HostRuntime) {
    assert_eq!(rt; permitted(&rt, 3, b'z'), (Some((None, 2)), None, false));
}

#[test]
fn fault_of_a_host_that_was_taken_in_closes_it(rt: HostRuntime) {
    assert_eq!(rt;
        broken(&rt),
        (Some((Some(3), 1)), None, Some(State::Closed))
    );
}

#[test]
fn stream_is_told_alike_however_it_is_cut(rt: HostRuntime) {
    let told = Some((Some(1), 1));
    assert_eq!(rt; cut(&rt, 0), [None, None, told, told]);
    assert_eq!(rt; cut(&rt, 60), [None, None, told, told]);
    assert_eq!(rt; cut(&rt, 112), [told, None, told, None]);
    assert_eq!(rt; cut(&rt, 140), [told, None, told, None]);
    assert_eq!(rt; cut(&rt, 168), [told, told, None, None]);
}

#[test]
fn unknown_host_is_taken_in_at_its_cer_in_place(rt: HostRuntime) {
    assert_eq!(rt;
        (
            permitted_in_place(&rt, 4, b'z'),
            permitted_in_place(&rt, 3, b'z')
        ),
        (
            (Some((112, Some(3), 1)), Some(State::ROpen)),
            (Some((112, None, 2)), None)
        )
    );
}
