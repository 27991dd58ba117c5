//! What a node knows of a neighbour, which comes again.

use crate::single::{DWR_OF_B, R, alone, asked};
use dm_node::{Acquaintance, Alone, Answer, Node, Order, Told};
use dm_peer::Conn;
use std::process::Abort;

/// The CER of b.example, of application 4, with Origin-State-Id 7, and with 8.
const CER_OF_7: &str =
    "0100007c800001010000000000000009000000090000010840000011622e6578616d706c65000000000001284000000f6578616d706c6500000001014000000e00017f00000100000000010a4000000c000000000000010d0000000e646d706565720000000001024000000c00000004000001164000000c00000007";

const CER_OF_8: &str =
    "0100007c800001010000000000000009000000090000010840000011622e6578616d706c65000000000001284000000f6578616d706c6500000001014000000e00017f00000100000000010a4000000c000000000000010d0000000e646d706565720000000001024000000c00000004000001164000000c00000008";

/// How many turns were told, one at most.
fn turns(answer: &Answer) -> usize {
    match answer.told {
        Told::Nothing => 0,
        _ => 1,
    }
}

/// How many turns are told of the piece that comes on the connection, one at most.
fn told(rt: &(impl Abort + AllocGlobal), node: &mut Node, conn: Conn, piece: &[u8]) -> usize {
    let _kept = node.keep(conn, piece);
    let mut answer = Answer::new();
    let told = match node.next(rt.alloc(), &Alone, conn, &mut answer) {
        Ok(()) => turns(&answer),
        Err(_) => 100,
    };
    drop(answer);
    told
}

/// The digits come on the connection in halves: how many turns are told at each.
fn told_in_halves(
    rt: &(impl Abort + AllocGlobal),
    node: &mut Node,
    conn: Conn,
    digits: &str,
) -> (usize, usize) {
    let octets = hex::decode(rt.alloc(), digits.as_bytes()).expect(rt, "digits");
    let (front, back) = octets.as_slice().split_at(octets.len() / 2);
    let first = told(rt, node, conn, front);
    let second = told(rt, node, conn, back);
    drop(octets);
    (first, second)
}

/// The Origin-State-Id, the one before, and whether the other side has begun anew.
fn states(node: &Node) -> Option<(Option<u32>, Option<u32>, bool)> {
    match node.known(0) {
        Some(known) => Some((known.state(), known.state_before(), known.is_anew())),
        None => None,
    }
}

/// The Origin-State-Id that is known.
fn state(node: &Node) -> Option<u32> {
    node.known(0).and_then(Acquaintance::state)
}

/// Of whom is known: how many octets the host and the realm have, and the first application.
fn said(rt: &(impl Abort + AllocGlobal), node: &Node) -> Option<(usize, usize, Option<u32>)> {
    match node.known(0).and_then(Acquaintance::sender) {
        Some(sender) => match sender.applications(rt.alloc()) {
            Ok(ids) => {
                let first = match ids.as_slice() {
                    [id, ..] => Some(*id),
                    [] => None,
                };
                drop(ids);
                Some((sender.host().len(), sender.realm().len(), first))
            }
            Err(_) => None,
        },
        None => None,
    }
}

/// What is known behind a CER in halves, and behind a watchdog.
fn met_once(
    rt: &(impl Abort + AllocGlobal),
) -> (
    (usize, usize),
    Option<(usize, usize, Option<u32>)>,
    (usize, usize),
    Option<(Option<u32>, Option<u32>, bool)>,
) {
    let mut node = alone(rt);
    let _none = asked(rt, &mut node, Order::Accept(R));
    let opened = told_in_halves(rt, &mut node, R, CER_OF_7);
    let watched = told_in_halves(rt, &mut node, R, DWR_OF_B);
    let found = said(rt, &node);
    let states = states(&node);
    drop(node);
    (opened, found, watched, states)
}

/// What is known behind a first connection with Origin-State-Id 7, and one of these digits that follows.
fn met_again(
    rt: &(impl Abort + AllocGlobal),
    digits: &str,
) -> Option<(Option<u32>, Option<u32>, bool)> {
    let mut node = alone(rt);
    let _none = asked(rt, &mut node, Order::Accept(R));
    let _opened = told_in_halves(rt, &mut node, R, CER_OF_7);
    let _gone = asked(rt, &mut node, Order::Gone(R));
    let _again = asked(rt, &mut node, Order::Accept(Conn(10)));
    let _opened_again = told_in_halves(rt, &mut node, Conn(10), digits);
    let states = states(&node);
    drop(node);
    states
}

/// The Origin-State-Id that is known behind a CER that crosses the own start, behind the Nack of that, and behind
/// another start: who waited in the election is met at its end.
fn met_at_nack(
    rt: &(impl Abort + AllocGlobal),
) -> ((usize, usize), Option<u32>, Option<u32>, Option<u32>) {
    let mut node = alone(rt);
    let own = Conn(0);
    let _asked = asked(rt, &mut node, Order::Start(0, own));
    let _none = asked(rt, &mut node, Order::Accept(R));
    let crossed = told_in_halves(rt, &mut node, R, CER_OF_7);
    let waiting = state(&node);
    let _actions = asked(rt, &mut node, Order::Nack(own));
    let met = state(&node);
    let _refused = asked(rt, &mut node, Order::Start(0, Conn(1)));
    let later = state(&node);
    drop(node);
    (crossed, waiting, met, later)
}

/// How many octets of a CER are told where it lies, and the Origin-State-Id that is known then.
fn met_in_place(rt: &(impl Abort + AllocGlobal)) -> (Option<usize>, Option<u32>) {
    let mut node = alone(rt);
    let _none = asked(rt, &mut node, Order::Accept(R));
    let octets = hex::decode(rt.alloc(), CER_OF_8.as_bytes()).expect(rt, "digits");
    let mut answer = Answer::new();
    let told = match node.hear(rt.alloc(), &Alone, R, octets.as_slice(), &mut answer) {
        Ok(length) if answer.told == Told::Message => Some(length),
        _ => None,
    };
    drop(answer);
    drop(octets);
    let state = state(&node);
    drop(node);
    (told, state)
}

#[test]
fn waiting_cer_is_met_at_the_nack(rt: HostRuntime) {
    assert_eq!(rt; met_at_nack(&rt), ((0, 1), None, Some(7), Some(7)));
}

#[test]
fn cer_in_place_is_known(rt: HostRuntime) {
    assert_eq!(rt; met_in_place(&rt), (Some(124), Some(8)));
}

#[test]
fn cer_in_halves_is_known_behind_a_watchdog(rt: HostRuntime) {
    assert_eq!(rt;
        met_once(&rt),
        (
            (0, 1),
            Some((9, 7, Some(4))),
            (0, 1),
            Some((Some(7), None, false))
        )
    );
}

#[test]
fn another_state_has_begun_anew(rt: HostRuntime) {
    assert_eq!(rt; met_again(&rt, CER_OF_8), Some((Some(8), Some(7), true)));
}

#[test]
fn same_state_has_not_begun_anew(rt: HostRuntime) {
    assert_eq!(rt; met_again(&rt, CER_OF_7), Some((Some(7), Some(7), false)));
}
