//! Hosts that are no neighbours, taken alike.
use super::config;
use super::nodes::{heard, new_node};
use super::octets::{CER, CER_OF_B, CER_OF_WINNER};
use dm_node::{Answer, Conn, Node, Open};
use dm_peer::State;
use std::process::Abort;

/// The CER of d.example, of application 4, with number 9.
const CER_OF_D: &str =
    "01000070800001010000000000000009000000090000010840000011642e6578616d706c65000000000001284000000f6578616d706c6500000001014000000e00017f00000100000000010a4000000c000000000000010d0000000e646d706565720000000001024000000c00000004";

/// How many neighbours there may be, the connection, the CER on it, whom it concerns, and how many actions are asked
/// for.
type Case<'a> = (usize, u64, &'a str, Option<usize>, usize);

/// None may be, the own host, any other, it again by another case, one too many, and one more.
const TAKEN: &[Case<'static>] = &[
    (0, 4, CER_OF_B, None, 2),
    (3, 5, CER, None, 2),
    (1, 9, CER_OF_B, Some(0), 1),
    (3, 10, CER_OF_WINNER, Some(0), 1),
    (1, 11, CER_OF_D, None, 2),
    (2, 12, CER_OF_D, Some(1), 1),
];

/// Behind a neighbour that is gone.
const TAKEN_AGAIN: &[Case<'static>] = &[(1, 13, CER_OF_B, None, 2), (2, 14, CER_OF_B, Some(2), 1)];

/// Each is taken by a template of a.example for c.example.
fn meets(
    rt: &(impl Abort + AllocGlobal),
    node: &mut Node,
    case: &Case<'_>,
    answer: &mut Answer,
) -> bool {
    let (most, conn, digits, concerned, count) = *case;
    let config = config(rt, b"a.example", b"c.example", 4).expect(rt, "a configuration");
    let open = Open::new(config, most);
    let told = heard(rt, node, &open, Conn(conn), digits, answer);
    drop(open);
    told == Some((concerned, count))
}

fn assert_cases(rt: &(impl Abort + AllocGlobal), node: &mut Node, cases: &[Case<'_>]) {
    let mut answer = Answer::new();
    for case in cases {
        assert!(rt; meets(rt, node, case, &mut answer), "at {case:?}");
    }
    drop(answer);
}

/// The first neighbour goes, and is no more there then: its connection is closed, and nothing the second time.
fn are_removed(node: &mut Node) -> bool {
    let mut answer = Answer::new();
    let first = node.remove(0, &mut answer) && answer.actions.len() == 1;
    let second = node.remove(0, &mut answer) || !answer.actions.is_empty();
    drop(answer);
    first && !second
}

fn assert_taken(rt: &(impl Abort + AllocGlobal)) {
    let mut node = new_node(rt);
    assert_cases(rt, &mut node, TAKEN);
    assert!(rt; node.iter().len() == 2 && node.find(b"c.example").is_none());
    assert!(rt; are_removed(&mut node));
    assert_cases(rt, &mut node, TAKEN_AGAIN);
    assert!(rt; node.state_of(2) == Some(State::ROpen) && node.find(b"B.example") == Some(2));
    assert!(rt; node.open_on(2) == Some(Conn(14)) && node.open_on(0).is_none());
    drop(node);
}

/// Any host becomes a neighbour but the own, while there may be one more.
#[test]
fn any_host_is_taken(rt: HostRuntime) {
    assert_taken(&rt);
}
