//! The host that a CEA names, where it is compared with the peer's and where it isn't.
use super::octets::{CEA_1, CEA_OF_3000, CEA_OF_A};
use super::{Case, Done, I, R, Told, check, config, does, node, way_to};
use dm_peer::{Peer, State};
use std::process::Abort;

/// The CEA of c.example to number 1.
const CEA_OF_C: &str =
    "0100007c000001010000000000000001000000010000010c4000000c000007d10000010840000011632e6578616d706c65000000000001284000000f6578616d706c6500000001014000000e00017f00000100000000010a4000000c000000000000010d0000000e646d706565720000000001024000000c00000004";

/// The CEA of B.Example to number 1.
const CEA_OF_CAPITALS: &str =
    "0100007c000001010000000000000001000000010000010c4000000c000007d10000010840000011422e4578616d706c65000000000001284000000f6578616d706c6500000001014000000e00017f00000100000000010a4000000c000000000000010d0000000e646d706565720000000001024000000c00000004";

/// Whether hosts are compared, the state, and what a.example, configured for b.example, does there.
type Comparison<'a> = (bool, State, Case<'a>);

const FAILED: &[Done<'static>] = &[Done::Close(I)];

/// The own connection is closed, and the CER that waits is answered.
const YIELDED: &[Done<'static>] = &[Done::Close(I), Done::Send(R, CEA_OF_A)];

const IN_WAIT_I_CEA: [Comparison<'static>; 5] = [
    (
        false,
        State::WaitICea,
        (Told::Hears(I, CEA_OF_C), &[], State::IOpen),
    ),
    (
        true,
        State::WaitICea,
        (Told::Hears(I, CEA_OF_C), FAILED, State::Closed),
    ),
    (
        true,
        State::WaitICea,
        (Told::Hears(I, CEA_OF_CAPITALS), &[], State::IOpen),
    ),
    (
        true,
        State::WaitICea,
        (Told::Hears(I, CEA_1), &[], State::IOpen),
    ),
    (
        true,
        State::WaitICea,
        (Told::Hears(I, CEA_OF_3000), FAILED, State::Closed),
    ),
];

/// In Wait-Returns too, and on the open connection no CEA is awaited.
const ELSEWHERE: [Comparison<'static>; 3] = [
    (
        false,
        State::WaitReturns,
        (Told::Hears(I, CEA_OF_C), &[Done::Close(R)], State::IOpen),
    ),
    (
        true,
        State::WaitReturns,
        (Told::Hears(I, CEA_OF_C), YIELDED, State::ROpen),
    ),
    (
        true,
        State::IOpen,
        (Told::Hears(I, CEA_OF_C), &[], State::IOpen),
    ),
];

fn configured(rt: &(impl Abort + AllocGlobal), compares: bool) -> Peer {
    let plain = config(rt, b"a.example", b"b.example", 4).expect(rt, "a configuration");
    if compares {
        Peer::new(plain.comparing())
    } else {
        Peer::new(plain)
    }
}

fn check_all(rt: &(impl Abort + AllocGlobal), comparisons: &[Comparison<'_>]) {
    for comparison in comparisons {
        let (compares, from, case) = comparison;
        let mut peer = configured(rt, *compares);
        check(rt, &mut peer, way_to(*from));
        let done = does(rt, &mut peer, case);
        drop(peer);
        assert!(rt; done, "at {comparison:?}");
    }
}

/// A CEA of another host closes the connection where hosts are compared, and one of the peer's host in other letters
/// opens; without comparing the host makes no difference.
#[test]
fn hosts_of_ceas_are_compared(rt: HostRuntime) {
    check_all(&rt, &IN_WAIT_I_CEA);
    check_all(&rt, &ELSEWHERE);
}

/// A configuration that is made of one that compares hosts compares them too.
#[test]
fn configurations_for_others_compare(rt: HostRuntime) {
    let compares = config(&rt, b"a.example", b"c.example", 4)
        .expect(&rt, "a configuration")
        .comparing();
    let other = compares
        .for_host(rt.alloc(), b"b.example")
        .expect(&rt, "a configuration");
    let mut peer = Peer::new(other);
    check(&rt, &mut peer, way_to(State::WaitICea));
    let done = does(
        &rt,
        &mut peer,
        &(Told::Hears(I, CEA_OF_C), FAILED, State::Closed),
    );
    drop(peer);
    drop(compares);
    assert!(&rt; done);
}

/// A configuration of another node that is made of one that compares hosts compares none.
#[test]
fn configurations_of_other_nodes(rt: HostRuntime) {
    let compares = config(&rt, b"b.example", b"c.example", 4)
        .expect(&rt, "a configuration")
        .comparing();
    let name = Vec::from_slice(rt.alloc(), b"b.example").expect(&rt, "memory");
    let other = compares
        .for_node(node(&rt, b"a.example", 4), name, 1)
        .expect(&rt, "a configuration");
    let mut peer = Peer::new(other);
    check(&rt, &mut peer, way_to(State::WaitICea));
    let done = does(
        &rt,
        &mut peer,
        &(Told::Hears(I, CEA_OF_C), &[], State::IOpen),
    );
    drop(peer);
    drop(compares);
    assert!(&rt; done);
}
