//! The worked cases.

use super::octets::*;
use super::{
    ACKED, Case, Done, I, NEW, NOTHING, OPENED, R, Run, STARTED, Told, check_runs, config, digits,
    event, in_state, octets_of,
};
use dm_peer::{ConfigFault, Conn, PeerFault, State};
use std::process::Abort;

const UNKNOWN: [Case<'static>; 1] = [(
    Told::Hears(7, CER),
    &[Done::Send(7, UNKNOWN_PEER), Done::Close(7)],
    State::Closed,
)];

const APART: [Case<'static>; 1] = [(
    Told::Hears(7, CER_OF_TLS),
    &[Done::Send(7, NO_APPLICATION), Done::Close(7)],
    State::Closed,
)];

const UNSECURED: [Case<'static>; 1] = [(
    Told::Hears(7, CER_OF_TLS),
    &[Done::Send(7, NO_SECURITY), Done::Close(7)],
    State::Closed,
)];

/// The wrong peer is told first, then that no application is common, then that there is no security.
const CAPABILITIES: [Run<'static>; 4] = [
    (b"B.example", b"c.example", 4, &UNKNOWN, NOTHING),
    (b"B.example", b"c.example", 5, &UNKNOWN, NOTHING),
    (b"B.example", b"a.example", 5, &APART, NOTHING),
    (b"B.example", b"a.example", 4, &UNSECURED, NOTHING),
];

#[test]
fn refused_capabilities(rt: HostRuntime) {
    check_runs(&rt, &CAPABILITIES);
}

const HEARD: Case<'static> = (
    Told::Hears(7, CER),
    &[Done::Send(7, ACCEPTED)],
    State::ROpen,
);

const BAD_WATCHDOG: [Case<'static>; 2] = [
    HEARD,
    (
        Told::Hears(7, BARE_DWR),
        &[Done::Send(7, BAD_DWR)],
        State::ROpen,
    ),
];

#[test]
fn bad_watchdog_answered(rt: HostRuntime) {
    check_runs(
        &rt,
        &[(b"B.example", b"a.example", 4, &BAD_WATCHDOG, NOTHING)],
    );
}

const OPEN: [Case<'static>; 6] = [
    HEARD,
    (
        Told::Submit(SUBMITTED),
        &[Done::Send(7, SUBMITTED)],
        State::ROpen,
    ),
    (
        Told::Hears(7, SUBMITTED),
        &[Done::Up(SUBMITTED)],
        State::ROpen,
    ),
    (
        Told::Submit(SUBMITTED_BITS),
        &[Done::Send(7, SUBMITTED_BITS)],
        State::ROpen,
    ),
    (
        Told::Hears(7, SUBMITTED_BITS),
        &[Done::Up(SUBMITTED_BITS)],
        State::ROpen,
    ),
    (Told::Hears(8, CER), &[Done::Close(8)], State::ROpen),
];

#[test]
fn submit_and_up(rt: HostRuntime) {
    check_runs(&rt, &[(b"B.example", b"a.example", 4, &OPEN, NOTHING)]);
}

/// The connection is made, and a CEA of another number is dropped.
const ASKED: [Case<'static>; 3] = [
    STARTED,
    ACKED,
    (Told::Hears(I, CEA_2), &[], State::WaitICea),
];
/// The awaited one opens, and is dropped when it comes again.
const ANSWERED: [Case<'static>; 5] = [
    STARTED,
    ACKED,
    (Told::Hears(I, CEA_2), &[], State::WaitICea),
    OPENED,
    (Told::Hears(I, CEA_1), &[], State::IOpen),
];

const AWAITED_CEA: [Run<'static>; 3] = [
    (b"a.example", b"b.example", 4, &[STARTED], NOTHING),
    (b"a.example", b"b.example", 4, &ASKED, [Some(1), None, None]),
    (b"a.example", b"b.example", 4, &ANSWERED, NOTHING),
];

#[test]
fn awaited_cea(rt: HostRuntime) {
    check_runs(&rt, &AWAITED_CEA);
}

const TICKED: Case<'static> = (Told::Tick, &[Done::Send(I, DWR_2)], State::IOpen);

const DROPPED: Case<'static> = (Told::Hears(I, DWA_7), &[], State::IOpen);

const SUSPECT: Case<'static> = (Told::Tick, &[], State::IOpen);

const WATCHED: Case<'static> = (Told::Hears(I, DWA_2), &[], State::IOpen);

const AGAIN: Case<'static> = (Told::Tick, &[Done::Send(I, DWR_3)], State::IOpen);

const STOPPED: Case<'static> = (Told::Stop, &[Done::Send(I, DPR_4)], State::Closing);

const ONE_TICK: [Case<'static>; 6] = [STARTED, ACKED, OPENED, TICKED, DROPPED, SUSPECT];

const ONE_ANSWER: [Case<'static>; 7] = [STARTED, ACKED, OPENED, TICKED, DROPPED, SUSPECT, WATCHED];

const STOPPING: [Case<'static>; 8] = [
    STARTED,
    ACKED,
    OPENED,
    TICKED,
    WATCHED,
    AGAIN,
    STOPPED,
    (Told::Hears(I, DPA_3), &[], State::Closing),
];

const STOPS: [Case<'static>; 8] = [
    STARTED,
    ACKED,
    OPENED,
    TICKED,
    WATCHED,
    AGAIN,
    STOPPED,
    (Told::Hears(I, DPA_4), &[Done::Close(I)], State::Closed),
];

const AWAITED_WATCHDOG: [Run<'static>; 4] = [
    (
        b"a.example",
        b"b.example",
        4,
        &ONE_TICK,
        [None, Some(2), None],
    ),
    (b"a.example", b"b.example", 4, &ONE_ANSWER, NOTHING),
    (
        b"a.example",
        b"b.example",
        4,
        &STOPPING,
        [None, Some(3), Some(4)],
    ),
    (b"a.example", b"b.example", 4, &STOPS, NOTHING),
];

#[test]
fn awaited_watchdog(rt: HostRuntime) {
    check_runs(&rt, &AWAITED_WATCHDOG);
}

/// A state, what a.example is told there, and why it refuses that.
type Refusal<'a> = (State, Told<'a>, PeerFault);

const REFUSALS: [Refusal<'static>; 6] = [
    (State::Closed, Told::Stop, PeerFault::NotOpen),
    // Before what the octets are is looked at.
    (State::Closed, Told::Submit(BROKEN), PeerFault::NotOpen),
    (State::Closing, Told::Submit(SUBMITTED), PeerFault::NotOpen),
    (State::IOpen, Told::Start(NEW), PeerFault::NotClosed),
    (State::IOpen, Told::Submit(BARE_DWR), PeerFault::BadSubmit),
    (State::IOpen, Told::Submit(BROKEN), PeerFault::BadSubmit),
];

/// Why the peer refuses, and its state then.
fn refusal(
    rt: &(impl Abort + AllocGlobal),
    from: State,
    told: Told<'_>,
) -> (Option<PeerFault>, State) {
    let mut peer = in_state(rt, from);
    let octets = octets_of(rt, digits(told));
    let fault = peer.on(rt.alloc(), event(told, octets.as_slice())).err();
    drop(octets);
    let state = peer.state();
    drop(peer);
    (fault, state)
}

fn check_refusals(rt: &(impl Abort + AllocGlobal), rows: &[Refusal<'_>]) {
    for row in rows {
        let (from, told, fault) = *row;
        assert!(rt;
            refusal(rt, from, told) == (Some(fault), from),
            "at {row:?}"
        );
    }
}

#[test]
fn refusals(rt: HostRuntime) {
    check_refusals(&rt, &REFUSALS);
}

/// What a.example tells of itself in a state: its connections, and whether it is open; and after `reset`.
type Shown = [(Option<Conn>, Option<Conn>, bool); 2];

fn shown(rt: &(impl Abort + AllocGlobal), from: State) -> Shown {
    let mut peer = in_state(rt, from);
    let before = (peer.initiated(), peer.accepted(), peer.is_open());
    peer.reset();
    let after = (peer.initiated(), peer.accepted(), peer.is_open());
    drop(peer);
    [before, after]
}

#[test]
fn readers_and_reset(rt: HostRuntime) {
    let (i, r) = (Some(Conn(I)), Some(Conn(R)));
    let reset = (None, None, false);
    assert_eq!(rt; shown(&rt, State::WaitReturns), [(i, r, false), reset]);
    assert_eq!(rt; shown(&rt, State::ROpen), [(None, r, true), reset]);
}

/// The name of a.example's peer, and why there is no such configuration.
const CONFIGS: [(&[u8], Option<ConfigFault>); 3] = [
    (b"", Some(ConfigFault::BadHost)),
    (b"A.EXAMPLE", Some(ConfigFault::SameHost)),
    (b"b.example", None),
];

fn config_fault(rt: &(impl Abort + AllocGlobal), peer: &[u8]) -> Option<ConfigFault> {
    match config(rt, b"a.example", peer, 4) {
        Err(fault) => Some(fault),
        Ok(config) => {
            let tells = config.peer_host() == peer
                && config.node().host() == b"a.example".as_slice();
            drop(config);
            assert!(rt; tells);
            None
        }
    }
}

fn check_configs(rt: &(impl Abort + AllocGlobal), rows: &[(&[u8], Option<ConfigFault>)]) {
    for row in rows {
        let (peer, fault) = *row;
        assert!(rt; config_fault(rt, peer) == fault, "at {row:?}");
    }
}

#[test]
fn config_refusals(rt: HostRuntime) {
    check_configs(&rt, &CONFIGS);
}
