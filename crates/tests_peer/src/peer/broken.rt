//! Octets that are no message, in every state.

use super::octets::{BROKEN, CEA_OF_A, CER_OF_B, DPR_1};
use super::{Case, Done, I, NEW, NOTHING, R, Standing, Told, check_each, check_runs};
use dm_peer::State;

/// On a new connection: it is closed.
const ON_NEW: &[Done<'static>] = &[Done::Close(NEW)];

const WAITING: [Standing<'static>; 5] = [
    (
        State::Closed,
        &[(Told::Hears(NEW, BROKEN), ON_NEW, State::Closed)],
    ),
    (
        State::WaitConnAck,
        &[
            (Told::Hears(NEW, BROKEN), ON_NEW, State::WaitConnAck),
            (Told::Hears(I, BROKEN), &[], State::WaitConnAck),
        ],
    ),
    (
        State::WaitICea,
        &[
            (Told::Hears(NEW, BROKEN), ON_NEW, State::WaitICea),
            (Told::Hears(I, BROKEN), &[Done::Close(I)], State::Closed),
        ],
    ),
    (
        State::WaitConnAckElect,
        &[
            (Told::Hears(NEW, BROKEN), ON_NEW, State::WaitConnAckElect),
            (Told::Hears(I, BROKEN), &[], State::WaitConnAckElect),
            (
                Told::Hears(R, BROKEN),
                &[Done::Close(R)],
                State::WaitConnAck,
            ),
        ],
    ),
    (
        State::WaitReturns,
        &[
            (Told::Hears(NEW, BROKEN), ON_NEW, State::WaitReturns),
            (
                Told::Hears(I, BROKEN),
                &[Done::Close(I), Done::Send(R, CEA_OF_A)],
                State::ROpen,
            ),
            (Told::Hears(R, BROKEN), &[Done::Close(R)], State::WaitICea),
        ],
    ),
];

const OPEN: [Standing<'static>; 3] = [
    (
        State::ROpen,
        &[
            (Told::Hears(NEW, BROKEN), ON_NEW, State::ROpen),
            (Told::Hears(R, BROKEN), &[Done::Close(R)], State::Closed),
        ],
    ),
    (
        State::IOpen,
        &[
            (Told::Hears(NEW, BROKEN), ON_NEW, State::IOpen),
            (Told::Hears(I, BROKEN), &[Done::Close(I)], State::Closed),
        ],
    ),
    (
        State::Closing,
        &[
            (Told::Hears(NEW, BROKEN), ON_NEW, State::Closing),
            (Told::Hears(I, BROKEN), &[Done::Close(I)], State::Closed),
        ],
    ),
];

#[test]
fn broken_octets_while_waiting(rt: HostRuntime) {
    check_each(&rt, &WAITING);
}

#[test]
fn broken_octets_on_an_open_connection(rt: HostRuntime) {
    check_each(&rt, &OPEN);
}

/// Closing, entered from R-Open.
const CLOSING: [Case<'static>; 4] = [
    (
        Told::Hears(R, CER_OF_B),
        &[Done::Send(R, CEA_OF_A)],
        State::ROpen,
    ),
    (Told::Stop, &[Done::Send(R, DPR_1)], State::Closing),
    (Told::Hears(NEW, BROKEN), ON_NEW, State::Closing),
    (Told::Hears(R, BROKEN), &[Done::Close(R)], State::Closed),
];

#[test]
fn broken_octets_on_an_accepted_connection(rt: HostRuntime) {
    check_runs(&rt, &[(b"a.example", b"b.example", 4, &CLOSING, NOTHING)]);
}
