//! What the own rows and rules beside the state table do, with octets.

use super::octets::*;
use super::{
    ACKED, Case, Done, I, NEW, NOTHING, OPENED, R, Run, STARTED, Standing, Told, check_each,
    check_runs,
};
use dm_peer::State;

/// The CEA that is sent to b.example.
const YIELDS: &[Done<'static>] = &[Done::Close(I), Done::Send(R, CEA_OF_A)];

/// The first message on a new connection: a good CER, one that is refused, and another message.
const FIRST_IN_CLOSED: [Case<'static>; 3] = [
    (
        Told::Hears(NEW, CER_OF_B),
        &[Done::Send(NEW, CEA_OF_A)],
        State::ROpen,
    ),
    (
        Told::Hears(NEW, BARE_CER),
        &[Done::Send(NEW, NO_HOST), Done::Close(NEW)],
        State::Closed,
    ),
    (
        Told::Hears(NEW, DWR_OF_B),
        &[Done::Close(NEW)],
        State::Closed,
    ),
];

const FIRST_IN_WAIT_CONN_ACK: [Case<'static>; 3] = [
    (Told::Hears(NEW, CER_OF_B), &[], State::WaitConnAckElect),
    (
        Told::Hears(NEW, BARE_CER),
        &[Done::Send(NEW, NO_HOST), Done::Close(NEW)],
        State::WaitConnAck,
    ),
    (
        Told::Hears(NEW, CEA_1),
        &[Done::Close(NEW)],
        State::WaitConnAck,
    ),
];

const FIRST_IN_WAIT_I_CEA: [Case<'static>; 3] = [
    (Told::Hears(NEW, CER_OF_B), &[], State::WaitReturns),
    (
        Told::Hears(NEW, BARE_CER),
        &[Done::Send(NEW, NO_HOST), Done::Close(NEW)],
        State::WaitICea,
    ),
    (
        Told::Hears(NEW, SUBMITTED),
        &[Done::Close(NEW)],
        State::WaitICea,
    ),
];

/// Elsewhere the connection is closed, and what came on it isn't read.
const FIRST: [Standing<'static>; 8] = [
    (State::Closed, &FIRST_IN_CLOSED),
    (State::WaitConnAck, &FIRST_IN_WAIT_CONN_ACK),
    (State::WaitICea, &FIRST_IN_WAIT_I_CEA),
    (
        State::WaitConnAckElect,
        &[(
            Told::Hears(NEW, CER_OF_B),
            &[Done::Close(NEW)],
            State::WaitConnAckElect,
        )],
    ),
    (
        State::WaitReturns,
        &[(
            Told::Hears(NEW, CER_OF_B),
            &[Done::Close(NEW)],
            State::WaitReturns,
        )],
    ),
    (
        State::ROpen,
        &[(
            Told::Hears(NEW, CER_OF_B),
            &[Done::Close(NEW)],
            State::ROpen,
        )],
    ),
    (
        State::IOpen,
        &[(
            Told::Hears(NEW, CER_OF_B),
            &[Done::Close(NEW)],
            State::IOpen,
        )],
    ),
    (
        State::Closing,
        &[(
            Told::Hears(NEW, CER_OF_B),
            &[Done::Close(NEW)],
            State::Closing,
        )],
    ),
];

#[test]
fn first_messages(rt: HostRuntime) {
    check_each(&rt, &FIRST);
}

/// The awaited CEA: its code decides, from 2000 to 2999; a bad one is no success.
const AWAITED_CEA: [Case<'static>; 6] = [
    (Told::Hears(I, CEA_1), &[], State::IOpen),
    (Told::Hears(I, CEA_OF_2999), &[], State::IOpen),
    (
        Told::Hears(I, CEA_OF_3000),
        &[Done::Close(I)],
        State::Closed,
    ),
    (
        Told::Hears(I, CEA_OF_1999),
        &[Done::Close(I)],
        State::Closed,
    ),
    (Told::Hears(I, BARE_CEA), &[Done::Close(I)], State::Closed),
    // Another message: every connection is closed.
    (Told::Hears(I, DWR_OF_B), &[Done::Close(I)], State::Closed),
];

/// Before the Ack a message on I is dropped, and its end counts as a Nack.
const BEFORE_THE_ACK: [Case<'static>; 3] = [
    (Told::Hears(I, CEA_1), &[], State::WaitConnAck),
    (Told::Gone(I), &[], State::Closed),
    (Told::Nack(I), &[], State::Closed),
];

const BEFORE_THE_ACK_WITH_R: [Case<'static>; 5] = [
    (Told::Hears(I, CEA_1), &[], State::WaitConnAckElect),
    (Told::Gone(I), &[Done::Send(R, CEA_OF_A)], State::ROpen),
    (Told::Nack(I), &[Done::Send(R, CEA_OF_A)], State::ROpen),
    (
        Told::Hears(R, DWR_OF_B),
        &[Done::Close(R)],
        State::WaitConnAck,
    ),
    (Told::Gone(R), &[Done::Close(R)], State::WaitConnAck),
];

const RETURNS: [Case<'static>; 5] = [
    (Told::Hears(I, CEA_1), &[Done::Close(R)], State::IOpen),
    (Told::Hears(I, CEA_2), &[], State::WaitReturns),
    (Told::Hears(I, DWR_OF_B), YIELDS, State::ROpen),
    (Told::Gone(I), YIELDS, State::ROpen),
    (Told::Hears(R, DWR_OF_B), &[Done::Close(R)], State::WaitICea),
];

const WAITING: [Standing<'static>; 4] = [
    (State::WaitICea, &AWAITED_CEA),
    (State::WaitConnAck, &BEFORE_THE_ACK),
    (State::WaitConnAckElect, &BEFORE_THE_ACK_WITH_R),
    (State::WaitReturns, &RETURNS),
];

#[test]
fn messages_while_waiting(rt: HostRuntime) {
    check_each(&rt, &WAITING);
}

/// On the open connection: a CER closes it, bad requests are answered, good ones too, and a message goes up.
const OPEN: [Case<'static>; 7] = [
    (Told::Hears(I, CER_OF_B), &[Done::Close(I)], State::Closed),
    (Told::Hears(I, BARE_CER), &[Done::Close(I)], State::Closed),
    (
        Told::Hears(I, BARE_DPR),
        &[Done::Send(I, BAD_DPR)],
        State::IOpen,
    ),
    (
        Told::Hears(I, DWR_OF_B),
        &[Done::Send(I, DWA_OF_A)],
        State::IOpen,
    ),
    (
        Told::Hears(I, DPR_OF_B),
        &[Done::Send(I, DPA_OF_A)],
        State::Closing,
    ),
    (
        Told::Hears(I, SUBMITTED),
        &[Done::Up(SUBMITTED)],
        State::IOpen,
    ),
    (Told::Gone(I), &[Done::Close(I)], State::Closed),
];

const CLOSING: [Case<'static>; 8] = [
    (
        Told::Hears(I, DPR_OF_B),
        &[Done::Send(I, DPA_OF_A)],
        State::Closing,
    ),
    (Told::Hears(I, DPA_2), &[Done::Close(I)], State::Closed),
    (Told::Hears(I, BARE_DPA), &[], State::Closing),
    (Told::Hears(I, DPA_3), &[], State::Closing),
    (Told::Hears(I, DWR_OF_B), &[], State::Closing),
    (Told::Hears(I, BARE_DPR), &[], State::Closing),
    (Told::Hears(I, SUBMITTED), &[], State::Closing),
    (Told::Timeout, &[Done::Close(I)], State::Closed),
];

const HELD: [Standing<'static>; 2] = [(State::IOpen, &OPEN), (State::Closing, &CLOSING)];

#[test]
fn messages_on_an_open_connection(rt: HostRuntime) {
    check_each(&rt, &HELD);
}

const TICKED: Case<'static> = (Told::Tick, &[Done::Send(I, DWR_2)], State::IOpen);

/// A DWA that fails its check is dropped, and its number stays.
const BAD_WATCHDOG: [Case<'static>; 5] = [
    STARTED,
    ACKED,
    OPENED,
    TICKED,
    (Told::Hears(I, BARE_DWA), &[], State::IOpen),
];
/// So is a DPA.
const BAD_DISCONNECT: [Case<'static>; 5] = [
    STARTED,
    ACKED,
    OPENED,
    (Told::Stop, &[Done::Send(I, DPR_2)], State::Closing),
    (Told::Hears(I, BARE_DPA), &[], State::Closing),
];
/// Three ticks without a message end the connection; a message begins the count anew.
const TICKS: [Case<'static>; 10] = [
    STARTED,
    ACKED,
    OPENED,
    TICKED,
    (Told::Tick, &[], State::IOpen),
    (
        Told::Hears(I, SUBMITTED),
        &[Done::Up(SUBMITTED)],
        State::IOpen,
    ),
    (Told::Tick, &[Done::Send(I, DWR_3)], State::IOpen),
    (Told::Tick, &[], State::IOpen),
    // Nothing awaits it any more: the number is 3 now.
    (Told::Hears(I, DWA_2), &[], State::IOpen),
    (Told::Tick, &[Done::Close(I)], State::Closed),
];
/// B.example wins: it accepts, and its own connection is closed; the number of its CER goes with it.
const WON: [Case<'static>; 3] = [
    (Told::Start(I), &[Done::Connect(I)], State::WaitConnAck),
    (Told::Hears(R, CER), &[], State::WaitConnAckElect),
    (
        Told::Ack(I),
        &[
            Done::Send(I, CER_OF_WINNER),
            Done::Close(I),
            Done::Send(R, ACCEPTED),
        ],
        State::ROpen,
    ),
];

const RUNS: [Run<'static>; 4] = [
    (
        b"a.example",
        b"b.example",
        4,
        &BAD_WATCHDOG,
        [None, Some(2), None],
    ),
    (
        b"a.example",
        b"b.example",
        4,
        &BAD_DISCONNECT,
        [None, None, Some(2)],
    ),
    (b"a.example", b"b.example", 4, &TICKS, NOTHING),
    (b"B.example", b"a.example", 4, &WON, NOTHING),
];

#[test]
fn watchdogs_and_elections(rt: HostRuntime) {
    check_runs(&rt, &RUNS);
}
