//! Histories: each function of dm_history's is the call of a peer that it names, and a run tells a peer all events.

use super::octets::{CEA_OF_A, CER_OF_B, SUBMITTED};
use super::{Done, NEW, R, are_done, config, octets_of, peer};
use dm_history::calls::{begin, begin_anew, go_on};
use dm_history::running::run;
use dm_peer::{Actions, Conn, Event, PeerFault, State};
use std::process::Abort;

/// Whether a.example accepts the CER of b.example in a history that begins with it, its state then, and its state
/// where the history begins anew.
fn told_a_cer(rt: &(impl Abort + AllocGlobal)) -> (bool, State, State) {
    let config = config(rt, b"a.example", b"b.example", 4).expect(rt, "a configuration");
    let mut peer = begin(config);
    let octets = octets_of(rt, CER_OF_B);
    let accepts = match go_on(
        &mut peer,
        rt.alloc(),
        Event::Arrived(Conn(R), octets.as_slice()),
    ) {
        Ok(actions) => are_done(rt, actions.as_slice(), &[Done::Send(R, CEA_OF_A)]),
        Err(_) => false,
    };
    drop(octets);
    let opened = peer.state();
    begin_anew(&mut peer);
    let end = (accepts, opened, peer.state());
    drop(peer);
    end
}

#[test]
fn histories_begin_go_on_and_begin_anew(rt: HostRuntime) {
    assert_eq!(rt; told_a_cer(&rt), (true, State::ROpen, State::Closed));
}

/// What comes of an event: all that is done, or the rule that refuses it.
type Expected<'a> = Result<&'a [Done<'a>], PeerFault>;

fn is_expected(
    rt: &(impl Abort + AllocGlobal),
    reply: &Result<Actions, PeerFault>,
    expected: &Expected<'_>,
) -> bool {
    match (reply, expected) {
        (Ok(actions), Ok(done)) => are_done(rt, actions.as_slice(), done),
        (Err(fault), Err(other)) => fault == other,
        _ => false,
    }
}

fn are_expected(
    rt: &(impl Abort + AllocGlobal),
    replies: &[Result<Actions, PeerFault>],
    expected: &[Expected<'_>],
) -> bool {
    if replies.len() != expected.len() {
        return false;
    }
    for (reply, other) in replies.iter().zip(expected) {
        if !is_expected(rt, reply, other) {
            return false;
        }
    }
    true
}

/// An accepted connection, a Start that is refused, a message up and one down, the end, and one too late.
const REPLIES: [Expected<'static>; 6] = [
    Ok(&[Done::Send(R, CEA_OF_A)]),
    Err(PeerFault::NotClosed),
    Ok(&[Done::Up(SUBMITTED)]),
    Ok(&[Done::Send(R, SUBMITTED)]),
    Ok(&[Done::Close(R)]),
    Err(PeerFault::NotOpen),
];

/// What the run is told.
fn events<'a>(cer: &'a [u8], message: &'a [u8]) -> [Event<'a>; 6] {
    [
        Event::Arrived(Conn(R), cer),
        Event::Start(Conn(NEW)),
        Event::Arrived(Conn(R), message),
        Event::Submit(message),
        Event::Gone(Conn(R)),
        Event::Submit(message),
    ]
}

/// Whether that comes of these events in one run, and the state then.
fn ran(rt: &(impl Abort + AllocGlobal)) -> (bool, State) {
    let mut peer = peer(rt, b"a.example", b"b.example", 4);
    let cer = octets_of(rt, CER_OF_B);
    let message = octets_of(rt, SUBMITTED);
    let events = events(cer.as_slice(), message.as_slice());
    let report = run(&mut peer, rt.alloc(), &events);
    let is_right = are_expected(rt, report.replies.as_slice(), &REPLIES);
    drop(report);
    drop(message);
    drop(cer);
    let end = (is_right, peer.state());
    drop(peer);
    end
}

#[test]
fn a_run_replies_to_each_event(rt: HostRuntime) {
    assert_eq!(rt; ran(&rt), (true, State::Closed));
}
