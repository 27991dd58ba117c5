//! Peers over octets, as tables of cases: what a peer is told, what it does, and its state then.

mod broken;
mod comparing;
mod examples;
mod histories;
mod neighbours;
mod nodes;
mod octets;
mod own_rules;
mod porter;
mod rows;
mod templates;
mod unknown;

use dm_dict::Ip;
use dm_peer::{Action, Cause, Config, ConfigFault, Conn, Event, Node, Peer, State};
use octets::{CEA_1, CEA_OF_A, CER, CER_OF_B, DPR_2};
use std::process::Abort;

/// What a peer is told, with octets in hexadecimal digits.
#[derive(Clone, Copy, Debug)]
enum Told<'a> {
    Start(u64),
    Stop,
    Timeout,
    Tick,
    Ack(u64),
    Nack(u64),
    Hears(u64, &'a str),
    Gone(u64),
    Submit(&'a str),
}

/// What a peer does, with octets in hexadecimal digits.
#[derive(Clone, Copy, Debug)]
enum Done<'a> {
    Connect(u64),
    Send(u64, &'a str),
    Close(u64),
    Up(&'a str),
}

/// What a peer is told, all that it does, and its state then.
type Case<'a> = (Told<'a>, &'a [Done<'a>], State);

/// The initiated connection of the cases, which a.example opened.
const I: u64 = 0;
/// The accepted one, which b.example opened.
const R: u64 = 9;
/// One that the peer doesn't hold.
const NEW: u64 = 5;

const STARTED: Case<'static> = (Told::Start(I), &[Done::Connect(I)], State::WaitConnAck);

const ACKED: Case<'static> = (Told::Ack(I), &[Done::Send(I, CER)], State::WaitICea);

const OPENED: Case<'static> = (Told::Hears(I, CEA_1), &[], State::IOpen);

/// A node of realm example, address 127.0.0.1, vendor 0 and product dmpeer.
fn node(rt: &(impl Abort + AllocGlobal), host: &[u8], application: u32) -> Node {
    let alloc = rt.alloc();
    let mut addresses = Vec::new(alloc);
    addresses.push(Ip::V4([127, 0, 0, 1])).expect(rt, "memory");
    let host = Vec::from_slice(alloc, host).expect(rt, "memory");
    let realm = Vec::from_slice(alloc, b"example").expect(rt, "memory");
    let product = String::from_str(alloc, "dmpeer").expect(rt, "memory");
    let auth = Vec::from_slice(alloc, &[application]).expect(rt, "memory");
    Node::new(host, realm, addresses, 0, product, auth, Vec::new(alloc)).expect(rt, "a node")
}

/// A configuration with the first number 1.
fn config(
    rt: &(impl Abort + AllocGlobal),
    host: &[u8],
    peer: &[u8],
    application: u32,
) -> Result<Config, ConfigFault> {
    let peer = Vec::from_slice(rt.alloc(), peer).expect(rt, "memory");
    Config::new(rt.alloc(), node(rt, host, application), peer, 1)
}

fn peer(rt: &(impl Abort + AllocGlobal), host: &[u8], peer: &[u8], application: u32) -> Peer {
    Peer::new(config(rt, host, peer, application).expect(rt, "a configuration"))
}

/// The octets of the digits.
fn octets_of(rt: &(impl Abort + AllocGlobal), digits: &str) -> Vec<u8> {
    hex::decode(rt.alloc(), digits.as_bytes()).expect(rt, "digits")
}

/// The digits of what a peer is told.
fn digits<'a>(told: Told<'a>) -> &'a str {
    match told {
        Told::Hears(_, digits) | Told::Submit(digits) => digits,
        _ => "",
    }
}

fn event<'a>(told: Told<'_>, octets: &'a [u8]) -> Event<'a> {
    match told {
        Told::Start(conn) => Event::Start(Conn(conn)),
        Told::Stop => Event::Stop(Cause::Rebooting),
        Told::Timeout => Event::Timeout,
        Told::Tick => Event::Tick,
        Told::Ack(conn) => Event::Ack(Conn(conn)),
        Told::Nack(conn) => Event::Nack(Conn(conn)),
        Told::Hears(conn, _) => Event::Arrived(Conn(conn), octets),
        Told::Gone(conn) => Event::Gone(Conn(conn)),
        Told::Submit(_) => Event::Submit(octets),
    }
}

/// Whether these are the octets of the digits.
fn spells(rt: &(impl Abort + AllocGlobal), octets: &[u8], digits: &str) -> bool {
    octets == octets_of(rt, digits).as_slice()
}

fn is_done(rt: &(impl Abort + AllocGlobal), action: &Action, done: &Done<'_>) -> bool {
    match (action, done) {
        (Action::Connect(conn), Done::Connect(number)) => conn.0 == *number,
        (Action::Close(conn), Done::Close(number)) => conn.0 == *number,
        (Action::Send(conn, octets), Done::Send(number, digits)) => {
            conn.0 == *number && spells(rt, octets.as_slice(), digits)
        }
        (Action::Up(octets), Done::Up(digits)) => spells(rt, octets.as_slice(), digits),
        _ => false,
    }
}

fn are_done(rt: &(impl Abort + AllocGlobal), actions: &[Action], done: &[Done<'_>]) -> bool {
    if actions.len() != done.len() {
        return false;
    }
    for (action, done) in actions.iter().zip(done) {
        if !is_done(rt, action, done) {
            return false;
        }
    }
    true
}

/// Whether the peer does just this, told that.
fn does(rt: &(impl Abort + AllocGlobal), peer: &mut Peer, case: &Case<'_>) -> bool {
    let (told, done, state) = *case;
    let octets = octets_of(rt, digits(told));
    let is_right = match peer.on(rt.alloc(), event(told, octets.as_slice())) {
        Ok(actions) => are_done(rt, actions.as_slice(), done) && peer.state() == state,
        Err(_) => false,
    };
    drop(octets);
    is_right
}

/// The peer does all this, one after the other.
fn check(rt: &(impl Abort + AllocGlobal), peer: &mut Peer, cases: &[Case<'_>]) {
    for case in cases {
        assert!(rt; does(rt, peer, case), "at {case:?}");
    }
}

/// What b.example asks on the accepted connection.
const HEARS: Told<'static> = Told::Hears(R, CER_OF_B);

const TO_WAIT_CONN_ACK: &[Case<'static>] = &[STARTED];

const TO_WAIT_I_CEA: &[Case<'static>] = &[STARTED, ACKED];

const TO_WAIT_CONN_ACK_ELECT: &[Case<'static>] = &[STARTED, (HEARS, &[], State::WaitConnAckElect)];

const TO_WAIT_RETURNS: &[Case<'static>] = &[STARTED, ACKED, (HEARS, &[], State::WaitReturns)];

const TO_R_OPEN: &[Case<'static>] = &[(HEARS, &[Done::Send(R, CEA_OF_A)], State::ROpen)];

const TO_I_OPEN: &[Case<'static>] = &[STARTED, ACKED, OPENED];

const TO_CLOSING: &[Case<'static>] = &[
    STARTED,
    ACKED,
    OPENED,
    (Told::Stop, &[Done::Send(I, DPR_2)], State::Closing),
];

/// What brings a.example from Closed to the state.
fn way_to(state: State) -> &'static [Case<'static>] {
    match state {
        State::Closed => &[],
        State::WaitConnAck => TO_WAIT_CONN_ACK,
        State::WaitICea => TO_WAIT_I_CEA,
        State::WaitConnAckElect => TO_WAIT_CONN_ACK_ELECT,
        State::WaitReturns => TO_WAIT_RETURNS,
        State::ROpen => TO_R_OPEN,
        State::IOpen => TO_I_OPEN,
        State::Closing => TO_CLOSING,
    }
}

/// a.example, configured for b.example, in this state. It loses elections.
fn in_state(rt: &(impl Abort + AllocGlobal), state: State) -> Peer {
    let mut peer = peer(rt, b"a.example", b"b.example", 4);
    check(rt, &mut peer, way_to(state));
    peer
}

/// A state, and what a.example does there when it is told one thing.
type Standing<'a> = (State, &'a [Case<'a>]);

/// Each of the cases is tried on another peer in the state.
fn check_each(rt: &(impl Abort + AllocGlobal), rows: &[Standing<'_>]) {
    for (from, cases) in rows {
        for case in *cases {
            check_one(rt, *from, case);
        }
    }
}

fn check_one(rt: &(impl Abort + AllocGlobal), from: State, case: &Case<'_>) {
    let mut peer = in_state(rt, from);
    let done = does(rt, &mut peer, case);
    drop(peer);
    assert!(rt; done, "in {from:?} at {case:?}");
}

/// The host of a node, its peer and its application, what it is told and does, one after the other, and the numbers
/// that await answers of 257, 280 and 282 then.
type Run<'a> = (&'a [u8], &'a [u8], u32, &'a [Case<'a>], [Option<u32>; 3]);

/// No request awaits its answer.
const NOTHING: [Option<u32>; 3] = [None, None, None];

fn check_runs(rt: &(impl Abort + AllocGlobal), runs: &[Run<'_>]) {
    for run in runs {
        let (_, _, _, cases, awaited) = *run;
        assert!(rt; awaited_after(rt, run) == awaited, "at {cases:?}");
    }
}

fn awaited_after(rt: &(impl Abort + AllocGlobal), run: &Run<'_>) -> [Option<u32>; 3] {
    let (host, other, application, cases, _) = *run;
    let mut peer = peer(rt, host, other, application);
    check(rt, &mut peer, cases);
    let numbers = [peer.awaited(257), peer.awaited(280), peer.awaited(282)];
    drop(peer);
    numbers
}
