//! Peers over octets. A twin, of which no request is refused, is told the same.
use crate::each::each;
use crate::rows::*;
use dm_dict::Ip;
use dm_peer::{Action, Actions, Cause, Config, ConfigFault, Conn, Event, Node, Peer, PeerFault};
use dm_refusal::{
    End, Subject, end_of_answered_call, end_of_repeated_call, refuse_nth_request,
    was_request_refused_and_stop, worse_end,
};
use std::alloc::Global;
use std::process::Abort;

/// What a peer is told, with octets in hexadecimal digits.
#[derive(Clone, Copy)]
enum Told<'a> {
    Start(u64),
    Stop,
    Timeout,
    Tick,
    Ack(u64),
    Nack(u64),
    Hears(u64, &'a str),
    Gone(u64),
    Submit(&'a str),
}

/// The digits of what a peer is told.
fn digits<'a>(told: Told<'a>) -> &'a str {
    match told {
        Told::Hears(_, digits) | Told::Submit(digits) => digits,
        _ => "",
    }
}

fn event<'a>(told: Told<'_>, octets: &'a [u8]) -> Event<'a> {
    match told {
        Told::Start(conn) => Event::Start(Conn(conn)),
        Told::Stop => Event::Stop(Cause::Rebooting),
        Told::Timeout => Event::Timeout,
        Told::Tick => Event::Tick,
        Told::Ack(conn) => Event::Ack(Conn(conn)),
        Told::Nack(conn) => Event::Nack(Conn(conn)),
        Told::Hears(conn, _) => Event::Arrived(Conn(conn), octets),
        Told::Gone(conn) => Event::Gone(Conn(conn)),
        Told::Submit(_) => Event::Submit(octets),
    }
}

/// A node, its peer, its application, and what it is told. What it sends then tells the number of its next request.
type Row<'a> = (&'a [u8], &'a [u8], u32, &'a [Told<'a>]);

fn is_same_action(one: &Action, other: &Action) -> bool {
    match (one, other) {
        (Action::Connect(one), Action::Connect(other)) => one == other,
        (Action::Close(one), Action::Close(other)) => one == other,
        (Action::Send(one, octets), Action::Send(other, others)) => {
            one == other && octets.as_slice() == others.as_slice()
        }
        (Action::Up(octets), Action::Up(others)) => octets.as_slice() == others.as_slice(),
        _ => false,
    }
}

pub fn are_same(actions: &[Action], others: &[Action]) -> bool {
    if actions.len() != others.len() {
        return false;
    }
    for (one, other) in actions.iter().zip(others) {
        if !is_same_action(one, other) {
            return false;
        }
    }
    true
}

/// Whether both answered the same, and none of them want of memory.
fn is_same_answer(one: Result<Actions, PeerFault>, other: Result<Actions, PeerFault>) -> bool {
    match (one, other) {
        (Ok(actions), Ok(others)) => are_same(actions.as_slice(), others.as_slice()),
        (Err(one), Err(other)) => one == other && one != PeerFault::NoMemory,
        _ => false,
    }
}

/// Whether both peers tell the same of themselves.
fn is_same(one: &Peer, other: &Peer) -> bool {
    one.state() == other.state()
        && one.initiated() == other.initiated()
        && one.accepted() == other.accepted()
        && one.is_open() == other.is_open()
        && one.awaited(257) == other.awaited(257)
        && one.awaited(280) == other.awaited(280)
        && one.awaited(282) == other.awaited(282)
}

/// Both are told with memory, and do the same.
fn tell_both(alloc: Global, peer: &mut Peer, twin: &mut Peer, told: Event<'_>) -> bool {
    let first = peer.on(alloc, told);
    let second = twin.on(alloc, told);
    is_same_answer(first, second) && is_same(peer, twin)
}

/// The peer is told with the nth request refused, and once more where memory was wanted. The twin is told with memory.
fn tell(alloc: Global, peer: &mut Peer, twin: &mut Peer, told: Event<'_>, nth: u32) -> End {
    refuse_nth_request(alloc, nth);
    let first = peer.on(alloc, told);
    let refused = was_request_refused_and_stop(alloc);
    match first {
        Err(PeerFault::NoMemory) => {
            let same = is_same(peer, twin);
            end_of_repeated_call(refused, same && tell_both(alloc, peer, twin, told))
        }
        first => {
            let second = twin.on(alloc, told);
            end_of_answered_call(
                refused,
                is_same_answer(first, second) && is_same(peer, twin),
            )
        }
    }
}

/// One after the other, the one of this place with the nth request refused.
fn tell_all(
    rt: &(impl Abort + AllocGlobal),
    peer: &mut Peer,
    twin: &mut Peer,
    telling: &Telling<'_>,
    nth: u32,
) -> End {
    let mut end = End::Whole;
    for (at, told) in telling.told.iter().enumerate() {
        let octets = octets(rt, digits(*told));
        let nth = if at == telling.place { nth } else { 0 };
        let event = event(*told, octets.as_slice());
        end = worse_end(end, tell(rt.alloc(), peer, twin, event, nth));
    }
    end
}

/// A node of realm example, address 127.0.0.1, vendor 0 and product dmpeer.
pub fn node(rt: &(impl Abort + AllocGlobal), host: &[u8], application: u32) -> Node {
    let alloc = rt.alloc();
    let host = Vec::from_slice(alloc, host).expect(rt, "memory");
    let realm = Vec::from_slice(alloc, b"example").expect(rt, "memory");
    let addresses = Vec::from_slice(alloc, &[Ip::V4([127, 0, 0, 1])]).expect(rt, "memory");
    let product = String::from_str(alloc, "dmpeer").expect(rt, "memory");
    let auth = Vec::from_slice(alloc, &[application]).expect(rt, "memory");
    Node::new(host, realm, addresses, 0, product, auth, Vec::new(alloc)).expect(rt, "a node")
}

/// The configuration of a peer of this host and application for the other host.
pub fn config(
    rt: &(impl Abort + AllocGlobal),
    host: &[u8],
    other: &[u8],
    application: u32,
) -> Config {
    let other = Vec::from_slice(rt.alloc(), other).expect(rt, "memory");
    let node = node(rt, host, application);
    Config::new(rt.alloc(), node, other, 1).expect(rt, "a configuration")
}

/// A closed peer of this host and application, configured for the other host.
pub fn peer(rt: &(impl Abort + AllocGlobal), host: &[u8], other: &[u8], application: u32) -> Peer {
    Peer::new(config(rt, host, other, application))
}

/// What a peer is told, and the place of what is refused.
#[derive(Clone, Copy)]
struct Telling<'a> {
    host: &'a [u8],
    other: &'a [u8],
    application: u32,
    told: &'a [Told<'a>],
    place: usize,
}

/// How it ends beside a twin, which is told the same with memory.
fn end_beside(
    rt: &(impl Abort + AllocGlobal),
    one: &mut Peer,
    telling: &Telling<'_>,
    nth: u32,
) -> End {
    let mut twin = peer(rt, telling.host, telling.other, telling.application);
    let end = tell_all(rt, one, &mut twin, telling, nth);
    drop(twin);
    end
}

impl<R: Abort + AllocGlobal> Subject<R> for Telling<'_> {
    fn end_when_refused(&self, rt: &R, nth: u32) -> End {
        let mut one = peer(rt, self.host, self.other, self.application);
        let end = end_beside(rt, &mut one, self, nth);
        drop(one);
        end
    }
}

/// Each place of each row.
fn check_rows(rt: &(impl Abort + AllocGlobal), rows: &[Row<'_>]) {
    for (host, other, application, told) in rows {
        for place in 0..told.len() {
            let telling = Telling {
                host,
                other,
                application: *application,
                told,
                place,
            };
            each(rt, &telling, "on");
        }
    }
}

/// Capabilities that are refused, for their host, their application and their security.
const REFUSED: [Row<'static>; 3] = [
    (
        b"B.example",
        b"c.example",
        4,
        &[Told::Hears(7, CER), Told::Start(8), Told::Ack(8)],
    ),
    (
        b"B.example",
        b"a.example",
        5,
        &[Told::Hears(7, CER), Told::Start(8), Told::Ack(8)],
    ),
    (
        b"B.example",
        b"a.example",
        4,
        &[Told::Hears(7, SECURE_CER), Told::Start(8), Told::Ack(8)],
    ),
];

const OPEN: [Told<'static>; 12] = [
    Told::Hears(7, CER),
    Told::Hears(7, BARE_DWR),
    Told::Submit(SUBMITTED),
    Told::Hears(7, SUBMITTED),
    Told::Submit(SUBMITTED_BITS),
    Told::Hears(7, SUBMITTED_BITS),
    Told::Hears(7, BARE_DPR),
    Told::Hears(7, DWR_5),
    Told::Tick,
    Told::Stop,
    Told::Hears(7, DPR_5),
    Told::Timeout,
];

const ASKED_TO_STOP: [Told<'static>; 5] = [
    Told::Hears(7, CER),
    Told::Tick,
    Told::Hears(7, DPR_5),
    Told::Start(9),
    Told::Gone(7),
];

const STARTED: [Told<'static>; 8] = [
    Told::Start(0),
    Told::Ack(0),
    Told::Hears(0, CEA_1),
    Told::Tick,
    Told::Hears(0, SUBMITTED),
    Told::Submit(SUBMITTED),
    Told::Stop,
    Told::Gone(0),
];

/// Bad watchdogs answered, messages submitted and handed up, and requests of its own.
const TALKING: [Row<'static>; 3] = [
    (b"B.example", b"a.example", 4, &OPEN),
    (b"B.example", b"a.example", 4, &ASKED_TO_STOP),
    (b"a.example", b"b.example", 4, &STARTED),
];

/// A crossing whose connect comes about, one whose doesn't, and one that is won.
const CROSSED: [Row<'static>; 3] = [
    (
        b"a.example",
        b"b.example",
        4,
        &[
            Told::Start(0),
            Told::Hears(9, CER_OF_B),
            Told::Hears(8, CER_OF_C),
            Told::Ack(0),
            Told::Gone(0),
            Told::Tick,
        ],
    ),
    (
        b"a.example",
        b"b.example",
        4,
        &[
            Told::Start(0),
            Told::Hears(8, BARE_CER),
            Told::Hears(9, CER_OF_B),
            Told::Nack(0),
            Told::Tick,
        ],
    ),
    (
        b"B.example",
        b"a.example",
        4,
        &[
            Told::Start(0),
            Told::Ack(0),
            Told::Hears(8, BARE_CER),
            Told::Hears(9, CER),
            Told::Stop,
        ],
    ),
];

#[test]
fn refused_capabilities(rt: HostRuntime) {
    check_rows(&rt, &REFUSED);
}

#[test]
fn open_peers(rt: HostRuntime) {
    check_rows(&rt, &TALKING);
}

#[test]
fn crossings(rt: HostRuntime) {
    check_rows(&rt, &CROSSED);
}

/// A configuration of a host for another. Its parts are dropped where memory is wanted.
#[derive(Clone, Copy)]
struct Hosts<'a>(&'a [u8], &'a [u8]);

/// Whether the configuration is of the one host for the other.
fn is_as_expected(made: &Result<Config, ConfigFault>, hosts: &Hosts<'_>) -> bool {
    match made {
        Ok(config) => config.node().host() == hosts.0 && config.peer_host() == hosts.1,
        Err(_) => false,
    }
}

/// Whether a request was refused, whether the configuration is as it should be, and why there is none.
type Configured = (bool, bool, Option<ConfigFault>);

/// A configuration with the nth request refused.
fn configure(rt: &(impl Abort + AllocGlobal), hosts: &Hosts<'_>, nth: u32) -> Configured {
    let node = node(rt, hosts.0, 4);
    let other = Vec::from_slice(rt.alloc(), hosts.1).expect(rt, "memory");
    refuse_nth_request(rt.alloc(), nth);
    let made = Config::new(rt.alloc(), node, other, 1);
    let refused = was_request_refused_and_stop(rt.alloc());
    let right = is_as_expected(&made, hosts);
    (refused, right, made.err())
}

impl<R: Abort + AllocGlobal> Subject<R> for Hosts<'_> {
    fn end_when_refused(&self, rt: &R, nth: u32) -> End {
        let (refused, right, fault) = configure(rt, self, nth);
        match fault {
            None => end_of_answered_call(refused, right),
            Some(ConfigFault::NoMemory) => {
                let (_, right, _) = configure(rt, self, 0);
                end_of_repeated_call(refused, right)
            }
            Some(_) => End::Fault,
        }
    }
}

fn check_configured(rt: &(impl Abort + AllocGlobal), host: &[u8], other: &[u8]) {
    each(rt, &Hosts(host, other), "Config::new");
}

#[test]
fn configurations(rt: HostRuntime) {
    check_configured(&rt, b"a.example", b"b.example");
}
