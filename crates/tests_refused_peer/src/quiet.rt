//! Calls that take no memory, of the machine, peers and worlds: each request is refused, and none is made.
use crate::peers::{config, node, peer};
use crate::rows::*;
use crate::scripts::{list_of, script};
use dm_peer::{Cause, Config, Conn, Core, Event, Input, Peer, PeerFault, Refusal, State, step};
use dm_refusal::{refuse_each_request, was_request_made_and_stop};
use dm_replay::Script;
use dm_world::{Effect, Happening, Side, World, WorldFault};
use std::alloc::Global;
use std::process::Abort;

/// The answers are right, and no request was made for them.
pub fn check_quiet(rt: &(impl Abort + AllocGlobal), right: bool) {
    let asked = was_request_made_and_stop(rt.alloc());
    assert!(rt; !asked, "a request was made");
    assert!(rt; right, "another answer");
}

/// Whether a new core that is started is as it should be, and refuses a second start.
fn is_started(core: &Core) -> bool {
    match step(core, Input::Start(Conn(1)), false) {
        Ok((next, commands)) => {
            commands.len() == 1
                && next.state() == State::WaitConnAck
                && next.initiated() == Some(Conn(1))
                && next.accepted().is_none()
                && next.count() == 0
                && step(&next, Input::Start(Conn(2)), false).err() == Some(Refusal::NotClosed)
        }
        Err(_) => false,
    }
}

#[test]
fn cores_step(rt: HostRuntime) {
    refuse_each_request(rt.alloc());
    let core = Core::new();
    let right = is_started(&core) && core.state() == State::Closed;
    check_quiet(&rt, right);
}

/// Whether the event is taken, and the peer is in the state then.
fn goes_to(alloc: Global, peer: &mut Peer, event: Event<'_>, state: State) -> bool {
    peer.on(alloc, event).is_ok() && peer.state() == state
}

fn refuses(alloc: Global, peer: &mut Peer, event: Event<'_>, fault: PeerFault) -> bool {
    peer.on(alloc, event).err() == Some(fault)
}

/// A start whose connect doesn't come about, one whose time is over, and one that is undone.
fn starts(alloc: Global, peer: &mut Peer) -> bool {
    let nacked = goes_to(alloc, peer, Event::Start(Conn(1)), State::WaitConnAck)
        && goes_to(alloc, peer, Event::Nack(Conn(1)), State::Closed);
    let timed = goes_to(alloc, peer, Event::Start(Conn(2)), State::WaitConnAck)
        && refuses(alloc, peer, Event::Start(Conn(3)), PeerFault::NotClosed)
        && goes_to(alloc, peer, Event::Timeout, State::Closed);
    let refused = refuses(alloc, peer, Event::Stop(Cause::Busy), PeerFault::NotOpen);
    let again = goes_to(alloc, peer, Event::Start(Conn(4)), State::WaitConnAck);
    peer.reset();
    nacked && timed && refused && again && peer.state() == State::Closed
}

/// A peer that is made of its configuration, which compares hosts, holds no connection.
#[test]
fn peers_start(rt: HostRuntime) {
    let node = node(&rt, b"a.example", 4);
    let other = Vec::from_slice(rt.alloc(), b"b.example").expect(&rt, "memory");
    let config = Config::new(rt.alloc(), node, other, 1).expect(&rt, "a configuration");
    refuse_each_request(rt.alloc());
    let named = config.node().host() == b"a.example".as_slice()
        && config.peer_host() == b"b.example".as_slice();
    let mut peer = Peer::new(config.comparing());
    let right = named
        && starts(rt.alloc(), &mut peer)
        && peer.initiated().is_none()
        && peer.accepted().is_none()
        && !peer.is_open()
        && peer.awaited(257).is_none();
    check_quiet(&rt, right);
    drop(peer);
}

/// A CEA of another number than the awaited one is dropped.
fn drops(rt: &(impl Abort + AllocGlobal), peer: &mut Peer, answer: &[u8]) {
    let heard = peer.on(rt.alloc(), Event::Arrived(Conn(0), answer));
    let right = match &heard {
        Ok(actions) => actions.is_empty() && peer.awaited(257) == Some(1),
        Err(_) => false,
    };
    check_quiet(rt, right && peer.state() == State::WaitICea);
    drop(heard);
}

#[test]
fn answers_are_dropped(rt: HostRuntime) {
    let answer = octets(&rt, CEA_2);
    let mut peer = peer(&rt, b"a.example", b"b.example", 4);
    let alloc = rt.alloc();
    let is_acked = goes_to(alloc, &mut peer, Event::Start(Conn(0)), State::WaitConnAck)
        && goes_to(alloc, &mut peer, Event::Ack(Conn(0)), State::WaitICea);
    assert!(&rt; is_acked);
    refuse_each_request(alloc);
    drops(&rt, &mut peer, answer.as_slice());
    drop(peer);
}

/// The host that a CEA names is compared with the peer's, and the connection is closed.
#[test]
fn hosts_are_compared(rt: HostRuntime) {
    let answer = octets(&rt, CEA_1);
    let mut peer = Peer::new(config(&rt, b"a.example", b"c.example", 4).comparing());
    let alloc = rt.alloc();
    let is_acked = goes_to(alloc, &mut peer, Event::Start(Conn(0)), State::WaitConnAck)
        && goes_to(alloc, &mut peer, Event::Ack(Conn(0)), State::WaitICea);
    assert!(&rt; is_acked);
    refuse_each_request(alloc);
    let heard = Event::Arrived(Conn(0), answer.as_slice());
    let right = goes_to(alloc, &mut peer, heard, State::Closed);
    check_quiet(&rt, right);
    drop(peer);
}

/// An open peer closes a new connection and doesn't read what came on it.
#[test]
fn new_connections_are_rejected(rt: HostRuntime) {
    let cer = octets(&rt, CER);
    let mut peer = peer(&rt, b"B.example", b"a.example", 4);
    let alloc = rt.alloc();
    let first = Event::Arrived(Conn(7), cer.as_slice());
    assert!(&rt; goes_to(alloc, &mut peer, first, State::ROpen));
    refuse_each_request(alloc);
    let second = Event::Arrived(Conn(8), cer.as_slice());
    let right = goes_to(alloc, &mut peer, second, State::ROpen)
        && peer.is_open()
        && goes_to(alloc, &mut peer, Event::Gone(Conn(7)), State::Closed)
        && goes_to(alloc, &mut peer, Event::Tick, State::Closed);
    check_quiet(&rt, right);
    drop(peer);
}

/// A CER has come to B, and its CEA is under way.
const ANSWERED: &str = "peer A b.example 4\npeer B a.example 4\nstart A\nack 0\ndeliver 0 B\n";

fn is_done(alloc: Global, world: &mut World, happening: &Happening) -> bool {
    world.apply(alloc, happening) == Ok(Effect::Done)
}

fn loses_and_restarts(alloc: Global, world: &mut World) -> bool {
    let told = world.agreed() && !world.quiet() && world.open_link().is_none();
    let states = world.peer(Side::A).state() == State::WaitICea
        && world.peer(Side::B).state() == State::ROpen;
    let missing = world.apply(alloc, &Happening::Ack(Conn(5))) == Err(WorldFault::NoLink);
    told && states
        && missing
        && is_done(alloc, world, &Happening::Lose(Conn(0), 50, 0))
        && is_done(alloc, world, &Happening::Timeout(Side::A))
        && is_done(alloc, world, &Happening::Restart(Side::B))
}

/// The world of the script, which is made without memory.
fn quiet_world(rt: &(impl Abort + AllocGlobal), text: &str) -> World {
    let Script { left, right, list } = script(rt, text.as_bytes());
    drop(list);
    refuse_each_request(rt.alloc());
    let made = World::new(rt.alloc(), left, right);
    check_quiet(rt, made.is_ok());
    made.expect(rt, "a world")
}

/// The same world after its script.
fn answered_world(rt: &(impl Abort + AllocGlobal)) -> World {
    let list = list_of(rt, ANSWERED);
    let mut world = quiet_world(rt, ANSWERED);
    let ran = world.run(rt.alloc(), list.as_slice()) == (3, None);
    drop(list);
    assert!(rt; ran);
    world
}

#[test]
fn worlds_lose_and_restart(rt: HostRuntime) {
    let mut world = answered_world(&rt);
    refuse_each_request(rt.alloc());
    let right = loses_and_restarts(rt.alloc(), &mut world);
    check_quiet(&rt, right);
    drop(world);
}

fn is_ignored(alloc: Global, world: &mut World, happening: &Happening) -> bool {
    world.apply(alloc, happening) == Ok(Effect::Ignored)
}

/// No connect is pending and nothing comes to B; A gives up, and its end drops the CEA that comes whole.
fn ignores_and_drops(alloc: Global, world: &mut World) -> bool {
    is_ignored(alloc, world, &Happening::Ack(Conn(0)))
        && is_ignored(alloc, world, &Happening::Nack(Conn(0)))
        && is_ignored(alloc, world, &Happening::Deliver(Conn(0), Side::B))
        && is_ignored(alloc, world, &Happening::Piece(Conn(0), Side::B, 3))
        && is_done(alloc, world, &Happening::Timeout(Side::A))
        && is_done(alloc, world, &Happening::Deliver(Conn(0), Side::A))
}

#[test]
fn worlds_drop_at_a_shut_end(rt: HostRuntime) {
    let mut world = answered_world(&rt);
    refuse_each_request(rt.alloc());
    let right = ignores_and_drops(rt.alloc(), &mut world);
    check_quiet(&rt, right);
    drop(world);
}
