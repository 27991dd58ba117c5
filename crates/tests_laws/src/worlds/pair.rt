//! Two peers beside those of a world, which are told the same: a world hands nothing up, and they do. What the world
//! ignores they aren't told, and after each happening they stand as the world's peers.
use super::delivery::judge_delivery;
use super::{Choice, LISTS_OF_A_WORLD, Stage, config, hosts};
use crate::search::{MOST, Seen, go_on};
use dm_peer::{Action, Cause, Conn, Event, Peer};
use dm_wire::{MessageRef, Octets};
use dm_world::{Effect, Happening, Side};
use std::process::Abort;

/// What may happen: a happening of a world, or a Submit of a message by its number.
#[derive(Clone, Copy, Debug)]
pub(super) enum Letter {
    Happens(Choice),
    Submit(Side, u8),
}

/// A peer beside that of the world, and what comes to it on the link.
#[derive(Drop)]
pub(super) struct Beside {
    pub peer: Peer,
    /// All that was sent to it, and how much of that is past.
    pub sent: Vec<Octets>,
    pub past: usize,
    /// Its end is shut.
    pub shut: bool,
    /// The link was lost: nothing more is sent to it.
    pub lost: bool,
    /// The numbers of the messages that the other side's user submitted, and of those that were handed up to its own.
    pub submitted: Vec<u32>,
    pub handed: Vec<u32>,
}

impl Beside {
    fn new(rt: &(impl Abort + AllocGlobal), peer: Peer) -> Beside {
        let alloc = rt.alloc();
        Beside {
            peer,
            sent: Vec::new(alloc),
            past: 0,
            shut: false,
            lost: false,
            submitted: Vec::new(alloc),
            handed: Vec::new(alloc),
        }
    }

    /// All begins anew.
    fn begin(&mut self) {
        self.peer.reset();
        self.sent.clear();
        self.past = 0;
        self.shut = false;
        self.lost = false;
        self.submitted.clear();
        self.handed.clear();
    }

    /// What is under way is lost.
    fn lose(&mut self) {
        self.past = self.sent.len();
        self.lost = true;
    }

    /// The side restarts.
    fn restart(&mut self) {
        self.peer.reset();
        self.shut = true;
    }
}

/// The number of the message that octets spell.
pub(super) fn number_of(octets: &[u8]) -> u32 {
    match MessageRef::read(octets) {
        Ok(message) => message.header.hop_id,
        Err(_) => 0,
    }
}

fn copy(rt: &(impl Abort + AllocGlobal), octets: &[u8]) -> Octets {
    Octets::from_slice(rt.alloc(), octets).expect(rt, "memory")
}

/// What the peer does is done: octets are under way to the other side unless the own end is shut.
fn take(rt: &(impl Abort + AllocGlobal), own: &mut Beside, other: &mut Beside, action: &Action) {
    match action {
        Action::Send(_, octets) => {
            if !own.shut && !other.lost {
                other
                    .sent
                    .push(copy(rt, octets.as_slice()))
                    .expect(rt, "memory");
            }
        }
        Action::Close(_) => own.shut = true,
        Action::Up(octets) => own
            .handed
            .push(number_of(octets.as_slice()))
            .expect(rt, "memory"),
        Action::Connect(_) => {}
    }
}

/// The peer is told the event, unless it refuses it.
fn tell(rt: &(impl Abort + AllocGlobal), own: &mut Beside, other: &mut Beside, event: Event<'_>) {
    if let Ok(actions) = own.peer.on(rt.alloc(), event) {
        for action in actions.as_slice() {
            take(rt, own, other, action);
        }
    }
}

/// What is next towards the peer: a message, or behind all of them the disconnect.
fn deliver(rt: &(impl Abort + AllocGlobal), own: &mut Beside, other: &mut Beside, conn: Conn) {
    let next = match own.sent.get(own.past) {
        Some(octets) => Some(copy(rt, octets.as_slice())),
        None => None,
    };
    own.past = own.past.wrapping_add(1);
    if own.shut {
        drop(next);
        return;
    }
    match next {
        Some(octets) => tell(rt, own, other, Event::Arrived(conn, octets.as_slice())),
        None => {
            tell(rt, own, other, Event::Gone(conn));
            own.shut = true;
        }
    }
}

/// A world, and the two peers beside its own.
#[derive(Drop)]
pub(super) struct Pair {
    pub stage: Stage,
    pub a: Beside,
    pub b: Beside,
}

/// A peer that stands as the world's in a new one.
fn peer_beside(rt: &(impl Abort + AllocGlobal), side: Side, winner: Side) -> Beside {
    let (host, other) = hosts(winner);
    let config = match side {
        Side::A => config(rt, host, other, 1),
        Side::B => config(rt, other, host, 100),
    };
    Beside::new(rt, Peer::new(config))
}

fn digits(number: u8) -> &'static [u8] {
    match number {
        1 => b"010000148000012c000000000000000100000001",
        _ => b"010000148000012c000000000000000200000002",
    }
}

/// The octets of a request of command 300 with this number, 1 or 2.
fn message(rt: &(impl Abort + AllocGlobal), number: u8) -> Vec<u8> {
    hex::decode(rt.alloc(), digits(number)).expect(rt, "digits")
}

/// Whether the Submit is done; the peer beside is told it then.
fn is_submitted(
    rt: &(impl Abort + AllocGlobal),
    stage: &mut Stage,
    own: &mut Beside,
    other: &mut Beside,
    (side, number): (Side, u8),
) -> bool {
    let octets = message(rt, number);
    let happening = Happening::Submit(side, copy(rt, octets.as_slice()));
    let done = stage.world.apply(rt.alloc(), &happening) == Ok(Effect::Done);
    drop(happening);
    if done {
        other.submitted.push(number.into()).expect(rt, "memory");
        tell(rt, own, other, Event::Submit(octets.as_slice()));
    }
    drop(octets);
    done
}

/// The peer of the side is told what the world did. The link is the first one.
fn follow(
    rt: &(impl Abort + AllocGlobal),
    own: &mut Beside,
    other: &mut Beside,
    choice: Choice,
    conn: Conn,
) {
    match choice {
        Choice::Start(_) => tell(rt, own, other, Event::Start(conn)),
        Choice::Ack(_) => tell(rt, own, other, Event::Ack(conn)),
        Choice::Stop(_) => tell(rt, own, other, Event::Stop(Cause::Rebooting)),
        Choice::Restart(_) => own.restart(),
        Choice::Deliver(_, _) => deliver(rt, own, other, conn),
        Choice::Lose(_) => {
            own.lose();
            other.lose();
        }
        Choice::Timeout(_) | Choice::Tick(_) | Choice::Nack(_) | Choice::Piece(_, _, _) => {
            assert!(rt; false, "not among these letters");
        }
    }
}

/// The side that a happening of these lists is told. A opens the link.
fn side_of(choice: Choice) -> Side {
    match choice {
        Choice::Start(side)
        | Choice::Stop(side)
        | Choice::Timeout(side)
        | Choice::Tick(side)
        | Choice::Restart(side)
        | Choice::Deliver(_, side)
        | Choice::Piece(_, side, _) => side,
        Choice::Ack(_) | Choice::Nack(_) | Choice::Lose(_) => Side::A,
    }
}

impl Pair {
    fn new(rt: &(impl Abort + AllocGlobal), winner: Side) -> Pair {
        Pair {
            stage: Stage::new(rt, winner),
            a: peer_beside(rt, Side::A, winner),
            b: peer_beside(rt, Side::B, winner),
        }
    }

    fn begin(&mut self, rt: &(impl Abort + AllocGlobal)) {
        self.stage.begin(rt);
        self.a.begin();
        self.b.begin();
    }

    fn is_happened(&mut self, rt: &(impl Abort + AllocGlobal), choice: Choice) -> bool {
        let conn = Conn(self.stage.first);
        let done = self.stage.is_done(rt.alloc(), choice);
        if done {
            match side_of(choice) {
                Side::A => follow(rt, &mut self.a, &mut self.b, choice, conn),
                Side::B => follow(rt, &mut self.b, &mut self.a, choice, conn),
            }
        }
        done
    }

    /// Whether it is done. The peers beside stand then as the world's.
    fn is_done(&mut self, rt: &(impl Abort + AllocGlobal), letter: Letter) -> bool {
        let done = match letter {
            Letter::Happens(choice) => self.is_happened(rt, choice),
            Letter::Submit(Side::A, number) => is_submitted(
                rt,
                &mut self.stage,
                &mut self.a,
                &mut self.b,
                (Side::A, number),
            ),
            Letter::Submit(Side::B, number) => is_submitted(
                rt,
                &mut self.stage,
                &mut self.b,
                &mut self.a,
                (Side::B, number),
            ),
        };
        assert!(rt; self.is_true(), "at {letter:?}");
        done
    }

    fn is_true(&self) -> bool {
        let world = &self.stage.world;
        world.peer(Side::A).state() == self.a.peer.state()
            && world.peer(Side::B).state() == self.b.peer.state()
    }
}

/// What is searched: the lists of which the law of deliveries is computed, behind some letters that each begins with.
pub(super) struct Deliveries {
    pub before: &'static [Letter],
    pub letters: &'static [Letter],
    pub longest: usize,
}

fn go_through(
    rt: &(impl Abort + AllocGlobal),
    pair: &mut Pair,
    search: &Deliveries,
    list: &[usize],
) {
    pair.begin(rt);
    for letter in search.before {
        let done = pair.is_done(rt, *letter);
        assert!(rt; done, "at {letter:?}");
    }
    for place in list {
        if let Some(letter) = search.letters.get(*place) {
            let _done = pair.is_done(rt, *letter);
        }
    }
}

fn next_done(
    rt: &(impl Abort + AllocGlobal),
    pair: &mut Pair,
    letters: &[Letter],
    from: usize,
) -> Option<usize> {
    for (place, letter) in letters.iter().enumerate() {
        if place >= from && pair.is_done(rt, *letter) {
            return Some(place);
        }
    }
    None
}

fn judged(
    rt: &(impl Abort + AllocGlobal),
    pair: &mut Pair,
    search: &Deliveries,
    list: &mut Vec<usize>,
    from: usize,
) -> Option<(bool, bool)> {
    go_through(rt, pair, search, list.as_slice());
    match next_done(rt, pair, search.letters, from) {
        Some(place) => {
            list.push(place).expect(rt, "memory");
            Some(judge_delivery(rt, pair))
        }
        None => None,
    }
}

/// Runs the next lists, on one world. Where the search goes on then.
fn run_some(
    rt: &(impl Abort + AllocGlobal),
    pair: &mut Pair,
    search: &Deliveries,
    list: &mut Vec<usize>,
    begin: usize,
    seen: &mut Seen,
) -> Option<usize> {
    let mut from = begin;
    for _ in 0..LISTS_OF_A_WORLD {
        let verdict = judged(rt, pair, search, list, from);
        if let Some(verdict) = verdict {
            seen.count(verdict);
        }
        match go_on(list, verdict.is_some(), search.longest) {
            Some(next) => from = next,
            None => return None,
        }
    }
    Some(from)
}

fn run_lists(
    rt: &(impl Abort + AllocGlobal),
    search: &Deliveries,
    list: &mut Vec<usize>,
    seen: &mut Seen,
) {
    let mut from = 0;
    for _ in 0..MOST {
        let mut pair = Pair::new(rt, Side::B);
        let next = run_some(rt, &mut pair, search, list, from, seen);
        drop(pair);
        match next {
            Some(next) => from = next,
            None => {
                seen.whole = true;
                break;
            }
        }
    }
}

/// What is seen of all lists of the search that have a letter.
pub(super) fn run_deliveries(rt: &(impl Abort + AllocGlobal), search: &Deliveries) -> Seen {
    let mut seen = Seen::new();
    let mut list = Vec::new(rt.alloc());
    run_lists(rt, search, &mut list, &mut seen);
    drop(list);
    seen
}
