//! Two peers over octets and the links between them: a.example and b.example, each configured for the other.
mod clean;
mod delivery;
mod laws;
mod opening;
mod pair;
mod seen;
mod tests;

use crate::node::node;
use crate::search::{MOST, Seen, go_on};
use dm_world::{Cause, Config, Conn, Effect, Happening, Side, World};
use laws::Law;
use std::alloc::Global;
use std::process::Abort;

/// What may happen.
#[derive(Clone, Copy, Debug)]
enum Choice {
    Start(Side),
    Stop(Side),
    Timeout(Side),
    Tick(Side),
    Restart(Side),
    Ack(u64),
    Nack(u64),
    Deliver(u64, Side),
    /// So many octets.
    Piece(u64, Side, u32),
    /// All that is under way.
    Lose(u64),
}

/// The happening, with the links numbered from this one on.
fn happening(choice: Choice, first: u64) -> Happening {
    match choice {
        Choice::Start(side) => Happening::Start(side),
        Choice::Stop(side) => Happening::Stop(side, Cause::Rebooting),
        Choice::Timeout(side) => Happening::Timeout(side),
        Choice::Tick(side) => Happening::Tick(side),
        Choice::Restart(side) => Happening::Restart(side),
        Choice::Ack(link) => Happening::Ack(Conn(first.wrapping_add(link))),
        Choice::Nack(link) => Happening::Nack(Conn(first.wrapping_add(link))),
        Choice::Deliver(link, side) => Happening::Deliver(Conn(first.wrapping_add(link)), side),
        Choice::Piece(link, side, count) => Happening::Piece(
            Conn(first.wrapping_add(link)),
            side,
            count,
        ),
        Choice::Lose(link) => Happening::Lose(Conn(first.wrapping_add(link)), 0, 0),
    }
}

fn config(rt: &(impl Abort + AllocGlobal), host: &[u8], peer: &[u8], first: u32) -> Config {
    let peer = Vec::from_slice(rt.alloc(), peer).expect(rt, "memory");
    Config::new(rt.alloc(), node(rt, host), peer, first).expect(rt, "a configuration")
}

/// The hosts of A and B, where this side wins the election.
fn hosts(winner: Side) -> (&'static [u8], &'static [u8]) {
    match winner {
        Side::A => (b"b.example", b"a.example"),
        Side::B => (b"a.example", b"b.example"),
    }
}

/// A new world in which this side wins. The numbers of A begin at 1, those of B at 100.
fn new_world(rt: &(impl Abort + AllocGlobal), winner: Side) -> World {
    let (host, other) = hosts(winner);
    let left = config(rt, host, other, 1);
    let right = config(rt, other, host, 100);
    World::new(rt.alloc(), left, right).expect(rt, "a world")
}

/// A world, and what is done to it since both were Closed with nothing under way.
#[derive(Drop)]
struct Stage {
    world: World,
    /// The side that wins the election.
    winner: Side,
    /// The links before.
    first: u64,
    /// The links since then.
    made: u64,
}

impl Stage {
    fn new(rt: &(impl Abort + AllocGlobal), winner: Side) -> Stage {
        Stage {
            world: new_world(rt, winner),
            winner,
            first: 0,
            made: 0,
        }
    }

    /// Whether it is done: not ignored, and on a link that is there.
    fn is_done(&mut self, alloc: Global, choice: Choice) -> bool {
        let happening = happening(choice, self.first);
        let done = self.world.apply(alloc, &happening) == Ok(Effect::Done);
        drop(happening);
        if done && is_start(choice) {
            self.made = self.made.wrapping_add(1);
        }
        done
    }

    /// Delivers all that is under way towards the side on the link. A link of these runs has at most some messages.
    fn deliver_all(&mut self, alloc: Global, link: u64, side: Side) {
        for _ in 0..100 {
            if !self.is_done(alloc, Choice::Deliver(link, side)) {
                break;
            }
        }
    }

    /// Whether a connect is pending on the link, or a message is under way. That is tried out, and where it is so the
    /// world isn't the same behind it.
    fn has_more_on(&mut self, alloc: Global, link: u64) -> bool {
        self.is_done(alloc, Choice::Ack(link))
            || self.is_done(alloc, Choice::Piece(link, Side::A, 1))
            || self.is_done(alloc, Choice::Piece(link, Side::B, 1))
    }

    /// The same on some link.
    fn has_more(&mut self, alloc: Global) -> bool {
        for link in 0..self.made {
            if self.has_more_on(alloc, link) {
                return true;
            }
        }
        false
    }

    /// Both restart, and all is delivered.
    fn clear(&mut self, alloc: Global) {
        let _a = self.is_done(alloc, Choice::Restart(Side::A));
        let _b = self.is_done(alloc, Choice::Restart(Side::B));
        for link in 0..self.made {
            self.deliver_all(alloc, link, Side::A);
            self.deliver_all(alloc, link, Side::B);
        }
    }

    /// What comes now is numbered anew. Both are Closed, and nothing is under way.
    fn begin(&mut self, rt: &(impl Abort + AllocGlobal)) {
        self.clear(rt.alloc());
        assert!(rt; self.world.quiet(), "quiet");
        self.first = self.first.wrapping_add(self.made);
        self.made = 0;
    }
}

/// So many lists are run on one world, one behind the other, each from where both are Closed with nothing under way.
const LISTS_OF_A_WORLD: u32 = 50;

fn is_start(choice: Choice) -> bool {
    match choice {
        Choice::Start(_) => true,
        _ => false,
    }
}

/// What is searched: a law, and the lists of which it is computed.
struct Search {
    law: Law,
    winner: Side,
    letters: &'static [Choice],
    longest: usize,
}

/// The letters of the list, one after the other. All are done, as they were when it was made.
fn go_through(alloc: Global, stage: &mut Stage, letters: &[Choice], list: &[usize]) {
    for place in list {
        if let Some(choice) = letters.get(*place) {
            let _done = stage.is_done(alloc, *choice);
        }
    }
}

/// The first letter from this place on that is done, which changes the world.
fn next_done(alloc: Global, stage: &mut Stage, letters: &[Choice], from: usize) -> Option<usize> {
    for (place, choice) in letters.iter().enumerate() {
        if place >= from && stage.is_done(alloc, *choice) {
            return Some(place);
        }
    }
    None
}

/// The law's verdict on the list, where the first letter from this place on that is done is put behind it. None where
/// no such letter is done.
fn judged(
    rt: &(impl Abort + AllocGlobal),
    stage: &mut Stage,
    search: &Search,
    list: &mut Vec<usize>,
    from: usize,
) -> Option<(bool, bool)> {
    stage.begin(rt);
    go_through(rt.alloc(), stage, search.letters, list.as_slice());
    match next_done(rt.alloc(), stage, search.letters, from) {
        Some(place) => {
            list.push(place).expect(rt, "memory");
            Some(
                search
                    .law
                    .judge(rt.alloc(), stage, search.letters, list.as_slice()),
            )
        }
        None => None,
    }
}

/// The verdict on the empty list.
fn first_judged(rt: &(impl Abort + AllocGlobal), search: &Search) -> (bool, bool) {
    let mut stage = Stage::new(rt, search.winner);
    let verdict = search
        .law
        .judge(rt.alloc(), &mut stage, search.letters, &[]);
    drop(stage);
    verdict
}

/// Runs the next lists, on one world. Where the search goes on then.
fn run_some(
    rt: &(impl Abort + AllocGlobal),
    stage: &mut Stage,
    search: &Search,
    list: &mut Vec<usize>,
    begin: usize,
    seen: &mut Seen,
) -> Option<usize> {
    let mut from = begin;
    for _ in 0..LISTS_OF_A_WORLD {
        let verdict = judged(rt, stage, search, list, from);
        if let Some(verdict) = verdict {
            seen.count(verdict);
        }
        match go_on(list, verdict.is_some(), search.longest) {
            Some(next) => from = next,
            None => return None,
        }
    }
    Some(from)
}

/// Runs all lists that have a letter.
fn run_lists(
    rt: &(impl Abort + AllocGlobal),
    search: &Search,
    list: &mut Vec<usize>,
    seen: &mut Seen,
) {
    let mut from = 0;
    for _ in 0..MOST {
        let mut stage = Stage::new(rt, search.winner);
        let next = run_some(rt, &mut stage, search, list, from, seen);
        drop(stage);
        match next {
            Some(next) => from = next,
            None => {
                seen.whole = true;
                break;
            }
        }
    }
}

/// What is seen of all lists of the search.
fn run_all(rt: &(impl Abort + AllocGlobal), search: &Search) -> Seen {
    let mut seen = Seen::new();
    seen.count(first_judged(rt, search));
    let mut list = Vec::new(rt.alloc());
    run_lists(rt, search, &mut list, &mut seen);
    drop(list);
    seen
}
