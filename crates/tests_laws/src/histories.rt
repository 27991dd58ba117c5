//! One peer, a.example, which is told of b.example whatever one likes.
mod account;
mod laws;
mod letters;
mod tests;

use crate::search::{MOST, Seen, go_on};
use account::Account;
use dm_peer::{Config, Peer, PeerFault};
use laws::Law;
use letters::{Letter, event, octets};
use std::process::Abort;

/// What is searched: a law, and the lists of which it is computed, behind some letters that each begins with.
struct Search {
    law: Law,
    before: &'static [Letter],
    letters: &'static [Letter],
    longest: usize,
}

fn new_peer(rt: &(impl Abort + AllocGlobal)) -> Peer {
    let node = crate::node::node(rt, b"a.example");
    let other = Vec::from_slice(rt.alloc(), b"b.example").expect(rt, "memory");
    Peer::new(Config::new(rt.alloc(), node, other, 1).expect(rt, "a configuration"))
}

/// Tells the peer. Whether it is done, and not refused.
fn is_done(
    rt: &(impl Abort + AllocGlobal),
    peer: &mut Peer,
    letter: Letter,
    account: &mut Account,
) -> bool {
    let octets = octets(rt, letter, peer);
    account.stands_before(letter, peer);
    let done = match peer.on(rt.alloc(), event(letter, octets.as_slice())) {
        Ok(actions) => {
            account.take(rt, letter, peer, actions.as_slice());
            true
        }
        Err(PeerFault::NoMemory) => {
            assert!(rt; false, "memory");
            false
        }
        Err(_) => false,
    };
    drop(octets);
    done
}

/// The peer begins anew, and is told these letters.
fn begin(
    rt: &(impl Abort + AllocGlobal),
    peer: &mut Peer,
    letters: &[Letter],
    account: &mut Account,
) {
    peer.reset();
    account.begin();
    for letter in letters {
        let done = is_done(rt, peer, *letter, account);
        assert!(rt; done, "at {letter:?}");
    }
}

fn go_through(
    rt: &(impl Abort + AllocGlobal),
    peer: &mut Peer,
    search: &Search,
    list: &[usize],
    account: &mut Account,
) {
    begin(rt, peer, search.before, account);
    for place in list {
        if let Some(letter) = search.letters.get(*place) {
            let _done = is_done(rt, peer, *letter, account);
        }
    }
}

/// The first letter from this place on that is done.
fn next_done(
    rt: &(impl Abort + AllocGlobal),
    peer: &mut Peer,
    letters: &[Letter],
    from: usize,
    account: &mut Account,
) -> Option<usize> {
    for (place, letter) in letters.iter().enumerate() {
        if place >= from && is_done(rt, peer, *letter, account) {
            return Some(place);
        }
    }
    None
}

/// The law's verdict on the list, where the first letter from this place on that is done is put behind it. None where
/// no such letter is done.
fn judged(
    rt: &(impl Abort + AllocGlobal),
    peer: &mut Peer,
    search: &Search,
    list: &mut Vec<usize>,
    from: usize,
    account: &mut Account,
) -> Option<(bool, bool)> {
    go_through(rt, peer, search, list.as_slice(), account);
    match next_done(rt, peer, search.letters, from, account) {
        Some(place) => {
            list.push(place).expect(rt, "memory");
            Some(search.law.judge(rt, peer, account))
        }
        None => None,
    }
}

/// Runs all lists of the search.
fn run_lists(
    rt: &(impl Abort + AllocGlobal),
    peer: &mut Peer,
    search: &Search,
    account: &mut Account,
    seen: &mut Seen,
) {
    let mut list = Vec::new(rt.alloc());
    let mut from = 0;
    for _ in 0..MOST {
        let verdict = judged(rt, peer, search, &mut list, from, account);
        if let Some(verdict) = verdict {
            seen.count(verdict);
        }
        match go_on(&mut list, verdict.is_some(), search.longest) {
            Some(next) => from = next,
            None => {
                seen.whole = true;
                break;
            }
        }
    }
    drop(list);
}

/// What is seen of all lists of the search that have a letter.
fn run_all(rt: &(impl Abort + AllocGlobal), search: &Search) -> Seen {
    let mut seen = Seen::new();
    let mut account = Account::new(rt.alloc());
    let mut peer = new_peer(rt);
    run_lists(rt, &mut peer, search, &mut account, &mut seen);
    drop(peer);
    drop(account);
    seen
}
