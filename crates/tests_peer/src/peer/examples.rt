//! The example of docs/DRIVER.md: a closed peer that is told a good CER sends its CEA and is R-Open.

use super::octets::{CEA_OF_A, CER_OF_B};
use super::{octets_of, peer, spells};
use dm_peer::{Action, Actions, Conn, Event, Peer, State};
use std::process::Abort;

/// What a caller does: whether it sends just the octets of these digits on connection 9.
fn performs(rt: &(impl Abort + AllocGlobal), action: Action, digits: &str) -> bool {
    match action {
        Action::Send(conn, octets) => {
            let same = conn == Conn(9) && spells(rt, octets.as_slice(), digits);
            drop(octets);
            same
        }
        other => {
            drop(other);
            false
        }
    }
}

/// Whether the last thing that it does is that.
fn performed(rt: &(impl Abort + AllocGlobal), actions: Actions, digits: &str) -> bool {
    let mut sent = false;
    for action in actions {
        sent = performs(rt, action, digits);
    }
    sent
}

/// Whether the peer accepts connection 9 at the first message on it.
fn accepts(rt: &(impl Abort + AllocGlobal), peer: &mut Peer, octets: &[u8]) -> bool {
    match peer.on(rt.alloc(), Event::Arrived(Conn(9), octets)) {
        Ok(actions) => performed(rt, actions, CEA_OF_A),
        Err(_) => false,
    }
}

/// The state and the accepted connection after the first message on connection 9.
fn driven(rt: &(impl Abort + AllocGlobal)) -> (bool, State, Option<Conn>) {
    let mut peer = peer(rt, b"a.example", b"b.example", 4);
    let octets = octets_of(rt, CER_OF_B);
    let accepts = accepts(rt, &mut peer, octets.as_slice());
    drop(octets);
    let end = (accepts, peer.state(), peer.accepted());
    drop(peer);
    end
}

#[test]
fn from_closed_to_r_open(rt: HostRuntime) {
    assert_eq!(rt; driven(&rt), (true, State::ROpen, Some(Conn(9))));
}
