//! What is seen of a peer of a world, in the words of the laws.
use dm_peer::{Conn, Peer, State};

/// By which side a connection was made: by the own one, or by the other.
#[derive(Clone, Copy, Debug, PartialEq)]
pub(super) enum Role {
    Initiated,
    Accepted,
}

/// A connection, and the role of the side that holds it.
pub(super) type Held = (Role, u64);

/// The connection on which the peer is open.
pub(super) fn open_on(peer: &Peer) -> Option<Held> {
    match peer.state() {
        State::IOpen | State::ROpen => only_held(peer),
        _ => None,
    }
}

/// The connection that the peer holds, where it is one alone.
pub(super) fn only_held(peer: &Peer) -> Option<Held> {
    match (peer.initiated(), peer.accepted()) {
        (Some(conn), None) => Some((Role::Initiated, conn.0)),
        (None, Some(conn)) => Some((Role::Accepted, conn.0)),
        _ => None,
    }
}

pub(super) fn is_closed(peer: &Peer) -> bool {
    peer.state() == State::Closed
}

/// Both are Closed.
pub(super) fn both_closed(a: &Peer, b: &Peer) -> bool {
    is_closed(a) && is_closed(b)
}

/// On one connection, in opposite roles.
pub(super) fn are_opposite(a: Option<Held>, b: Option<Held>) -> bool {
    match (a, b) {
        (Some((role, conn)), Some((other, same))) => role != other && conn == same,
        _ => false,
    }
}

/// On one connection, in one role.
pub(super) fn are_alike(a: Option<Held>, b: Option<Held>) -> bool {
    match (a, b) {
        (Some((role, conn)), Some((other, same))) => role == other && conn == same,
        _ => false,
    }
}

/// Open, and not on one connection alone.
pub(super) fn is_double(peer: &Peer) -> bool {
    peer.is_open() && only_held(peer).is_none()
}

/// The connection, where there is one, is held by the peer.
fn holds(peer: &Peer, conn: Option<Conn>) -> bool {
    match conn {
        Some(conn) => peer.holds(conn),
        None => true,
    }
}

/// Each connection of the one is held by the other.
fn holds_all_of(peer: &Peer, other: &Peer) -> bool {
    holds(peer, other.initiated()) && holds(peer, other.accepted())
}

/// Each holds what the other holds, and one is Closed where the other is.
pub(super) fn is_shared(a: &Peer, b: &Peer) -> bool {
    holds_all_of(a, b) && holds_all_of(b, a) && is_closed(a) == is_closed(b)
}
