//! The states with what they hold: their connections, and the watchdog's count of an open one.

use crate::connection::Conn;

/// Which side opened a connection.
#[derive(Clone, Copy, PartialEq, Eq)]
pub enum Role {
    /// This peer.
    Initiated,
    /// The other side.
    Accepted,
}

/// A state with its connections, the initiated one first, and an open one with the watchdog's count. Open is R-Open or
/// I-Open, by the role of its connection.
#[derive(Clone, Copy, PartialEq, Eq)]
pub enum Phase {
    Closed,
    WaitConnAck(Conn),
    WaitICea(Conn),
    WaitConnAckElect(Conn, Conn),
    WaitReturns(Conn, Conn),
    Open(Role, Conn, u8),
    Closing(Role, Conn),
}
