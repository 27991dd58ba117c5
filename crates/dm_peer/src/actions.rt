//! What a peer asks of its caller.
use arrayvec::ArrayVec;
use dm_machine::Conn;
use dm_wire::Octets;

/// One thing that the caller is to do (RFC 6733, 5.6).
#[derive(Debug, Drop)]
pub enum Action {
    /// Open a connection to the peer.
    Connect(Conn),
    /// Send the octets.
    Send(Conn, Octets),
    /// Close the connection.
    Close(Conn),
    /// Hand the octets of a message to the user.
    Up(Octets),
}

impl Default for Action {
    ghost use Rattle.dm_peer.specs.Defaults.{IsDefaultAction};

    ghost is_default = { IsDefaultAction };

    /// The blank of an `ArrayVec`.
    fn default() -> Self {
        Action::Close(Conn(0))
    }
}

/// What one event asks for, in the order in which it is to be done.
pub type Actions = ArrayVec<Action, 4>;

/// Drops the actions that a refused event put in.
// (It is rare, and in a function of its own in the machine's code too.)
#[inline(never)]
pub(crate) fn drop_actions(actions: Actions) {
    drop(actions);
}
