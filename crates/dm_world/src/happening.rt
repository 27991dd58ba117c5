//! What may happen to two peers and the links between them.
use crate::Side;
use dm_peer::{Cause, Conn};
use dm_wire::Octets;

/// One thing that happens. A link goes by its number, as a connection does.
#[derive(Debug, Drop)]
pub enum Happening {
    /// A side is asked to open a connection: the next link.
    Start(Side),
    /// A side is asked to disconnect, for this cause.
    Stop(Side, Cause),
    /// A side's state has had its time.
    Timeout(Side),
    /// A side's watchdog has had its time.
    Tick(Side),
    /// A side starts anew.
    Restart(Side),
    /// The link's connect comes about.
    Ack(Conn),
    /// The link's connect can't come about.
    Nack(Conn),
    /// What is next on the link towards the side comes there: the rest of a message, or the disconnect.
    Deliver(Conn, Side),
    /// So many next octets on the link towards the side come there, up to the end of their message.
    Piece(Conn, Side, u32),
    /// The link is lost: of what is still to come the messages stay that lie wholly in so many first octets towards A,
    /// and towards B. A message that doesn't stay takes the octets with it that came before.
    Lose(Conn, u32, u32),
    /// The user of a side submits the octets of a message.
    Submit(Side, Octets),
}
