//! What a node is told.
ghost use Rattle.std.specs.Prelude.{◌≡◌, ℕ, false, List};
ghost use Rattle.dm_machine.specs.declared.connection.Conn.{Conn as OneConn};
ghost use Rattle.dm_node.specs.Telling.{told_of};
ghost use Rattle.dm_peer.specs.Events.{Arrived, event_told};

use dm_base::Cause;
use dm_peer::{Conn, Event};

/// One thing that happens to a node. A neighbour is named by its number, in order of adding; connections have one space
/// of numbers for the whole node.
#[derive(Clone, Copy, Debug)]
pub enum NodeEvent<'a> {
    /// Open a connection to the neighbour, under this new number.
    Start(usize, Conn),
    /// Disconnect from the neighbour, for this cause (RFC 6733, 5.4).
    Stop(usize, Cause),
    /// The time of the neighbour's state is over.
    Timeout(usize),
    /// The neighbour's watchdog's time is over (RFC 3539, 3.4.1).
    Tick(usize),
    /// Send a message of the user to the neighbour, as octets.
    Submit(usize, &'a [u8]),
    /// The connection that was asked for is made.
    Ack(Conn),
    /// The connection that was asked for can't be made.
    Nack(Conn),
    /// The octets of a message came on a connection.
    Arrived(Conn, &'a [u8]),
    /// The other side closed the connection, or it was lost.
    Gone(Conn),
}

/// The event as its neighbour is told it.
pub(crate) fn peer_event<'a>(event: NodeEvent<'a>) -> Event<'a>
    ensures { event_told result ≡ told_of event.entry }
{
    match event {
        NodeEvent::Start(_, conn) => Event::Start(conn),
        NodeEvent::Stop(_, cause) => Event::Stop(cause),
        NodeEvent::Timeout(_) => Event::Timeout,
        NodeEvent::Tick(_) => Event::Tick,
        NodeEvent::Submit(_, octets) => Event::Submit(octets),
        NodeEvent::Ack(conn) => Event::Ack(conn),
        NodeEvent::Nack(conn) => Event::Nack(conn),
        NodeEvent::Arrived(conn, octets) => Event::Arrived(conn, octets),
        NodeEvent::Gone(conn) => Event::Gone(conn),
    }
}

/// False only where the event is no octets that came.
#[inline(always)]
pub(crate) fn is_arrival(event: NodeEvent<'_>) -> bool
    ensures { result ≡ false → (c : OneConn) (octets : List ℕ) → told_of event.entry ≡ Arrived c octets → ⊥ }
{
    matches!(event, NodeEvent::Arrived(_, _))
}
