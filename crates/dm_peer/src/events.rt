//! What a peer is told: commands of its user, the passing of time, and what happens on connections; and that each octet
//! that it is told is below 256.
ghost use Rattle.dm_peer.specs.Events.{event_told, octets_in};
ghost use Rattle.dm_wire.specs.Octets.{AreOctets};

use dm_base::Cause;
use dm_machine::Conn;

/// One thing that happens to a peer (RFC 6733, 5.6).
#[derive(Clone, Copy, Debug)]
pub enum Event<'a> {
    /// Open a connection, under this new number.
    Start(Conn),
    /// Disconnect, for this cause (RFC 6733, 5.4).
    Stop(Cause),
    /// The state's time is over.
    Timeout,
    /// The watchdog's time is over (RFC 3539, 3.4.1).
    Tick,
    /// The connection that was asked for is made.
    Ack(Conn),
    /// The connection that was asked for can't be made.
    Nack(Conn),
    /// The octets of a message came on a connection.
    Arrived(Conn, &'a [u8]),
    /// The other side closed the connection, or it was lost.
    Gone(Conn),
    /// Send a message of the user, as octets.
    Submit(&'a [u8]),
}

/// Does nothing: its contract says that each number of a slice of octets is below 256.
fn octets_are_below_256(octets: &[u8])
    ensures { AreOctets octets.now }
{
    let _octets = octets.len();
}

/// Does nothing: its contract says that each number of the octets that an event brings is below 256.
pub(crate) fn event_octets_are_below_256(event: Event<'_>)
    ensures { AreOctets (octets_in (event_told event.entry)) }
{
    match event {
        Event::Arrived(_, octets) | Event::Submit(octets) => octets_are_below_256(octets),
        _ => {}
    }
}
