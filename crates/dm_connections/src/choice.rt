//! Which connections are looked at.
ghost use Rattle.std.specs.Prelude.{◌≡◌, ◌↔◌, IsTrue};
ghost use Rattle.dm_flows.specs.Tcps.{segment_seen};
ghost use Rattle.dm_connections.specs.Choices.{has_port, WantsBetween, Wants};

use crate::table_traits::Takes;
use dm_flows::{Connection, Endpoint, Segment};

/// The port of Diameter over TCP and SCTP (RFC 6733, 2.1 and 11.4).
pub const DIAMETER_PORT: u16 = 3868;

/// Which connections are looked at, by what is sent on them.
#[derive(Clone, Copy, Debug)]
pub enum Choice<'a> {
    /// Those of which one end has one of these ports.
    Ports(&'a [u16]),
    /// Those where a Capabilities-Exchange-Request begins in what is sent (RFC 6733, 5.3.1), as its header tells: of a
    /// TCP segment, where its octets begin with that.
    Any,
}

/// Whether the end has one of the ports.
fn has_one_of_ports(ports: &[u16], end: Endpoint) -> bool
    ensures { result ≡ has_port ports.now end }
{
    ports.contains(&end.port)
}

/// Whether the connection of what is sent is looked at. It takes no memory.
pub(crate) fn is_connection_wanted<S: Copy, C: Takes<S>>(choice: Choice<'_>, sent: S) -> bool
    ensures { IsTrue result ↔ WantsBetween choice.entry (C.between sent) (C.BeginsExchange sent) }
{
    let ends = C::sender_and_receiver_of(sent);
    match choice {
        Choice::Ports(ports) => has_one_of_ports(ports, ends.first)
            || has_one_of_ports(ports, ends.second),
        Choice::Any => C::cer_begins_in(sent),
    }
}

impl<'a> Choice<'a> {
    /// Whether the connection of the segment is looked at where it isn't held yet. It takes no memory.
    pub fn wants_new_connection_of(&self, segment: Segment<'_>) -> bool
        ensures { IsTrue result ↔ Wants self.now (segment_seen segment.entry) }
    {
        is_connection_wanted::<Segment<'_>, Connection>(*self, segment)
    }
}
