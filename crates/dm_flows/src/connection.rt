//! A connection: Diameter messages out of the segments of both ends.
ghost use Rattle.std.specs.Prelude.{◌≡◌, OnOk, OnErr, IfOk, IfSome, IfNone};
ghost use Rattle.dm_flows.specs.Connections.{new_connection, passed_in, held_in, pending_in};
ghost use Rattle.dm_flows.specs.Connections.{TakesSegment, LeavesConnection, HearsSegment, LeavesSegment};
ghost use Rattle.dm_flows.specs.Flows.{HandsMessage, HandsNoMessage};
ghost use Rattle.dm_flows.specs.Tcps.{segment_seen};

use crate::address::{Endpoint, is_same_end};
use crate::control_bits::apply_control_bits;
use crate::flow::Flow;
use crate::segment::{Segment, first_octet_number};
use std::alloc::{AllocError, Global};
use std::marker::Model;

/// A connection of two ends.
#[derive(Debug, Drop)]
pub struct Connection {
    first: Endpoint,
    second: Endpoint,
    forth: Flow,
    back: Flow,
}

impl Model for Connection {
    ghost use Rattle.dm_flows.specs.Connections.{ConnectionState};

    ghost Value = { ConnectionState };

    ghost view = { λ c. record { first = c.first; second = c.second; forth = c.forth; back = c.back } };
}

/// Takes a segment of the direction `own`: its control bits, and then its octets.
fn take_segment_in_direction(
    own: &mut Flow,
    other: &mut Flow,
    segment: Segment<'_>,
) -> Result<(), AllocError>
    ensures heard { OnOk result (HearsSegment (record { own = own.old; other = other.old })
        (segment_seen segment.entry) (record { own = own.new; other = other.new })) }
    ensures left { OnErr result (LeavesSegment (record { own = own.old; other = other.old })
        (segment_seen segment.entry) (record { own = own.new; other = other.new })) }
{
    apply_control_bits(own, other, segment);
    own.take_payload_or_pass(first_octet_number(segment), segment.payload)
}

impl Connection {
    /// A connection of which nothing came, for messages of at most `max` octets. It never answers want of memory.
    pub fn new(alloc: Global, first: Endpoint, second: Endpoint, max: u32) -> Connection
        ensures { result ≡ new_connection max first second }
    {
        Connection {
            first,
            second,
            forth: Flow::new(alloc, max),
            back: Flow::new(alloc, max),
        }
    }

    /// How many octets were passed over in both directions, up to 2^64 - 1. It never answers want of memory.
    pub fn octets_passed_over_both_ways(&self) -> u64
        ensures { result ≡ passed_in self.now }
    {
        self.forth
            .octets_passed_over()
            .saturating_add(self.back.octets_passed_over())
    }

    /// How many octets are held in both directions, as [`Flow::octets_held`] counts them, up to 2^64 - 1. It takes one
    /// step, and never answers want of memory.
    pub fn octets_held_both_ways(&self) -> u64
        ensures { result ≡ held_in self.now }
    {
        (self.forth.octets_held() as u64).saturating_add(self.back.octets_held() as u64)
    }

    /// How many octets came in both directions that were neither handed out nor passed over, up to 2^64 - 1. It takes a
    /// step for each octet of both windows, and never answers want of memory.
    pub fn octets_held_that_came_both_ways(&self) -> u64
        ensures { result ≡ pending_in self.now }
    {
        self.forth
            .octets_held_that_came()
            .saturating_add(self.back.octets_held_that_came())
    }

    /// Takes a segment that came from the first end; one of any other source is taken as one from the second.
    ///
    /// A SYN begins a connection: where it is that of a new one both directions begin anew, and what wasn't handed out
    /// is passed over. A FIN ends the direction behind its octets, a RST both. Where memory is wanted the control bits
    /// count, and the octets were taken up to some or not.
    pub fn take_segment(&mut self, segment: Segment<'_>) -> Result<(), AllocError>
        ensures taken { OnOk result (TakesSegment self.old (segment_seen segment.entry) self.new) }
        ensures left { OnErr result (LeavesConnection self.old (segment_seen segment.entry) self.new) }
    {
        if is_same_end(segment.source, self.first) {
            take_segment_in_direction(&mut self.forth, &mut self.back, segment)
        } else {
            take_segment_in_direction(&mut self.back, &mut self.forth, segment)
        }
    }

    /// Hands out the next whole message from the first end to the second; None where it isn't whole yet, or where what
    /// is in order is no message, and the stream is left. Where memory is wanted nothing changes.
    pub fn next_message_from_first(&mut self) -> Result<Option<Vec<u8>>, AllocError>
        ensures message { IfOk result (λ found. IfSome found
            (λ message. HandsMessage self.old.forth message.items self.new.forth)) }
        ensures none { IfOk result (λ found. IfNone found (HandsNoMessage self.old.forth self.new.forth)) }
        ensures unchanged { OnErr result (self.new ≡ self.old) }
        ensures others { self.new ≡ record self.old { forth = self.new.forth } }
    {
        self.forth.next_message_or_leave_stream()
    }

    /// Hands out the next whole message from the second end to the first; None where it isn't whole yet, or where what
    /// is in order is no message, and the stream is left. Where memory is wanted nothing changes.
    pub fn next_message_from_second(&mut self) -> Result<Option<Vec<u8>>, AllocError>
        ensures message { IfOk result (λ found. IfSome found
            (λ message. HandsMessage self.old.back message.items self.new.back)) }
        ensures none { IfOk result (λ found. IfNone found (HandsNoMessage self.old.back self.new.back)) }
        ensures unchanged { OnErr result (self.new ≡ self.old) }
        ensures others { self.new ≡ record self.old { back = self.new.back } }
    {
        self.back.next_message_or_leave_stream()
    }
}
