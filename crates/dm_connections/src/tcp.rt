//! TCP connections, and the segments that they take.
ghost use Rattle.std.proofs.Common.{rules};

use crate::ends::Ends;
use crate::table_traits::{Takes, TwoWay};
use dm_flows::{Connection, Flow, Segment, begins_with_exchange_request};
use std::alloc::{AllocError, Global};

impl TwoWay for Connection {
    type Way = Flow;

    ghost use Rattle.dm_flows.specs.Connections.{passed_in, held_in, pending_in};
    ghost use Rattle.dm_flows.specs.Flows.{HandsMessage, HandsNoMessage};
    ghost use Rattle.dm_connections.specs.Held.{fresh_connection, none_secured, one_way, with_way};

    ghost new_of = { fresh_connection };

    ghost passed_in = { passed_in };

    ghost secured_in = { none_secured };

    ghost held_in = { held_in };

    ghost pending_in = { pending_in };

    ghost one_way = { one_way };

    ghost with_way = { with_way };

    ghost Hands = { HandsMessage };

    ghost HandsNone = { HandsNoMessage };

    ghost held_fits = { Prim.search rules };

    ghost new_holds_none = { Prim.search rules };

    fn new_between(alloc: Global, ends: Ends, max_message_len: u32) -> Connection {
        Connection::new(alloc, ends.first, ends.second, max_message_len)
    }

    fn octets_passed_over(&self) -> u64 {
        self.octets_passed_over_both_ways()
    }

    fn octets_of_dtls(&self) -> u64 {
        0
    }

    fn octets_held(&self) -> u64 {
        self.octets_held_both_ways()
    }

    fn octets_held_that_came(&self) -> u64 {
        self.octets_held_that_came_both_ways()
    }

    fn next_message(&mut self, from_first: bool) -> Result<Option<Vec<u8>>, AllocError> {
        if from_first {
            self.next_message_from_first()
        } else {
            self.next_message_from_second()
        }
    }
}

impl<'a> Takes<Segment<'a>> for Connection {
    ghost use Rattle.dm_flows.specs.Connections.{TakesSegment, LeavesConnection};
    ghost use Rattle.dm_flows.specs.Headers.{BeginsWithExchange};
    ghost use Rattle.dm_flows.specs.Tcps.{segment_seen};
    ghost use Rattle.dm_connections.specs.Held.{segment_ends};

    ghost between = { λ segment. segment_ends (segment_seen segment) };

    ghost BeginsExchange = { λ segment. BeginsWithExchange (segment_seen segment).payload };

    ghost TakesSent = { λ before segment after. TakesSegment before (segment_seen segment) after };

    ghost LeavesSent = { λ before segment after. LeavesConnection before (segment_seen segment) after };

    fn sender_and_receiver_of(sent: Segment<'a>) -> Ends {
        Ends {
            first: sent.source,
            second: sent.destination,
        }
    }

    fn cer_begins_in(sent: Segment<'a>) -> bool {
        begins_with_exchange_request(sent.payload)
    }

    fn take_sent(&mut self, sent: Segment<'a>) -> Result<(), AllocError> {
        self.take_segment(sent)
    }
}
