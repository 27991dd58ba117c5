//! An association: Diameter messages out of the packets of both ends.
ghost use Rattle.std.specs.Prelude.{◌≡◌, OnOk, OnErr, IfSome, IfNone};
ghost use Rattle.dm_associations.specs.Associations.{new_association, passed_by, secured_by, held_by};
ghost use Rattle.dm_associations.specs.Associations.{TakesPacket, LeavesAssociation};
ghost use Rattle.dm_associations.specs.Ways.{HandsReady, HandsNoneReady};
ghost use Rattle.dm_flows.specs.Sctps.{sctp_seen};

use crate::packet_effects::take_packet_in_direction;
use crate::way::SctpWay;
use dm_flows::{Endpoint, SctpPacket};
use std::alloc::{AllocError, Global};
use std::marker::Model;

/// An association of two ends, each an address and a port: what is sent between other addresses of the same two (RFC
/// 9260, 6.4) is another association here.
///
/// An INIT begins it. Where the capture begins later, the Verification Tag of either direction is that of the first
/// packet that is seen of it.
#[derive(Drop)]
pub struct Association {
    first: Endpoint,
    second: Endpoint,
    forth: SctpWay,
    back: SctpWay,
    ended: bool,
}

impl Model for Association {
    ghost use Rattle.dm_associations.specs.Associations.{AssociationState};

    ghost Value = { AssociationState };

    ghost view = { λ a. record {
      first = a.first;
      second = a.second;
      forth = a.forth;
      back = a.back;
      ended = a.ended;
    } };
}

impl Association {
    /// An association of which nothing came. It never answers want of memory.
    pub fn new(alloc: Global, first: Endpoint, second: Endpoint) -> Association
        ensures { result ≡ new_association first second }
    {
        Association {
            first,
            second,
            forth: SctpWay::new(alloc),
            back: SctpWay::new(alloc),
            ended: false,
        }
    }

    /// How many octets were passed over in both directions, as [`dm_association::SctpFlow::octets_passed_over`] counts
    /// them, up to 2^64 - 1. It never answers want of memory.
    pub fn octets_passed_over_both_ways(&self) -> u64
        ensures { result ≡ passed_by self.now }
    {
        self.forth
            .octets_passed_over()
            .saturating_add(self.back.octets_passed_over())
    }

    /// How many octets of Diameter over DTLS came in both directions, up to 2^64 - 1. It never answers want of memory.
    pub fn octets_of_dtls_both_ways(&self) -> u64
        ensures { result ≡ secured_by self.now }
    {
        self.forth
            .octets_of_dtls()
            .saturating_add(self.back.octets_of_dtls())
    }

    /// How many octets are held in both directions, up to 2^64 - 1: those that wait for others of their messages, and
    /// those of messages that weren't handed out. It takes one step, and never answers want of memory.
    pub fn octets_held_both_ways(&self) -> u64
        ensures { result ≡ held_by self.now }
    {
        self.forth
            .octets_held()
            .saturating_add(self.back.octets_held())
    }

    /// Takes a packet that came from the first end; one of any other source is taken as one from the second.
    ///
    /// One whose Verification Tag isn't that of its direction changes nothing, nor does one that comes behind an ABORT
    /// or a SHUTDOWN COMPLETE. An INIT begins a new association, unless it is the same INIT again: both directions
    /// begin anew, and what waits is passed over; messages that are whole are handed out still. Where memory is wanted
    /// the DATA chunks up to some were taken.
    pub fn take_packet(&mut self, packet: SctpPacket<'_>) -> Result<(), AllocError>
        ensures taken { OnOk result (TakesPacket self.old (sctp_seen packet.entry) self.new) }
        ensures left { OnErr result (LeavesAssociation self.old (sctp_seen packet.entry) self.new) }
    {
        if packet.source == self.first {
            take_packet_in_direction(&mut self.forth, &mut self.back, &mut self.ended, packet)
        } else {
            take_packet_in_direction(&mut self.back, &mut self.forth, &mut self.ended, packet)
        }
    }

    /// Hands out the next whole message from the first end to the second; None where none is whole. It never answers
    /// want of memory.
    pub fn next_message_from_first(&mut self) -> Option<Vec<u8>>
        ensures message { IfSome result (λ message. HandsReady self.old.forth message.items self.new.forth) }
        ensures none { IfNone result (HandsNoneReady self.old.forth self.new.forth) }
        ensures others { self.new ≡ record self.old { forth = self.new.forth } }
    {
        self.forth.next_message()
    }

    /// Hands out the next whole message from the second end to the first; None where none is whole. It never answers
    /// want of memory.
    pub fn next_message_from_second(&mut self) -> Option<Vec<u8>>
        ensures message { IfSome result (λ message. HandsReady self.old.back message.items self.new.back) }
        ensures none { IfNone result (HandsNoneReady self.old.back self.new.back) }
        ensures others { self.new ≡ record self.old { back = self.new.back } }
    {
        self.back.next_message()
    }
}
