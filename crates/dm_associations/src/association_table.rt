//! Associations in the table of connections.
ghost use Rattle.std.proofs.Common.{rules};

use crate::association::Association;
use crate::exchange::any_chunk_begins_exchange_request;
use crate::way::SctpWay;
use dm_connections::{Connections, Ends, Takes, TwoWay};
use dm_flows::SctpPacket;
use std::alloc::{AllocError, Global};

/// The associations that are held, by their ends, as [`Connections`] holds TCP's.
pub type Associations = Connections<Association>;

impl TwoWay for Association {
    type Way = SctpWay;

    ghost use Rattle.dm_associations.specs.Associations.{fresh_association, passed_by, secured_by, held_by};
    ghost use Rattle.dm_associations.specs.Associations.{sctp_way, with_sctp_way};
    ghost use Rattle.dm_associations.specs.Ways.{HandsReady, HandsNoneReady};

    ghost new_of = { fresh_association };

    ghost passed_in = { passed_by };

    ghost secured_in = { secured_by };

    ghost held_in = { held_by };

    ghost pending_in = { held_by };

    ghost one_way = { sctp_way };

    ghost with_way = { with_sctp_way };

    ghost Hands = { HandsReady };

    ghost HandsNone = { HandsNoneReady };

    ghost held_fits = { Prim.search rules };

    ghost new_holds_none = { Prim.search rules };

    fn new_between(alloc: Global, ends: Ends, _max_message_len: u32) -> Association {
        Association::new(alloc, ends.first, ends.second)
    }

    fn octets_passed_over(&self) -> u64 {
        self.octets_passed_over_both_ways()
    }

    fn octets_of_dtls(&self) -> u64 {
        self.octets_of_dtls_both_ways()
    }

    fn octets_held(&self) -> u64 {
        self.octets_held_both_ways()
    }

    fn octets_held_that_came(&self) -> u64 {
        self.octets_held_both_ways()
    }

    fn next_message(&mut self, from_first: bool) -> Result<Option<Vec<u8>>, AllocError> {
        if from_first {
            Ok(self.next_message_from_first())
        } else {
            Ok(self.next_message_from_second())
        }
    }
}

impl<'a> Takes<SctpPacket<'a>> for Association {
    ghost use Rattle.dm_associations.specs.Associations.{packet_ends, TakesPacket, LeavesAssociation};
    ghost use Rattle.dm_associations.specs.Exchanges.{ChunksBeginExchange};
    ghost use Rattle.dm_flows.specs.Sctps.{sctp_seen};

    ghost between = { λ packet. packet_ends (sctp_seen packet) };

    ghost BeginsExchange = { λ packet. ChunksBeginExchange (sctp_seen packet).chunks };

    ghost TakesSent = { λ before packet after. TakesPacket before (sctp_seen packet) after };

    ghost LeavesSent = { λ before packet after. LeavesAssociation before (sctp_seen packet) after };

    fn sender_and_receiver_of(sent: SctpPacket<'a>) -> Ends {
        Ends {
            first: sent.source,
            second: sent.destination,
        }
    }

    fn cer_begins_in(sent: SctpPacket<'a>) -> bool {
        any_chunk_begins_exchange_request(sent.chunks)
    }

    fn take_sent(&mut self, sent: SctpPacket<'a>) -> Result<(), AllocError> {
        self.take_packet(sent)
    }
}
