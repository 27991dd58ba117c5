//! One direction of an association.
ghost use Rattle.std.specs.Prelude.{◌≡◌, ◌-◌, ◌^◌, min, OnOk, OnErr, IfSome, IfNone};
ghost use Rattle.dm_association.specs.SctpFlows.{begun_at_tsn, association_left, LeavesChunk};
ghost use Rattle.dm_associations.specs.Ways.{new_way, way_octets, WayTakesChunk, WayTakes, WayLeaves};
ghost use Rattle.dm_associations.specs.Ways.{HandsReady, HandsNoneReady};
ghost use Rattle.dm_flows.specs.Sctps.{data_seen};

use crate::message::WholeMessage;
use dm_association::SctpFlow;
use dm_flows::sctp_laws::packets_have_one_data_list;
use dm_flows::{DataChunk, DataChunks};
use std::alloc::{AllocError, Global};
use std::collections::VecDeque;
use std::marker::Model;

/// One direction of an association: its DATA chunks go in, and messages that are whole wait to be handed out.
#[derive(Drop)]
pub struct SctpWay {
    /// The Verification Tag of its packets.
    tag: Option<u32>,
    flow: SctpFlow,
    ready: VecDeque<WholeMessage>,
    /// How many octets these messages have.
    octets: u128,
}

impl Model for SctpWay {
    ghost use Rattle.dm_associations.specs.Ways.{SctpWayState, AreCounted};

    ghost Value = { SctpWayState };

    ghost view = { λ w. record { tag = w.tag; flow = w.flow; ready = w.ready.items } };

    ghost invariant = { λ w. AreCounted w.octets w.ready.items };
}

impl SctpWay {
    /// A direction of which nothing came.
    pub(crate) fn new(alloc: Global) -> SctpWay
        ensures { result ≡ new_way }
    {
        SctpWay {
            tag: None,
            flow: SctpFlow::new(alloc),
            ready: VecDeque::new(alloc),
            octets: 0,
        }
    }

    /// The Verification Tag of the packets of this direction; None where it isn't known.
    pub(crate) fn verification_tag(&self) -> Option<u32>
        ensures { result ≡ self.now.tag }
    {
        self.tag
    }

    /// Sets the Verification Tag of this direction, or forgets it.
    pub(crate) fn set_verification_tag(&mut self, tag: Option<u32>)
        ensures { self.new ≡ record self.old { tag = tag } }
    {
        self.tag = tag;
    }

    /// How many octets were passed over, up to 2^64 - 1.
    pub(crate) fn octets_passed_over(&self) -> u64
        ensures { result ≡ self.now.flow.passed }
    {
        self.flow.octets_passed_over()
    }

    /// How many octets of Diameter over DTLS came, up to 2^64 - 1.
    pub(crate) fn octets_of_dtls(&self) -> u64
        ensures { result ≡ self.now.flow.secured }
    {
        self.flow.octets_of_dtls()
    }

    /// How many octets are held, up to 2^64 - 1: those that wait for others of their messages, and those of whole
    /// messages that weren't handed out.
    pub(crate) fn octets_held(&self) -> u64
        ensures { result ≡ min (way_octets self.now) (2 ^ 64 - 1) }
    {
        let all = self.octets + self.flow.octets_waiting() as u128;
        if all < u64::MAX as u128 {
            all as u64
        } else {
            u64::MAX
        }
    }

    /// Begins an association with this Initial TSN in this direction; what waits is passed over.
    pub(crate) fn begin_association(&mut self, initial_tsn: u32)
        ensures { self.new ≡ record self.old { flow = begun_at_tsn self.old.flow initial_tsn } }
    {
        self.flow.begin_association(initial_tsn);
    }

    /// Leaves the association in this direction; what waits is passed over.
    pub(crate) fn leave_association(&mut self)
        ensures { self.new ≡ record self.old { flow = association_left self.old.flow } }
    {
        self.flow.leave_association();
    }

    /// Takes a DATA chunk. Where memory is wanted it wasn't taken.
    fn take_chunk(&mut self, chunk: DataChunk<'_>) -> Result<(), AllocError>
        ensures taken { OnOk result (WayTakesChunk self.old (data_seen chunk.entry) self.new) }
        ensures left { OnErr result (LeavesChunk self.old.flow (data_seen chunk.entry) self.new.flow) }
        ensures others { OnErr result (self.new ≡ record self.old { flow = self.new.flow }) }
    {
        if self.octets > u64::MAX as u128 {
            return Err(AllocError);
        }
        self.ready.reserve(1)?;
        if let Some(message) = self.flow.take_chunk(chunk)? {
            self.octets += message.len() as u128;
            self.ready.push_back_reserved(WholeMessage::new(message));
        }
        Ok(())
    }

    /// Takes the DATA chunks of a packet. Where memory is wanted those up to some were taken.
    pub(crate) fn take_data_chunks(&mut self, octets: &[u8]) -> Result<(), AllocError>
        ensures taken { OnOk result (WayTakes self.old octets.now self.new) }
        ensures left { OnErr result (WayLeaves self.old octets.now self.new) }
    {
        packets_have_one_data_list();
        'chunks: for chunk in DataChunks::new(octets) {
            self.take_chunk(chunk)?;
        }
        Ok(())
    }

    /// Hands out the next whole message; None where none is whole.
    pub(crate) fn next_message(&mut self) -> Option<Vec<u8>>
        ensures message { IfSome result (λ message. HandsReady self.old message.items self.new) }
        ensures none { IfNone result (HandsNoneReady self.old self.new) }
    {
        match self.ready.pop_front() {
            Some(message) => {
                let octets = message.into_octets();
                self.octets -= octets.len() as u128;
                Some(octets)
            }
            None => None,
        }
    }
}
