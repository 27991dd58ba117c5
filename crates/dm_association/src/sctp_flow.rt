//! One direction of an association: Diameter messages out of its DATA chunks.
ghost use Rattle.std.specs.Prelude.{◌≡◌, ◌≤◌, true, None, Some, length, IfOk, IfSome, IfNone, OnErr};
ghost use Rattle.dm_flows.specs.Flows.{more_passed};
ghost use Rattle.dm_flows.specs.Sctps.{data_seen};
ghost use Rattle.dm_association.specs.SctpFlows.{new_sctp_flow, is_clear_text, without_chunk, waiting_in_flow};
ghost use Rattle.dm_association.specs.SctpFlows.{association_left, begun_at_tsn, place_in_flow, may_begin_with};
ghost use Rattle.dm_association.specs.SctpFlows.{HasRoomInFlow, TakesWanted, BeginsWithChunk, TakesChunk, LeavesChunk};

use crate::chunk_place::ChunkPlace;
use crate::marks::marks_of_chunk;
use crate::tsn_window::{MOST_WAITING, TsnWindow};
use dm_flows::DataChunk;
use std::alloc::{AllocError, Global};
use std::marker::Model;

/// The Payload Protocol Identifier of Diameter (RFC 6733, 11.5).
const DIAMETER: u32 = 46;

/// The Payload Protocol Identifier of Diameter over DTLS (RFC 6733, 11.5).
const DIAMETER_OVER_DTLS: u32 = 47;

/// The Payload Protocol Identifier of a user that tells none (RFC 9260, 3.3.1).
const NO_IDENTIFIER: u32 = 0;

/// One direction of an association: DATA chunks go in, Diameter messages come out, each of which is a user message
/// (RFC 6733, 2.1.1).
///
/// A message is handed out as soon as its chunks are all there, whatever is missing before it: a chunk that a capture
/// lacks would hold up all that come behind it, though SCTP itself delivers what is of other streams (RFC 9260, 6.6).
/// So messages come in the order in which they were whole.
///
/// Each TSN counts once, and a chunk that is sent again is dropped. Where a chunk's TSN is further than 65,535 behind
/// the first that isn't done, or than 1,023 behind the last that came, or more than 65,536 before, or more than
/// 1,048,576 octets would wait with it, the association is left: what waits is passed over, and one begins anew with
/// the next chunk that begins a message.
#[derive(Drop)]
pub struct SctpFlow {
    alloc: Global,
    window: Option<TsnWindow>,
    passed: u64,
    secured: u64,
}

impl Model for SctpFlow {
    ghost use Rattle.dm_association.specs.SctpFlows.{SctpFlowState};

    ghost Value = { SctpFlowState };

    ghost view = { λ f. record { window = f.window; passed = f.passed; secured = f.secured } };
}

/// The octets that were counted and so many more, 2^64 - 1 at most.
fn capped_octet_sum(passed: u64, octets: usize) -> u64
    ensures { result ≡ more_passed passed octets }
{
    passed.saturating_add(octets as u64)
}

/// Whether a chunk with this Payload Protocol Identifier may be of Diameter: it names that in clear, or tells none.
fn is_diameter_or_unspecified(protocol: u32) -> bool
    ensures { result ≡ is_clear_text protocol }
{
    protocol == DIAMETER || protocol == NO_IDENTIFIER
}

/// Whether an association may begin with this chunk, without an INIT: it begins a user message, of whatever protocol,
/// and is no longer than what may wait.
fn association_may_begin_with(chunk: DataChunk<'_>) -> bool
    ensures { result ≡ may_begin_with (data_seen chunk.entry) }
{
    chunk.beginning && chunk.user_data.len() <= MOST_WAITING
}

/// How many octets wait for others of their messages; none where no TSN is known.
fn octets_waiting_in(window: &Option<TsnWindow>) -> usize
    ensures waiting { result ≡ waiting_in_flow window.now }
    ensures most { result ≤ 1048576 }
{
    match window {
        Some(window) => window.octets_waiting(),
        None => 0,
    }
}

impl SctpFlow {
    /// A direction of which nothing came. It never answers want of memory.
    pub fn new(alloc: Global) -> SctpFlow
        ensures { result ≡ new_sctp_flow }
    {
        SctpFlow {
            alloc,
            window: None,
            passed: 0,
            secured: 0,
        }
    }

    /// How many octets were passed over, up to 2^64 - 1: those of other protocols, and those of messages that weren't
    /// whole when an association was left. It never answers want of memory.
    pub fn octets_passed_over(&self) -> u64
        ensures { result ≡ self.now.passed }
    {
        self.passed
    }

    /// How many octets of Diameter over DTLS came, up to 2^64 - 1 (RFC 6733, 11.5: 47). They aren't read. It never
    /// answers want of memory.
    pub fn octets_of_dtls(&self) -> u64
        ensures { result ≡ self.now.secured }
    {
        self.secured
    }

    /// How many octets wait for others of their messages. It never answers want of memory.
    pub fn octets_waiting(&self) -> usize
        ensures waiting { result ≡ waiting_in_flow self.now.window }
        ensures most { result ≤ 1048576 }
    {
        octets_waiting_in(&self.window)
    }

    /// Leaves the association: it ended, or another one takes its place. It never answers want of memory.
    ///
    /// What waits is passed over.
    pub fn leave_association(&mut self)
        ensures { self.new ≡ association_left self.old }
    {
        self.passed = capped_octet_sum(self.passed, octets_waiting_in(&self.window));
        self.window = None;
    }

    /// An association begins, and this is its Initial TSN in this direction (RFC 9260, 3.3.2 and 3.3.3). It never
    /// answers want of memory.
    ///
    /// What waits is passed over.
    pub fn begin_association(&mut self, initial_tsn: u32)
        ensures { self.new ≡ begun_at_tsn self.old initial_tsn }
    {
        self.leave_association();
        self.window = Some(TsnWindow::new(self.alloc, initial_tsn));
    }

    /// Takes a DATA chunk. It answers the user message that is whole with it, or None.
    ///
    /// Where memory is wanted nothing changed, or an association begins with the chunk, which wasn't taken.
    pub fn take_chunk(&mut self, chunk: DataChunk<'_>) -> Result<Option<Vec<u8>>, AllocError>
        ensures message { IfOk result (λ found. IfSome found
            (λ message. TakesChunk self.old (data_seen chunk.entry) (Some message.items) self.new)) }
        ensures none { IfOk result (λ found. IfNone found
            (TakesChunk self.old (data_seen chunk.entry) None self.new)) }
        ensures left { OnErr result (LeavesChunk self.old (data_seen chunk.entry) self.new) }
    {
        match self.place_of_chunk(chunk) {
            ChunkPlace::Wanted(at) => self.take_or_count_chunk_at(at, chunk),
            ChunkPlace::Repeated => Ok(None),
            ChunkPlace::Astray => self.restart_or_leave_association(chunk),
        }
    }

    /// Where a chunk belongs by its TSN; `Astray` too where it isn't known with which TSN the association begins.
    fn place_of_chunk(&self, chunk: DataChunk<'_>) -> ChunkPlace
        ensures { result ≡ place_in_flow self.now.window (data_seen chunk.entry) }
    {
        match &self.window {
            Some(window) => window.place_of_chunk(chunk.tsn, chunk.user_data.len()),
            None => ChunkPlace::Astray,
        }
    }

    /// Counts the octets of a chunk that isn't read: those of Diameter over DTLS as such, all others as passed over.
    fn count_unread_chunk(&mut self, chunk: DataChunk<'_>)
        ensures { self.new ≡ without_chunk (data_seen chunk.entry) self.old }
    {
        if chunk.payload_protocol == DIAMETER_OVER_DTLS {
            self.secured = capped_octet_sum(self.secured, chunk.user_data.len());
        } else {
            self.passed = capped_octet_sum(self.passed, chunk.user_data.len());
        }
    }

    /// Takes a chunk at its place, or counts it as unread where it isn't of Diameter. It answers the user message that
    /// is whole with it, or None.
    fn take_or_count_chunk_at(
        &mut self,
        at: usize,
        chunk: DataChunk<'_>,
    ) -> Result<Option<Vec<u8>>, AllocError>
        requires { HasRoomInFlow self.old.window at (length (data_seen chunk).user_data) }
        ensures message { IfOk result (λ found. IfSome found
            (λ message. TakesWanted self.old at (data_seen chunk.entry) (Some message.items) self.new)) }
        ensures none { IfOk result (λ found. IfNone found
            (TakesWanted self.old at (data_seen chunk.entry) None self.new)) }
        ensures unchanged { OnErr result (self.new ≡ self.old) }
    {
        let Some(window) = &mut self.window else {
            unreachable!()
        };
        if is_diameter_or_unspecified(chunk.payload_protocol) {
            return window.take_chunk_at(self.alloc, at, marks_of_chunk(chunk), chunk.user_data);
        }
        window.finish_tsn(at)?;
        self.count_unread_chunk(chunk);
        Ok(None)
    }

    /// Leaves the association, and begins one with the chunk where that begins a message; else it is passed over.
    /// It answers the user message that is whole with it, or None.
    fn restart_or_leave_association(
        &mut self,
        chunk: DataChunk<'_>,
    ) -> Result<Option<Vec<u8>>, AllocError>
        ensures message { IfOk result (λ found. IfSome found
            (λ message. BeginsWithChunk self.old (data_seen chunk.entry) (Some message.items) self.new)) }
        ensures none { IfOk result (λ found. IfNone found
            (BeginsWithChunk self.old (data_seen chunk.entry) None self.new)) }
        ensures left { OnErr result ((may_begin_with (data_seen chunk.entry) ≡ true)
            × (self.new ≡ begun_at_tsn self.old (data_seen chunk.entry).tsn)) }
    {
        if !association_may_begin_with(chunk) {
            self.leave_association();
            self.count_unread_chunk(chunk);
            return Ok(None);
        }
        self.begin_association(chunk.tsn);
        self.take_or_count_chunk_at(0, chunk)
    }
}
