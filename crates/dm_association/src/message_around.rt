//! The user message that a chunk completes, with the fragments that wait for it (RFC 9260, 6.9).
ghost use Rattle.std.specs.Prelude.{◌≡◌, ◌<◌, ◌≤◌, ◌+◌, ◌++◌, ◌&&◌, false, length, max, cond};
ghost use Rattle.std.specs.Prelude.{IfOk, IfSome, IfNone, OnOk};
ghost use Rattle.dm_association.specs.Fragments.{IsUserMessage, user_message};
ghost use Rattle.dm_association.specs.MessageRuns.{IsRunAround};
ghost use Rattle.dm_association.specs.TsnWindows.{marks_with, octets_with, CompletesNone};

use crate::marks::ChunkMarks;
use crate::tsn_state::TsnState;
use crate::tsns::{fragment_marks_at, fragment_octets_at};
use std::alloc::{AllocError, Global};
use std::collections::VecDeque;

/// A user message: so many chunks from the first on.
#[derive(Clone, Copy)]
pub(crate) struct MessageExtent {
    pub(crate) first: usize,
    pub(crate) count: usize,
}

/// Fragments that may belong to one message, and whether its ends are among them.
#[derive(Clone, Copy)]
pub(crate) struct ChunkRun {
    pub(crate) first: usize,
    pub(crate) last: usize,
    pub(crate) begun: bool,
    pub(crate) ended: bool,
}

/// Whether both ends of a message are there.
fn is_whole(run: ChunkRun) -> bool
    ensures { result ≡ (run.begun && run.ended) }
{
    run.begun && run.ended
}

/// The run with the fragment before it, where its own first isn't the beginning, else as it is; `None` where none there
/// goes with it.
fn run_with_needed_fragment_before(
    tsns: &VecDeque<TsnState>,
    at: usize,
    own: ChunkMarks,
    run: ChunkRun,
) -> Option<ChunkRun>
    requires { IsRunAround tsns.now.items at own run }
    ensures run { IfSome result (λ wider. IsRunAround tsns.now.items at own wider) }
    ensures first { IfSome result (λ wider. wider.first + cond run.begun 0 1 ≡ run.first) }
    ensures last { IfSome result (λ wider. (wider.last ≡ run.last) × (wider.ended ≡ run.ended)) }
    ensures none { IfNone result (CompletesNone tsns.now.items at own) }
{
    if run.begun {
        return Some(run);
    }
    if run.first == 0 {
        return None;
    }
    let first = run.first - 1;
    match fragment_marks_at(tsns, first) {
        Some(marks) if !marks.ending && marks.stream == own.stream => Some(ChunkRun {
            first,
            last: run.last,
            begun: marks.beginning,
            ended: run.ended,
        }),
        _ => None,
    }
}

/// The run with the fragment behind it, where its own last isn't the end, else as it is; `None` where none there goes
/// with it.
fn run_with_needed_fragment_behind(
    tsns: &VecDeque<TsnState>,
    at: usize,
    own: ChunkMarks,
    run: ChunkRun,
) -> Option<ChunkRun>
    requires around { IsRunAround tsns.now.items at own run }
    requires near { at < 65536 }
    requires span { length tsns.now.items ≤ 65536 }
    ensures run { IfSome result (λ wider. IsRunAround tsns.now.items at own wider) }
    ensures first { IfSome result (λ wider. (wider.first ≡ run.first) × (wider.begun ≡ run.begun)) }
    ensures last { IfSome result (λ wider. wider.last ≡ run.last + cond run.ended 0 1) }
    ensures none { IfNone result (CompletesNone tsns.now.items at own) }
{
    if run.ended {
        return Some(run);
    }
    let last = run.last + 1;
    match fragment_marks_at(tsns, last) {
        Some(marks) if !marks.beginning && marks.stream == own.stream => Some(ChunkRun {
            first: run.first,
            last,
            begun: run.begun,
            ended: marks.ending,
        }),
        _ => None,
    }
}

/// The run with the fragments before and behind it that are needed; `None` where one is missing or goes with another.
fn run_with_neighbours(
    tsns: &VecDeque<TsnState>,
    at: usize,
    own: ChunkMarks,
    run: ChunkRun,
) -> Option<ChunkRun>
    requires around { IsRunAround tsns.now.items at own run }
    requires near { at < 65536 }
    requires span { length tsns.now.items ≤ 65536 }
    ensures run { IfSome result (λ wider. IsRunAround tsns.now.items at own wider) }
    ensures wider { IfSome result (λ wider. (run.begun && run.ended) ≡ false
        → wider.first + run.last < run.first + wider.last) }
    ensures none { IfNone result (CompletesNone tsns.now.items at own) }
{
    match run_with_needed_fragment_before(tsns, at, own, run) {
        Some(wider) => run_with_needed_fragment_behind(tsns, at, own, wider),
        None => None,
    }
}

/// The user message that a chunk with these marks completes, where it belongs at this place; `None` where it completes
/// none. Fragments before it and behind it are looked at by turns, so that a side with a gap ends the search.
pub(crate) fn completed_message_extent(
    tsns: &VecDeque<TsnState>,
    at: usize,
    own: ChunkMarks,
) -> Option<MessageExtent>
    requires near { at < 65536 }
    requires span { length tsns.now.items ≤ 65536 }
    ensures message { IfSome result (λ extent.
        IsUserMessage (marks_with tsns.now.items at own) extent.first extent.count) }
    ensures around { IfSome result (λ extent. (extent.first ≤ at) × (at < extent.first + extent.count)) }
    ensures most { IfSome result (λ extent. extent.first + extent.count ≤ max (at + 1) (length tsns.now.items)) }
    ensures none { IfNone result (CompletesNone tsns.now.items at own) }
{
    let mut run = ChunkRun {
        first: at,
        last: at,
        begun: own.beginning,
        ended: own.ending,
    };
    'turns: while !is_whole(run) {
        match run_with_neighbours(tsns, at, own, run) {
            Some(wider) => run = wider,
            None => return None,
        }
    }
    Some(MessageExtent {
        first: run.first,
        count: run.last - run.first + 1,
    })
}

/// Appends the octets that wait at the place `index`; at `place`, those of the chunk that belongs there.
fn push_chunk_octets(
    message: &mut Vec<u8>,
    tsns: &VecDeque<TsnState>,
    place: usize,
    octets: &[u8],
    index: usize,
) -> Result<(), AllocError>
    ensures { OnOk result (message.new.items
        ≡ message.old.items ++ octets_with tsns.now.items place octets.now index) }
{
    if index == place {
        message.extend_from_slice(octets)
    } else {
        message.extend_from_slice(fragment_octets_at(tsns, index))
    }
}

/// The user message at this extent, which is complete with these octets at a place.
pub(crate) fn completed_message(
    alloc: Global,
    tsns: &VecDeque<TsnState>,
    place: usize,
    octets: &[u8],
    extent: MessageExtent,
) -> Result<Vec<u8>, AllocError>
    requires { extent.first + extent.count ≤ 65536 }
    ensures { IfOk result (λ message. message.items
        ≡ user_message (octets_with tsns.now.items place octets.now) extent.first extent.count) }
{
    let mut message = Vec::new(alloc);
    'chunks: for index in 0..extent.count {
        push_chunk_octets(&mut message, tsns, place, octets, extent.first + index)?;
    }
    Ok(message)
}
