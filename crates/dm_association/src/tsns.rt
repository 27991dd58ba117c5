//! What came of TSNs, one after the other from the first that isn't done.
ghost use Rattle.std.specs.Prelude.{◌≡◌, ◌<◌, ◌≤◌, ◌+◌, ℕ, length, max, slice_set, OnOk, OnErr};
ghost use Rattle.dm_association.specs.TsnWindows.{tsn_at, is_missing, is_tsn_done, held_marks, slot_octets};
ghost use Rattle.dm_association.specs.TsnWindows.{waiting_octets, AreDone, PassesDone};

use crate::fragment::Fragment;
use crate::marks::ChunkMarks;
use crate::message_around::MessageExtent;
use crate::tsn_state::TsnState;
use std::alloc::AllocError;
use std::collections::VecDeque;
use std::mem;

/// The B and E bits and the stream of the fragment that waits at a place; None where none waits there.
pub(crate) fn fragment_marks_at(tsns: &VecDeque<TsnState>, at: usize) -> Option<ChunkMarks>
    ensures { result ≡ held_marks (tsn_at tsns.now.items at) }
{
    match tsns.get(at) {
        Some(TsnState::Held(fragment)) => Some(fragment.marks()),
        _ => None,
    }
}

/// Whether no chunk came at a place.
pub(crate) fn is_tsn_missing_at(tsns: &VecDeque<TsnState>, at: usize) -> bool
    ensures { result ≡ is_missing (tsn_at tsns.now.items at) }
{
    match tsns.get(at) {
        Some(TsnState::Missing) => true,
        Some(_) => false,
        None => true,
    }
}

/// The octets of the fragment that waits at a place; none where none waits there.
pub(crate) fn fragment_octets_at(tsns: &VecDeque<TsnState>, at: usize) -> &[u8]
    ensures { result.now ≡ slot_octets (tsn_at tsns.now.items at) }
{
    match tsns.get(at) {
        Some(TsnState::Held(fragment)) => fragment.octets(),
        _ => &[],
    }
}

/// Makes room up to so many TSNs, or answers want of memory and changes nothing.
pub(crate) fn grow_tsns(tsns: &mut VecDeque<TsnState>, size: usize) -> Result<(), AllocError>
    ensures same { OnOk result ((k : ℕ) → tsn_at tsns.new.items k ≡ tsn_at tsns.old.items k) }
    ensures grown { OnOk result (length tsns.new.items ≡ max size (length tsns.old.items)) }
    ensures waiting { OnOk result (waiting_octets tsns.new.items ≡ waiting_octets tsns.old.items) }
    ensures err { OnErr result (tsns.new.items ≡ tsns.old.items) }
{
    tsns.reserve(size.saturating_sub(tsns.len()))?;
    'missing: while tsns.len() < size {
        tsns.push_back_reserved(TsnState::Missing);
    }
    Ok(())
}

/// Puts a fragment at a place.
pub(crate) fn set_fragment(tsns: &mut VecDeque<TsnState>, at: usize, fragment: Fragment)
    requires { at < length tsns.old.items }
    ensures { tsns.new.items ≡ slice_set tsns.old.items at (TsnState.Held fragment) }
{
    drop(mem::replace(&mut tsns[at], TsnState::Held(fragment)));
}

/// Marks the TSN at a place as done, and answers how many octets waited there.
fn mark_tsn_done(tsns: &mut VecDeque<TsnState>, at: usize) -> usize
    requires { at < length tsns.old.items }
    ensures done { tsns.new.items ≡ slice_set tsns.old.items at TsnState.Done }
    ensures freed { result ≡ length (slot_octets (tsn_at tsns.old.items at)) }
{
    let freed = fragment_octets_at(tsns, at).len();
    drop(mem::replace(&mut tsns[at], TsnState::Done));
    freed
}

/// Marks the TSNs of an extent as done, and answers how many octets waited there in all.
pub(crate) fn mark_extent_done(tsns: &mut VecDeque<TsnState>, extent: MessageExtent) -> usize
    requires there { extent.first + extent.count ≤ length tsns.old.items }
    requires most { waiting_octets tsns.old.items ≤ 1048576 }
    ensures done { AreDone tsns.old.items extent.first extent.count tsns.new.items }
    ensures freed { result + waiting_octets tsns.new.items ≡ waiting_octets tsns.old.items }
{
    let mut freed = 0;
    'chunks: for index in 0..extent.count {
        freed += mark_tsn_done(tsns, extent.first + index);
    }
    freed
}

/// Whether the first TSN is done.
fn is_front_done(tsns: &VecDeque<TsnState>) -> bool
    ensures { result ≡ is_tsn_done (tsn_at tsns.now.items 0) }
{
    match tsns.front() {
        Some(TsnState::Done) => true,
        _ => false,
    }
}

/// Drops the TSNs at the front that are done, the first of which is `from`, and answers the first TSN behind them.
pub(crate) fn drop_done_front_tsns(tsns: &mut VecDeque<TsnState>, from: u32) -> u32
    ensures passes { PassesDone (record { next = from; tsns = tsns.old.items })
        (record { next = result; tsns = tsns.new.items }) }
    ensures waiting { waiting_octets tsns.new.items ≡ waiting_octets tsns.old.items }
    ensures fewer { length tsns.new.items ≤ length tsns.old.items }
{
    let mut next = from;
    'done: while is_front_done(tsns) {
        let _front = tsns.pop_front();
        next = next.wrapping_add(1);
    }
    next
}
