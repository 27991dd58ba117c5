//! The TSNs of one direction of an association (RFC 9260, 3.3.1, 6.2 and 6.9).
ghost use Rattle.std.specs.Prelude.{◌≡◌, ◌<◌, ◌≤◌, ◌+◌, length, IfOk, IfSome, IfNone, OnOk, OnErr};
ghost use Rattle.dm_association.specs.TsnWindows.{begun_window, waiting_octets, reach, place_within, place_before};
ghost use Rattle.dm_association.specs.TsnWindows.{chunk_place, HasRoomAt, FinishesTsns, PutsFragment};
ghost use Rattle.dm_association.specs.TsnWindows.{CompletesMessage, HoldsFragment};

use crate::chunk_place::ChunkPlace;
use crate::fragment::Fragment;
use crate::marks::ChunkMarks;
use crate::message_around::{MessageExtent, completed_message, completed_message_extent};
use crate::tsn_state::TsnState;
use crate::tsns::{
    drop_done_front_tsns, grow_tsns, is_tsn_missing_at, mark_extent_done, set_fragment,
};
use std::alloc::{AllocError, Global};
use std::collections::VecDeque;
use std::marker::Model;

/// The most TSNs that are kept, and how far before them one is a repetition.
const SPAN: usize = 65_536;

/// The most TSNs of which nothing came, behind the last of which something did.
const GAP: usize = 1_024;

/// The most octets that wait.
pub(crate) const MOST_WAITING: usize = 1_048_576;

/// What came of the TSNs of one direction, from the first on that isn't done.
#[derive(Drop)]
pub(crate) struct TsnWindow {
    next: u32,
    tsns: VecDeque<TsnState>,
    waiting: usize,
}

impl Model for TsnWindow {
    ghost use Rattle.dm_association.specs.TsnWindows.{TsnWindowState};

    ghost Value = { TsnWindowState };

    ghost view = { λ w. record { next = w.next; tsns = w.tsns.items } };

    ghost use Rattle.dm_association.specs.TsnWindows.{IsWithinLimits};

    ghost invariant = { λ w. IsWithinLimits w.tsns.items w.waiting };
}

impl TsnWindow {
    /// Nothing came, and this TSN is the first.
    pub(crate) fn new(alloc: Global, next: u32) -> TsnWindow
        ensures { result ≡ begun_window next }
    {
        TsnWindow {
            next,
            tsns: VecDeque::new(alloc),
            waiting: 0,
        }
    }

    /// How many octets wait.
    pub(crate) fn octets_waiting(&self) -> usize
        ensures waiting { result ≡ waiting_octets self.now.tsns }
        ensures most { result ≤ 1048576 }
    {
        self.waiting
    }

    /// Where a chunk of so many octets belongs whose TSN is `at` behind the first that isn't done.
    fn place_in_window(&self, at: usize, size: usize) -> ChunkPlace
        ensures { result ≡ place_within self.now at size }
    {
        if !is_tsn_missing_at(&self.tsns, at) {
            return ChunkPlace::Repeated;
        }
        if MOST_WAITING < size || MOST_WAITING - size < self.waiting {
            return ChunkPlace::Astray;
        }
        ChunkPlace::Wanted(at)
    }

    /// Where a chunk belongs whose TSN isn't among those from the first that isn't done on: `Repeated` where it is at
    /// most 65,536 before it, else `Astray`.
    fn place_outside_window(&self, tsn: u32) -> ChunkPlace
        ensures { result ≡ place_before self.now.next tsn }
    {
        if self.next.wrapping_sub(tsn) as usize <= SPAN {
            ChunkPlace::Repeated
        } else {
            ChunkPlace::Astray
        }
    }

    /// How many TSNs the window has, from the first that isn't done on: a chunk of one of these may be taken. It grows
    /// with what came.
    fn window_end(&self) -> usize
        ensures { result ≡ reach self.now.tsns }
    {
        SPAN.min(self.tsns.len() + GAP)
    }

    /// Where a chunk with this TSN and so many octets belongs.
    pub(crate) fn place_of_chunk(&self, tsn: u32, size: usize) -> ChunkPlace
        ensures { result ≡ chunk_place self.now tsn size }
    {
        let at = tsn.wrapping_sub(self.next) as usize;
        if at < self.window_end() {
            self.place_in_window(at, size)
        } else {
            self.place_outside_window(tsn)
        }
    }

    /// Marks the TSNs of an extent as done, and drops those at the front that are done. Where memory is wanted nothing
    /// changes.
    fn finish_extent(&mut self, extent: MessageExtent) -> Result<(), AllocError>
        requires { extent.first + extent.count ≤ 65536 }
        ensures finished { OnOk result (FinishesTsns self.old extent.first extent.count self.new) }
        ensures err { OnErr result (self.new ≡ self.old) }
    {
        grow_tsns(&mut self.tsns, extent.first + extent.count)?;
        let freed = mark_extent_done(&mut self.tsns, extent);
        self.waiting -= freed;
        self.next = drop_done_front_tsns(&mut self.tsns, self.next);
        Ok(())
    }

    /// Marks the TSN at a place as done; nothing of it is kept. Where memory is wanted nothing changes.
    pub(crate) fn finish_tsn(&mut self, at: usize) -> Result<(), AllocError>
        requires { at < 65536 }
        ensures passed { OnOk result (FinishesTsns self.old at 1 self.new) }
        ensures err { OnErr result (self.new ≡ self.old) }
    {
        self.finish_extent(MessageExtent {
            first: at,
            count: 1,
        })
    }

    /// Keeps a fragment at a place.
    fn hold_fragment(
        &mut self,
        alloc: Global,
        at: usize,
        own: ChunkMarks,
        octets: &[u8],
    ) -> Result<(), AllocError>
        requires { HasRoomAt self.old at (length octets.now) }
        ensures held { OnOk result
            (PutsFragment self.old at (record { marks = own; octets = octets.now }) self.new) }
        ensures err { OnErr result (self.new ≡ self.old) }
    {
        let fragment = Fragment::new(alloc, own, octets)?;
        grow_tsns(&mut self.tsns, at + 1)?;
        set_fragment(&mut self.tsns, at, fragment);
        self.waiting += octets.len();
        Ok(())
    }

    /// Takes a chunk at a place, and answers the user message that is whole with it; None where the chunk waits for
    /// others. Where memory is wanted nothing changes.
    pub(crate) fn take_chunk_at(
        &mut self,
        alloc: Global,
        at: usize,
        own: ChunkMarks,
        octets: &[u8],
    ) -> Result<Option<Vec<u8>>, AllocError>
        requires { HasRoomAt self.old at (length octets.now) }
        ensures message { IfOk result (λ found. IfSome found (λ message.
            CompletesMessage self.old at (record { marks = own; octets = octets.now }) message.items self.new)) }
        ensures none { IfOk result (λ found. IfNone found
            (HoldsFragment self.old at (record { marks = own; octets = octets.now }) self.new)) }
        ensures err { OnErr result (self.new ≡ self.old) }
    {
        match completed_message_extent(&self.tsns, at, own) {
            Some(extent) => {
                let message = completed_message(alloc, &self.tsns, at, octets, extent)?;
                self.finish_extent(extent)?;
                Ok(Some(message))
            }
            None => {
                self.hold_fragment(alloc, at, own, octets)?;
                Ok(None)
            }
        }
    }
}
