//! The bounds of the entries of a rule as counters of two octets tell them, eight beside each other (RFC 6733, 3.2).
ghost use Rattle.std.specs.Prelude.{◌≡◌, ◌≤◌, ◌*◌, ◌++◌, ◌%◌, [], true, length, replicate, IfOk};
ghost use Rattle.dm_dict.specs.Lanes.{is_unmarked, AreUnder};
ghost use Rattle.dm_dict.specs.Bounds.{in_lanes, least_bound, greatest_bound, short_of_eights, rule_bounds};
ghost use Rattle.dm_dict.specs.Bounds.{AreWithin, WithinTo};

use dm_tables::{Entry, Rule};
use dm_value::NoMemory;
use std::alloc::Global;
use std::marker::Model;
use std::simd::prelude::*;

/// For each entry of a rule, in order, the least and the greatest counter that keeps it, and behind the last as many
/// that a counter of 0 keeps as make eights.
///
/// A contract sees it as the two lists.
#[derive(Drop)]
pub(crate) struct Bounds {
    /// The least ones, and then as many greatest.
    lanes: Vec<u16>,
}

impl Model for Bounds {
    ghost use Rattle.dm_dict.specs.Bounds.{LaneBounds, AreEights, shown_bounds};

    ghost Value = { LaneBounds };

    ghost view = { λ bounds. shown_bounds bounds.lanes.items };

    ghost invariant = { AreEights };
}

/// The least counter that keeps an entry.
fn least_faultless_counter(entry: &Entry) -> u16
    ensures { result ≡ least_bound entry.now }
{
    entry.min.min(u16::MAX as u32) as u16
}

/// The greatest counter that keeps an entry; 0, under the least, where its min is more than a counter can tell.
fn greatest_faultless_counter(entry: &Entry) -> u16
    ensures { result ≡ greatest_bound entry.now }
{
    if entry.min > u16::MAX as u32 {
        return 0;
    }
    match entry.max {
        None | Some(0) => u16::MAX,
        Some(max) => max.min(u16::MAX as u32 - 1) as u16,
    }
}

/// How many more make eights.
fn lanes_short_of_eights(size: usize) -> usize
    ensures { result ≡ short_of_eights size }
{
    (8 - size % 8) % 8
}

/// Puts the bounds of the entries into lanes that are 0, the least ones from the first lane on and the greatest from
/// the one in the middle.
fn fill_bounds(lanes: &mut [u16], entries: &[Entry], room: usize)
    requires room { length entries.now ≤ room }
    requires both { lanes.old ≡ replicate (2 * room) 0 }
    ensures { lanes.new ≡ in_lanes least_bound entries.now room ++ in_lanes greatest_bound entries.now room }
{
    for (at, entry) in entries.iter().enumerate() {
        lanes[at] = least_faultless_counter(entry);
        lanes[room + at] = greatest_faultless_counter(entry);
    }
}

/// How far lanes go past those beside them: 0 in each that doesn't.
#[inline(always)]
fn lane_excess(lanes: u16x8, others: u16x8) -> u16x8
    ensures { is_unmarked result ≡ true → AreUnder lanes others }
{
    lanes.saturating_sub(others)
}

/// The marks of both, joined: all are 0 only where all of both are.
#[inline(always)]
fn joined_marks(marks: u16x8, others: u16x8) -> u16x8
    ensures first { is_unmarked result ≡ true → is_unmarked marks ≡ true }
    ensures second { is_unmarked result ≡ true → is_unmarked others ≡ true }
{
    marks | others
}

/// True only where each lane is 0.
#[inline(always)]
fn are_lanes_zero(marks: u16x8) -> bool
    ensures { result ≡ true → is_unmarked marks ≡ true }
{
    marks.simd_gt(u16x8::splat(0)).to_bitmask() == 0
}

/// How far eights of counters lie outside of their bounds: 0 in each lane where none does.
#[inline(always)]
fn bounds_excess(mins: &[u16], maxs: &[u16], counts: &[u16]) -> u16x8
    requires eights { length mins.now % 8 ≡ 0 }
    requires same { length maxs.now ≡ length mins.now }
    requires counted { length mins.now ≤ length counts.now }
    ensures { is_unmarked result ≡ true → WithinTo (length mins.now) mins.now maxs.now counts.now }
{
    let mut outside = u16x8::splat(0);
    'eights: for k in 0..mins.len() / 8 {
        let counters = u16x8::from_slice(&counts[8 * k..]);
        let under = lane_excess(u16x8::from_slice(&mins[8 * k..]), counters);
        let over = lane_excess(counters, u16x8::from_slice(&maxs[8 * k..]));
        outside = joined_marks(outside, joined_marks(under, over));
    }
    outside
}

impl Bounds {
    /// The bounds of no entries. It never answers want of memory.
    pub(crate) fn empty(alloc: Global) -> Bounds
        ensures { result ≡ rule_bounds [] }
    {
        Bounds {
            lanes: Vec::new(alloc),
        }
    }

    /// The bounds of the entries of a rule, or want of memory for them.
    pub(crate) fn of_rule(alloc: Global, rule: &Rule) -> Result<Bounds, NoMemory>
        ensures { IfOk result (λ bounds. bounds ≡ rule_bounds rule.now) }
    {
        let entries = rule.as_slice();
        let room = entries.len() + lanes_short_of_eights(entries.len());
        let mut lanes = vec![in alloc; 0; 2 * room]?;
        fill_bounds(lanes.as_mut_slice(), entries, room);
        Ok(Bounds { lanes })
    }

    /// How many bounds there are, with those behind the last entry's that make eights.
    #[inline(always)]
    pub(crate) fn padded_count(&self) -> usize
        ensures { result ≡ length self.now.mins }
    {
        self.lanes.len() / 2
    }

    /// True only where each counter that has bounds lies within them.
    #[inline(always)]
    pub(crate) fn are_seen_kept_by(&self, counts: &[u16]) -> bool
        requires { length self.now.mins ≤ length counts.now }
        ensures { result ≡ true → AreWithin self.now counts.now }
    {
        let (mins, maxs) = self.lanes.as_slice().split_at(self.lanes.len() / 2);
        are_lanes_zero(bounds_excess(mins, maxs, counts))
    }
}
