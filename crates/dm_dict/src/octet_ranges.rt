//! Whether all octets of some data lie between two, told sixteen at once.
ghost use Rattle.std.specs.Prelude.{◌≡◌, ◌≤◌, ◌-◌, ◌&&◌, true, length, drop, take};
ghost use Rattle.std.specs.Int.{is_in_range};
ghost use Rattle.std.specs.List.{list_all};
ghost use Rattle.dm_dict.specs.Lanes.{is_unmarked};

use std::simd::prelude::*;

/// Whether an octet is no less than one and no more than another.
#[inline(always)]
fn is_between(octet: u8, least: u8, most: u8) -> bool
    ensures { result ≡ is_in_range least most octet }
{
    octet >= least && octet <= most
}

/// Whether all octets lie between the two, one at a time.
#[inline(always)]
fn are_between_singly(octets: &[u8], least: u8, most: u8) -> bool
    ensures { result ≡ list_all (is_in_range least most) octets.now }
{
    octets.iter().all(|octet| is_between(*octet, least, most))
}

/// Whether all octets lie between the two, four at a time.
#[inline(always)]
fn are_between_by_fours(octets: &[u8], least: u8, most: u8) -> bool
    ensures { result ≡ list_all (is_in_range least most) octets.now }
{
    let mut left = octets;
    while let [first, second, third, fourth, rest @ ..] = left {
        if !is_between(*first, least, most)
            || !is_between(*second, least, most)
            || !is_between(*third, least, most)
            || !is_between(*fourth, least, most)
        {
            return false;
        }
        left = rest;
    }
    are_between_singly(left, least, most)
}

/// A mark for each of sixteen octets, how far it lies past the two: 0 where it lies between them.
#[inline(always)]
fn range_excess(octets: u8x16, least: u8, most: u8) -> u8x16
    requires { least ≤ most }
    ensures { is_unmarked result ≡ list_all (is_in_range least most) octets }
{
    (octets - u8x16::splat(least)).saturating_sub(u8x16::splat(most - least))
}

/// The higher mark of each lane.
#[inline(always)]
fn higher_mark_in_each_lane(marks: u8x16, others: u8x16) -> u8x16
    ensures { is_unmarked result ≡ (is_unmarked marks && is_unmarked others) }
{
    marks.simd_max(others)
}

/// Whether all marks are 0.
#[inline(always)]
fn are_marks_zero(marks: u8x16) -> bool
    ensures { result ≡ is_unmarked marks }
{
    marks.simd_gt(u8x16::splat(0)).to_bitmask() == 0
}

/// Whether all octets of a long text lie between the two, where the first and the last sixteen do.
fn are_inner_octets_between(octets: &[u8], least: u8, most: u8) -> bool
    requires order { least ≤ most }
    requires long { 16 ≤ length octets.now }
    requires first { list_all (is_in_range least most) (take 16 octets.now) ≡ true }
    requires last { list_all (is_in_range least most) (drop (length octets.now - 16) octets.now) ≡ true }
    ensures { result ≡ list_all (is_in_range least most) octets.now }
{
    let mut at = 16;
    while octets.len() - at > 16 {
        if !are_marks_zero(range_excess(u8x16::from_slice(&octets[at..]), least, most)) {
            return false;
        }
        at += 16;
    }
    true
}

/// Whether all octets, sixteen or more, lie between the two.
#[inline(always)]
fn are_between_by_sixteens(octets: &[u8], least: u8, most: u8) -> bool
    requires order { least ≤ most }
    requires long { 16 ≤ length octets.now }
    ensures { result ≡ list_all (is_in_range least most) octets.now }
{
    let first = range_excess(u8x16::from_slice(octets), least, most);
    let last = range_excess(u8x16::from_slice(&octets[octets.len() - 16..]), least, most);
    are_marks_zero(higher_mark_in_each_lane(first, last))
        && (octets.len() <= 32 || are_inner_octets_between(octets, least, most))
}

/// Whether all octets are no less than one and no more than another.
#[inline(always)]
pub(crate) fn are_between(octets: &[u8], least: u8, most: u8) -> bool
    requires { least ≤ most }
    ensures { result ≡ list_all (is_in_range least most) octets.now }
{
    if octets.len() < 16 {
        are_between_by_fours(octets, least, most)
    } else {
        are_between_by_sixteens(octets, least, most)
    }
}
