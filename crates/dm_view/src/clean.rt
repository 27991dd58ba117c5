//! ASCII that needs no escape in a text or in JSON, told sixteen octets at once.
ghost use Rattle.std.specs.Prelude.{◌≡◌, ◌≤◌, ◌*◌, ◌+◌, true, length};
ghost use Rattle.std.specs.List.{All};
ghost use Rattle.dm_view.specs.Clean.{NeedsNoEscape, CleanBetween};

use std::simd::prelude::*;

/// True only where each octet lies from `least` to 126 and is no `"` and no `\`, so that none needs an escape. False
/// doesn't say that one does: octets that aren't ASCII need none.
pub(crate) fn are_escape_free_ascii(octets: &[u8], least: u8) -> bool
    requires bound { least ≤ 33 }
    ensures { result ≡ true → All (NeedsNoEscape least) octets.now }
{
    if octets.len() >= 16 {
        are_escape_free_ascii_by_sixteens(octets, least)
    } else if octets.len() >= 8 {
        are_escape_free_ascii_by_eights(octets, least)
    } else {
        are_escape_free_ascii_singly(octets, least)
    }
}

/// True only where each of these sixteen octets or more is escape-free (`are_escape_free_ascii`). Those at the end may
/// be looked at twice.
fn are_escape_free_ascii_by_sixteens(octets: &[u8], least: u8) -> bool
    requires bound { least ≤ 33 }
    requires many { 16 ≤ length octets.now }
    ensures { result ≡ true → CleanBetween least octets.now 0 (length octets.now) }
{
    if !are_sixteen_escape_free_ascii(octets, octets.len() - 16, least) {
        return false;
    }
    are_runs_escape_free_ascii(octets, (octets.len() - 1) / 16, least)
}

/// True only where each octet of the first `runs` runs of sixteen is escape-free (`are_escape_free_ascii`).
fn are_runs_escape_free_ascii(octets: &[u8], runs: usize, least: u8) -> bool
    requires bound { least ≤ 33 }
    requires within { 16 * runs ≤ length octets.now }
    ensures { result ≡ true → CleanBetween least octets.now 0 (16 * runs) }
{
    'runs: for k in 0..runs {
        if !are_sixteen_escape_free_ascii(octets, 16 * k, least) {
            return false;
        }
    }
    true
}

/// True only where each of these eight to sixteen octets is escape-free (`are_escape_free_ascii`). Some may be looked
/// at twice.
fn are_escape_free_ascii_by_eights(octets: &[u8], least: u8) -> bool
    requires bound { least ≤ 33 }
    requires many { 8 ≤ length octets.now }
    requires few { length octets.now ≤ 16 }
    ensures { result ≡ true → CleanBetween least octets.now 0 (length octets.now) }
{
    if !are_eight_escape_free_ascii(octets, octets.len() - 8, least) {
        return false;
    }
    are_eight_escape_free_ascii(octets, 0, least)
}

/// True only where each of the sixteen octets from this place on is escape-free (`are_escape_free_ascii`).
#[inline(always)]
fn are_sixteen_escape_free_ascii(octets: &[u8], from: usize, least: u8) -> bool
    requires bound { least ≤ 33 }
    requires within { from + 16 ≤ length octets.now }
    ensures { result ≡ true → CleanBetween least octets.now from (from + 16) }
{
    let lanes = u8x16::from_slice(&octets[from..]);
    let moved = lanes + u8x16::splat(129);
    let others = moved.simd_lt(u8x16::splat(least + 129)).to_bitmask();
    if others != 0 {
        return false;
    }
    let quotes = lanes.simd_eq(u8x16::splat(b'"')).to_bitmask();
    if quotes != 0 {
        return false;
    }
    lanes.simd_eq(u8x16::splat(b'\\')).to_bitmask() == 0
}

/// True only where each of the eight octets from this place on is escape-free (`are_escape_free_ascii`).
#[inline(always)]
fn are_eight_escape_free_ascii(octets: &[u8], from: usize, least: u8) -> bool
    requires bound { least ≤ 33 }
    requires within { from + 8 ≤ length octets.now }
    ensures { result ≡ true → CleanBetween least octets.now from (from + 8) }
{
    let lanes = u8x8::from_slice(&octets[from..]);
    let moved = lanes + u8x8::splat(129);
    let others = moved.simd_lt(u8x8::splat(least + 129)).to_bitmask();
    if others != 0 {
        return false;
    }
    let quotes = lanes.simd_eq(u8x8::splat(b'"')).to_bitmask();
    if quotes != 0 {
        return false;
    }
    lanes.simd_eq(u8x8::splat(b'\\')).to_bitmask() == 0
}

/// True only where each octet is escape-free (`are_escape_free_ascii`), looked at one by one.
fn are_escape_free_ascii_singly(octets: &[u8], least: u8) -> bool
    ensures { result ≡ true → CleanBetween least octets.now 0 (length octets.now) }
{
    'octets: for i in 0..octets.len() {
        let octet = octets[i];
        if octet < least || octet > 126 || octet == b'"' || octet == b'\\' {
            return false;
        }
    }
    true
}
