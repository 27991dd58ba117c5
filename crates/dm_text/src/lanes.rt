//! Hexadecimal digits, sixteen at once, each in a lane of its own: its mark is 240 and its value, or less where it is
//! none.
ghost use Rattle.std.specs.Prelude.{◌≡◌, ◌==◌, ◌++◌, map};
ghost use Rattle.dm_text.specs.Hexadecimal.{digit_worth, high_digit, low_digit};
ghost use Rattle.dm_text.specs.SideBySide.{bad_marks, by_turns, paired, worth_of_mark};

use std::simd::prelude::*;

/// The sixteen digits, in lower case.
const DIGITS: [u8; 16] = *b"0123456789abcdef";

/// A mark for each digit: 240 and its value in either case; less than 240 where the octet is none.
#[inline(always)]
pub(crate) fn digit_marks(digits: u8x16) -> u8x16
    ensures { map worth_of_mark result ≡ map digit_worth digits }
{
    let numbers = (digits + u8x16::splat(198)).saturating_sub(u8x16::splat(6));
    let letters = ((digits - u8x16::splat(1)) & u8x16::splat(0xdf)) + u8x16::splat(186);
    numbers.simd_max(letters)
}

/// Whether each of the marks is a digit's.
#[inline(always)]
pub(crate) fn are_all_digits(marks: u8x16) -> bool
    ensures { result ≡ (bad_marks marks == 0) }
{
    marks.simd_lt(u8x16::splat(240)).to_bitmask() == 0
}

/// The lower mark of each lane: a digit's where both are.
#[inline(always)]
pub(crate) fn lower_mark_in_each_lane(marks: u8x16, others: u8x16) -> u8x16
    ensures both { bad_marks result ≡ 0 → (bad_marks marks ≡ 0) × (bad_marks others ≡ 0) }
    ensures each { bad_marks marks ≡ 0 → bad_marks others ≡ 0 → bad_marks result ≡ 0 }
{
    marks.simd_min(others)
}

/// The octets that thirty-two digits with these marks stand for, two by two. Marks that are no digit's give any.
#[inline(always)]
pub(crate) fn octets_of_marks(front: u8x16, back: u8x16) -> u8x16
    ensures { bad_marks front ≡ 0 → bad_marks back ≡ 0 →
        result ≡ paired (map worth_of_mark front ++ map worth_of_mark back) }
{
    let front: u8x16 = front.swizzle([0, 2, 4, 6, 8, 10, 12, 14, 1, 3, 5, 7, 9, 11, 13, 15]);
    let back: u8x16 = back.swizzle([0, 2, 4, 6, 8, 10, 12, 14, 1, 3, 5, 7, 9, 11, 13, 15]);
    let highs: u8x16 = front.shuffle(
        back,
        [0, 1, 2, 3, 4, 5, 6, 7, 16, 17, 18, 19, 20, 21, 22, 23],
    );
    let lows: u8x16 = front.shuffle(
        back,
        [8, 9, 10, 11, 12, 13, 14, 15, 24, 25, 26, 27, 28, 29, 30, 31],
    );
    highs * u8x16::splat(16) + lows + u8x16::splat(16)
}

/// The digit of each octet's upper half, in lower case.
#[inline(always)]
pub(crate) fn high_digits(octets: u8x16) -> u8x16
    ensures { result ≡ map high_digit octets }
{
    u8x16::from_array(DIGITS).swizzle_dyn(octets >> u8x16::splat(4))
}

/// The digit of each octet's lower half, in lower case.
#[inline(always)]
pub(crate) fn low_digits(octets: u8x16) -> u8x16
    ensures { result ≡ map low_digit octets }
{
    u8x16::from_array(DIGITS).swizzle_dyn(octets & u8x16::splat(15))
}

/// The lanes by turns, one of the first, one of the second: those that come of the first eight of each, and the others.
#[inline(always)]
pub(crate) fn interleaved_lanes(firsts: u8x16, seconds: u8x16) -> (u8x16, u8x16)
    ensures { result.0 ++ result.1 ≡ by_turns firsts seconds }
{
    firsts.interleave(seconds)
}
