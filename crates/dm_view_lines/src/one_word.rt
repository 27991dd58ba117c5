//! Whether a line is one word of digits and nothing else, told sixteen octets at once.
ghost use Rattle.std.specs.Prelude.{◌≡◌, ◌≤◌, ◌*◌, true, false, length, map, nat_lt};
ghost use Rattle.dm_text.specs.Hexadecimal.{word_octets};
ghost use Rattle.dm_view_lines.specs.Digits.{octets_of_line, without_mark, without_prefix};
ghost use Rattle.dm_view_lines.specs.OneWord.{low_marks, ends_digits, NoneEnds};

use std::simd::prelude::*;

/// True only where a line stands for what one word of all its octets does: they are sixteen or more, nothing stands in
/// front of the digits, and none may stand between words or begin a comment. Other lines have to be looked at again.
pub(crate) fn is_surely_one_long_word(line: &[u8]) -> bool
    ensures { result ≡ true → octets_of_line line.now ≡ word_octets line.now }
{
    if line.len() < 16 {
        return false;
    }
    if may_have_mark_or_prefix(line) {
        return false;
    }
    has_surely_no_word_end(line)
}

/// False only where neither a byte order mark nor `0x` stands in front.
fn may_have_mark_or_prefix(line: &[u8]) -> bool
    ensures mark { result ≡ false → without_mark line.now ≡ line.now }
    ensures prefix { result ≡ false → without_prefix line.now ≡ line.now }
{
    match line {
        [a, b, ..] => *a == 0xef || (*b == b'x' || *b == b'X'),
        _ => false,
    }
}

/// True only where no octet of the line ends a word. Of other lines it says nothing.
fn has_surely_no_word_end(line: &[u8]) -> bool
    requires { 16 ≤ length line.now }
    ensures { result ≡ true → NoneEnds line.now (length line.now) }
{
    let last = word_end_marks(u8x16::from_slice(&line[line.len() - 16..]));
    let first = word_end_marks(u8x16::from_slice(line));
    if !are_marks_high(lower_marks(first, last)) {
        return false;
    }
    let lowest = lowest_run_marks(line, (line.len() - 1) / 16);
    are_marks_high(lower_marks(lowest, last))
}

/// The lowest mark of each lane in so many runs of sixteen octets.
fn lowest_run_marks(line: &[u8], runs: usize) -> u8x16
    requires { 16 * runs ≤ length line.now }
    ensures { low_marks result ≡ 0 → NoneEnds line.now (16 * runs) }
{
    let mut lowest = u8x16::splat(255);
    'runs: for k in 0..runs {
        let marks = word_end_marks(u8x16::from_slice(&line[16 * k..]));
        lowest = lower_marks(lowest, marks);
    }
    lowest
}

/// A mark for each octet: less than 128 where it may end a word.
#[inline(always)]
fn word_end_marks(octets: u8x16) -> u8x16
    ensures { map (λ mark. nat_lt mark 128) result ≡ map ends_digits octets }
{
    let numbers = (octets + u8x16::splat(198)).saturating_sub(u8x16::splat(118));
    numbers.simd_max(octets + octets)
}

/// The lower mark of each lane.
#[inline(always)]
fn lower_marks(marks: u8x16, others: u8x16) -> u8x16
    ensures first { low_marks result ≡ 0 → low_marks marks ≡ 0 }
    ensures second { low_marks result ≡ 0 → low_marks others ≡ 0 }
{
    marks.simd_min(others)
}

/// True only where no mark is less than 128.
#[inline(always)]
fn are_marks_high(marks: u8x16) -> bool
    ensures { result ≡ true → low_marks marks ≡ 0 }
{
    marks.simd_lt(u8x16::splat(128)).to_bitmask() == 0
}
