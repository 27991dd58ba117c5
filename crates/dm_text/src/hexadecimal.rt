//! Octets in hexadecimal, read from digits and written as them.
ghost use Rattle.std.specs.Prelude.{◌≡◌, ◌≤◌, ◌+◌, ◌*◌, ◌++◌, ℕ, true, false, Some, None, length, max, if◌then◌else◌};
ghost use Rattle.std.specs.Prelude.{◌^◌, OnOk, IfOk, IfSome, IfNone};
ghost use Rattle.std.specs.Fmt.{WritesOnOk};
ghost use Rattle.std.specs.Option.{option_map};
ghost use Rattle.std.specs.String.{string_bytes};
ghost use Rattle.hex.specs.Hex.{encode_lower};
ghost use Rattle.dm_text.specs.Hexadecimal.{word_octets};
ghost use Rattle.dm_text.specs.SideBySide.{bad_marks, AreRead, HasBadDigit, PutUpTo};
ghost use Rattle.dm_text.specs.declared.hexadecimal.TheConstants.{OCTETS_AT_ONCE as octets_at_once};

use crate::digit::{hex_digit_value_or_255, hex_digits_of};
use crate::lanes::{
    are_all_digits, digit_marks, high_digits, interleaved_lanes, low_digits,
    lower_mark_in_each_lane, octets_of_marks,
};
use std::alloc::{AllocError, Global};
use std::simd::prelude::*;
use std::{fmt, str};

/// How many octets are turned into digits at once.
const OCTETS_AT_ONCE: usize = 64;

/// The octets that a word of hexadecimal digits in either case stands for.
///
/// None where a digit is bad or their number is odd.
pub fn read_hex_word(alloc: Global, word: &[u8]) -> Result<Option<Vec<u8>>, AllocError>
    ensures { IfOk result (λ octets. option_map (λ v. v.items) octets ≡ word_octets word.now) }
{
    if word.len() % 2 != 0 {
        return Ok(None);
    }
    let mut octets = vec![in alloc; 0; word.len() / 2]?;
    let good = read_hex_digits(word, octets.as_mut_slice());
    if good { Ok(Some(octets)) } else { Ok(None) }
}

/// Puts the octets that a word stands for in place of what `octets` holds. False where a digit is bad or their number
/// is odd.
pub(crate) fn set_octets_from_hex(word: &[u8], octets: &mut Vec<u8>) -> Result<bool, AllocError>
    ensures { IfOk result (λ good. word_octets word.now ≡ (if good then Some octets.new.items else None)) }
{
    if word.len() % 2 != 0 {
        return Ok(false);
    }
    octets.resize(word.len() / 2, 0)?;
    Ok(read_hex_digits(word, octets.as_mut_slice()))
}

/// Reads two digits for each octet of the room. False where a digit is bad.
fn read_hex_digits(word: &[u8], octets: &mut [u8]) -> bool
    requires { length word.now ≡ 2 * length octets.old }
    ensures { word_octets word.now ≡ (if result then Some octets.new else None) }
{
    if octets.len() >= 16 {
        read_sixteen_octets_or_more(word, octets)
    } else if octets.len() >= 8 {
        read_first_and_last_eight_octets(word, octets)
    } else {
        read_digits_one_by_one(word, octets)
    }
}

/// Reads the digits of sixteen octets at least. False where a digit is bad.
fn read_sixteen_octets_or_more(word: &[u8], octets: &mut [u8]) -> bool
    requires twice { length word.now ≡ 2 * length octets.old }
    requires many { 16 ≤ length octets.old }
    ensures { word_octets word.now ≡ (if result then Some octets.new else None) }
{
    let runs = (octets.len() - 1) / 16;
    let last = octets.len() - 16;
    if !read_runs_of_sixteen_octets(word, octets, runs) {
        return false;
    }
    are_all_digits(read_sixteen_octets_and_marks(word, octets, last))
}

/// Reads the digits of so many runs of sixteen octets. False where a digit is bad.
fn read_runs_of_sixteen_octets(word: &[u8], octets: &mut [u8], runs: usize) -> bool
    requires twice { length word.now ≡ 2 * length octets.old }
    requires within { 16 * runs ≤ length octets.old }
    ensures good { result ≡ true → AreRead word.now octets.new (16 * runs) }
    ensures bad { result ≡ false → HasBadDigit word.now }
{
    'runs: for k in 0..runs {
        if !are_all_digits(read_sixteen_octets_and_marks(word, octets, 16 * k)) {
            return false;
        }
    }
    true
}

/// Reads the digits of sixteen octets from here on, which may have been read. Gives marks that are good where each
/// digit is.
#[inline(always)]
fn read_sixteen_octets_and_marks(word: &[u8], octets: &mut [u8], from: usize) -> u8x16
    requires twice { length word.now ≡ 2 * length octets.old }
    requires within { from + 16 ≤ length octets.old }
    ensures good { bad_marks result ≡ 0 → (i : ℕ) → from ≤ i → AreRead word.now octets.old i →
        AreRead word.now octets.new (from + 16) }
    ensures bad { ¬ (bad_marks result ≡ 0) → HasBadDigit word.now }
{
    let front = digit_marks(u8x16::from_slice(&word[2 * from..]));
    let back = digit_marks(u8x16::from_slice(&word[2 * from + 16..]));
    octets_of_marks(front, back).copy_to_slice(&mut octets[from..]);
    lower_mark_in_each_lane(front, back)
}

/// Reads the digits of the first eight octets and of the last eight, which may have some in common. False where a digit
/// is bad.
fn read_first_and_last_eight_octets(word: &[u8], octets: &mut [u8]) -> bool
    requires twice { length word.now ≡ 2 * length octets.old }
    requires many { 8 ≤ length octets.old }
    requires few { length octets.old ≤ 16 }
    ensures { word_octets word.now ≡ (if result then Some octets.new else None) }
{
    let last = octets.len() - 8;
    let front = digit_marks(u8x16::from_slice(word));
    let back = digit_marks(u8x16::from_slice(&word[2 * last..]));
    let read = octets_of_marks(front, back);
    read.extract::<0, 8>().copy_to_slice(octets);
    read.extract::<8, 8>().copy_to_slice(&mut octets[last..]);
    are_all_digits(lower_mark_in_each_lane(front, back))
}

/// Reads the digits one by one. False where a digit is bad.
fn read_digits_one_by_one(word: &[u8], octets: &mut [u8]) -> bool
    requires { length word.now ≡ 2 * length octets.old }
    ensures { word_octets word.now ≡ (if result then Some octets.new else None) }
{
    let mut worst = 0;
    'octets: for i in 0..octets.len() {
        let high = hex_digit_value_or_255(word[2 * i]);
        let low = hex_digit_value_or_255(word[2 * i + 1]);
        worst = larger_octet(worst, larger_octet(high, low));
        octets[i] = high % 16 * 16 + low % 16;
    }
    worst < 16
}

/// The larger of two octets.
#[inline(always)]
fn larger_octet(one: u8, other: u8) -> u8
    ensures { result ≡ max one other }
{
    if one < other { other } else { one }
}

/// Octets as text: lower case hexadecimal.
#[derive(Clone, Copy)]
pub struct Hexadecimal<'a>(pub &'a [u8]);

impl fmt::Display for Hexadecimal<'_> {
    ghost output = { λ text. Some (encode_lower text.0.now) };

    fn fmt<W: fmt::Write>(&self, f: &mut fmt::Formatter<W>) -> fmt::Result {
        let mut rest = self.0;
        while !rest.is_empty() {
            let (some, more) = rest.split_at(rest.len().min(OCTETS_AT_ONCE));
            write_hex_at_once(f, some)?;
            rest = more;
        }
        Ok(())
    }
}

/// Writes octets in lower case hexadecimal, 64 at most.
fn write_hex_at_once<W: fmt::Write>(f: &mut fmt::Formatter<W>, octets: &[u8]) -> fmt::Result
    requires { length octets.now ≤ octets_at_once }
    ensures { WritesOnOk W.Write.write_str_gives f.old result (encode_lower octets.now) f.new }
{
    let mut digits = [0; 2 * OCTETS_AT_ONCE];
    let room = &mut digits[..2 * octets.len()];
    fill_hex_digits(octets, room);
    // Digits are ASCII.
    f.write_str(unsafe { str::from_utf8_unchecked(room) })
}

/// Appends the octets in lower case hexadecimal.
pub fn push_hexadecimal(text: &mut Vec<u8>, octets: &[u8]) -> Result<(), AllocError>
    ensures { OnOk result (text.new.items ≡ text.old.items ++ encode_lower octets.now) }
{
    let start = text.len();
    let Some(end) = hex_digits_end(start, octets.len()) else {
        return Err(AllocError);
    };
    text.resize(end, 0)?;
    fill_hex_digits(octets, &mut text.as_mut_slice()[start..]);
    Ok(())
}

/// Appends the octets in lower case hexadecimal to text.
pub fn put_hexadecimal(text: &mut String, octets: &[u8]) -> Result<(), AllocError>
    ensures { OnOk result (string_bytes text.new ≡ string_bytes text.old ++ encode_lower octets.now) }
{
    let mut rest = octets;
    while !rest.is_empty() {
        let (some, left) = rest.split_at(rest.len().min(OCTETS_AT_ONCE));
        put_hex_at_once(text, some)?;
        rest = left;
    }
    Ok(())
}

/// Appends octets in lower case hexadecimal, 64 at most.
fn put_hex_at_once(text: &mut String, octets: &[u8]) -> Result<(), AllocError>
    requires { length octets.now ≤ octets_at_once }
    ensures { OnOk result (string_bytes text.new ≡ string_bytes text.old ++ encode_lower octets.now) }
{
    let mut digits = [0; 2 * OCTETS_AT_ONCE];
    let room = &mut digits[..2 * octets.len()];
    fill_hex_digits(octets, room);
    // Digits are ASCII.
    text.push_str(unsafe { str::from_utf8_unchecked(room) })
}

/// Where the digits of so many octets end; None where no number has that many.
fn hex_digits_end(start: usize, octets: usize) -> Option<usize>
    ensures end { IfSome result (λ end. end ≡ start + 2 * octets) }
    ensures none { IfNone result (2 ^ 64 ≤ start + 2 * octets) }
{
    octets.checked_mul(2)?.checked_add(start)
}

/// Puts two digits for each octet in the room.
fn fill_hex_digits(octets: &[u8], room: &mut [u8])
    requires { length room.old ≡ 2 * length octets.now }
    ensures { room.new ≡ encode_lower octets.now }
{
    let runs = octets.len() / 16;
    fill_hex_digits_by_sixteens(octets, room, runs);
    fill_hex_digits_from(octets, room, 16 * runs);
}

/// Puts the digits of so many runs of sixteen octets.
fn fill_hex_digits_by_sixteens(octets: &[u8], room: &mut [u8], runs: usize)
    requires twice { length room.old ≡ 2 * length octets.now }
    requires within { 16 * runs ≤ length octets.now }
    ensures { PutUpTo octets.now room.new (16 * runs) }
{
    'runs: for k in 0..runs {
        let run = u8x16::from_slice(&octets[16 * k..]);
        let (front, back) = interleaved_lanes(high_digits(run), low_digits(run));
        front.copy_to_slice(&mut room[32 * k..]);
        back.copy_to_slice(&mut room[32 * k + 16..]);
    }
}

/// Puts the digits of the octets from here on.
fn fill_hex_digits_from(octets: &[u8], room: &mut [u8], from: usize)
    requires twice { length room.old ≡ 2 * length octets.now }
    requires within { from ≤ length octets.now }
    requires put { PutUpTo octets.now room.old from }
    ensures { room.new ≡ encode_lower octets.now }
{
    'octets: for i in from..octets.len() {
        let [high, low] = hex_digits_of(octets[i]);
        room[2 * i] = high;
        room[2 * i + 1] = low;
    }
}
