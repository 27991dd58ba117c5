//! Numbers as decimal text.
ghost use Rattle.std.specs.Prelude.{◌≡◌, ◌≤◌, ◌+◌, ◌%◌, ◌++◌, drop, OnOk};
ghost use Rattle.std.specs.Fmt.{decimal};
ghost use Rattle.std.specs.String.{string_bytes};

use std::alloc::AllocError;
use std::str;

/// Appends the number in decimal, without leading zeros.
pub fn push_decimal(text: &mut Vec<u8>, number: u64) -> Result<(), AllocError>
    ensures { OnOk result (text.new.items ≡ text.old.items ++ decimal number) }
{
    if number < 10 {
        return text.extend_from_slice(&[last_digit(number)]);
    }
    if number < 100 {
        return text.extend_from_slice(&[last_digit(number / 10), last_digit(number)]);
    }
    if number >= 1000 {
        push_decimal(text, number / 1000)?;
    }
    text.extend_from_slice(&[
        last_digit(number / 100),
        last_digit(number / 10),
        last_digit(number),
    ])
}

/// The last decimal digit of the number.
#[inline(always)]
fn last_digit(number: u64) -> u8
    ensures { result ≡ 48 + number % 10 }
{
    b'0' + (number % 10) as u8
}

/// Appends the number in decimal, without leading zeros, to text.
pub fn put_decimal(text: &mut String, number: u64) -> Result<(), AllocError>
    ensures { OnOk result (string_bytes text.new ≡ string_bytes text.old ++ decimal number) }
{
    let mut room = [0; 20];
    let start = fill_end_with_decimal(number, &mut room);
    // Digits are ASCII.
    text.push_str(unsafe { str::from_utf8_unchecked(&room[start..]) })
}

/// Puts the number's digits at the end of the room, and tells where they start.
fn fill_end_with_decimal(number: u64, room: &mut [u8; 20]) -> usize
    ensures bound { result ≤ 20 }
    ensures digits { drop result room.new ≡ decimal number }
{
    let mut left = number;
    let mut start = 20;
    'digits: while left >= 10 {
        start -= 1;
        room[start] = last_digit(left);
        left /= 10;
    }
    room[start - 1] = last_digit(left);
    start - 1
}
