//! Decimal digits of a number, leading zeros among them.
ghost use Rattle.std.specs.Prelude.{◌≡◌, ◌+◌, ◌++◌, length, OnOk};
ghost use Rattle.std.specs.String.{string_bytes};
ghost use Rattle.dm_trace.specs.Digits.{last_digits};

use std::alloc::AllocError;
use std::str;

/// The greatest number of digits that can be asked for.
const MOST_DIGITS: usize = 255;

/// Appends so many decimal digits of a number, up to its last one.
pub(crate) fn put_last_digits(text: &mut String, count: u8, number: u64) -> Result<(), AllocError>
    ensures { OnOk result (string_bytes text.new ≡ string_bytes text.old ++ last_digits count number) }
{
    let mut room = [0; MOST_DIGITS];
    let digits = &mut room[..count as usize];
    fill_with_last_digits(digits, number);
    // Digits are ASCII.
    text.push_str(unsafe { str::from_utf8_unchecked(digits) })
}

/// Fills the room with digits of a number, its last one at the end.
fn fill_with_last_digits(room: &mut [u8], number: u64)
    ensures { room.new ≡ last_digits (length room.old) number }
{
    let mut left = number;
    let mut start = room.len();
    'digits: while start > 0 {
        start -= 1;
        room[start] = b'0' + (left % 10) as u8;
        left /= 10;
    }
}
