//! What stands behind an AVP's name in its line: code, vendor and flags (RFC 6733, 4.1), put together before it is
//! appended.
ghost use Rattle.std.specs.Prelude.{◌≡◌, ◌++◌, ◌∷◌, ◌+◌, ◌≤◌, drop, OnOk};
ghost use Rattle.std.specs.Fmt.{decimal};
ghost use Rattle.std.specs.Str.{IsAscii};
ghost use Rattle.std.specs.String.{string_bytes};
ghost use Rattle.dm_wire.specs.Borrowed.{avp_of};
ghost use Rattle.dm_wire.specs.Printed.{avp_marks, avp_front_text, vendor_text};
ghost use Rattle.dm_view.specs.declared.code_and_flags.TheConstants.{LETTERS as letters, FRONT_SIZE as front_size};

use dm_wire::{AvpRef, avp_letters};
use itoa::write_digits;
use std::alloc::AllocError;
use std::str;

/// Where the letters of an AVP's flags begin in the room for what stands behind its name: 22 octets before it are what
/// code and vendor take at most.
const LETTERS: usize = 22;

/// So many octets stand behind a name at most.
const FRONT_SIZE: usize = 26;

/// Room for what stands behind a name, the letters of an AVP's flags at its end.
fn room_with_flags_at_end(vendor: bool, mandatory: bool, protected: bool) -> [u8; FRONT_SIZE]
    ensures put { drop letters result ≡ 32 ∷ avp_marks vendor mandatory protected }
    ensures ascii { IsAscii (avp_marks vendor mandatory protected) }
{
    let mut room = [b' '; FRONT_SIZE];
    let [v, m, p] = avp_letters(vendor, mandatory, protected);
    room[LETTERS + 1] = v;
    room[LETTERS + 2] = m;
    room[LETTERS + 3] = p;
    room
}

/// Puts a sign and a number in decimal before this place, and tells where they start.
fn prepend_sign_and_number(sign: u8, number: u32, room: &mut [u8; FRONT_SIZE], end: usize) -> usize
    requires many { 11 ≤ end }
    requires within { end ≤ front_size }
    ensures put { drop result room.new ≡ sign ∷ decimal number ++ drop end room.old }
    ensures ascii { IsAscii (decimal number) }
    ensures bound { end ≤ result + 11 }
    ensures before { result ≤ end }
{
    let start = write_digits(u64::from(number), room, end) - 1;
    room[start] = sign;
    start
}

/// Puts a vendor behind a `/`, where there is one, before the letters, and tells where it starts.
fn prepend_vendor_if_any(vendor: Option<u32>, room: &mut [u8; FRONT_SIZE]) -> usize
    ensures put { drop result room.new ≡ vendor_text vendor ++ drop letters room.old }
    ensures ascii { IsAscii (vendor_text vendor) }
    ensures bound { letters ≤ result + 11 }
    ensures before { result ≤ letters }
{
    match vendor {
        Some(vendor) => prepend_sign_and_number(b'/', vendor, room, LETTERS),
        None => LETTERS,
    }
}

/// Appends code, vendor and flags, a space before them.
pub(crate) fn put_spaced_code_vendor_and_flags(
    text: &mut String,
    avp: AvpRef<'_>,
) -> Result<(), AllocError>
    ensures { OnOk result (string_bytes text.new
        ≡ string_bytes text.old ++ 32 ∷ avp_front_text (avp_of avp.entry)) }
{
    let mut room = room_with_flags_at_end(avp.vendor.is_some(), avp.mandatory, avp.protected);
    let vendor = prepend_vendor_if_any(avp.vendor, &mut room);
    let start = prepend_sign_and_number(b' ', avp.code, &mut room, vendor);
    // Digits and letters are ASCII.
    text.push_str(unsafe { str::from_utf8_unchecked(&room[start..]) })
}
