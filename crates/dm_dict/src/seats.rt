//! Which entry of a rule names the AVPs of a code, by the code's lowest bits (RFC 6733, 3.2).
ghost use Rattle.std.specs.Prelude.{◌≡◌, ◌<◌, ℕ, slice_index};
ghost use Rattle.dm_dict.specs.Limits.{seat_slots};
ghost use Rattle.dm_dict.specs.Seats.{empty_seat, seat_with, IsSeated};

use crate::rows::Row;

/// The seat of a slot whose bits no linked entry's code has.
const EMPTY: u8 = 255;

/// The seat of a slot whose bits several may have.
pub(crate) const CROWDED: u8 = 254;

/// The seats where no entry is linked: each is empty.
fn empty_seats() -> [u8; 128]
    ensures { (i : ℕ) → i < seat_slots → slice_index result i ≡ empty_seat }
{
    [EMPTY; 128]
}

/// The entry at the place takes the slot of its code, if it is linked; the slot is crowded where there is another, and
/// where no AVP may stand there.
fn take_or_crowd_seat(seats: &mut [u8; 128], row: &Row, place: usize)
    ensures { (i : ℕ) → i < seat_slots
        → slice_index seats.new i ≡ seat_with row.now place i (slice_index seats.old i) }
{
    if row.linked {
        let slot = (row.code % 128) as usize;
        seats[slot] = if seats[slot] == EMPTY && place < 254 && row.allowed {
            place as u8
        } else {
            CROWDED
        };
    }
}

/// The seats of the entries of a rule that have these rows.
pub(crate) fn seats_of_rows(rows: &[Row]) -> [u8; 128]
    ensures { IsSeated rows.now result }
{
    let mut seats = empty_seats();
    for (place, row) in rows.iter().enumerate() {
        take_or_crowd_seat(&mut seats, row, place);
    }
    seats
}
