//! Which lowest bits the AVP Codes of definitions have, and where the first of them stands (RFC 6733, 4.1).
ghost use Rattle.std.specs.Prelude.{◌≡◌};
ghost use Rattle.dm_dict.specs.Marks.{kept_mark, AreMarked};

use dm_tables::AvpDef;

/// The last place that a mark tells.
const LAST_PLACE: usize = 65534;

/// The mark of a code's lowest bits behind the definition at the place: the first one stays, since the AVPs of the base
/// protocol are defined first and stand in each message.
fn mark_keeping_first(mark: u16, place: usize) -> u16
    ensures { result ≡ kept_mark mark place }
{
    if mark == 0 {
        place.min(LAST_PLACE) as u16 + 1
    } else {
        mark
    }
}

/// The marks of the definitions: for the lowest bits of each one's code, one more than the place of the first that has
/// them.
pub(crate) fn code_marks(avps: &[AvpDef]) -> [u16; 512]
    ensures { AreMarked avps.now result }
{
    let mut marks = [0; 512];
    for (place, avp) in avps.iter().enumerate() {
        let bits = (avp.code % 512) as usize;
        marks[bits] = mark_keeping_first(marks[bits], place);
    }
    marks
}
