//! Options of a block: a code, a length, and a value that is filled up to four octets.
ghost use Rattle.std.specs.Prelude.{◌≡◌, List, None, Some, IfSome, MatchOption, length};
ghost use Rattle.dm_capture.specs.Options.{BlockOption, AreOptions, first_value};

use crate::order::{Order, u16_at};

/// The value of the first option with this code and so many octets; None where there is none.
pub(crate) fn option_value(order: Order, octets: &[u8], code: u16, size: usize) -> Option<&[u8]>
    ensures first { (options : List BlockOption) → AreOptions order octets.now options
        → MatchOption result (first_value code size options ≡ None)
        (λ value. first_value code size options ≡ Some value.now) }
    ensures size { IfSome result (λ value. length value.now ≡ size) }
{
    let mut rest = octets;
    'options: while 4 <= rest.len() {
        let found = u16_at(order, rest, 0);
        let len = u16_at(order, rest, 2) as usize;
        let end = 4 + (len + 3) / 4 * 4;
        if found == 0 || rest.len() < end {
            return None;
        }
        if found == code && len == size {
            return Some(&rest[4..4 + len]);
        }
        rest = &rest[end..];
    }
    None
}
