//! The sum of the octets that all connections hold, kept as one of them takes or hands out octets.
ghost use Rattle.std.specs.Prelude.{◌≡◌, ◌+◌, ◌<◌, ◌≤◌, ◌^◌, OnOk, OnErr, IfOk, IfSome, IfNone};

use crate::table_traits::{Takes, TwoWay};
use std::alloc::AllocError;

/// The sum with one of its parts replaced: `before` by `after`.
pub(crate) fn sum_with_part_replaced(sum: u128, before: u64, after: u64) -> u128
    requires part { before ≤ sum }
    requires fits { sum + after < 2 ^ 128 }
    ensures { result + before ≡ sum + after }
{
    sum - before as u128 + after as u128
}

/// The connection takes what one of its ends sent, as [`Takes::take_sent`] does, and the sum follows what it holds.
pub(crate) fn take_sent_keeping_sum<S: Copy, C: Takes<S>>(
    connection: &mut C,
    sum: &mut u128,
    sent: S,
) -> Result<(), AllocError>
    requires part { C.held_in connection.old ≤ sum.old }
    requires fits { sum.old + 2 ^ 64 ≤ 2 ^ 128 }
    ensures taken { OnOk result (C.TakesSent connection.old sent connection.new) }
    ensures left { OnErr result (C.LeavesSent connection.old sent connection.new) }
    ensures sum { sum.new + C.held_in connection.old ≡ sum.old + C.held_in connection.new }
{
    let before = connection.octets_held();
    let taken = connection.take_sent(sent);
    *sum = sum_with_part_replaced(*sum, before, connection.octets_held());
    taken
}

/// Hands out the next message, as [`TwoWay::next_message`] does, and the sum follows what the connection holds.
pub(crate) fn next_message_keeping_sum<C: TwoWay>(
    connection: &mut C,
    sum: &mut u128,
    from_first: bool,
) -> Result<Option<Vec<u8>>, AllocError>
    requires part { C.held_in connection.old ≤ sum.old }
    requires fits { sum.old + 2 ^ 64 ≤ 2 ^ 128 }
    ensures message { IfOk result (λ found. IfSome found
        (λ message. C.Hands (C.one_way from_first connection.old) message.items
        (C.one_way from_first connection.new))) }
    ensures none { IfOk result (λ found. IfNone found
        (C.HandsNone (C.one_way from_first connection.old) (C.one_way from_first connection.new))) }
    ensures unchanged { OnErr result (connection.new ≡ connection.old) }
    ensures other { connection.new ≡ C.with_way from_first (C.one_way from_first connection.new) connection.old }
    ensures sum { sum.new + C.held_in connection.old ≡ sum.old + C.held_in connection.new }
{
    let held = connection.octets_held();
    let message = connection.next_message(from_first);
    *sum = sum_with_part_replaced(*sum, held, connection.octets_held());
    message
}
