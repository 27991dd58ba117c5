//! Numbers in either order of octets.
ghost use Rattle.std.specs.Prelude.{◌≡◌, ◌+◌, ◌≤◌, length, drop};
ghost use Rattle.dm_capture.specs.Numbers.{ordered_number};

use byteorder::{BigEndian, ByteOrder, LittleEndian};

/// Which octet of a number stands first.
#[derive(Clone, Copy, Debug, PartialEq, Eq)]
pub(crate) enum Order {
    /// The highest.
    Big,
    /// The lowest.
    Little,
}

/// The number of the two octets from a place on.
pub(crate) fn u16_at(order: Order, octets: &[u8], at: usize) -> u16
    requires { at + 2 ≤ length octets.now }
    ensures { result ≡ ordered_number order 2 (drop at octets.now) }
{
    match order {
        Order::Big => BigEndian::read_u16(&octets[at..]),
        Order::Little => LittleEndian::read_u16(&octets[at..]),
    }
}

/// The number of the four octets from a place on.
pub(crate) fn u32_at(order: Order, octets: &[u8], at: usize) -> u32
    requires { at + 4 ≤ length octets.now }
    ensures { result ≡ ordered_number order 4 (drop at octets.now) }
{
    match order {
        Order::Big => BigEndian::read_u32(&octets[at..]),
        Order::Little => LittleEndian::read_u32(&octets[at..]),
    }
}

/// The number of eight octets.
pub(crate) fn u64_at_front(order: Order, octets: &[u8]) -> u64
    requires { 8 ≤ length octets.now }
    ensures { result ≡ ordered_number order 8 octets.now }
{
    match order {
        Order::Big => BigEndian::read_u64(octets),
        Order::Little => LittleEndian::read_u64(octets),
    }
}
