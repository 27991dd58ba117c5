//! The order of hosts in an election, with upper and lower case taken as one (RFC 6733, 5.6.4).
ghost use Rattle.std.specs.Prelude.{◌≡◌, ◌↔◌};
ghost use Rattle.dm_base.specs.Before.{Before, lower, lower_octet, order_of_hosts};

use std::cmp::Ordering;

/// The octet, with `A` to `Z` taken as `a` to `z`. It never answers want of memory.
pub fn lower_octet(octet: u8) -> u8
    ensures { result ≡ lower_octet octet }
{
    if octet >= 65 && octet <= 90 {
        octet + 32
    } else {
        octet
    }
}

/// The order of the octets with `A` to `Z` taken as `a` to `z`.
#[tactic(auto, using(crate::proofs::Orders::ended_less, crate::proofs::Orders::ended_greater))]
fn compare_ignoring_case(one: &[u8], other: &[u8]) -> Ordering
    ensures { result ≡ order_of_hosts (lower one.now) (lower other.now) }
{
    let mut at = 0;
    while at < one.len() {
        if at == other.len() {
            return Ordering::Greater;
        }
        let a = lower_octet(one[at]);
        let b = lower_octet(other[at]);
        if a < b {
            return Ordering::Less;
        }
        if b < a {
            return Ordering::Greater;
        }
        at += 1;
    }
    if at < other.len() {
        Ordering::Less
    } else {
        Ordering::Equal
    }
}

/// The order of two hosts: their octets with `A` to `Z` taken as `a` to `z`. The first difference decides, and a proper
/// front comes first. It never answers want of memory.
pub fn host_order(one: &[u8], other: &[u8]) -> Ordering
    ensures value { result ≡ order_of_hosts (lower one.now) (lower other.now) }
    ensures less { (result ≡ Ordering.Less) ↔ Before one.now other.now }
    ensures greater { (result ≡ Ordering.Greater) ↔ Before other.now one.now }
    ensures equal { (result ≡ Ordering.Equal) ↔ (lower one.now ≡ lower other.now) }
{
    compare_ignoring_case(one, other)
}
