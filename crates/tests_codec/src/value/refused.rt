//! What has no value.

use super::read_fault;
use dm_value::{AvpType, ValueFault, value_fault};

/// Each type with one octet less than it takes and, where it takes no more, one octet more.
const WRONG_LENGTHS: [(AvpType, &[u8]); 15] = [
    (AvpType::Integer32, b"\x00\x00\x00"),
    (AvpType::Integer32, b"\x00\x00\x00\x00\x00"),
    (AvpType::Integer64, b"\x00\x00\x00\x00\x00\x00\x00"),
    (AvpType::Integer64, b"\x00\x00\x00\x00\x00\x00\x00\x00\x00"),
    (AvpType::Unsigned32, b"\x00\x00\x00"),
    (AvpType::Unsigned32, b"\x00\x00\x00\x00\x00"),
    (AvpType::Unsigned64, b"\x00\x00\x00\x00\x00\x00\x00"),
    (AvpType::Unsigned64, b"\x00\x00\x00\x00\x00\x00\x00\x00\x00"),
    (AvpType::Address, b"\x00"),
    (AvpType::Time, b"\x00\x00\x00"),
    (AvpType::Time, b"\x00\x00\x00\x00\x00"),
    (AvpType::DiameterIdentity, b""),
    (AvpType::DiameterURI, b"aaa://"),
    (AvpType::Enumerated, b"\x00\x00\x00"),
    (AvpType::Enumerated, b"\x00\x00\x00\x00\x00"),
];

#[test]
fn wrong_lengths(rt: HostRuntime) {
    let wrong = Some(ValueFault::WrongLength);
    for (kind, octets) in &WRONG_LENGTHS {
        assert!(rt; read_fault(rt.alloc(), *kind, octets) == wrong, "{kind:?}");
        assert!(rt; value_fault(*kind, octets) == wrong, "{kind:?}");
    }
}

/// Octets that have a length of the type's and no value.
const WRONG_VALUES: [(AvpType, &[u8]); 9] = [
    (AvpType::Address, b"\x00\x01\x7f\x00\x00"),
    (AvpType::Address, b"\x00\x01\x7f\x00\x00\x01\x00"),
    (AvpType::Address, b"\x00\x02\x7f\x00\x00\x01"),
    (AvpType::UTF8String, b"\xff"),
    (AvpType::UTF8String, b"\xed\xa0\x80"),
    (AvpType::DiameterIdentity, b"a b"),
    (AvpType::DiameterIdentity, b"\x7f"),
    (AvpType::DiameterURI, b"AAA://h"),
    (AvpType::DiameterURI, b"aaa://h "),
];

#[test]
fn wrong_values(rt: HostRuntime) {
    let wrong = Some(ValueFault::WrongValue);
    for (kind, octets) in &WRONG_VALUES {
        assert!(rt; read_fault(rt.alloc(), *kind, octets) == wrong, "{kind:?}");
        assert!(rt; value_fault(*kind, octets) == wrong, "{kind:?}");
    }
}

/// Octets that are no AVPs one after the other.
const BROKEN_GROUPS: [&[u8]; 2] = [b"\x00\x00\x00\x01\x40\x00\x00\x0aab", b"\x00"];

#[test]
fn broken_groups(rt: HostRuntime) {
    for octets in &BROKEN_GROUPS {
        let read = read_fault(rt.alloc(), AvpType::Grouped, octets);
        assert!(rt; read == Some(ValueFault::WrongLength));
        assert!(rt; value_fault(AvpType::Grouped, octets) == Some(ValueFault::WrongLength));
    }
}
