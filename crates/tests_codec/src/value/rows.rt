//! Single values.

use super::{is_read_as, is_written_as, octets, read_fault, write_fault};
use dm_value::{Address, AvpType, Value, ValueFault, unix_seconds};
use std::alloc::{AllocError, Global};

/// An address of family 1 with 16 octets.
const LONG_ADDRESS: [u8; 18] = [0, 1, 1, 2, 3, 4, 5, 6, 7, 8, 9, 10, 11, 12, 13, 14, 15, 16];

#[test]
fn values(rt: HostRuntime) {
    assert!(rt; unix_seconds(0x8000_0000) == -61505152);
    assert!(rt; unix_seconds(0) == 2085978496);
    let read = read_fault(rt.alloc(), AvpType::Address, &LONG_ADDRESS);
    assert!(rt; read == Some(ValueFault::WrongValue));
    let read = read_fault(rt.alloc(), AvpType::Unsigned32, &[0, 0, 0]);
    assert!(rt; read == Some(ValueFault::WrongLength));
    assert!(rt; is_written_as(rt.alloc(), &Value::Uint32(2001), &[0, 0, 0x07, 0xd1]));
}

/// The fault of writing the octets as a name.
fn identity_fault(alloc: Global, data: &[u8]) -> Result<Option<ValueFault>, AllocError> {
    let value = Value::Identity(octets(alloc, data)?);
    Ok(write_fault(alloc, &value))
}

/// The fault of writing the octets as a URI.
fn uri_fault(alloc: Global, data: &[u8]) -> Result<Option<ValueFault>, AllocError> {
    let value = Value::Uri(octets(alloc, data)?);
    Ok(write_fault(alloc, &value))
}

/// The fault of writing an address of family 1 as one of another family.
fn other_address_fault(alloc: Global, rest: &[u8]) -> Result<Option<ValueFault>, AllocError> {
    let other = Value::Addr(Address::Other(1, octets(alloc, rest)?));
    Ok(write_fault(alloc, &other))
}

#[test]
fn written_values(rt: HostRuntime) {
    assert!(rt; is_written_as(rt.alloc(), &Value::Time(0), &[0, 0, 0, 0]));
    let wrong = Ok(Some(ValueFault::WrongValue));
    assert!(rt; identity_fault(rt.alloc(), b"") == wrong);
    assert!(rt; uri_fault(rt.alloc(), b"aaa://") == wrong);
    assert!(rt; other_address_fault(rt.alloc(), &[1, 2, 3, 4]) == wrong);
    assert!(rt; other_address_fault(rt.alloc(), &[1, 2, 3, 4, 5]) == wrong);
}

/// Whether the octets are read as the URI that they are.
fn is_uri(alloc: Global, data: &[u8]) -> Result<bool, AllocError> {
    let uri = Value::Uri(octets(alloc, data)?);
    Ok(is_read_as(alloc, AvpType::DiameterURI, data, &uri))
}

#[test]
fn uri_lengths(rt: HostRuntime) {
    let short = read_fault(rt.alloc(), AvpType::DiameterURI, b"aaa://");
    assert!(rt; short == Some(ValueFault::WrongLength));
    let bare = read_fault(rt.alloc(), AvpType::DiameterURI, b"aaas://");
    assert!(rt; bare == Some(ValueFault::WrongValue));
    assert!(rt; is_uri(rt.alloc(), b"aaa://h") == Ok(true));
}
