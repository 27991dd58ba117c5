//! Each type with values of its own, its ends among them.

use super::{is_read_as, is_written_as, octets, text};
use dm_value::{Address, AvpType, Ip, Value, least_len};
use dm_wire::{Avp, AvpList, Octets};
use std::alloc::{AllocError, Global};
use std::test::Fail;

/// The group of a User-Name with the data `ab`.
const GROUP: &[u8] = b"\x00\x00\x00\x01\x40\x00\x00\x0aab\x00\x00";

fn group(alloc: Global) -> Result<AvpList, AllocError> {
    let avp = Avp {
        code: 1,
        vendor: None,
        mandatory: true,
        protected: false,
        bytes: octets(alloc, b"ab")?,
    };
    Ok(AvpList::from_vec(vec![in alloc; avp]?))
}

/// Whether the octets are read as the value, and the value is written as the octets.
fn is_both(alloc: Global, kind: AvpType, octets: &[u8], value: &Value) -> bool {
    is_read_as(alloc, kind, octets, value) && is_written_as(alloc, value, octets)
}

const SIGNED: [(&[u8], i32); 4] = [
    (b"\x00\x00\x00\x00", 0),
    (b"\x80\x00\x00\x00", -2147483648),
    (b"\x7f\xff\xff\xff", 2147483647),
    (b"\xff\xff\xff\xfe", -2),
];

fn is_signed(alloc: Global, octets: &[u8], number: i32) -> bool {
    is_both(alloc, AvpType::Integer32, octets, &Value::Int32(number))
}

fn is_enumerated(alloc: Global, octets: &[u8], number: i32) -> bool {
    is_both(
        alloc,
        AvpType::Enumerated,
        octets,
        &Value::Enumerated(number),
    )
}

#[test]
fn signed_numbers(rt: HostRuntime) {
    for (octets, number) in &SIGNED {
        assert!(rt; is_signed(rt.alloc(), octets, *number));
        assert!(rt; is_enumerated(rt.alloc(), octets, *number));
    }
}

const LONG_SIGNED: [(&[u8], i64); 3] = [
    (b"\x00\x00\x00\x00\x00\x00\x00\x00", 0),
    (b"\x80\x00\x00\x00\x00\x00\x00\x00", -9223372036854775808),
    (b"\x7f\xff\xff\xff\xff\xff\xff\xff", 9223372036854775807),
];

fn is_long_signed(alloc: Global, octets: &[u8], number: i64) -> bool {
    is_both(alloc, AvpType::Integer64, octets, &Value::Int64(number))
}

#[test]
fn long_signed_numbers(rt: HostRuntime) {
    for (octets, number) in &LONG_SIGNED {
        assert!(rt; is_long_signed(rt.alloc(), octets, *number));
    }
}

const UNSIGNED: [(&[u8], u32); 3] = [
    (b"\x00\x00\x00\x00", 0),
    (b"\x01\x02\x03\x04", 16909060),
    (b"\xff\xff\xff\xff", 4294967295),
];

fn is_unsigned(alloc: Global, octets: &[u8], number: u32) -> bool {
    is_both(alloc, AvpType::Unsigned32, octets, &Value::Uint32(number))
}

fn is_time(alloc: Global, octets: &[u8], number: u32) -> bool {
    is_both(alloc, AvpType::Time, octets, &Value::Time(number))
}

#[test]
fn unsigned_numbers(rt: HostRuntime) {
    for (octets, number) in &UNSIGNED {
        assert!(rt; is_unsigned(rt.alloc(), octets, *number));
        assert!(rt; is_time(rt.alloc(), octets, *number));
    }
}

fn is_long_unsigned(alloc: Global, octets: &[u8], number: u64) -> bool {
    is_both(alloc, AvpType::Unsigned64, octets, &Value::Uint64(number))
}

#[test]
fn long_unsigned_numbers(rt: HostRuntime) {
    let greatest = b"\xff\xff\xff\xff\xff\xff\xff\xff";
    assert!(rt; is_long_unsigned(rt.alloc(), &[0; 8], 0));
    assert!(rt; is_long_unsigned(rt.alloc(), greatest, 18446744073709551615));
}

/// Whether the octets are read and written as this address of another family.
fn is_other(alloc: Global, octets: &[u8], family: u16, rest: &[u8]) -> Result<bool, AllocError> {
    let rest = super::octets(alloc, rest)?;
    let other = Value::Addr(Address::Other(family, rest));
    Ok(is_both(alloc, AvpType::Address, octets, &other))
}

fn is_ip(alloc: Global, octets: &[u8], ip: Ip) -> bool {
    is_both(
        alloc,
        AvpType::Address,
        octets,
        &Value::Addr(Address::Ip(ip)),
    )
}

#[test]
fn addresses(rt: HostRuntime) {
    let alloc = rt.alloc();
    assert!(rt; is_other(alloc, b"\x00\x00", 0, b"") == Ok(true));
    assert!(rt; is_other(alloc, b"\xff\xffx", 65535, b"x") == Ok(true));
    let four = Ip::V4(*b"\x7f\x00\x00\x01");
    assert!(rt; is_ip(alloc, b"\x00\x01\x7f\x00\x00\x01", four));
    let six = Ip::V6(*b"0123456789abcdef");
    assert!(rt; is_ip(alloc, b"\x00\x020123456789abcdef", six));
}

/// Octets that are values of their own, with the type.
const OCTETS: [(AvpType, &[u8]); 6] = [
    (AvpType::OctetString, b""),
    (AvpType::OctetString, b"\x00\xff"),
    (AvpType::DiameterIdentity, b"!"),
    (AvpType::DiameterIdentity, b"~"),
    (AvpType::DiameterURI, b"aaa://h"),
    (AvpType::DiameterURI, b"aaas://h"),
];

/// The value of octets of one of the types above.
fn value_of(kind: AvpType, octets: Octets) -> Value {
    match kind {
        AvpType::DiameterIdentity => Value::Identity(octets),
        AvpType::DiameterURI => Value::Uri(octets),
        _ => Value::Bytes(octets),
    }
}

fn is_octets(alloc: Global, kind: AvpType, data: &[u8]) -> Result<bool, AllocError> {
    let value = value_of(kind, octets(alloc, data)?);
    Ok(is_both(alloc, kind, data, &value))
}

fn is_text(alloc: Global, data: &str) -> Result<bool, AllocError> {
    let value = Value::Text(text(alloc, data)?);
    Ok(is_both(alloc, AvpType::UTF8String, data.as_bytes(), &value))
}

#[test]
fn octets_and_texts(rt: HostRuntime) {
    for (kind, data) in &OCTETS {
        assert!(rt; is_octets(rt.alloc(), *kind, data) == Ok(true), "{kind:?}");
    }
    assert!(rt; is_text(rt.alloc(), "") == Ok(true));
    assert!(rt; is_text(rt.alloc(), "caf\u{e9}") == Ok(true));
}

fn is_group(alloc: Global, octets: &[u8], avps: AvpList) -> bool {
    is_both(alloc, AvpType::Grouped, octets, &Value::Group(avps))
}

#[test]
fn groups(rt: HostRuntime) -> Result<(), Fail> {
    let none = AvpList::from_vec(Vec::new(rt.alloc()));
    assert!(rt; is_group(rt.alloc(), b"", none));
    let one = group(rt.alloc())?;
    assert!(rt; is_group(rt.alloc(), GROUP, one));
    Ok(())
}

const LEAST_LENGTHS: [(AvpType, u32); 12] = [
    (AvpType::OctetString, 0),
    (AvpType::Integer32, 4),
    (AvpType::Integer64, 8),
    (AvpType::Unsigned32, 4),
    (AvpType::Unsigned64, 8),
    (AvpType::Address, 2),
    (AvpType::Time, 4),
    (AvpType::UTF8String, 0),
    (AvpType::DiameterIdentity, 1),
    (AvpType::DiameterURI, 7),
    (AvpType::Enumerated, 4),
    (AvpType::Grouped, 0),
];

#[test]
fn least_lengths(rt: HostRuntime) {
    for (kind, least) in &LEAST_LENGTHS {
        assert!(rt; least_len(*kind) == *least, "{kind:?}");
    }
}
