//! Values as text, as data of AVPs and as copies.

use super::{octets, text};
use dm_value::{Address, AvpType, Ip, Value, ValueFault, utc_date};
use dm_wire::codes::avps;
use dm_wire::{Avp, AvpList};
use std::alloc::{AllocError, Global};
use std::net::{IpAddr, Ipv4Addr};
use std::test::Fail;

/// Whether the value and its copy are printed as the text.
fn is_shown(alloc: Global, value: &Value, text: &str) -> Result<bool, AllocError> {
    let copy = value.clone()?;
    let shown = copy.to_string(alloc)?;
    Ok(copy == *value && shown.as_str() == text)
}

/// Values that hold nothing, and how they are printed.
const PLAIN: [(Value, &str); 5] = [
    (Value::Int32(-1), "-1"),
    (Value::Uint64(18446744073709551615), "18446744073709551615"),
    (Value::Enumerated(0), "0"),
    (Value::Addr(Address::Ip(Ip::V4([1, 2, 3, 4]))), "1.2.3.4"),
    (Value::Addr(Address::Ip(Ip::V6([0; 16]))), "::"),
];

/// Times, and how they are printed.
const TIMES: [(u32, &str); 7] = [
    (0x83aa_7e80, "0 1970-01-01T00:00:00Z"),
    (0x8000_0000, "-61505152 1968-01-20T03:14:08Z"),
    (0xbc66_dbff, "951868799 2000-02-29T23:59:59Z"),
    (0x0000_0000, "2085978496 2036-02-07T06:28:16Z"),
    (0x787d_4c80, "4107456000 2100-02-28T00:00:00Z"),
    (0x787e_9e00, "4107542400 2100-03-01T00:00:00Z"),
    (0x7fff_ffff, "4233462143 2104-02-26T09:42:23Z"),
];

#[test]
fn times(rt: HostRuntime) {
    for (seconds, text) in &TIMES {
        assert!(rt; is_shown(rt.alloc(), &Value::Time(*seconds), text) == Ok(true));
    }
    let leap = utc_date(0xbc66_dbff);
    assert!(rt; (leap.year, leap.month, leap.day) == (2000, 2, 29));
    assert!(rt; (leap.hour, leap.minute, leap.second) == (23, 59, 59));
}

#[test]
fn numbers_and_addresses(rt: HostRuntime) {
    for (value, text) in &PLAIN {
        assert!(rt; is_shown(rt.alloc(), value, text) == Ok(true));
    }
    let ip = Ip::from(IpAddr::V4(Ipv4Addr::LOCALHOST));
    assert!(rt; ip == Ip::V4([127, 0, 0, 1]));
    assert!(rt; IpAddr::from(ip) == IpAddr::V4(Ipv4Addr::LOCALHOST));
}

/// Whether there is a value, and it is printed as the text.
fn is_made(alloc: Global, value: Result<Value, AllocError>, text: &str) -> bool {
    match value {
        Ok(value) => is_shown(alloc, &value, text) == Ok(true),
        Err(_) => false,
    }
}

/// An address of another family.
fn other_address(alloc: Global) -> Result<Value, AllocError> {
    Ok(Value::Addr(Address::Other(3, octets(alloc, b"\x01\x02")?)))
}

/// An OctetString.
fn bytes(alloc: Global) -> Result<Value, AllocError> {
    Ok(Value::Bytes(octets(alloc, b"\x00\xff")?))
}

/// A DiameterIdentity.
fn name(alloc: Global) -> Result<Value, AllocError> {
    Ok(Value::Identity(octets(alloc, b"a.example")?))
}

/// A DiameterURI that is no text.
fn no_text(alloc: Global) -> Result<Value, AllocError> {
    Ok(Value::Uri(octets(alloc, b"\xff")?))
}

/// A UTF8String.
fn words(alloc: Global) -> Result<Value, AllocError> {
    Ok(Value::Text(text(alloc, "hello")?))
}

/// A group of one AVP.
fn group(alloc: Global) -> Result<Value, AllocError> {
    let avp = Avp::new(1, None, true, octets(alloc, b"ab")?);
    Ok(Value::Group(AvpList::from(vec![in alloc; avp]?)))
}

#[test]
fn texts_and_groups(rt: HostRuntime) {
    let alloc = rt.alloc();
    assert!(rt; is_made(alloc, other_address(alloc), "family 3 0102"));
    assert!(rt; is_made(alloc, bytes(alloc), "00ff"));
    assert!(rt; is_made(alloc, name(alloc), "a.example"));
    assert!(rt; is_made(alloc, no_text(alloc), "ff"));
    assert!(rt; is_made(alloc, words(alloc), "hello"));
    assert!(rt; is_made(alloc, group(alloc), "{ 1 -M- 6162; }"));
}

#[test]
fn avps_of_values(rt: HostRuntime) -> Result<(), Fail> {
    let code = Value::Uint32(2001);
    let avp = code.to_avp(rt.alloc(), avps::RESULT_CODE, None, true)?;
    let same = Avp::new(268, None, true, octets(rt.alloc(), b"\x00\x00\x07\xd1")?);
    assert!(rt; avp == same);
    assert!(rt; code.avp_type() == AvpType::Unsigned32);
    assert!(rt; ValueFault::WrongLength.result_code() == Some(5014));
    assert!(rt; ValueFault::NoMemory.result_code() == None);
    Ok(())
}
