//! Values, and the octets that mean them.
use dm_dict::{
    Address, AvpType, Value, ValueFault, least_len, read_value, unix_seconds, write_value,
};
use dm_wire::Octets;
use std::alloc::Global;
use std::process::Abort;

fn octets(rt: &(impl Abort + AllocGlobal), data: &[u8]) -> Octets {
    Octets::from_slice(rt.alloc(), data).expect(rt, "memory")
}

fn reads(alloc: Global, kind: AvpType, data: &[u8], want: &Value) -> bool {
    match read_value(alloc, kind, data) {
        Ok(value) => value == *want,
        Err(_) => false,
    }
}

fn read_fault(alloc: Global, kind: AvpType, data: &[u8]) -> Option<ValueFault> {
    read_value(alloc, kind, data).err()
}

fn writes(alloc: Global, value: &Value, want: &[u8]) -> bool {
    match write_value(alloc, value) {
        Ok(data) => data.as_slice() == want,
        Err(_) => false,
    }
}

fn write_fault(alloc: Global, value: &Value) -> Option<ValueFault> {
    write_value(alloc, value).err()
}

/// A Result-Code is written and read.
fn assert_code(rt: &(impl Abort + AllocGlobal)) {
    let code = Value::Uint32(2001);
    assert!(rt; writes(rt.alloc(), &code, &[0, 0, 7, 0xd1]), "written");
    assert!(rt;
        reads(rt.alloc(), AvpType::Unsigned32, &[0, 0, 7, 0xd1], &code),
        "read"
    );
    drop(code);
}

/// Octets are read.
fn assert_letters(rt: &(impl Abort + AllocGlobal)) {
    let letters = Value::Bytes(octets(rt, b"abc"));
    assert!(rt; reads(rt.alloc(), AvpType::OctetString, b"abc", &letters));
    drop(letters);
}

/// A value that has no octets isn't written.
fn assert_unwritten(rt: &(impl Abort + AllocGlobal), value: &Value) {
    assert!(rt; write_fault(rt.alloc(), value) == Some(ValueFault::WrongValue));
}

fn assert_identity_unwritten(rt: &(impl Abort + AllocGlobal)) {
    let identity = Value::Identity(octets(rt, b""));
    assert_unwritten(rt, &identity);
    drop(identity);
}

fn assert_address_unwritten(rt: &(impl Abort + AllocGlobal), rest: &[u8]) {
    let address = Value::Addr(Address::Other(1, octets(rt, rest)));
    assert_unwritten(rt, &address);
    drop(address);
}

#[test]
fn values(rt: HostRuntime) {
    assert_eq!(rt; unix_seconds(0x8000_0000), -61_505_152);
    assert_eq!(rt; unix_seconds(0), 2_085_978_496);
    assert_eq!(rt; least_len(AvpType::DiameterURI), 7);
    let address = &[0, 1, 0, 0, 0, 0, 0, 0, 0, 0, 0, 0, 0, 0, 0, 0, 0, 0];
    let fault = read_fault(rt.alloc(), AvpType::Address, address);
    assert!(rt; fault == Some(ValueFault::WrongValue));
    let fault = read_fault(rt.alloc(), AvpType::Unsigned32, b"abc");
    assert!(rt; fault == Some(ValueFault::WrongLength));
    assert_code(&rt);
    assert_letters(&rt);
}

#[test]
fn written_values(rt: HostRuntime) {
    assert!(rt; writes(rt.alloc(), &Value::Time(0), &[0, 0, 0, 0]));
    assert_identity_unwritten(&rt);
    assert_address_unwritten(&rt, b"abcd");
    assert_address_unwritten(&rt, b"abcde");
}
