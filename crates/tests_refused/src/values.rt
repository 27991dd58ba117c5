//! Values read and written, of each type.
use crate::each::each_made;
use crate::rows::octets;
use dm_dict::{AvpType, Value, ValueFault, read_value, write_value};
use dm_refusal::Making;
use std::alloc::Global;
use std::process::Abort;

#[derive(Clone, Copy)]
struct Read<'a>(AvpType, &'a [u8]);

impl Making for Read<'_> {
    type Made = Value;

    type Fault = ValueFault;

    fn call(&self, alloc: Global) -> Result<Value, ValueFault> {
        read_value(alloc, self.0, self.1)
    }

    fn is_want_of_memory(&self, fault: &ValueFault) -> bool {
        *fault == ValueFault::NoMemory
    }

    fn is_as_expected(&self, alloc: Global, made: &Value) -> bool {
        match write_value(alloc, made) {
            Ok(octets) => octets.as_slice() == self.1,
            Err(_) => false,
        }
    }
}

#[derive(Clone, Copy)]
struct Write<'a>(&'a Value, &'a [u8]);

impl Making for Write<'_> {
    type Made = Vec<u8>;

    type Fault = ValueFault;

    fn call(&self, alloc: Global) -> Result<Vec<u8>, ValueFault> {
        write_value(alloc, self.0)
    }

    fn is_want_of_memory(&self, fault: &ValueFault) -> bool {
        *fault == ValueFault::NoMemory
    }

    fn is_as_expected(&self, _alloc: Global, made: &Vec<u8>) -> bool {
        made.as_slice() == self.1
    }
}

fn check(rt: &(impl Abort + AllocGlobal), kind: AvpType, digits: &str) {
    let row = octets(rt, digits);
    let value = read_value(rt.alloc(), kind, row.as_slice()).expect(rt, "a value");
    each_made(rt, &Read(kind, row.as_slice()), digits);
    each_made(rt, &Write(&value, row.as_slice()), digits);
    drop(value);
}

fn check_rows(rt: &(impl Abort + AllocGlobal), rows: &[(AvpType, &str)]) {
    for (kind, digits) in rows {
        check(rt, *kind, digits);
    }
}

/// A type, and data of it.
const VALUES: [(AvpType, &str); 15] = [
    (AvpType::OctetString, "0102"),
    (AvpType::Integer32, "ffffffff"),
    (AvpType::Integer64, "ffffffffffffffff"),
    (AvpType::Unsigned32, "000007d1"),
    (AvpType::Unsigned64, "00000000000007d1"),
    (AvpType::Address, "00017f000001"),
    (AvpType::Address, "000200000000000000000000000000000001"),
    (AvpType::Address, "0003616263"),
    (AvpType::Time, "80000000"),
    (AvpType::UTF8String, "646d70656572"),
    (AvpType::DiameterIdentity, "612e6578616d706c65"),
    (AvpType::DiameterURI, "6161613a2f2f68"),
    (AvpType::Enumerated, "00000002"),
    (
        AvpType::Grouped,
        "0000010a4000000c000028af000001024000000c01000023",
    ),
    (AvpType::Grouped, ""),
];

#[test]
fn values_of_each_type(rt: HostRuntime) {
    check_rows(&rt, &VALUES);
}
