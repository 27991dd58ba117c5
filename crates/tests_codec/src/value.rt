//! Values.

mod printed;
mod refused;
mod rows;
mod types;

use dm_value::{
    Address, AvpType, NoMemory, Text, Value, ValueFault, laws, read_value, write_value,
};
use dm_wire::Octets;
use std::alloc::{AllocError, Global};
use std::test::Fail;

fn octets(alloc: Global, data: &[u8]) -> Result<Octets, AllocError> {
    Octets::from_slice(alloc, data)
}

fn text(alloc: Global, text: &str) -> Result<Text, AllocError> {
    Ok(Text::from_string(String::from_str(alloc, text)?))
}

fn read_fault(alloc: Global, kind: AvpType, octets: &[u8]) -> Option<ValueFault> {
    read_value(alloc, kind, octets).err()
}

fn write_fault(alloc: Global, value: &Value) -> Option<ValueFault> {
    write_value(alloc, value).err()
}

/// Whether the octets are read as the value.
fn is_read_as(alloc: Global, kind: AvpType, octets: &[u8], value: &Value) -> bool {
    match read_value(alloc, kind, octets) {
        Ok(read) => read == *value,
        Err(_) => false,
    }
}

/// Whether the value is written as the octets.
fn is_written_as(alloc: Global, value: &Value, octets: &[u8]) -> bool {
    match write_value(alloc, value) {
        Ok(written) => written.as_slice() == octets,
        Err(_) => false,
    }
}

/// Whether a copy is the same text, and shows it.
fn is_copied_text(text: &Text, shown: &str) -> bool {
    match text.clone() {
        Ok(copy) => *text == copy && copy.as_str() == shown,
        Err(_) => false,
    }
}

fn is_copied_address(address: &Address) -> bool {
    match address.clone() {
        Ok(copy) => copy == *address,
        Err(_) => false,
    }
}

/// Whether a text is copied, shown and handed out as it was.
fn is_kept_text(alloc: Global, shown: &str) -> Result<bool, AllocError> {
    let text = text(alloc, shown)?;
    let is_same = is_copied_text(&text, shown);
    let held = text.into_string();
    Ok(is_same && held.as_str() == shown)
}

#[test]
fn copies_and_texts_are_the_same(rt: HostRuntime) -> Result<(), Fail> {
    assert!(rt; is_kept_text(rt.alloc(), "hello") == Ok(true));
    assert!(rt; NoMemory::from(AllocError) == NoMemory);
    laws::octets_have_one_value_at_most();
    laws::each_value_is_of_one_type();
    laws::octets_of_values_have_no_fault();
    laws::shortest_values_have_the_least_length();
    laws::flaw_decides_fault_or_value();
    laws::octets_have_a_value_or_a_fault();
    let other = Address::Other(3, octets(rt.alloc(), b"x")?);
    assert!(rt; is_copied_address(&other));
    Ok(())
}
