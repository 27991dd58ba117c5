//! Values from octets (RFC 6733, 4.2 to 4.4).
ghost use Rattle.std.specs.Prelude.{◌≡◌, ◌⊎◌, ◌↔◌, IfOk, IfErr, IsErrOf, OnErr, None, length, drop};
ghost use Rattle.dm_value.specs.Columns.{HasWrongLength, HasWrongValue, HoldsOctets, RefusesData};
ghost use Rattle.dm_value.specs.Flaws.{flaw};
ghost use Rattle.dm_value.specs.Meaning.{Means};
ghost use Rattle.dm_value.specs.ValueIn.{value_in};
ghost use Rattle.dm_value.specs.declared.value.Value.{Value};

use crate::laws::{octets_have_one_value_at_most, value_in_is_what_octets_mean};
use crate::{Address, AvpType, Ip, Text, Value, ValueFault, value_fault};
use byteorder::{BigEndian, ByteOrder};
use dm_wire::{AvpList, Octets, decode_avps};
use std::alloc::{AllocError, Global};

/// The value that octets of the type have.
///
/// Refuses with `WrongLength`, then with `WrongValue`, whatever memory there is: whether the octets of a
/// group are AVPs is seen before any memory is taken. `NoMemory` comes only where the octets have a value
/// and it holds octets of its own: numbers, times and IP addresses take no memory.
pub fn read_value(alloc: Global, kind: AvpType, octets: &[u8]) -> Result<Value, ValueFault>
    // What is read is what the octets mean.
    ensures found { IfOk result (λ value. Means kind octets.now value) }
    // It is the one that the type finds in them.
    ensures answer { IfOk result (λ value. value ≡ value_in kind octets.now) }
    // What the octets mean is read, unless memory runs out.
    ensures only { (value : Value) → Means kind octets.now value
        → (result ≡ Ok value) ⊎ (result ≡ Err ValueFault.NoMemory) }

    // What is wrong with the octets is answered, whatever memory there is.
    ensures refuses { (fault : ValueFault) → RefusesData kind octets.now fault → result ≡ Err fault }

    ensures length { IsErrOf result ValueFault.WrongLength ↔ HasWrongLength kind octets.now }
    ensures value { IsErrOf result ValueFault.WrongValue
        ↔ ((HasWrongLength kind octets.now → ⊥) × HasWrongValue kind octets.now) }
    // Memory is wanted only where the octets have a value, and it holds octets.
    ensures memory { IsErrOf result ValueFault.NoMemory → HoldsOctets kind octets.now }
    ensures sound { IsErrOf result ValueFault.NoMemory → (value : Value) × Means kind octets.now value }
    // Every refusal but want of memory is the octets' own.
    ensures fault { IfErr result (λ fault. (fault ≡ ValueFault.NoMemory) ⊎ RefusesData kind octets.now fault) }
{
    octets_have_one_value_at_most();
    value_in_is_what_octets_mean();
    match value_fault(kind, octets) {
        Some(fault) => Err(fault),
        None => read_faultless_value(alloc, kind, octets),
    }
}

/// The value of octets with which nothing is wrong; or want of memory, where it holds octets.
fn read_faultless_value(alloc: Global, kind: AvpType, octets: &[u8]) -> Result<Value, ValueFault>
    requires { flaw kind octets.now ≡ None }
    ensures found { IfOk result (λ value. Means kind octets.now value) }
    ensures memory { IsErrOf result ValueFault.NoMemory → HoldsOctets kind octets.now }
    ensures fault { IfErr result (λ fault. fault ≡ ValueFault.NoMemory) }
{
    match kind {
        AvpType::OctetString => Ok(Value::Bytes(Octets::from_slice(alloc, octets)?)),
        AvpType::Integer32 => Ok(Value::Int32(BigEndian::read_i32(octets))),
        AvpType::Integer64 => Ok(Value::Int64(BigEndian::read_i64(octets))),
        AvpType::Unsigned32 => Ok(Value::Uint32(BigEndian::read_u32(octets))),
        AvpType::Unsigned64 => Ok(Value::Uint64(BigEndian::read_u64(octets))),
        AvpType::Address => Ok(Value::Addr(read_address(alloc, octets)?)),
        AvpType::Time => Ok(Value::Time(BigEndian::read_u32(octets))),
        AvpType::UTF8String => Ok(Value::Text(read_text(alloc, octets)?)),
        AvpType::DiameterIdentity => Ok(Value::Identity(Octets::from_slice(alloc, octets)?)),
        AvpType::DiameterURI => Ok(Value::Uri(Octets::from_slice(alloc, octets)?)),
        AvpType::Enumerated => Ok(Value::Enumerated(BigEndian::read_i32(octets))),
        AvpType::Grouped => Ok(Value::Group(read_group(alloc, octets)?)),
    }
}

/// The address that the octets are.
///
/// ```text
///  0                   1                   2                   3
///  0 1 2 3 4 5 6 7 8 9 0 1 2 3 4 5 6 7 8 9 0 1 2 3 4 5 6 7 8 9 0 1
/// |         AddressType           |  Address ...
/// ```
fn read_address(alloc: Global, octets: &[u8]) -> Result<Address, AllocError>
    requires { flaw AvpType.Address octets.now ≡ None }
    ensures found { IfOk result (λ address. Means AvpType.Address octets.now (Value.Addr address)) }
    ensures memory { OnErr result (HoldsOctets AvpType.Address octets.now) }
{
    match BigEndian::read_u16(octets) {
        1 => Ok(Address::Ip(Ip::V4(read_ipv4_behind_family(octets)))),
        2 => Ok(Address::Ip(Ip::V6(read_ipv6_behind_family(octets)))),
        family => Ok(Address::Other(family, Octets::from_slice(alloc, &octets[2..])?)),
    }
}

/// The AVPs that the octets spell (RFC 6733, 4.4): as they are AVPs, only memory can be wanted.
fn read_group(alloc: Global, octets: &[u8]) -> Result<AvpList, ValueFault>
    requires { flaw AvpType.Grouped octets.now ≡ None }
    ensures found { IfOk result (λ avps. Means AvpType.Grouped octets.now (Value.Group avps)) }
    ensures memory { IfErr result (λ fault. fault ≡ ValueFault.NoMemory) }
{
    match decode_avps(alloc, octets) {
        Ok(avps) => Ok(AvpList::from_vec(avps)),
        Err(_) => Err(ValueFault::NoMemory),
    }
}

/// The text that the octets are, which are UTF-8; or want of memory.
fn read_text(alloc: Global, octets: &[u8]) -> Result<Text, ValueFault>
    requires { flaw AvpType.UTF8String octets.now ≡ None }
    ensures found { IfOk result (λ text. Means AvpType.UTF8String octets.now (Value.Text text)) }
    ensures memory { IfErr result (λ fault. fault ≡ ValueFault.NoMemory) }
{
    match std::str::from_utf8(octets) {
        Ok(text) => Ok(Text::from_string(String::from_str(alloc, text)?)),
        Err(_) => Err(ValueFault::WrongValue),
    }
}

/// The four octets behind the family.
fn read_ipv4_behind_family(octets: &[u8]) -> [u8; 4]
    requires { length octets.now ≡ 6 }
    ensures at { result ≡ drop 2 octets.now }
{
    let mut address = [0; 4];
    address.copy_from_slice(&octets[2..]);
    address
}

/// The sixteen octets behind the family.
fn read_ipv6_behind_family(octets: &[u8]) -> [u8; 16]
    requires { length octets.now ≡ 18 }
    ensures at { result ≡ drop 2 octets.now }
{
    let mut address = [0; 16];
    address.copy_from_slice(&octets[2..]);
    address
}
