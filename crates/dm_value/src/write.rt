//! Values to octets, and which values no octets have (RFC 6733, 4.2 to 4.4).
ghost use Rattle.std.specs.Prelude.{◌≡◌, ◌≢◌, ◌⊎◌, ◌↔◌, ◌^◌, ◌<◌, ◌++◌, List, IfOk, IfErr, IsErrOf, IsTrue};
ghost use Rattle.byteorder.specs.Endian.{big_number};
ghost use Rattle.dm_wire.specs.declared.avp.Avp.{Avp};
ghost use Rattle.dm_wire.specs.Canonical.{canonical_list};
ghost use Rattle.dm_wire.specs.Limits.{IsLongList};
ghost use Rattle.dm_wire.specs.Spelling.{be};
ghost use Rattle.dm_value.specs.Meaning.{Means, type_of, IsInRange, HasNoOctets, HasLongMember, IsMisshapen};
ghost use Rattle.dm_value.specs.declared.value.Value.{Value};

use crate::laws::octets_have_one_value_at_most;
use crate::numbers::{encode_signed_32, encode_signed_64, encode_unsigned_32, encode_unsigned_64};
use crate::{Address, AvpType, Ip, Value, ValueFault, value_fault};
use byteorder::{BigEndian, ByteOrder};
use dm_wire::{AvpList, WireFault, encode_avps};
use std::alloc::{AllocError, Global};

/// The octets that have the value, for a group its AVPs with zero padding and zero reserved bits.
///
/// Refuses with `WrongValue` where no octets have the value: an address of family 1 or 2 given as
/// `Other`, an identity or a URI not of its form; with `TooLong` where the AVP Length of a member of
/// a group would pass 16777215; else with `NoMemory`.
pub fn write_value(alloc: Global, value: &Value) -> Result<Vec<u8>, ValueFault>
    // What is written means the value, and no other.
    ensures found { IfOk result (λ octets. Means (type_of value.now) octets.items value.now) }
    ensures one { IfOk result (λ octets. (read : Value) → Means (type_of value.now) octets.items read
        → read ≡ value.now) }
    ensures group { (avps : List Avp) → value.now ≡ Value.Group avps
        → IfOk result (λ octets. octets.items ≡ canonical_list avps) }

    ensures long { IsErrOf result ValueFault.TooLong ↔ HasLongMember value.now }
    // No octets have the value, and not because a member of a group is too long.
    ensures value { IsErrOf result ValueFault.WrongValue
        ↔ (HasNoOctets value.now × (HasLongMember value.now → ⊥)) }
    ensures length { result ≢ Err ValueFault.WrongLength }
{
    octets_have_one_value_at_most();
    if is_misshapen(value) {
        return Err(ValueFault::WrongValue);
    }
    encode_well_formed_value(alloc, value)
}

/// Whether the value is an address of family 1 or 2 given as `Other`, or an identity or a URI not of
/// its form.
fn is_misshapen(value: &Value) -> bool
    ensures { IsTrue result ↔ IsMisshapen value.now }
{
    match value {
        Value::Addr(address) => is_other_of_ip_family(address),
        Value::Identity(name) => {
            value_fault(AvpType::DiameterIdentity, name.as_slice()).is_some()
        }
        Value::Uri(uri) => value_fault(AvpType::DiameterURI, uri.as_slice()).is_some(),
        _ => false,
    }
}

/// Whether the address is given as of another family, but of family 1 or 2.
fn is_other_of_ip_family(address: &Address) -> bool
    ensures { IsTrue result ↔ IsMisshapen (Value.Addr address.now) }
{
    match address {
        Address::Ip(_) => false,
        Address::Other(family, _) => *family == 1 || *family == 2,
    }
}

/// The octets of a value that is of its type's form; or `TooLong` for a group of a too long AVP, else want of memory.
fn encode_well_formed_value(alloc: Global, value: &Value) -> Result<Vec<u8>, ValueFault>
    requires { IsMisshapen value.now → ⊥ }
    ensures found { IfOk result (λ octets. Means (type_of value.now) octets.items value.now) }
    ensures group { (avps : List Avp) → value.now ≡ Value.Group avps
        → IfOk result (λ octets. octets.items ≡ canonical_list avps) }
    ensures long { IsErrOf result ValueFault.TooLong ↔ HasLongMember value.now }
    ensures range { IsInRange value.now }
    ensures spelled { (avps : List Avp) → value.now ≡ Value.Group avps → HasNoOctets value.now → IsLongList avps }
    ensures fault { IfErr result (λ fault. (fault ≡ ValueFault.TooLong) ⊎ (fault ≡ ValueFault.NoMemory)) }
{
    match value {
        Value::Bytes(octets) => Ok(Vec::from_slice(alloc, octets.as_slice())?),
        Value::Int32(number) => Ok(encode_signed_32(alloc, *number)?),
        Value::Int64(number) => Ok(encode_signed_64(alloc, *number)?),
        Value::Uint32(number) => Ok(encode_unsigned_32(alloc, *number)?),
        Value::Uint64(number) => Ok(encode_unsigned_64(alloc, *number)?),
        Value::Addr(address) => Ok(encode_address(alloc, address)?),
        Value::Time(seconds) => Ok(encode_unsigned_32(alloc, *seconds)?),
        Value::Text(text) => Ok(Vec::from_slice(alloc, text.as_str().as_bytes())?),
        Value::Identity(name) => Ok(Vec::from_slice(alloc, name.as_slice())?),
        Value::Uri(uri) => Ok(Vec::from_slice(alloc, uri.as_slice())?),
        Value::Enumerated(number) => Ok(encode_signed_32(alloc, *number)?),
        Value::Group(avps) => encode_group(alloc, avps),
    }
}

fn encode_address(alloc: Global, address: &Address) -> Result<Vec<u8>, AllocError>
    requires { IsMisshapen (Value.Addr address.now) → ⊥ }
    ensures found { IfOk result (λ octets. Means AvpType.Address octets.items (Value.Addr address.now)) }
    ensures range { IsInRange (Value.Addr address.now) }
{
    match address {
        Address::Ip(ip) => encode_ip(alloc, ip),
        Address::Other(family, rest) => encode_address_of_family(alloc, *family, rest.as_slice()),
    }
}

fn encode_ip(alloc: Global, ip: &Ip) -> Result<Vec<u8>, AllocError>
    ensures found { IfOk result (λ octets. Means AvpType.Address octets.items (Value.Addr (Address.Ip ip.now))) }
    ensures range { IsInRange (Value.Addr (Address.Ip ip.now)) }
{
    match ip {
        Ip::V4(octets) => encode_address_of_family(alloc, 1, octets),
        Ip::V6(octets) => encode_address_of_family(alloc, 2, octets),
    }
}

/// An address: two octets of family, and the octets behind it; or want of memory.
fn encode_address_of_family(alloc: Global, family: u16, rest: &[u8]) -> Result<Vec<u8>, AllocError>
    ensures octets { IfOk result (λ octets. octets.items ≡ be family 2 ++ rest.now) }
    ensures read_back { family ≡ big_number 2 (be family 2 ++ rest.now) }
    ensures fits { family < 256 ^ 2 }
{
    let mut front = [0; 2];
    BigEndian::write_u16(&mut front, family);
    let mut octets = Vec::with_capacity(alloc, 2 + rest.len())?;
    octets.extend_from_slice(&front)?;
    octets.extend_from_slice(rest)?;
    Ok(octets)
}

/// The octets of the AVPs, one after the other; or `TooLong` where the AVP Length of one would pass 16777215, else want
/// of memory.
fn encode_group(alloc: Global, avps: &AvpList) -> Result<Vec<u8>, ValueFault>
    ensures found { IfOk result (λ octets. Means AvpType.Grouped octets.items (Value.Group avps.now)) }
    ensures canonical { IfOk result (λ octets. octets.items ≡ canonical_list avps.now) }
    ensures long { IsErrOf result ValueFault.TooLong ↔ IsLongList avps.now }
    ensures spelled { HasNoOctets (Value.Group avps.now) → IsLongList avps.now }
    ensures fault { IfErr result (λ fault. (fault ≡ ValueFault.TooLong) ⊎ (fault ≡ ValueFault.NoMemory)) }
{
    match encode_avps(alloc, avps.as_slice()) {
        Ok(octets) => Ok(octets),
        Err(fault) => Err(match fault {
            WireFault::NoMemory => ValueFault::NoMemory,
            _ => ValueFault::TooLong,
        }),
    }
}
