//! What is wrong with octets as data of a type (RFC 6733, 4.2 to 4.4).
ghost use Rattle.std.specs.Prelude.{◌≡◌, ◌↔◌, length, Some, IfSome, IfNone};
ghost use Rattle.std.specs.List.{list_all};
ghost use Rattle.std.specs.Str.{is_utf8};
ghost use Rattle.dm_value.specs.Columns.{HasWrongLength, HasWrongValue, RefusesData};
ghost use Rattle.dm_value.specs.Meaning.{Means};
ghost use Rattle.dm_value.specs.declared.value.Value.{Value};
ghost use Rattle.dm_value.specs.Flaws.{flaw, is_visible, is_uri, is_under, has_its_size, sized, tested};

use crate::{AvpType, ValueFault};
use byteorder::{BigEndian, ByteOrder};
use dm_wire::laws::members_are_what_octets_spell;
use dm_wire::spells_avps;

/// What is wrong with octets of the type, or `None` where they have a value. It never answers want of memory.
///
/// It answers `WrongLength` or `WrongValue`, the length first. A group has a wrong length where its
/// octets aren't AVPs one after the other.
pub fn value_fault(kind: AvpType, octets: &[u8]) -> Option<ValueFault>
    // The answer, as a table by the type.
    ensures flaw { result ≡ flaw kind octets.now }

    ensures length { (result ≡ Some ValueFault.WrongLength) ↔ HasWrongLength kind octets.now }
    ensures value { (result ≡ Some ValueFault.WrongValue)
        ↔ ((HasWrongLength kind octets.now → ⊥) × HasWrongValue kind octets.now) }
    // Every answer is the octets' own, and octets without one have a value.
    ensures fault { IfSome result (λ fault. RefusesData kind octets.now fault) }
    ensures good { IfNone result ((value : Value) × Means kind octets.now value) }
{
    members_are_what_octets_spell();
    fault_by_type(kind, octets)
}

/// What is wrong with octets of the type, or `None`: a table, with a row for each type.
fn fault_by_type(kind: AvpType, octets: &[u8]) -> Option<ValueFault>
    ensures { result ≡ flaw kind octets.now }
{
    match kind {
        AvpType::OctetString => None,
        AvpType::Grouped => group_fault(octets),
        AvpType::Integer32 | AvpType::Unsigned32 | AvpType::Time | AvpType::Enumerated => {
            size_fault(octets, 4)
        }
        AvpType::Integer64 | AvpType::Unsigned64 => size_fault(octets, 8),
        AvpType::Address => address_fault(octets),
        AvpType::UTF8String => length_or_form_fault(octets, 0, is_valid_utf8(octets)),
        AvpType::DiameterIdentity => length_or_form_fault(octets, 1, are_all_visible(octets)),
        AvpType::DiameterURI => length_or_form_fault(octets, 7, looks_like_uri(octets)),
    }
}

/// What is wrong with a group, or None: whether its octets are AVPs is seen without memory.
fn group_fault(octets: &[u8]) -> Option<ValueFault>
    ensures { result ≡ flaw AvpType.Grouped octets.now }
{
    if spells_avps(octets) {
        None
    } else {
        Some(ValueFault::WrongLength)
    }
}

/// `WrongLength` where the octets are not just so many, else None.
fn size_fault(octets: &[u8], size: usize) -> Option<ValueFault>
    ensures { result ≡ sized size octets.now }
{
    if octets.len() == size {
        None
    } else {
        Some(ValueFault::WrongLength)
    }
}

/// `WrongLength` for fewer octets than `least`, else `WrongValue` where they aren't right, else None.
fn length_or_form_fault(octets: &[u8], least: usize, right: bool) -> Option<ValueFault>
    ensures { result ≡ tested least right octets.now }
{
    if octets.len() < least {
        Some(ValueFault::WrongLength)
    } else if right {
        None
    } else {
        Some(ValueFault::WrongValue)
    }
}

/// What is wrong with an address, or None: family 1 wants 4 octets more, family 2 wants 16.
fn address_fault(octets: &[u8]) -> Option<ValueFault>
    ensures { result ≡ tested 2 (has_its_size octets.now) octets.now }
{
    if octets.len() < 2 {
        return Some(ValueFault::WrongLength);
    }
    let right = match BigEndian::read_u16(octets) {
        1 => octets.len() == 6,
        2 => octets.len() == 18,
        _ => true,
    };
    length_or_form_fault(octets, 2, right)
}

/// Whether the octets are UTF-8.
fn is_valid_utf8(octets: &[u8]) -> bool
    ensures { result ≡ is_utf8 octets.now }
{
    match std::str::from_utf8(octets) {
        Ok(_) => true,
        Err(_) => false,
    }
}

/// Whether all octets are ASCII, none a space and none a control.
fn are_all_visible(octets: &[u8]) -> bool
    ensures { result ≡ list_all is_visible octets.now }
{
    octets.iter().all(|octet| *octet >= 0x21 && *octet <= 0x7e)
}

/// Whether the octets are `aaa://` or `aaas://` and at least one visible octet.
fn looks_like_uri(octets: &[u8]) -> bool
    ensures { result ≡ is_uri octets.now }
{
    has_scheme_and_nonempty_visible_rest(b"aaa://", octets)
        || has_scheme_and_nonempty_visible_rest(b"aaas://", octets)
}

/// Whether the octets are the scheme and at least one visible octet.
fn has_scheme_and_nonempty_visible_rest(scheme: &[u8], octets: &[u8]) -> bool
    ensures { result ≡ is_under scheme.now octets.now }
{
    match octets.strip_prefix(scheme) {
        Some(rest) => !rest.is_empty() && are_all_visible(rest),
        None => false,
    }
}
