//! What is wrong with the data of an AVP that is no group (RFC 6733, 7.1.5).
ghost use Rattle.std.specs.Prelude.{◌≡◌, ◌≢◌, ◌<◌, [], true, false, nat_eq, None, Some, List, length};
ghost use Rattle.std.specs.Prelude.{slice_get, IfSome};
ghost use Rattle.dm_wire.specs.declared.avp.Avp.{Avp};
ghost use Rattle.dm_value.specs.declared.avp_type.AvpType.TheVariants.{Address, DiameterIdentity};
ghost use Rattle.dm_value.specs.declared.avp_type.AvpType.TheVariants.{Enumerated, Grouped, UTF8String};
ghost use Rattle.dm_tables.specs.declared.def.AvpDef.{AvpDef};
ghost use Rattle.dm_tables.specs.declared.values.EnumValue.{EnumValue};
ghost use Rattle.dm_value.specs.Flaws.{flaw};
ghost use Rattle.dm_dict.specs.Codes.{missing_avp};
ghost use Rattle.dm_dict.specs.Faults.{Fault as AFault, is_left_out, data_faults};
ghost use Rattle.dm_dict.specs.Listing.{coded};

use crate::codes::{INVALID_AVP_LENGTH, INVALID_AVP_VALUE};
use crate::linked::Linked;
use crate::octet_ranges::are_between;
use byteorder::{BigEndian, ByteOrder};
use dm_tables::AvpDef;
use dm_value::{AvpType, ValueFault, value_fault};

/// Whether the octets are four, and a value that the list of an Enumerated leaves out.
pub(crate) fn is_unlisted_value(def: &AvpDef, octets: &[u8]) -> bool
    ensures { result ≡ is_left_out def.now.kind def.now.values octets.now }
{
    match def.kind {
        AvpType::Enumerated => {
            octets.len() == 4 && def.values.leaves_out(BigEndian::read_i32(octets))
        }
        _ => false,
    }
}

/// The Result-Code of what is wrong with data of this definition, which is no group's; None where nothing is.
pub(crate) fn data_fault_code(def: &AvpDef, octets: &[u8]) -> Option<u32>
    requires { def.now.kind ≢ Grouped }
    ensures fault { (a : Avp) (group : List AFault) → a.bytes ≡ octets.now
        → data_faults def.now.kind def.now.values group a ≡ coded result a }
    ensures code { IfSome result (λ code. nat_eq code missing_avp ≡ false) }
{
    match value_fault(def.kind, octets) {
        Some(ValueFault::WrongLength) => Some(INVALID_AVP_LENGTH),
        Some(ValueFault::WrongValue) => Some(INVALID_AVP_VALUE),
        _ if is_unlisted_value(def, octets) => Some(INVALID_AVP_VALUE),
        _ => None,
    }
}

/// True only where octets are an Address (RFC 6733, 4.3.1): family 1 wants 4 octets more, family 2 wants 16.
#[inline(always)]
fn is_address_good(octets: &[u8]) -> bool
    ensures { result ≡ true → flaw Address octets.now ≡ None }
{
    if octets.len() < 2 {
        return false;
    }
    match BigEndian::read_u16(octets) {
        1 => octets.len() == 6,
        2 => octets.len() == 18,
        _ => true,
    }
}

/// True only where octets are a DiameterIdentity (4.3.1).
#[inline(always)]
fn is_identity_good(octets: &[u8]) -> bool
    ensures { result ≡ true → flaw DiameterIdentity octets.now ≡ None }
{
    octets.len() >= 1 && are_between(octets, 0x21, 0x7e)
}

/// True only where octets are UTF-8. Of ASCII it is seen sixteen octets at once.
#[inline(always)]
fn is_text_good(octets: &[u8]) -> bool
    ensures { result ≡ true → flaw UTF8String octets.now ≡ None }
{
    are_between(octets, 0, 0x7f) || value_fault(AvpType::UTF8String, octets).is_none()
}

/// True only where nothing is wrong with data of this type, which isn't Grouped or Enumerated. Of the commonest types
/// it is seen at once.
#[inline(always)]
pub(crate) fn is_data_good(kind: AvpType, octets: &[u8]) -> bool
    requires group { kind ≢ Grouped }
    requires listed { kind ≢ Enumerated }
    ensures { (a : Avp) (values : List EnumValue) (group : List AFault) → a.bytes ≡ octets.now → result ≡ true
        → data_faults kind values group a ≡ [] }
{
    match kind {
        AvpType::OctetString => true,
        AvpType::Integer32 | AvpType::Unsigned32 | AvpType::Time => octets.len() == 4,
        AvpType::Integer64 | AvpType::Unsigned64 => octets.len() == 8,
        AvpType::Address => is_address_good(octets),
        AvpType::UTF8String => is_text_good(octets),
        AvpType::DiameterIdentity => is_identity_good(octets),
        _ => value_fault(kind, octets).is_none(),
    }
}

/// True only where nothing is wrong with octets of the definition at the place, which is that of an Enumerated.
// (A function of its own in the machine's code too: a definition is looked at where it has a list alone.)
#[inline(never)]
pub(crate) fn is_enumerated_good(dictionary: &Linked, place: usize, octets: &[u8]) -> bool
    requires within { place < length dictionary.now.tables.avps.items }
    requires kind { (d : AvpDef) → slice_get dictionary.now.tables.avps.items place ≡ Some d → d.kind ≡ Enumerated }
    ensures { (d : AvpDef) (a : Avp) (group : List AFault) → slice_get dictionary.now.tables.avps.items place ≡ Some d
        → a.bytes ≡ octets.now → result ≡ true → data_faults d.kind d.values group a ≡ [] }
{
    let def = dictionary.avp_def_at(place);
    octets.len() == 4 && !def.values.leaves_out(BigEndian::read_i32(octets))
}
