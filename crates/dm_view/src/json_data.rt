//! The data of an AVP that is no group in JSON, by its type (RFC 6733, 4.2 and 4.3).
ghost use Rattle.std.specs.Prelude.{◌≡◌, ◌≢◌, ◌++◌, None, OnOk};
ghost use Rattle.std.specs.Option.{option_copied};
ghost use Rattle.json.specs.Json.{string};
ghost use Rattle.json.specs.Tree.{json_tokens};
ghost use Rattle.dm_value.specs.Flaws.{flaw};
ghost use Rattle.dm_value.specs.ValueIn.{value_in};
ghost use Rattle.dm_view.specs.JsonWords.{text_json};
ghost use Rattle.dm_view.specs.JsonView.{listed_json, time_json, value_json, data_json};

use crate::clean::are_escape_free_ascii;
use crate::data::flaw_words;
use crate::json_octets_and_texts::{
    put_flaw_and_octets_object, put_name_or_null, put_octets_object, put_text_or_octets,
};
use crate::json_text::JsonText;
use byteorder::{BigEndian, ByteOrder};
use dm_dict::{AvpDef, AvpType, unix_seconds, value_fault};
use dm_wire::Octets;
use std::alloc::AllocError;
use std::str;

/// Appends a value of an Enumerated as an object: its number, and its name, `null` where it isn't listed.
fn put_enumerated_object(
    json: &mut JsonText,
    name: Option<&Octets>,
    number: i32,
) -> Result<(), AllocError>
    ensures { OnOk result (json.new ≡ json.old ++ json_tokens (listed_json (option_copied name.entry) number)) }
{
    json.begin_object()?;
    json.put_key("number")?;
    json.put_signed_number(i64::from(number))?;
    json.put_key("name")?;
    put_name_or_null(json, name)?;
    json.end_object()
}

/// Appends a time as an object: its seconds since 1970, and its date.
fn put_time_object(json: &mut JsonText, time: u32) -> Result<(), AllocError>
    ensures { OnOk result (json.new ≡ json.old ++ json_tokens (time_json time)) }
{
    json.begin_object()?;
    json.put_key("seconds")?;
    json.put_signed_number(unix_seconds(time))?;
    json.put_key("date")?;
    json.put_date_string(time)?;
    json.end_object()
}

/// Appends the value of a UTF8String.
fn put_text_value(json: &mut JsonText, octets: &[u8]) -> Result<(), AllocError>
    requires { flaw AvpType.UTF8String octets.now ≡ None }
    ensures { OnOk result (json.new ≡ json.old ++ json_tokens (string octets.now)) }
{
    // Words with which nothing is wrong are UTF-8.
    json.put_string(unsafe { str::from_utf8_unchecked(octets) })
}

/// Appends an identity, which is visible ASCII.
fn put_identity_value(json: &mut JsonText, octets: &[u8]) -> Result<(), AllocError>
    requires { flaw AvpType.DiameterIdentity octets.now ≡ None }
    ensures { OnOk result (json.new ≡ json.old ++ json_tokens (text_json octets.now)) }
{
    // Visible octets are ASCII.
    json.put_string(unsafe { str::from_utf8_unchecked(octets) })
}

/// Appends the value of data with which nothing is wrong.
fn put_json_value(json: &mut JsonText, def: &AvpDef, octets: &[u8]) -> Result<(), AllocError>
    requires kind { def.now.kind ≢ AvpType.Grouped }
    requires sound { flaw def.now.kind octets.now ≡ None }
    ensures { OnOk result (json.new
        ≡ json.old ++ json_tokens (value_json def.now.values (value_in def.now.kind octets.now))) }
{
    match def.kind {
        AvpType::OctetString => put_octets_object(json, octets),
        AvpType::Integer32 => json.put_signed_number(i64::from(BigEndian::read_i32(octets))),
        AvpType::Integer64 => json.put_signed_number(BigEndian::read_i64(octets)),
        AvpType::Unsigned32 => json.put_number(u64::from(BigEndian::read_u32(octets))),
        AvpType::Unsigned64 => json.put_number(BigEndian::read_u64(octets)),
        AvpType::Address => json.put_address_string(octets),
        AvpType::Time => put_time_object(json, BigEndian::read_u32(octets)),
        AvpType::UTF8String => put_text_value(json, octets),
        AvpType::DiameterIdentity => put_identity_value(json, octets),
        AvpType::DiameterURI => put_text_or_octets(json, octets),
        AvpType::Enumerated => {
            let number = BigEndian::read_i32(octets);
            put_enumerated_object(json, def.values.name(number), number)
        }
        AvpType::Grouped => unreachable!(),
    }
}

/// Appends the data of a UTF8String: its value, or what is wrong with it and its octets. Escape-free octets aren't
/// checked.
fn put_text_data(json: &mut JsonText, def: &AvpDef, octets: &[u8]) -> Result<(), AllocError>
    requires { def.now.kind ≡ AvpType.UTF8String }
    ensures { OnOk result (json.new ≡ json.old ++ json_tokens (data_json def.now octets.now)) }
{
    if are_escape_free_ascii(octets, b' ') {
        return json.put_string_as_is(unsafe { str::from_utf8_unchecked(octets) });
    }
    put_json_value_or_flaw(json, def, octets)
}

/// Appends the data of a DiameterIdentity: its value, or what is wrong with it and its octets. Escape-free octets
/// aren't checked.
fn put_identity_data(json: &mut JsonText, def: &AvpDef, octets: &[u8]) -> Result<(), AllocError>
    requires { def.now.kind ≡ AvpType.DiameterIdentity }
    ensures { OnOk result (json.new ≡ json.old ++ json_tokens (data_json def.now octets.now)) }
{
    if octets.is_empty() {
        return put_json_value_or_flaw(json, def, octets);
    }
    if are_escape_free_ascii(octets, b'!') {
        return json.put_string_as_is(unsafe { str::from_utf8_unchecked(octets) });
    }
    put_json_value_or_flaw(json, def, octets)
}

/// Appends the data of an AVP of this definition: its value, or what is wrong with it and its octets.
#[tactic(auto, unfolding(crate::specs::JsonView::data_json))]
fn put_json_value_or_flaw(
    json: &mut JsonText,
    def: &AvpDef,
    octets: &[u8],
) -> Result<(), AllocError>
    requires { def.now.kind ≢ AvpType.Grouped }
    ensures { OnOk result (json.new ≡ json.old ++ json_tokens (data_json def.now octets.now)) }
{
    match value_fault(def.kind, octets) {
        Some(fault) => put_flaw_and_octets_object(json, flaw_words(fault), octets),
        None => put_json_value(json, def, octets),
    }
}

/// Appends the data of an AVP of this definition.
pub(crate) fn put_json_data(
    json: &mut JsonText,
    def: &AvpDef,
    octets: &[u8],
) -> Result<(), AllocError>
    requires { def.now.kind ≢ AvpType.Grouped }
    ensures { OnOk result (json.new ≡ json.old ++ json_tokens (data_json def.now octets.now)) }
{
    if let AvpType::UTF8String = def.kind {
        return put_text_data(json, def, octets);
    }
    if let AvpType::DiameterIdentity = def.kind {
        return put_identity_data(json, def, octets);
    }
    put_json_value_or_flaw(json, def, octets)
}
