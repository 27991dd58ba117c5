//! The data of an AVP that is no group, by its type, or what is wrong with it in words (RFC 6733, 4.2 and 4.3).
ghost use Rattle.std.specs.Prelude.{◌≡◌, ◌≢◌, ◌++◌, None, length, codes, OnOk};
ghost use Rattle.std.specs.Fmt.{decimal};
ghost use Rattle.std.specs.Net.Text.{ipv4_text};
ghost use Rattle.std.specs.Option.{option_copied};
ghost use Rattle.std.specs.String.{string_bytes};
ghost use Rattle.hex.specs.Hex.{encode_lower};
ghost use Rattle.dm_wire.specs.Printed.{data_text};
ghost use Rattle.dm_value.specs.Flaws.{flaw};
ghost use Rattle.dm_value.specs.Printed.{address_text, name_text, time_text};
ghost use Rattle.dm_value.specs.ValueIn.{value_in, address_in};
ghost use Rattle.dm_view.specs.Words.{quoted};
ghost use Rattle.dm_view.specs.View.{listed_text, value_view, flaw_words, data_view};

use crate::clean::are_escape_free_ascii;
use crate::described_data::ipv6_octets;
use crate::texts_and_numbers::{
    put_hexadecimal_or_dash, put_name_or_hexadecimal, put_quoted_unescaped_or_hexadecimal,
    put_signed_number, put_unsigned_number, put_utf8_between, put_words_and_hexadecimal,
    put_words_and_number,
};
use byteorder::{BigEndian, ByteOrder};
use dm_dict::{AvpDef, AvpType, Ip, ValueFault, unix_seconds, utc_date, value_fault};
use dm_text::{put_decimal, put_hexadecimal};
use dm_wire::Octets;
use std::alloc::AllocError;
use std::str;

/// Appends a value of an Enumerated: its name where it is listed, and its number.
fn put_enumerated(text: &mut String, name: Option<&Octets>, number: i32) -> Result<(), AllocError>
    ensures { OnOk result (string_bytes text.new
        ≡ string_bytes text.old ++ listed_text (option_copied name.entry) number) }
{
    match name {
        Some(name) => {
            put_name_or_hexadecimal(text, name.as_slice())?;
            text.push_str(" (")?;
            put_signed_number(text, i64::from(number))?;
            text.push_str(")")
        }
        None => put_signed_number(text, i64::from(number)),
    }
}

/// Appends an IP address of family 1.
fn put_ipv4(text: &mut String, octets: &[u8]) -> Result<(), AllocError>
    requires { length octets.now ≡ 4 }
    ensures { OnOk result (string_bytes text.new ≡ string_bytes text.old ++ ipv4_text octets.now) }
{
    put_decimal(text, u64::from(octets[0]))?;
    text.push_str(".")?;
    put_decimal(text, u64::from(octets[1]))?;
    text.push_str(".")?;
    put_decimal(text, u64::from(octets[2]))?;
    text.push_str(".")?;
    put_decimal(text, u64::from(octets[3]))
}

/// Appends an address of a family that is no IP.
fn put_non_ip_address(text: &mut String, family: u16, octets: &[u8]) -> Result<(), AllocError>
    ensures { OnOk result (string_bytes text.new ≡ string_bytes text.old
        ++ codes "family " ++ decimal family ++ codes " " ++ encode_lower octets.now) }
{
    put_words_and_number(text, "family ", u32::from(family))?;
    text.push_str(" ")?;
    put_hexadecimal(text, octets)
}

/// Appends an IP address as std writes it, another one as `family 3 0102`.
pub(crate) fn put_address(text: &mut String, octets: &[u8]) -> Result<(), AllocError>
    requires { flaw AvpType.Address octets.now ≡ None }
    ensures { OnOk result (string_bytes text.new ≡ string_bytes text.old ++ address_text (address_in octets.now)) }
{
    let (front, rest) = octets.split_at(2);
    match BigEndian::read_u16(front) {
        1 => put_ipv4(text, rest),
        2 => write!(text, "{}", Ip::V6(ipv6_octets(rest))),
        family => put_non_ip_address(text, family, rest),
    }
}

/// Appends a value of type Time, which is in seconds since 1900: its seconds since 1970, and the date and time of day.
fn put_unix_seconds_and_date(text: &mut String, time: u32) -> Result<(), AllocError>
    ensures { OnOk result (string_bytes text.new ≡ string_bytes text.old ++ time_text time) }
{
    put_signed_number(text, unix_seconds(time))?;
    write!(text, " {}", utc_date(time))
}

/// Appends a text between `"`, or in hexadecimal where a control or a `"` stands in it.
fn put_text_unescaped_or_hexadecimal(text: &mut String, octets: &[u8]) -> Result<(), AllocError>
    requires { flaw AvpType.UTF8String octets.now ≡ None }
    ensures { OnOk result (string_bytes text.new ≡ string_bytes text.old ++ quoted octets.now) }
{
    put_quoted_unescaped_or_hexadecimal(text, octets)
}

/// Appends an identity, which is visible ASCII.
fn put_identity_value(text: &mut String, octets: &[u8]) -> Result<(), AllocError>
    requires { flaw AvpType.DiameterIdentity octets.now ≡ None }
    ensures { OnOk result (string_bytes text.new ≡ string_bytes text.old ++ name_text octets.now) }
{
    // Visible octets are ASCII.
    text.push_str(unsafe { str::from_utf8_unchecked(octets) })
}

/// Appends the value of data with which nothing is wrong.
fn put_value(text: &mut String, def: &AvpDef, octets: &[u8]) -> Result<(), AllocError>
    requires kind { def.now.kind ≢ AvpType.Grouped }
    requires sound { flaw def.now.kind octets.now ≡ None }
    ensures { OnOk result (string_bytes text.new
        ≡ string_bytes text.old ++ value_view def.now.values (value_in def.now.kind octets.now)) }
{
    match def.kind {
        AvpType::OctetString => put_hexadecimal_or_dash(text, octets),
        AvpType::Integer32 => put_signed_number(text, i64::from(BigEndian::read_i32(octets))),
        AvpType::Integer64 => put_signed_number(text, BigEndian::read_i64(octets)),
        AvpType::Unsigned32 => put_unsigned_number(text, u64::from(BigEndian::read_u32(octets))),
        AvpType::Unsigned64 => put_unsigned_number(text, BigEndian::read_u64(octets)),
        AvpType::Address => put_address(text, octets),
        AvpType::Time => put_unix_seconds_and_date(text, BigEndian::read_u32(octets)),
        AvpType::UTF8String => put_text_unescaped_or_hexadecimal(text, octets),
        AvpType::DiameterIdentity => put_identity_value(text, octets),
        AvpType::DiameterURI => put_name_or_hexadecimal(text, octets),
        AvpType::Enumerated => {
            let number = BigEndian::read_i32(octets);
            put_enumerated(text, def.values.name(number), number)
        }
        AvpType::Grouped => unreachable!(),
    }
}

/// What is wrong with data, in words.
pub(crate) fn flaw_words(fault: ValueFault) -> &'static str
    ensures { result.now ≡ flaw_words fault }
{
    match fault {
        ValueFault::WrongLength => "wrong length",
        ValueFault::WrongValue => "wrong value",
        ValueFault::TooLong => "wrong value",
        ValueFault::NoMemory => "wrong value",
    }
}

/// Appends what is wrong with data, and the data in hexadecimal, a space before each.
fn put_spaced_flaw_and_hexadecimal(
    text: &mut String,
    fault: ValueFault,
    octets: &[u8],
) -> Result<(), AllocError>
    ensures { OnOk result (string_bytes text.new
        ≡ string_bytes text.old ++ codes " " ++ flaw_words fault ++ codes " " ++ data_text octets.now) }
{
    text.push_str(" ")?;
    text.push_str(flaw_words(fault))?;
    put_words_and_hexadecimal(text, " ", octets)
}

/// Appends the data of a UTF8String, a space before it: its value, or what is wrong with it and its octets. Escape-free
/// octets aren't checked.
fn put_spaced_text_data(text: &mut String, def: &AvpDef, octets: &[u8]) -> Result<(), AllocError>
    requires { def.now.kind ≡ AvpType.UTF8String }
    ensures { OnOk result (string_bytes text.new ≡ string_bytes text.old ++ data_view def.now octets.now) }
{
    if are_escape_free_ascii(octets, b' ') {
        return put_utf8_between(text, " \"", octets, "\"");
    }
    put_spaced_value_or_flaw(text, def, octets)
}

/// Appends the data of a DiameterIdentity, a space before it: its value, or what is wrong with it and its octets.
/// Escape-free octets aren't checked.
fn put_spaced_identity_data(
    text: &mut String,
    def: &AvpDef,
    octets: &[u8],
) -> Result<(), AllocError>
    requires { def.now.kind ≡ AvpType.DiameterIdentity }
    ensures { OnOk result (string_bytes text.new ≡ string_bytes text.old ++ data_view def.now octets.now) }
{
    if octets.is_empty() {
        return put_spaced_value_or_flaw(text, def, octets);
    }
    if are_escape_free_ascii(octets, b'!') {
        return put_utf8_between(text, " ", octets, "");
    }
    put_spaced_value_or_flaw(text, def, octets)
}

/// Appends the data of an AVP of this definition, a space before it: its value, or what is wrong with it and its
/// octets.
#[tactic(auto, unfolding(crate::specs::View::data_view))]
fn put_spaced_value_or_flaw(
    text: &mut String,
    def: &AvpDef,
    octets: &[u8],
) -> Result<(), AllocError>
    requires { def.now.kind ≢ AvpType.Grouped }
    ensures { OnOk result (string_bytes text.new ≡ string_bytes text.old ++ data_view def.now octets.now) }
{
    match value_fault(def.kind, octets) {
        Some(fault) => put_spaced_flaw_and_hexadecimal(text, fault, octets),
        None => {
            text.push_str(" ")?;
            put_value(text, def, octets)
        }
    }
}

/// Appends the data of an AVP of this definition, a space before it.
pub(crate) fn put_spaced_data(
    text: &mut String,
    def: &AvpDef,
    octets: &[u8],
) -> Result<(), AllocError>
    requires { def.now.kind ≢ AvpType.Grouped }
    ensures { OnOk result (string_bytes text.new ≡ string_bytes text.old ++ data_view def.now octets.now) }
{
    if let AvpType::UTF8String = def.kind {
        return put_spaced_text_data(text, def, octets);
    }
    if let AvpType::DiameterIdentity = def.kind {
        return put_spaced_identity_data(text, def, octets);
    }
    put_spaced_value_or_flaw(text, def, octets)
}
