//! The data of an AVP that is no group as part of a text that takes no memory, and its IP addresses as arrays
//! (RFC 6733, 4.2 and 4.3).
ghost use Rattle.std.specs.Prelude.{◌≡◌, ◌≢◌, None, length};
ghost use Rattle.std.specs.Fmt.{WritesOnOk};
ghost use Rattle.std.specs.Option.{option_copied};
ghost use Rattle.dm_value.specs.Flaws.{flaw};
ghost use Rattle.dm_value.specs.Printed.{address_text, name_text, time_text};
ghost use Rattle.dm_value.specs.ValueIn.{value_in, address_in};
ghost use Rattle.dm_view.specs.Words.{quoted};
ghost use Rattle.dm_view.specs.View.{listed_text, value_view, data_view};

use crate::data::flaw_words;
use crate::texts_and_numbers::Quoted;
use byteorder::{BigEndian, ByteOrder};
use dm_dict::{AvpDef, AvpType, Ip, unix_seconds, utc_date, value_fault};
use dm_text::Hexadecimal;
use dm_value::Name;
use dm_wire::{Data, Octets};
use std::{fmt, str};

/// Writes the data of an AVP of this definition, a space before it.
#[tactic(auto, unfolding(crate::specs::View::data_view))]
pub(crate) fn write_spaced_data<W: fmt::Write>(
    f: &mut fmt::Formatter<W>,
    def: &AvpDef,
    octets: &[u8],
) -> fmt::Result
    requires { def.now.kind ≢ AvpType.Grouped }
    ensures { WritesOnOk W.Write.write_str_gives f.old result (data_view def.now octets.now) f.new }
{
    match value_fault(def.kind, octets) {
        Some(fault) => write!(f, " {} {}", flaw_words(fault), Data(octets)),
        None => {
            f.write_str(" ")?;
            write_value(f, def, octets)
        }
    }
}

/// Writes the value of data with which nothing is wrong.
fn write_value<W: fmt::Write>(f: &mut fmt::Formatter<W>, def: &AvpDef, octets: &[u8]) -> fmt::Result
    requires kind { def.now.kind ≢ AvpType.Grouped }
    requires sound { flaw def.now.kind octets.now ≡ None }
    ensures { WritesOnOk W.Write.write_str_gives f.old result
        (value_view def.now.values (value_in def.now.kind octets.now)) f.new }
{
    match def.kind {
        AvpType::OctetString => write!(f, "{}", Data(octets)),
        AvpType::Integer32 => write!(f, "{}", BigEndian::read_i32(octets)),
        AvpType::Integer64 => write!(f, "{}", BigEndian::read_i64(octets)),
        AvpType::Unsigned32 => write!(f, "{}", BigEndian::read_u32(octets)),
        AvpType::Unsigned64 => write!(f, "{}", BigEndian::read_u64(octets)),
        AvpType::Address => write_address(f, octets),
        AvpType::Time => write_unix_seconds_and_date(f, BigEndian::read_u32(octets)),
        AvpType::UTF8String => write_text_unescaped_or_hexadecimal(f, octets),
        AvpType::DiameterIdentity | AvpType::DiameterURI => write_name_or_hexadecimal(f, octets),
        AvpType::Enumerated => {
            let number = BigEndian::read_i32(octets);
            write_enumerated(f, def.values.name(number), number)
        }
        AvpType::Grouped => Err(fmt::Error),
    }
}

/// Writes an IP address as std writes it, another one as `family 3 0102`.
fn write_address<W: fmt::Write>(f: &mut fmt::Formatter<W>, octets: &[u8]) -> fmt::Result
    requires { flaw AvpType.Address octets.now ≡ None }
    ensures { WritesOnOk W.Write.write_str_gives f.old result (address_text (address_in octets.now)) f.new }
{
    let (front, rest) = octets.split_at(2);
    match BigEndian::read_u16(front) {
        1 => write!(f, "{}", Ip::V4(ipv4_octets(rest))),
        2 => write!(f, "{}", Ip::V6(ipv6_octets(rest))),
        family => write!(f, "family {family} {}", Hexadecimal(rest)),
    }
}

/// Writes a value of type Time, which is in seconds since 1900: its seconds since 1970, and the date and time of day.
fn write_unix_seconds_and_date<W: fmt::Write>(f: &mut fmt::Formatter<W>, time: u32) -> fmt::Result
    ensures { WritesOnOk W.Write.write_str_gives f.old result (time_text time) f.new }
{
    write!(f, "{} {}", unix_seconds(time), utc_date(time))
}

/// Writes a text between `"`, or in hexadecimal where a control or a `"` stands in it.
fn write_text_unescaped_or_hexadecimal<W: fmt::Write>(
    f: &mut fmt::Formatter<W>,
    octets: &[u8],
) -> fmt::Result
    requires { flaw AvpType.UTF8String octets.now ≡ None }
    ensures { WritesOnOk W.Write.write_str_gives f.old result (quoted octets.now) f.new }
{
    match str::from_utf8(octets) {
        Ok(text) => write!(f, "{}", Quoted(text)),
        Err(_) => Err(fmt::Error),
    }
}

/// Writes a name, as an identity or a URI is one, as it is where it is UTF-8, else in hexadecimal.
fn write_name_or_hexadecimal<W: fmt::Write>(f: &mut fmt::Formatter<W>, octets: &[u8]) -> fmt::Result
    ensures { WritesOnOk W.Write.write_str_gives f.old result (name_text octets.now) f.new }
{
    match str::from_utf8(octets) {
        Ok(text) => f.write_str(text),
        Err(_) => write!(f, "{}", Hexadecimal(octets)),
    }
}

/// Writes a value of an Enumerated: its name where it is listed, and its number.
fn write_enumerated<W: fmt::Write>(
    f: &mut fmt::Formatter<W>,
    name: Option<&Octets>,
    number: i32,
) -> fmt::Result
    ensures { WritesOnOk W.Write.write_str_gives f.old result (listed_text (option_copied name.entry) number) f.new }
{
    match name {
        Some(name) => write!(f, "{} ({number})", Name(name)),
        None => write!(f, "{number}"),
    }
}

/// The octets of an address of family 1.
fn ipv4_octets(octets: &[u8]) -> [u8; 4]
    requires { length octets.now ≡ 4 }
    ensures { result ≡ octets.now }
{
    let mut address = [0; 4];
    address.copy_from_slice(octets);
    address
}

/// The octets of an address of family 2.
pub(crate) fn ipv6_octets(octets: &[u8]) -> [u8; 16]
    requires { length octets.now ≡ 16 }
    ensures { result ≡ octets.now }
{
    let mut address = [0; 16];
    address.copy_from_slice(octets);
    address
}
