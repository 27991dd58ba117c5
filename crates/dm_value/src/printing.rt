//! Addresses and values as text, and IP addresses as std has them.
ghost use Rattle.std.specs.Prelude.{◌≡◌, Some};
ghost use Rattle.dm_value.specs.Printed.{ip_words, ip_text, address_text, name_text, value_text, IsAddressOf};

use crate::{Address, Ip, Text, Value, unix_seconds, utc_date};
use dm_wire::Octets;
use std::net::{IpAddr, Ipv4Addr, Ipv6Addr};
use std::{fmt, str};

/// The same address as std has it.
impl From<Ip> for IpAddr {
    ghost from_gives = { IsAddressOf };

    fn from(ip: Ip) -> IpAddr {
        match ip {
            Ip::V4(octets) => IpAddr::V4(Ipv4Addr::from_octets(octets)),
            Ip::V6(octets) => IpAddr::V6(Ipv6Addr::from_octets(octets)),
        }
    }
}

/// The octets of std's address.
impl From<IpAddr> for Ip {
    ghost from_gives = { λ address ip. ip ≡ ip_words address };

    fn from(address: IpAddr) -> Ip {
        match address {
            IpAddr::V4(address) => Ip::V4(address.octets()),
            IpAddr::V6(address) => Ip::V6(address.octets()),
        }
    }
}

/// As std writes addresses: `1.2.3.4`, `2001:db8::1`.
impl fmt::Display for Ip {
    ghost output = { λ ip. Some (ip_text ip) };

    fn fmt<W: fmt::Write>(&self, f: &mut fmt::Formatter<W>) -> fmt::Result {
        match self {
            Ip::V4(octets) => write!(f, "{}", Ipv4Addr::from_octets(*octets)),
            Ip::V6(octets) => write!(f, "{}", Ipv6Addr::from_octets(*octets)),
        }
    }
}

/// An IP address as std writes it, another one as `family 3 0102`.
impl fmt::Display for Address {
    ghost output = { λ address. Some (address_text address) };

    fn fmt<W: fmt::Write>(&self, f: &mut fmt::Formatter<W>) -> fmt::Result {
        match self {
            Address::Ip(ip) => write!(f, "{ip}"),
            Address::Other(family, octets) => write!(f, "family {family} {octets}"),
        }
    }
}

/// The text itself.
impl fmt::Display for Text {
    ghost output = { λ text. Some text };

    fn fmt<W: fmt::Write>(&self, f: &mut fmt::Formatter<W>) -> fmt::Result {
        f.write_str(self.as_str())
    }
}

/// Numbers in decimal, octets in hexadecimal, texts, identities and URIs as they are (an identity or a URI that isn't
/// UTF-8 in hexadecimal), a time as its seconds since 1970 with its date, an IP address as `1.2.3.4` and a
/// group by its AVPs.
impl fmt::Display for Value {
    ghost output = { λ value. Some (value_text value) };

    fn fmt<W: fmt::Write>(&self, f: &mut fmt::Formatter<W>) -> fmt::Result {
        match self {
            Value::Bytes(octets) => write!(f, "{octets}"),
            Value::Int32(number) | Value::Enumerated(number) => write!(f, "{number}"),
            Value::Int64(number) => write!(f, "{number}"),
            Value::Uint32(number) => write!(f, "{number}"),
            Value::Uint64(number) => write!(f, "{number}"),
            Value::Addr(address) => write!(f, "{address}"),
            Value::Time(seconds) => {
                write!(f, "{} {}", unix_seconds(*seconds), utc_date(*seconds))
            }
            Value::Text(text) => write!(f, "{text}"),
            Value::Identity(name) | Value::Uri(name) => write!(f, "{}", Name(name)),
            Value::Group(avps) => write!(f, "{avps}"),
        }
    }
}

/// Octets that are mostly text, as text: an identity, a URI, or a name of a dictionary.
#[derive(Clone, Copy, Debug)]
pub struct Name<'a>(pub &'a Octets);

/// As they are where they are UTF-8, else in hexadecimal.
impl fmt::Display for Name<'_> {
    ghost output = { λ name. Some (name_text name.0.now) };

    fn fmt<W: fmt::Write>(&self, f: &mut fmt::Formatter<W>) -> fmt::Result {
        match str::from_utf8(self.0.as_slice()) {
            Ok(text) => f.write_str(text),
            Err(_) => write!(f, "{}", self.0),
        }
    }
}
