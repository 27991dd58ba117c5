//! The values of AVPs, each of one type (RFC 6733, 4.2 to 4.4).
use crate::{Address, AvpType, Text};
use dm_wire::{AvpList, Octets};

/// The value of an AVP: one variant for each type (RFC 6733, 4.2 to 4.4).
#[derive(Debug, Drop, PartialEq, Eq)]
pub enum Value {
    /// OctetString: the octets.
    Bytes(Octets),
    /// Integer32.
    Int32(i32),
    /// Integer64.
    Int64(i64),
    /// Unsigned32.
    Uint32(u32),
    /// Unsigned64.
    Uint64(u64),
    /// Address.
    Addr(Address),
    /// Time: the 32 bits of an NTP timestamp, in seconds. `unix_seconds` gives them since 1970.
    Time(u32),
    /// UTF8String: the text.
    Text(Text),
    /// DiameterIdentity: the octets of the name.
    Identity(Octets),
    /// DiameterURI: the octets of the URI.
    Uri(Octets),
    /// Enumerated: the number.
    Enumerated(i32),
    /// Grouped: the AVPs in order.
    Group(AvpList),
}

impl Value {
    ghost use Rattle.std.specs.Prelude.{◌≡◌};
    ghost use Rattle.dm_value.specs.Meaning.{type_of};

    /// The type of which the value is (RFC 6733, 4.2 to 4.4).
    pub fn avp_type(&self) -> AvpType
        ensures { result ≡ type_of self.now }
    {
        match self {
            Value::Bytes(_) => AvpType::OctetString,
            Value::Int32(_) => AvpType::Integer32,
            Value::Int64(_) => AvpType::Integer64,
            Value::Uint32(_) => AvpType::Unsigned32,
            Value::Uint64(_) => AvpType::Unsigned64,
            Value::Addr(_) => AvpType::Address,
            Value::Time(_) => AvpType::Time,
            Value::Text(_) => AvpType::UTF8String,
            Value::Identity(_) => AvpType::DiameterIdentity,
            Value::Uri(_) => AvpType::DiameterURI,
            Value::Enumerated(_) => AvpType::Enumerated,
            Value::Group(_) => AvpType::Grouped,
        }
    }
}
