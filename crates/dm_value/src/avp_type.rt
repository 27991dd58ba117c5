//! The types of AVP data (RFC 6733, 4.2 to 4.4).
ghost use Rattle.std.specs.Prelude.{◌≡◌};
ghost use Rattle.dm_value.specs.Columns.{least_length};

/// A type of AVP data (RFC 6733, 4.2 to 4.4), without Float32 and Float64.
#[derive(Clone, Copy, Debug, PartialEq, Eq)]
pub enum AvpType {
    /// Octets of any number and kind.
    OctetString,
    /// A signed number of 32 bits.
    Integer32,
    /// A signed number of 64 bits.
    Integer64,
    /// An unsigned number of 32 bits.
    Unsigned32,
    /// An unsigned number of 64 bits.
    Unsigned64,
    /// An address with its family.
    Address,
    /// Seconds, by the 32 bits of an NTP timestamp.
    Time,
    /// Text in UTF-8.
    UTF8String,
    /// The name of a Diameter node or realm.
    DiameterIdentity,
    /// The URI of a Diameter node.
    DiameterURI,
    /// A signed number of 32 bits that stands for one of a list of values.
    Enumerated,
    /// AVPs, one after the other.
    Grouped,
}

/// The least number of octets of data of the type. It never answers want of memory.
pub fn least_len(kind: AvpType) -> u32
    ensures { result ≡ least_length kind }
{
    match kind {
        AvpType::OctetString | AvpType::UTF8String | AvpType::Grouped => 0,
        AvpType::DiameterIdentity => 1,
        AvpType::Address => 2,
        AvpType::Integer32 | AvpType::Unsigned32 | AvpType::Time | AvpType::Enumerated => 4,
        AvpType::DiameterURI => 7,
        AvpType::Integer64 | AvpType::Unsigned64 => 8,
    }
}
