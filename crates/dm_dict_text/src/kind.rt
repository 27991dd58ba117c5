//! The types of AVPs by name (RFC 6733, 4.2 and 4.3).
ghost use Rattle.std.specs.Prelude.{◌≡◌, map};
ghost use Rattle.dm_dict_text.specs.Meaning.{type_named};
ghost use Rattle.dm_dict_text.specs.Kinds.{kind_row, kind_names};

use dm_value::AvpType;

/// A type and its name.
pub struct KindRow {
    pub name: &'static [u8],
    pub kind: AvpType,
}

// NAME, which is spelled as the type
macro_rules! kind {
    ($name:literal, $kind:ident) => {
        KindRow {
            name: $name,
            kind: AvpType::$kind,
        }
    };
}

static KINDS: [KindRow; 11] = [
    kind!(b"OctetString", OctetString),
    kind!(b"Integer32", Integer32),
    kind!(b"Integer64", Integer64),
    kind!(b"Unsigned32", Unsigned32),
    kind!(b"Unsigned64", Unsigned64),
    kind!(b"Address", Address),
    kind!(b"Time", Time),
    kind!(b"UTF8String", UTF8String),
    kind!(b"DiameterIdentity", DiameterIdentity),
    kind!(b"DiameterURI", DiameterURI),
    kind!(b"Enumerated", Enumerated),
];

/// The types with a name, but for Grouped.
fn ungrouped_type_rows() -> &'static [KindRow]
    ensures { map kind_row result.now ≡ kind_names }
{
    &KINDS
}

/// The type of a name, but for Grouped.
pub fn ungrouped_type_named(name: &[u8]) -> Option<AvpType>
    ensures { result ≡ type_named name.now }
{
    for row in ungrouped_type_rows() {
        if name == row.name {
            return Some(row.kind);
        }
    }
    None
}
