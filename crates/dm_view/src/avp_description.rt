//! An AVP on one line, in names and values (RFC 6733, 4.1 and 4.4).
ghost use Rattle.std.specs.Prelude.{◌≡◌, List, Some, flat_map};
ghost use Rattle.std.specs.Fmt.{WritesOnOk};
ghost use Rattle.std.specs.Option.{option_copied};
ghost use Rattle.dm_wire.specs.declared.avp.Avp.{Avp};
ghost use Rattle.dm_wire.specs.Borrowed.{avp_of, Lists};
ghost use Rattle.dm_dict.specs.Rules.{definition};
ghost use Rattle.dm_view.specs.View.{front_view};
ghost use Rattle.dm_view.specs.Described.{defined_described, member_described, group_described, avp_described};

use crate::avps::GROUPS_SHOWN;
use crate::described_data::write_spaced_data;
use dm_dict::{AvpDef, AvpType, Dictionary};
use dm_value::Name;
use dm_wire::{Avp, AvpFront, AvpRef, AvpsRef, Data, spells_avps};
use std::fmt;

/// An AVP as text on one line, in the names and values that a dictionary has for it: for logs and messages of errors.
#[derive(Clone, Copy, Debug)]
pub struct AvpDescription<'a> {
    /// What names the AVP and types its data.
    pub dictionary: &'a Dictionary,
    /// The AVP.
    pub avp: AvpRef<'a>,
}

/// The AVP as text on one line, by the dictionary. It never answers want of memory.
pub fn describe<'a>(dictionary: &'a Dictionary, avp: &'a Avp) -> AvpDescription<'a>
    ensures dictionary { result.dictionary.now ≡ dictionary.now }
    ensures avp { avp_of result.avp ≡ avp.now }
{
    AvpDescription {
        dictionary,
        avp: avp.borrowed(),
    }
}

/// As `Vendor-Specific-Application-Id 260 -M- { Vendor-Id 266 -M- 10415; Auth-Application-Id 258 -M- 16777251; }`:
/// the name (`?` where it has none), the code, behind a `/` the vendor where there is one, the flags `V` `M` `P` (or
/// `-`), and the data by its type (RFC 6733, 4.1 to 4.4).
///
/// A text stands between `"`, or in hexadecimal where a control or a `"` stands in it; a value of an Enumerated has
/// its name where it is listed, as `BLUE (2)`; a time is its seconds since 1970 and its date. In hexadecimal too is
/// data of an AVP that isn't defined, data that has no value of its type behind `wrong length` or `wrong value`, and
/// that of a group inside eight others behind `too deep`. `-` stands for no data.
///
/// It holds no control of ASCII, so no line feed: names of a dictionary are letters, digits and hyphens, identities and
/// URIs visible ASCII. It takes no memory.
impl fmt::Display for AvpDescription<'_> {
    ghost output = { λ d. Some (avp_described d.dictionary.now.avps (avp_of d.avp)) };

    #[tactic(auto, unfolding(crate::specs::Described::avp_described))]
    fn fmt<W: fmt::Write>(&self, f: &mut fmt::Formatter<W>) -> fmt::Result {
        write_avp(f, self.dictionary, self.avp, GROUPS_SHOWN)
    }
}

/// Writes the front of an AVP: name, code, vendor and flags.
#[tactic(auto, unfolding(crate::specs::View::front_view))]
fn write_avp_without_data<W: fmt::Write>(
    f: &mut fmt::Formatter<W>,
    def: Option<&AvpDef>,
    avp: AvpRef<'_>,
) -> fmt::Result
    ensures { WritesOnOk W.Write.write_str_gives f.old result
        (front_view (option_copied def.entry) (avp_of avp.entry)) f.new }
{
    match def {
        Some(def) => write!(f, "{} {}", Name(&def.name), AvpFront(avp)),
        None => write!(f, "? {}", AvpFront(avp)),
    }
}

/// Writes an AVP, inside which so many groups may stand.
#[cycle(describing)]
fn write_avp<W: fmt::Write>(
    f: &mut fmt::Formatter<W>,
    dictionary: &Dictionary,
    avp: AvpRef<'_>,
    depth: u32,
) -> fmt::Result
    ensures { WritesOnOk W.Write.write_str_gives f.old result
        (defined_described (group_described depth dictionary.now.avps)
        (definition dictionary.now.avps (avp_of avp.entry)) (avp_of avp.entry)) f.new }
{
    let def = dictionary.avp_by_code(avp.code, avp.vendor);
    write_avp_without_data(f, def, avp)?;
    let Some(def) = def else {
        return write!(f, " {}", Data(avp.bytes));
    };
    if let AvpType::Grouped = def.kind {
        return write_spaced_group_data(f, dictionary, avp.bytes, depth);
    }
    write_spaced_data(f, def, avp.bytes)
}

/// Writes the members of a group between braces, where so many groups may stand inside each other, or its octets behind
/// `too deep` where none may, and behind `wrong length` where they spell no AVPs; a space before each.
#[cycle(describing)]
fn write_spaced_group_data<W: fmt::Write>(
    f: &mut fmt::Formatter<W>,
    dictionary: &Dictionary,
    octets: &[u8],
    depth: u32,
) -> fmt::Result
    ensures { WritesOnOk W.Write.write_str_gives f.old result
        (group_described depth dictionary.now.avps octets.now) f.new }
{
    if depth == 0 {
        return write!(f, " too deep {}", Data(octets));
    }
    if !spells_avps(octets) {
        return write!(f, " wrong length {}", Data(octets));
    }
    f.write_str(" {")?;
    write_spaced_avps_and_semicolons(f, dictionary, AvpsRef::Spelled(octets), depth - 1)?;
    f.write_str(" }")
}

/// Writes an AVP of a group behind a space and before `;`, inside which so many groups may stand.
#[cycle(describing)]
fn write_spaced_avp_and_semicolon<W: fmt::Write>(
    f: &mut fmt::Formatter<W>,
    dictionary: &Dictionary,
    avp: AvpRef<'_>,
    depth: u32,
) -> fmt::Result
    ensures { WritesOnOk W.Write.write_str_gives f.old result
        (member_described (group_described depth dictionary.now.avps) dictionary.now.avps (avp_of avp.entry)) f.new }
{
    f.write_str(" ")?;
    write_avp(f, dictionary, avp, depth)?;
    f.write_str(";")
}

/// Writes the AVPs of a group, each behind a space and before `;`, inside each of which so many groups may stand.
/// Octets that spell none end them untold: the caller looks for those first.
#[cycle(describing)]
fn write_spaced_avps_and_semicolons<W: fmt::Write>(
    f: &mut fmt::Formatter<W>,
    dictionary: &Dictionary,
    list: AvpsRef<'_>,
    depth: u32,
) -> fmt::Result
    ensures { (l : List Avp) → Lists list.entry l → WritesOnOk W.Write.write_str_gives f.old result
        (flat_map (member_described (group_described depth dictionary.now.avps) dictionary.now.avps) l) f.new }
{
    let mut left = list;
    while let Some((avp, rest)) = left.split_first() {
        write_spaced_avp_and_semicolon(f, dictionary, avp, depth)?;
        left = rest;
    }
    Ok(())
}
