//! AVPs, a line for each, groups and all (RFC 6733, 4.1 and 4.4).
ghost use Rattle.std.specs.Prelude.{◌≡◌, ◌++◌, ◌∷◌, ◌+◌, ◌<◌, ◌^◌, List, [], OnOk};
ghost use Rattle.std.specs.Option.{option_copied};
ghost use Rattle.std.specs.String.{string_bytes};
ghost use Rattle.dm_wire.specs.declared.avp.Avp.{Avp};
ghost use Rattle.dm_wire.specs.Borrowed.{avp_of, Lists};
ghost use Rattle.dm_wire.specs.Printed.{data_text};
ghost use Rattle.dm_dict.specs.Rules.{definition};
ghost use Rattle.dm_view.specs.View.{avp_name, front_view, avp_view, avps_view, group_view};

use crate::code_and_flags::put_spaced_code_vendor_and_flags;
use crate::data::put_spaced_data;
use crate::texts_and_numbers::{put_indent, put_name_or_hexadecimal, put_words_and_hexadecimal};
use dm_dict::{AvpDef, AvpType, Dictionary};
use dm_wire::{AvpRef, AvpsRef, spells_avps};
use std::alloc::AllocError;

/// How many groups inside each other are shown by their members.
pub(crate) const GROUPS_SHOWN: u32 = 8;

/// Appends the name of an AVP, `?` where it has no definition.
pub(crate) fn put_avp_name_or_placeholder(
    text: &mut String,
    def: Option<&AvpDef>,
) -> Result<(), AllocError>
    ensures { OnOk result (string_bytes text.new ≡ string_bytes text.old ++ avp_name (option_copied def.entry)) }
{
    match def {
        Some(def) => put_name_or_hexadecimal(text, def.name.as_slice()),
        None => text.push_str("?"),
    }
}

/// Appends the front of an AVP's line: name, code, vendor and flags.
#[tactic(auto, unfolding(crate::specs::View::front_view))]
pub(crate) fn put_avp_without_data(
    text: &mut String,
    def: Option<&AvpDef>,
    avp: AvpRef<'_>,
) -> Result<(), AllocError>
    ensures { OnOk result (string_bytes text.new
        ≡ string_bytes text.old ++ front_view (option_copied def.entry) (avp_of avp.entry)) }
{
    put_avp_name_or_placeholder(text, def)?;
    put_spaced_code_vendor_and_flags(text, avp)
}

/// Appends words, data in hexadecimal, and the end of the line.
fn put_words_and_hexadecimal_line(
    text: &mut String,
    words: &str,
    octets: &[u8],
) -> Result<(), AllocError>
    ensures { OnOk result (string_bytes text.new
        ≡ string_bytes text.old ++ words.now ++ data_text octets.now ++ 10 ∷ []) }
{
    put_words_and_hexadecimal(text, words, octets)?;
    text.push_str("\n")
}

/// Appends an AVP at this level, inside which `depth` groups may stand.
#[cycle(viewing)]
fn put_avp(
    text: &mut String,
    dictionary: &Dictionary,
    avp: AvpRef<'_>,
    depth: u32,
    level: u32,
) -> Result<(), AllocError>
    requires room { level + depth < 2 ^ 31 }
    ensures { OnOk result (string_bytes text.new ≡ string_bytes text.old
        ++ avp_view (group_view depth (level + 1) dictionary.now.avps) level
        (definition dictionary.now.avps (avp_of avp.entry)) (avp_of avp.entry)) }
{
    let def = dictionary.avp_by_code(avp.code, avp.vendor);
    put_indent(text, level)?;
    put_avp_without_data(text, def, avp)?;
    let Some(def) = def else {
        return put_words_and_hexadecimal_line(text, " ", avp.bytes);
    };
    if let AvpType::Grouped = def.kind {
        return put_group_data(text, dictionary, avp.bytes, depth, level + 1);
    }
    put_spaced_data(text, def, avp.bytes)?;
    text.push_str("\n")
}

/// Appends the members of a group at this level, or its octets behind `too deep` where `depth` is 0, and behind `wrong
/// length` where they spell no AVPs.
#[cycle(viewing)]
fn put_group_data(
    text: &mut String,
    dictionary: &Dictionary,
    octets: &[u8],
    depth: u32,
    level: u32,
) -> Result<(), AllocError>
    requires room { level + depth < 2 ^ 31 + 1 }
    ensures { OnOk result (string_bytes text.new ≡ string_bytes text.old
        ++ group_view depth level dictionary.now.avps octets.now) }
{
    if depth == 0 {
        return put_words_and_hexadecimal_line(text, " too deep ", octets);
    }
    if !spells_avps(octets) {
        return put_words_and_hexadecimal_line(text, " wrong length ", octets);
    }
    text.push_str("\n")?;
    let members = AvpsRef::Spelled(octets);
    put_avps(text, dictionary, members, depth - 1, level)
}

/// Appends AVPs at this level, where `depth` groups may stand inside each other.
#[cycle(viewing)]
pub(crate) fn put_avps(
    text: &mut String,
    dictionary: &Dictionary,
    list: AvpsRef<'_>,
    depth: u32,
    level: u32,
) -> Result<(), AllocError>
    requires room { level + depth < 2 ^ 31 }
    ensures { (l : List Avp) → Lists list.entry l → OnOk result (string_bytes text.new ≡ string_bytes text.old
        ++ avps_view depth level dictionary.now.avps l) }
{
    let mut left = list;
    while let Some((avp, rest)) = left.split_first() {
        put_avp(text, dictionary, avp, depth, level)?;
        left = rest;
    }
    Ok(())
}
