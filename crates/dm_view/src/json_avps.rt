//! AVPs in JSON, groups and all (RFC 6733, 4.1 and 4.4).
ghost use Rattle.std.specs.Prelude.{◌≡◌, ◌++◌, ◌∷◌, List, OnOk, codes, option_map};
ghost use Rattle.std.specs.Option.{option_copied};
ghost use Rattle.json.specs.Json.{Members};
ghost use Rattle.json.specs.Token.{key};
ghost use Rattle.json.specs.Tree.{json_tokens, items_tokens, members_tokens};
ghost use Rattle.dm_wire.specs.declared.avp.Avp.{Avp};
ghost use Rattle.dm_wire.specs.Borrowed.{avp_of, Lists};
ghost use Rattle.dm_dict.specs.Rules.{definition};
ghost use Rattle.dm_view.specs.JsonWords.{name_json, text_json};
ghost use Rattle.dm_view.specs.JsonView.{avp_words, front_members, avp_json, behind_json, group_json, avps_items};

use crate::clean::are_escape_free_ascii;
use crate::json_data::put_json_data;
use crate::json_octets_and_texts::{
    put_flaw_and_octets_object, put_octets_object, put_text_or_octets, put_vendor_member_if_any,
};
use crate::json_text::JsonText;
use dm_dict::{AvpDef, AvpType, Dictionary};
use dm_wire::{AvpRef, AvpsRef, spells_avps};
use std::alloc::AllocError;
use std::str;

/// Appends the name of a definition, as a member `name`.
fn put_defined_avp_name_member(json: &mut JsonText, name: &[u8]) -> Result<(), AllocError>
    ensures { OnOk result (json.new ≡ json.old ++ key (codes "name") ∷ json_tokens (text_json name.now)) }
{
    if are_escape_free_ascii(name, b' ') {
        return json.put_avp_name_member_as_is(unsafe { str::from_utf8_unchecked(name) });
    }
    json.put_key("name")?;
    put_text_or_octets(json, name)
}

/// Appends the name of an AVP as a member `name`, `null` where it has no definition.
fn put_avp_name_member(json: &mut JsonText, def: Option<&AvpDef>) -> Result<(), AllocError>
    ensures { OnOk result (json.new ≡ json.old ++ key (codes "name")
        ∷ json_tokens (name_json (option_map (λ d. d.name) (option_copied def.entry)))) }
{
    match def {
        Some(def) => put_defined_avp_name_member(json, def.name.as_slice()),
        None => {
            json.put_key("name")?;
            json.put_null()
        }
    }
}

/// Appends the flags of an AVP in words, as a member `flags`.
fn put_flags_member_of_avp(json: &mut JsonText, avp: AvpRef<'_>) -> Result<(), AllocError>
    ensures { OnOk result (json.new ≡ json.old ++ key (codes "flags") ∷ json_tokens (avp_words (avp_of avp.entry))) }
{
    json.put_avp_flags_member(avp.vendor.is_some(), avp.mandatory, avp.protected)
}

/// Appends name, code, vendor and flags of an AVP, as members of an object that is open.
pub(crate) fn put_avp_members_without_data(
    json: &mut JsonText,
    def: Option<&AvpDef>,
    avp: AvpRef<'_>,
) -> Result<(), AllocError>
    ensures { (more : Members) → OnOk result (json.new ++ members_tokens more
        ≡ json.old ++ members_tokens (front_members (option_copied def.entry) (avp_of avp.entry) more)) }
{
    put_avp_name_member(json, def)?;
    json.put_avp_code_member(avp.code)?;
    put_vendor_member_if_any(json, avp.vendor)?;
    put_flags_member_of_avp(json, avp)
}

/// Appends an AVP as an object, inside which so many groups may stand.
#[cycle(telling)]
fn put_avp_object(
    json: &mut JsonText,
    dictionary: &Dictionary,
    avp: AvpRef<'_>,
    depth: u32,
) -> Result<(), AllocError>
    ensures { OnOk result (json.new ≡ json.old ++ json_tokens (avp_json (group_json depth dictionary.now.avps)
        (definition dictionary.now.avps (avp_of avp.entry)) (avp_of avp.entry))) }
{
    let def = dictionary.avp_by_code(avp.code, avp.vendor);
    json.begin_object()?;
    put_avp_members_without_data(json, def, avp)?;
    json.put_avp_value_key()?;
    put_avp_data(json, dictionary, def, avp.bytes, depth)?;
    json.end_object()
}

/// Appends the data of an AVP, inside which so many groups may stand.
#[cycle(telling)]
fn put_avp_data(
    json: &mut JsonText,
    dictionary: &Dictionary,
    def: Option<&AvpDef>,
    octets: &[u8],
    depth: u32,
) -> Result<(), AllocError>
    ensures { OnOk result (json.new ≡ json.old ++ json_tokens (behind_json (group_json depth dictionary.now.avps)
        (option_copied def.entry) octets.now)) }
{
    let Some(def) = def else {
        return put_octets_object(json, octets);
    };
    if let AvpType::Grouped = def.kind {
        return put_group_data(json, dictionary, octets, depth);
    }
    put_json_data(json, def, octets)
}

/// Appends the members of a group, where so many groups may stand inside each other.
#[cycle(telling)]
fn put_group_data(
    json: &mut JsonText,
    dictionary: &Dictionary,
    octets: &[u8],
    depth: u32,
) -> Result<(), AllocError>
    ensures { OnOk result (json.new ≡ json.old ++ json_tokens (group_json depth dictionary.now.avps octets.now)) }
{
    if depth == 0 {
        return put_flaw_and_octets_object(json, "too deep", octets);
    }
    if !spells_avps(octets) {
        return put_flaw_and_octets_object(json, "wrong length", octets);
    }
    json.begin_array()?;
    let members = AvpsRef::Spelled(octets);
    put_avps_and_end_array(json, dictionary, members, depth - 1)
}

/// Appends AVPs, where so many groups may stand inside each other, and the end of their array.
#[cycle(telling)]
pub(crate) fn put_avps_and_end_array(
    json: &mut JsonText,
    dictionary: &Dictionary,
    list: AvpsRef<'_>,
    depth: u32,
) -> Result<(), AllocError>
    ensures { (l : List Avp) → Lists list.entry l → OnOk result (json.new
        ≡ json.old ++ items_tokens (avps_items depth dictionary.now.avps l)) }
{
    let mut left = list;
    while let Some((avp, rest)) = left.split_first() {
        put_avp_object(json, dictionary, avp, depth)?;
        left = rest;
    }
    json.end_array()
}
