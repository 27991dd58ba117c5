//! All that is wrong with a message in JSON (RFC 6733, 7).
ghost use Rattle.std.specs.Prelude.{◌≡◌, ◌++◌, ◌∷◌, List, codes, map, option_map, OnOk, IfOk};
ghost use Rattle.std.specs.Option.{option_copied};
ghost use Rattle.json.specs.Json.{Members};
ghost use Rattle.json.specs.Token.{key};
ghost use Rattle.json.specs.Tree.{json_tokens, items_tokens, members_tokens};
ghost use Rattle.dm_wire.specs.declared.avp.Avp.{Avp};
ghost use Rattle.dm_wire.specs.Borrowed.{avp_of};
ghost use Rattle.dm_wire.specs.Spelling.{SpellsList};
ghost use Rattle.dm_dict.specs.Located.{located_faults};
ghost use Rattle.dm_dict.specs.Locating.{told_at};
ghost use Rattle.dm_view.specs.Check.{are_none};
ghost use Rattle.dm_view.specs.JsonCheck.{failed_members_by, failed_members, fault_json, faults_items};
ghost use Rattle.dm_view.specs.JsonCheck.{verdict_json, check_members};

use crate::faults::{failed_avp_data_length, failed_avp_without_data};
use crate::json_avps::put_avp_members_without_data;
use crate::json_header::put_header_object;
use crate::json_path::put_path_and_end_array;
use crate::json_text::JsonText;
use crate::reasons::fault_reason;
use crate::results::result_name_or_placeholder;
use dm_dict::{AvpDef, Dictionary, LocatedFault, NoMemory};
use dm_wire::{AvpRef, MessageRef};
use std::alloc::{AllocError, Global};

/// Ends the object of a fault with its failed AVP, whose data has this length, and why that is one: members `avp` and
/// `reason`.
fn end_fault_with_avp_and_reason(
    alloc: Global,
    json: &mut JsonText,
    code: u32,
    def: Option<&AvpDef>,
    length: usize,
    avp: AvpRef<'_>,
) -> Result<(), AllocError>
    ensures { OnOk result (json.new ≡ json.old
        ++ members_tokens (failed_members_by code (option_copied def.entry) length (avp_of avp.entry))) }
{
    json.put_key("avp")?;
    json.begin_object()?;
    put_avp_members_without_data(json, def, avp)?;
    json.end_object()?;
    let words = fault_reason(alloc, code, def, length)?;
    json.put_text_member("reason", words.as_str())?;
    json.end_object()
}

/// Ends the object of a fault with its failed AVP and why that is one, members `avp` and `reason`; where there is none
/// it is just ended.
fn end_fault_with_failed_avp_if_any(
    alloc: Global,
    json: &mut JsonText,
    dictionary: &Dictionary,
    code: u32,
    length: usize,
    failed: Option<AvpRef<'_>>,
) -> Result<(), AllocError>
    ensures { OnOk result (json.new ≡ json.old
        ++ members_tokens (failed_members dictionary.now.avps code length (option_map avp_of failed.entry))) }
{
    let Some(avp) = failed else {
        return json.end_object();
    };
    let def = dictionary.avp_by_code(avp.code, avp.vendor);
    end_fault_with_avp_and_reason(alloc, json, code, def, length, avp)
}

/// Appends a fault as an object.
#[tactic(auto, unfolding(crate::specs::JsonCheck::fault_json))]
fn put_fault_object(
    alloc: Global,
    json: &mut JsonText,
    dictionary: &Dictionary,
    fault: &LocatedFault<'_>,
) -> Result<(), AllocError>
    ensures { OnOk result (json.new ≡ json.old ++ json_tokens (fault_json dictionary.now.avps (told_at fault.now))) }
{
    let (code, failed) = (fault.fault.code, fault.fault.failed);
    json.begin_object()?;
    json.put_number_member("code", code)?;
    json.put_text_member("name", result_name_or_placeholder(code))?;
    json.put_key("path")?;
    json.begin_array()?;
    put_path_and_end_array(json, dictionary, fault.path.as_slice())?;
    let length = failed_avp_data_length(failed);
    end_fault_with_failed_avp_if_any(
        alloc,
        json,
        dictionary,
        code,
        length,
        failed_avp_without_data(failed),
    )?;
    Ok(())
}

/// Appends faults, one after the other, and the end of their array.
fn put_faults_and_end_array(
    alloc: Global,
    json: &mut JsonText,
    dictionary: &Dictionary,
    faults: &[LocatedFault<'_>],
) -> Result<(), AllocError>
    ensures { OnOk result (json.new
        ≡ json.old ++ items_tokens (faults_items dictionary.now.avps (map told_at faults.now))) }
{
    let mut left = faults;
    while let [fault, rest @ ..] = left {
        put_fault_object(alloc, json, dictionary, fault)?;
        left = rest;
    }
    json.end_array()
}

/// Appends the member `verdict`: `good` or `bad`.
pub fn put_verdict_member(json: &mut JsonText, good: bool) -> Result<(), AllocError>
    ensures { OnOk result (json.new ≡ json.old ++ key (codes "verdict") ∷ json_tokens (verdict_json good)) }
{
    json.put_text_member("verdict", if good { "good" } else { "bad" })
}

/// Appends whether a message of these faults is good, its header and the faults.
fn put_json_verdict_header_and_found_faults(
    alloc: Global,
    json: &mut JsonText,
    dictionary: &Dictionary,
    message: &MessageRef<'_>,
    faults: &[LocatedFault<'_>],
) -> Result<(), AllocError>
    ensures { (l : List Avp) → map told_at faults.now
        ≡ located_faults dictionary.now (record { header = message.now.header; avps = l })
        → (more : Members) → OnOk result (json.new ++ members_tokens more ≡ json.old ++ members_tokens
        (check_members dictionary.now (record { header = message.now.header; avps = l }) more)) }
{
    put_verdict_member(json, faults.is_empty())?;
    json.put_key("header")?;
    put_header_object(json, dictionary, &message.header)?;
    json.put_key("faults")?;
    json.begin_array()?;
    put_faults_and_end_array(alloc, json, dictionary, faults)?;
    Ok(())
}

/// Appends all that is wrong with the message by the dictionary, as members of an object that is open: whether it is
/// good, its header, and each fault in order. True where it is good.
pub fn put_json_verdict_header_and_faults(
    alloc: Global,
    json: &mut JsonText,
    dictionary: &Dictionary,
    message: &MessageRef<'_>,
) -> Result<bool, NoMemory>
    ensures said { (l : List Avp) → SpellsList l message.now.rest.now → (more : Members) → OnOk result (json.new
        ++ members_tokens more ≡ json.old ++ members_tokens (check_members dictionary.now
        (record { header = message.now.header; avps = l }) more)) }
    // It is good where it has no faults.
    ensures good { (l : List Avp) → SpellsList l message.now.rest.now → IfOk result (λ good.
        good ≡ are_none (located_faults dictionary.now (record { header = message.now.header; avps = l }))) }
{
    let faults = dictionary.located_in(alloc, message)?;
    let good = faults.is_empty();
    let done = put_json_verdict_header_and_found_faults(
        alloc,
        json,
        dictionary,
        message,
        faults.as_slice(),
    );
    drop(faults);
    done?;
    Ok(good)
}
