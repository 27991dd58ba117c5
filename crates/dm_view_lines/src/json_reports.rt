//! What is said of a message in JSON.
ghost use Rattle.std.specs.Prelude.{◌≡◌, ◌++◌, List, true, IfOk, OnOk};
ghost use Rattle.std.specs.String.{string_bytes};
ghost use Rattle.json.specs.Json.{object, no_members};
ghost use Rattle.json.specs.Tree.{json_tokens};
ghost use Rattle.dm_wire.specs.declared.avp.Avp.{Avp};
ghost use Rattle.dm_wire.specs.Spelling.{SpellsList};
ghost use Rattle.dm_dict.specs.Located.{located_faults};
ghost use Rattle.dm_view.specs.Check.{are_none};
ghost use Rattle.dm_view.specs.JsonCheck.{check_members};
ghost use Rattle.dm_view.specs.JsonView.{message_members};
ghost use Rattle.dm_view_lines.specs.Json.{fronted_json};

use crate::front::Front;
use dm_dict::{Dictionary, NoMemory};
use dm_view::{JsonText, put_json_verdict_header_and_faults, put_message_members};
use dm_wire::MessageRef;
use std::alloc::{AllocError, Global};

/// Appends the object that shows a message behind this front.
fn put_shown_message_object<F: Front>(
    alloc: Global,
    json: &mut JsonText,
    dictionary: &Dictionary,
    front: &F,
    message: &MessageRef<'_>,
) -> Result<(), AllocError>
    ensures { (l : List Avp) → SpellsList l message.now.rest.now → OnOk result (json.new ≡ json.old
        ++ json_tokens (object ((F.before front.now).members
        (message_members dictionary.now (record { header = message.now.header; avps = l }) no_members)))) }
{
    json.begin_object()?;
    front.put_front_members(alloc, json)?;
    put_message_members(json, dictionary, message)?;
    json.end_object()?;
    Ok(())
}

/// Appends the line that shows a message behind this front, and returns true: a message that is shown counts as good.
pub(crate) fn put_json_shown_message<F: Front>(
    alloc: Global,
    text: &mut String,
    dictionary: &Dictionary,
    front: &F,
    message: &MessageRef<'_>,
) -> Result<bool, NoMemory>
    ensures said { (l : List Avp) → SpellsList l message.now.rest.now → OnOk result (string_bytes text.new
        ≡ string_bytes text.old ++ fronted_json (F.before front.now)
        (message_members dictionary.now (record { header = message.now.header; avps = l }) no_members)) }
    ensures good { IfOk result (λ good. good ≡ true) }
{
    let mut json = JsonText::new(alloc);
    put_shown_message_object(alloc, &mut json, dictionary, front, message)?;
    json.put_line_into(text)?;
    Ok(true)
}

/// Appends the object of all that is wrong with a message behind this front, and tells whether it is good.
fn put_checked_message_object<F: Front>(
    alloc: Global,
    json: &mut JsonText,
    dictionary: &Dictionary,
    front: &F,
    message: &MessageRef<'_>,
) -> Result<bool, NoMemory>
    ensures said { (l : List Avp) → SpellsList l message.now.rest.now → OnOk result (json.new ≡ json.old
        ++ json_tokens (object ((F.before front.now).members
        (check_members dictionary.now (record { header = message.now.header; avps = l }) no_members)))) }
    ensures good { (l : List Avp) → SpellsList l message.now.rest.now → IfOk result (λ good.
        good ≡ are_none (located_faults dictionary.now (record { header = message.now.header; avps = l }))) }
{
    json.begin_object()?;
    front.put_front_members(alloc, json)?;
    let good = put_json_verdict_header_and_faults(alloc, json, dictionary, message)?;
    json.end_object()?;
    Ok(good)
}

/// Appends the line of all that is wrong with a message behind this front, and tells whether it is good.
pub(crate) fn put_json_checked_message<F: Front>(
    alloc: Global,
    text: &mut String,
    dictionary: &Dictionary,
    front: &F,
    message: &MessageRef<'_>,
) -> Result<bool, NoMemory>
    ensures said { (l : List Avp) → SpellsList l message.now.rest.now → OnOk result (string_bytes text.new
        ≡ string_bytes text.old ++ fronted_json (F.before front.now)
        (check_members dictionary.now (record { header = message.now.header; avps = l }) no_members)) }
    ensures good { (l : List Avp) → SpellsList l message.now.rest.now → IfOk result (λ good.
        good ≡ are_none (located_faults dictionary.now (record { header = message.now.header; avps = l }))) }
{
    let mut json = JsonText::new(alloc);
    let good = put_checked_message_object(alloc, &mut json, dictionary, front, message)?;
    json.put_line_into(text)?;
    Ok(good)
}
