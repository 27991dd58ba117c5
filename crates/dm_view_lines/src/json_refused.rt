//! Octets that are no message, and what stands before the first bad AVP, in JSON.
ghost use Rattle.std.specs.Prelude.{◌≡◌, ◌++◌, OnOk};
ghost use Rattle.std.specs.String.{string_bytes};
ghost use Rattle.json.specs.Json.{object, Members};
ghost use Rattle.json.specs.Tree.{json_tokens, members_tokens};
ghost use Rattle.dm_wire.specs.Refusal.{Refuses};
ghost use Rattle.dm_view_lines.specs.Json.{fronted_json, error_member, bad_members, shown_before, checked_before};
ghost use Rattle.dm_view_lines.specs.Reasons.{refusal_sentence};

use crate::front::Front;
use crate::json_parts::{put_bad_verdict_if_checked, put_error_and_end_object};
use crate::refusal_words::refusal_sentence;
use crate::refused::message_before_bad_avp;
use dm_dict::Dictionary;
use dm_view::{JsonText, put_header_object, put_message_members};
use dm_wire::WireFault;
use std::alloc::{AllocError, Global};

/// Appends the message up to the bad AVP, as members of an object that is open; nothing where the fault is another.
fn put_message_members_if_bad_avp(
    json: &mut JsonText,
    dictionary: &Dictionary,
    octets: &[u8],
    fault: WireFault,
) -> Result<(), AllocError>
    requires refused { Refuses octets.now fault }
    ensures { (more : Members) → OnOk result (json.new ++ members_tokens more
        ≡ json.old ++ members_tokens (shown_before dictionary.now octets.now fault more)) }
{
    match fault {
        WireFault::AvpLength(offset) => {
            put_message_members(json, dictionary, &message_before_bad_avp(octets, offset))
        }
        WireFault::TooShort
        | WireFault::Version
        | WireFault::Length
        | WireFault::TooLong
        | WireFault::NoMemory => Ok(()),
    }
}

/// Appends the header of a message with a bad AVP, as a member of an object that is open; nothing where the fault is
/// another.
fn put_header_member_if_bad_avp(
    json: &mut JsonText,
    dictionary: &Dictionary,
    octets: &[u8],
    fault: WireFault,
) -> Result<(), AllocError>
    requires refused { Refuses octets.now fault }
    ensures { (more : Members) → OnOk result (json.new ++ members_tokens more
        ≡ json.old ++ members_tokens (checked_before dictionary.now octets.now fault more)) }
{
    match fault {
        WireFault::AvpLength(offset) => {
            json.put_key("header")?;
            put_header_object(
                json,
                dictionary,
                &message_before_bad_avp(octets, offset).header,
            )
        }
        WireFault::TooShort
        | WireFault::Version
        | WireFault::Length
        | WireFault::TooLong
        | WireFault::NoMemory => Ok(()),
    }
}

/// Appends why octets are no message, and closes the object.
fn put_refusal_and_end_object(
    alloc: Global,
    json: &mut JsonText,
    fault: WireFault,
) -> Result<(), AllocError>
    ensures { OnOk result (json.new ≡ json.old ++ members_tokens (error_member (refusal_sentence fault))) }
{
    let words = refusal_sentence(alloc, fault)?;
    put_error_and_end_object(json, words.as_str())
}

/// Appends the object that shows octets that are no message, behind this front.
fn put_shown_refusal_object<F: Front>(
    alloc: Global,
    json: &mut JsonText,
    dictionary: &Dictionary,
    front: &F,
    octets: &[u8],
    fault: WireFault,
) -> Result<(), AllocError>
    requires refused { Refuses octets.now fault }
    ensures { OnOk result (json.new ≡ json.old ++ json_tokens (object ((F.before front.now).members
        (shown_before dictionary.now octets.now fault (error_member (refusal_sentence fault)))))) }
{
    json.begin_object()?;
    front.put_front_members(alloc, json)?;
    put_message_members_if_bad_avp(json, dictionary, octets, fault)?;
    put_refusal_and_end_object(alloc, json, fault)?;
    Ok(())
}

/// Appends the line that shows octets that are no message, behind this front.
pub(crate) fn put_json_shown_refusal<F: Front>(
    alloc: Global,
    text: &mut String,
    dictionary: &Dictionary,
    front: &F,
    octets: &[u8],
    fault: WireFault,
) -> Result<(), AllocError>
    requires refused { Refuses octets.now fault }
    ensures { OnOk result (string_bytes text.new ≡ string_bytes text.old ++ fronted_json (F.before front.now)
        (shown_before dictionary.now octets.now fault (error_member (refusal_sentence fault)))) }
{
    let mut json = JsonText::new(alloc);
    put_shown_refusal_object(alloc, &mut json, dictionary, front, octets, fault)?;
    json.put_line_into(text)
}

/// Appends the object that a check gives of octets that are no message, behind this front.
fn put_checked_refusal_object<F: Front>(
    alloc: Global,
    json: &mut JsonText,
    dictionary: &Dictionary,
    front: &F,
    octets: &[u8],
    fault: WireFault,
) -> Result<(), AllocError>
    requires refused { Refuses octets.now fault }
    ensures { OnOk result (json.new ≡ json.old ++ json_tokens (object ((F.before front.now).members
        (bad_members (checked_before dictionary.now octets.now fault (error_member (refusal_sentence fault))))))) }
{
    json.begin_object()?;
    front.put_front_members(alloc, json)?;
    put_bad_verdict_if_checked(json, true)?;
    put_header_member_if_bad_avp(json, dictionary, octets, fault)?;
    put_refusal_and_end_object(alloc, json, fault)?;
    Ok(())
}

/// Appends the line that a check gives of octets that are no message, behind this front.
pub(crate) fn put_json_checked_refusal<F: Front>(
    alloc: Global,
    text: &mut String,
    dictionary: &Dictionary,
    front: &F,
    octets: &[u8],
    fault: WireFault,
) -> Result<(), AllocError>
    requires refused { Refuses octets.now fault }
    ensures { OnOk result (string_bytes text.new ≡ string_bytes text.old ++ fronted_json (F.before front.now)
        (bad_members (checked_before dictionary.now octets.now fault (error_member (refusal_sentence fault))))) }
{
    let mut json = JsonText::new(alloc);
    put_checked_refusal_object(alloc, &mut json, dictionary, front, octets, fault)?;
    json.put_line_into(text)
}
