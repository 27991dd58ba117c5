//! A header in JSON (RFC 6733, 3).
ghost use Rattle.std.specs.Prelude.{◌≡◌, ◌++◌, OnOk};
ghost use Rattle.std.specs.Option.{option_copied};
ghost use Rattle.json.specs.Tree.{json_tokens, members_tokens};
ghost use Rattle.dm_view.specs.JsonView.{command_json, kind_words, header_words, identifiers, header_json};
ghost use Rattle.dm_view.specs.View.{command_of};

use crate::json_octets_and_texts::{put_name_or_null, put_word_if_meant};
use crate::json_text::JsonText;
use dm_dict::{CommandDef, Dictionary};
use dm_wire::Header;
use std::alloc::AllocError;

/// Appends the name of a command, `null` where it has no definition.
fn put_command_name_or_null(json: &mut JsonText, def: Option<&CommandDef>) -> Result<(), AllocError>
    ensures { OnOk result (json.new ≡ json.old ++ json_tokens (command_json (option_copied def.entry))) }
{
    match def {
        Some(def) => put_name_or_null(json, Some(&def.name)),
        None => put_name_or_null(json, None),
    }
}

/// The word for whether the header is a request's or an answer's.
fn request_or_answer_word(header: &Header) -> &'static str
    ensures { result.now ≡ kind_words header.now }
{
    if header.request { "request" } else { "answer" }
}

/// Appends the flags of a header in words, as an array: the first says whether it is a request's or an answer's.
fn put_flag_words_array(json: &mut JsonText, header: &Header) -> Result<(), AllocError>
    ensures { OnOk result (json.new ≡ json.old ++ json_tokens (header_words header.now)) }
{
    json.begin_array()?;
    json.put_string(request_or_answer_word(header))?;
    put_word_if_meant(json, header.proxiable, "proxiable")?;
    put_word_if_meant(json, header.error, "error")?;
    put_word_if_meant(json, header.retransmit, "retransmitted")?;
    json.end_array()?;
    Ok(())
}

/// Ends the object of a header with its application and its identifiers.
fn end_header_with_application_and_identifiers(
    json: &mut JsonText,
    header: &Header,
) -> Result<(), AllocError>
    ensures { OnOk result (json.new ≡ json.old ++ members_tokens (identifiers header.now)) }
{
    json.put_printed_key_and_number("\"application\":", header.application)?;
    json.put_printed_key_and_number("\"hop_by_hop\":", header.hop_id)?;
    json.put_printed_key_and_number("\"end_to_end\":", header.end_id)?;
    json.end_object()?;
    Ok(())
}

/// Appends a header as an object: the command's name, code, flags in words, application and identifiers.
#[tactic(auto, unfolding(crate::specs::JsonView::header_json))]
pub fn put_header_object(
    json: &mut JsonText,
    dictionary: &Dictionary,
    header: &Header,
) -> Result<(), AllocError>
    ensures { OnOk result (json.new
        ≡ json.old ++ json_tokens (header_json (command_of dictionary.now header.now) header.now)) }
{
    let def = dictionary.command(header.command, header.request, false);
    json.begin_object()?;
    json.put_key("command")?;
    put_command_name_or_null(json, def)?;
    json.put_number_member("code", header.command)?;
    json.put_key("flags")?;
    put_flag_words_array(json, header)?;
    end_header_with_application_and_identifiers(json, header)?;
    Ok(())
}
