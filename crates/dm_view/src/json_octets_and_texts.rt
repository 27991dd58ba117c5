//! Parts of a message in JSON: octets, texts, names, vendors and words for flags.
ghost use Rattle.std.specs.Prelude.{◌≡◌, ◌++◌, OnOk};
ghost use Rattle.std.specs.Option.{option_copied};
ghost use Rattle.json.specs.Json.{Items, Members};
ghost use Rattle.json.specs.Tree.{json_tokens, items_tokens, members_tokens};
ghost use Rattle.dm_view.specs.JsonView.{flaw_json};
ghost use Rattle.dm_view.specs.JsonWords.{octets_member, octets_json, text_json, name_json, vendor_member, word_item};

use crate::clean::are_escape_free_ascii;
use crate::json_text::JsonText;
use dm_wire::Octets;
use std::alloc::AllocError;
use std::str;

/// Appends the member that is octets in hexadecimal, and the end of its object.
fn put_octets_and_end_object(json: &mut JsonText, octets: &[u8]) -> Result<(), AllocError>
    ensures { OnOk result (json.new ≡ json.old ++ members_tokens (octets_member octets.now)) }
{
    json.put_key("octets")?;
    json.put_hexadecimal_string(octets)?;
    json.end_object()
}

/// Appends octets in hexadecimal, as an object.
pub(crate) fn put_octets_object(json: &mut JsonText, octets: &[u8]) -> Result<(), AllocError>
    ensures { OnOk result (json.new ≡ json.old ++ json_tokens (octets_json octets.now)) }
{
    json.begin_object()?;
    put_octets_and_end_object(json, octets)
}

/// Appends what is wrong with octets, and the octets in hexadecimal, as an object.
pub(crate) fn put_flaw_and_octets_object(
    json: &mut JsonText,
    words: &str,
    octets: &[u8],
) -> Result<(), AllocError>
    ensures { OnOk result (json.new ≡ json.old ++ json_tokens (flaw_json words.now octets.now)) }
{
    json.begin_object()?;
    json.put_text_member("flaw", words)?;
    put_octets_and_end_object(json, octets)
}

/// Appends octets that are UTF-8 as a text, others in hexadecimal.
pub(crate) fn put_text_or_octets(json: &mut JsonText, octets: &[u8]) -> Result<(), AllocError>
    ensures { OnOk result (json.new ≡ json.old ++ json_tokens (text_json octets.now)) }
{
    if are_escape_free_ascii(octets, b' ') {
        return json.put_string_as_is(unsafe { str::from_utf8_unchecked(octets) });
    }
    put_checked_text_or_octets(json, octets)
}

/// Appends octets as a text where they are UTF-8, else in hexadecimal.
fn put_checked_text_or_octets(json: &mut JsonText, octets: &[u8]) -> Result<(), AllocError>
    ensures { OnOk result (json.new ≡ json.old ++ json_tokens (text_json octets.now)) }
{
    match str::from_utf8(octets) {
        Ok(text) => json.put_string(text),
        Err(_) => put_octets_object(json, octets),
    }
}

/// Appends the name of a definition, `null` where there is none.
pub(crate) fn put_name_or_null(json: &mut JsonText, name: Option<&Octets>) -> Result<(), AllocError>
    ensures { OnOk result (json.new ≡ json.old ++ json_tokens (name_json (option_copied name.entry))) }
{
    match name {
        Some(name) => put_text_or_octets(json, name.as_slice()),
        None => json.put_null(),
    }
}

/// Appends a vendor as a member; nothing where there is none.
pub(crate) fn put_vendor_member_if_any(
    json: &mut JsonText,
    vendor: Option<u32>,
) -> Result<(), AllocError>
    ensures { (more : Members) → OnOk result (json.new ++ members_tokens more
        ≡ json.old ++ members_tokens (vendor_member vendor more)) }
{
    match vendor {
        Some(vendor) => json.put_number_member("vendor", vendor),
        None => Ok(()),
    }
}

/// Appends the word where `is_meant` is true, else nothing.
pub(crate) fn put_word_if_meant(
    json: &mut JsonText,
    is_meant: bool,
    word: &str,
) -> Result<(), AllocError>
    ensures { (more : Items) → OnOk result (json.new ++ items_tokens more
        ≡ json.old ++ items_tokens (word_item is_meant word.now more)) }
{
    if is_meant {
        json.put_string(word)
    } else {
        Ok(())
    }
}
