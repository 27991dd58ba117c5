//! What is said in JSON beside messages: an error behind a number, the verdict `bad`, and how many were good and bad.
ghost use Rattle.std.specs.Prelude.{◌≡◌, ◌++◌, ◌∷◌, if◌then◌else◌, OnOk};
ghost use Rattle.std.specs.String.{string_bytes};
ghost use Rattle.json.specs.Json.{object, member, Members};
ghost use Rattle.json.specs.Token.{begin_object, key};
ghost use Rattle.json.specs.Tree.{json_tokens, members_tokens};
ghost use Rattle.dm_view.specs.JsonWords.{number_json};
ghost use Rattle.dm_view_lines.specs.Json.{json_line, error_member, bad_members, tally_json};

use crate::tally::Tally;
use dm_view::{JsonText, put_verdict_member};
use std::alloc::{AllocError, Global};

/// Opens an object with its number under this key.
pub(crate) fn begin_object_with_number(
    json: &mut JsonText,
    name: &str,
    number: u64,
) -> Result<(), AllocError>
    ensures { OnOk result (json.new
        ≡ json.old ++ begin_object ∷ key name.now ∷ json_tokens (number_json number)) }
{
    json.begin_object()?;
    json.put_key(name)?;
    json.put_number(number)
}

/// Appends what is wrong, in words, and closes the object.
pub(crate) fn put_error_and_end_object(json: &mut JsonText, words: &str) -> Result<(), AllocError>
    ensures { OnOk result (json.new ≡ json.old ++ members_tokens (error_member words.now)) }
{
    json.put_text_member("error", words)?;
    json.end_object()
}

/// Appends the verdict `bad` as a member where `is_checked` is true, else nothing.
pub(crate) fn put_bad_verdict_if_checked(
    json: &mut JsonText,
    is_checked: bool,
) -> Result<(), AllocError>
    ensures { (more : Members) → OnOk result (json.new ++ members_tokens more
        ≡ json.old ++ members_tokens (if is_checked then bad_members more else more)) }
{
    if is_checked {
        put_verdict_member(json, false)
    } else {
        Ok(())
    }
}

/// Appends an object that says of this number what is wrong.
fn put_error_object(
    json: &mut JsonText,
    name: &str,
    number: u64,
    is_checked: bool,
    words: &str,
) -> Result<(), AllocError>
    ensures { OnOk result (json.new ≡ json.old ++ json_tokens (object (member name.now (number_json number)
        (if is_checked then bad_members (error_member words.now) else error_member words.now)))) }
{
    begin_object_with_number(json, name, number)?;
    put_bad_verdict_if_checked(json, is_checked)?;
    put_error_and_end_object(json, words)?;
    Ok(())
}

/// Appends a line that says of this number what is wrong.
pub(crate) fn put_json_error_line(
    alloc: Global,
    text: &mut String,
    name: &str,
    number: u64,
    is_checked: bool,
    words: &str,
) -> Result<(), AllocError>
    ensures { OnOk result (string_bytes text.new ≡ string_bytes text.old ++ json_line (object (member name.now
        (number_json number) (if is_checked then bad_members (error_member words.now) else error_member words.now)))) }
{
    let mut json = JsonText::new(alloc);
    put_error_object(&mut json, name, number, is_checked, words)?;
    json.put_line_into(text)
}

/// Appends how many lines were good and bad, as an object.
fn put_tally_object(json: &mut JsonText, tally: Tally) -> Result<(), AllocError>
    ensures { OnOk result (json.new ≡ json.old ++ json_tokens (tally_json tally)) }
{
    begin_object_with_number(json, "good", tally.good)?;
    json.put_key("bad")?;
    json.put_number(tally.bad)?;
    json.end_object()
}

/// Appends how many lines were good and bad, as a line.
pub(crate) fn put_json_tally_line(
    alloc: Global,
    text: &mut String,
    tally: Tally,
) -> Result<(), AllocError>
    ensures { OnOk result (string_bytes text.new ≡ string_bytes text.old ++ json_line (tally_json tally)) }
{
    let mut json = JsonText::new(alloc);
    put_tally_object(&mut json, tally)?;
    json.put_line_into(text)
}
