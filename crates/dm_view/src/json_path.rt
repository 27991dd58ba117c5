//! The groups round an AVP in JSON (RFC 6733, 4.4).
ghost use Rattle.std.specs.Prelude.{◌≡◌, ◌++◌, OnOk};
ghost use Rattle.json.specs.Tree.{json_tokens, items_tokens};
ghost use Rattle.dm_view.specs.JsonCheck.{step_json, path_items};

use crate::json_octets_and_texts::{put_name_or_null, put_vendor_member_if_any};
use crate::json_text::JsonText;
use dm_dict::{Dictionary, Step};
use std::alloc::AllocError;

/// Appends a group round an AVP as an object: its name, code and vendor, and which of these it is in its list.
fn put_path_step_object(
    json: &mut JsonText,
    dictionary: &Dictionary,
    step: &Step,
) -> Result<(), AllocError>
    ensures { OnOk result (json.new ≡ json.old ++ json_tokens (step_json dictionary.now.avps step.now)) }
{
    let def = dictionary.avp_by_code(step.code, step.vendor);
    json.begin_object()?;
    json.put_key("name")?;
    put_name_or_null(json, def.map(|def| &def.name))?;
    json.put_number_member("code", step.code)?;
    put_vendor_member_if_any(json, step.vendor)?;
    json.put_key("nth")?;
    json.put_number(step.nth as u64)?;
    json.end_object()
}

/// Appends the groups round an AVP, the outermost first, and the end of their array.
pub(crate) fn put_path_and_end_array(
    json: &mut JsonText,
    dictionary: &Dictionary,
    path: &[Step],
) -> Result<(), AllocError>
    ensures { OnOk result (json.new ≡ json.old ++ items_tokens (path_items dictionary.now.avps path.now)) }
{
    let mut left = path;
    while let [step, rest @ ..] = left {
        put_path_step_object(json, dictionary, step)?;
        left = rest;
    }
    json.end_array()
}
