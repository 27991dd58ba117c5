//! A message in JSON (RFC 6733, 3).
ghost use Rattle.std.specs.Prelude.{◌≡◌, ◌++◌, List, OnOk};
ghost use Rattle.json.specs.Json.{Members};
ghost use Rattle.json.specs.Tree.{members_tokens};
ghost use Rattle.dm_wire.specs.declared.avp.Avp.{Avp};
ghost use Rattle.dm_wire.specs.Spelling.{SpellsList};
ghost use Rattle.dm_view.specs.JsonView.{message_members};

use crate::avps::GROUPS_SHOWN;
use crate::json_avps::put_avps_and_end_array;
use crate::json_header::put_header_object;
use crate::json_text::JsonText;
use dm_dict::Dictionary;
use dm_wire::laws::spelled_avps_are_members;
use dm_wire::{AvpsRef, MessageRef};
use std::alloc::AllocError;

/// Appends what a message says by the dictionary, as members of an object that is open: its header and its AVPs.
///
/// Where memory is wanted, what is appended is of no use.
pub fn put_message_members(
    json: &mut JsonText,
    dictionary: &Dictionary,
    message: &MessageRef<'_>,
) -> Result<(), AllocError>
    ensures { (l : List Avp) → SpellsList l message.now.rest.now → (more : Members) → OnOk result (json.new
        ++ members_tokens more ≡ json.old ++ members_tokens (message_members dictionary.now
        (record { header = message.now.header; avps = l }) more)) }
{
    spelled_avps_are_members();
    json.put_key("header")?;
    put_header_object(json, dictionary, &message.header)?;
    json.put_key("avps")?;
    json.begin_array()?;
    let list = AvpsRef::Spelled(message.rest);
    put_avps_and_end_array(json, dictionary, list, GROUPS_SHOWN)?;
    Ok(())
}
