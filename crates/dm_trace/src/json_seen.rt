//! When, between whom and in which packet a message was seen, in JSON.
ghost use Rattle.std.specs.Prelude.{◌≡◌, ◌++◌, ◌∷◌, [], codes, OnOk};
ghost use Rattle.json.specs.Json.{Members};
ghost use Rattle.json.specs.Token.{key, string};
ghost use Rattle.json.specs.Tree.{members_tokens};
ghost use Rattle.dm_trace.specs.Ends.{endpoint_text};
ghost use Rattle.dm_trace.specs.Fronts.{transport_word};
ghost use Rattle.dm_trace.specs.JsonFronts.{time_member, place_members, seen_members};

use crate::endpoint::put_endpoint;
use crate::seen::{Seen, Transport};
use crate::time::{Clock, put_time_or_dash};
use dm_capture::Time;
use dm_flows::Endpoint;
use dm_view::JsonText;
use std::alloc::AllocError;

/// Appends when a message was seen, as a member `time`; nothing where that isn't known.
fn put_time_member_if_known(
    json: &mut JsonText,
    room: &mut String,
    clock: Clock,
    time: Option<Time>,
) -> Result<(), AllocError>
    ensures { (more : Members) → OnOk result (json.new ++ members_tokens more
        ≡ json.old ++ members_tokens (time_member clock time more)) }
{
    match time {
        Some(time) => {
            room.clear();
            put_time_or_dash(room, clock, Some(time))?;
            json.put_text_member("time", room.as_str())
        }
        None => Ok(()),
    }
}

/// Appends an end of a connection, an address and a port, as a member under this key.
fn put_endpoint_member(
    json: &mut JsonText,
    room: &mut String,
    name: &str,
    endpoint: Endpoint,
) -> Result<(), AllocError>
    ensures { OnOk result (json.new ≡ json.old ++ key name.now ∷ string (endpoint_text endpoint) ∷ []) }
{
    room.clear();
    put_endpoint(room, endpoint)?;
    json.put_text_member(name, room.as_str())
}

/// Appends what carried a message, as a member `transport`.
fn put_transport_member(json: &mut JsonText, transport: Transport) -> Result<(), AllocError>
    ensures { OnOk result (json.new
        ≡ json.old ++ key (codes "transport") ∷ string (transport_word transport) ∷ []) }
{
    json.put_text_member("transport", transport.name())
}

/// Appends what carried a message, and in which packet, as members `transport` and `packet`.
fn put_transport_and_packet_members(
    json: &mut JsonText,
    transport: Transport,
    packet: u64,
) -> Result<(), AllocError>
    ensures { (more : Members) → OnOk result (json.new ++ members_tokens more
        ≡ json.old ++ members_tokens (place_members transport packet more)) }
{
    put_transport_member(json, transport)?;
    json.put_key("packet")?;
    json.put_number(packet)
}

/// Appends when, between whom and in which packet a message was seen, as members of an object that is open: `time`,
/// which is left out where it isn't known, `from`, `to`, `transport` and `packet`.
///
/// `room` is for texts that aren't at hand: what it held is lost, and what it holds then doesn't matter. Where memory
/// is wanted, what is appended is of no use.
pub fn put_seen_members(
    json: &mut JsonText,
    room: &mut String,
    clock: Clock,
    seen: &Seen,
) -> Result<(), AllocError>
    ensures { (more : Members) → OnOk result (json.new ++ members_tokens more
        ≡ json.old ++ members_tokens (seen_members clock seen.now more)) }
{
    put_time_member_if_known(json, room, clock, seen.time)?;
    put_endpoint_member(json, room, "from", seen.from)?;
    put_endpoint_member(json, room, "to", seen.to)?;
    put_transport_and_packet_members(json, seen.transport, seen.packet)?;
    Ok(())
}
