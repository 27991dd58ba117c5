//! What is told of octets that are lost.
ghost use Rattle.std.specs.Prelude.{◌≡◌, ◌++◌, codes, OnOk};
ghost use Rattle.std.specs.String.{string_bytes};
ghost use Rattle.json.specs.Json.{object, string, member, Members};
ghost use Rattle.json.specs.Tree.{json_tokens, members_tokens};
ghost use Rattle.dm_trace.specs.Ends.{endpoint_text};
ghost use Rattle.dm_trace.specs.Fronts.{ends_text};
ghost use Rattle.dm_view.specs.JsonWords.{number_json};
ghost use Rattle.dm_trace_view.specs.Told.{lost_words, lost_member, lost_line, lost_json, lost_text};

use crate::counts::put_number_and_words;
use dm_flows::Endpoint;
use dm_text::put_decimal;
use dm_trace::put_endpoint;
use dm_view::JsonText;
use dm_view_lines::Task;
use std::alloc::{AllocError, Global};

/// What was lost.
#[derive(Clone, Copy, Debug, PartialEq, Eq)]
pub enum Lost {
    /// So many octets of the stream that no message could be made of.
    Passed(u64),
    /// So many octets of Diameter over DTLS, which isn't read: the first ones of a connection.
    Secured(u64),
    /// A connection that was idle longest, since too many are held, or too much; and so many octets with it.
    LetGo(u64),
}

/// What was lost, in which packet, and of whom.
#[derive(Clone, Copy, Debug, PartialEq, Eq)]
pub struct LostIn {
    /// The packet's place among those of the file, from 1.
    pub packet: u64,
    pub from: Endpoint,
    pub to: Endpoint,
    pub lost: Lost,
}

/// Appends two ends: ` FROM > TO`.
fn put_spaced_from_and_to(text: &mut String, from: Endpoint, to: Endpoint) -> Result<(), AllocError>
    ensures { OnOk result (string_bytes text.new ≡ string_bytes text.old ++ ends_text from to) }
{
    text.push_str(" ")?;
    put_endpoint(text, from)?;
    text.push_str(" > ")?;
    put_endpoint(text, to)?;
    Ok(())
}

/// Appends what was lost in words.
fn put_lost_words(text: &mut String, lost: Lost) -> Result<(), AllocError>
    ensures { OnOk result (string_bytes text.new ≡ string_bytes text.old ++ lost_words lost) }
{
    match lost {
        Lost::Passed(octets) => put_number_and_words(text, octets, " octets passed over"),
        Lost::Secured(octets) => {
            text.push_str("DTLS begins, ")?;
            put_number_and_words(text, octets, " octets unread")?;
            Ok(())
        }
        Lost::LetGo(octets) => {
            text.push_str("connection let go, ")?;
            put_number_and_words(text, octets, " octets held")?;
            Ok(())
        }
    }
}

/// Appends a line that tells in words what was lost.
fn put_lost_line(text: &mut String, told: LostIn) -> Result<(), AllocError>
    ensures { OnOk result (string_bytes text.new ≡ string_bytes text.old ++ lost_line told) }
{
    text.push_str("packet ")?;
    put_decimal(text, told.packet)?;
    put_spaced_from_and_to(text, told.from, told.to)?;
    text.push_str(": ")?;
    put_lost_words(text, told.lost)?;
    text.push_str("\n")
}

/// Appends an end of a connection as a member under this key.
fn put_endpoint_member(
    json: &mut JsonText,
    room: &mut String,
    name: &str,
    end: Endpoint,
) -> Result<(), AllocError>
    ensures { (more : Members) → OnOk result (json.new ++ members_tokens more
        ≡ json.old ++ members_tokens (member name.now (string (endpoint_text end)) more)) }
{
    room.clear();
    put_endpoint(room, end)?;
    json.put_text_member(name, room.as_str())
}

/// Appends what was lost as a member, and closes the object.
fn put_lost_and_end_object(json: &mut JsonText, lost: Lost) -> Result<(), AllocError>
    ensures { OnOk result (json.new ≡ json.old ++ members_tokens (lost_member lost)) }
{
    match lost {
        Lost::Passed(octets) => {
            json.put_key("passed")?;
            json.put_number(octets)?;
        }
        Lost::Secured(octets) => {
            json.put_key("secured")?;
            json.put_number(octets)?;
        }
        Lost::LetGo(octets) => {
            json.put_key("let_go")?;
            json.put_number(octets)?;
        }
    }
    json.end_object()
}

/// Appends the object that tells what was lost.
fn put_lost_object(json: &mut JsonText, room: &mut String, told: LostIn) -> Result<(), AllocError>
    ensures { OnOk result (json.new ≡ json.old ++ json_tokens (object
        (member (codes "packet") (number_json told.packet)
        (member (codes "from") (string (endpoint_text told.from))
        (member (codes "to") (string (endpoint_text told.to)) (lost_member told.lost)))))) }
{
    json.begin_object()?;
    json.put_key("packet")?;
    json.put_number(told.packet)?;
    put_endpoint_member(json, room, "from", told.from)?;
    put_endpoint_member(json, room, "to", told.to)?;
    put_lost_and_end_object(json, told.lost)?;
    Ok(())
}

/// Appends an object on a line of its own that tells what was lost.
fn put_json_lost_line(alloc: Global, text: &mut String, told: LostIn) -> Result<(), AllocError>
    ensures { OnOk result (string_bytes text.new ≡ string_bytes text.old ++ lost_json told) }
{
    let mut room = String::new(alloc);
    let mut json = JsonText::new(alloc);
    put_lost_object(&mut json, &mut room, told)?;
    json.put_line_into(text)
}

/// Appends what was lost. Where memory is wanted, what is appended is of no use.
pub fn put_lost(
    alloc: Global,
    text: &mut String,
    task: Task,
    told: LostIn,
) -> Result<(), AllocError>
    ensures { OnOk result (string_bytes text.new ≡ string_bytes text.old ++ lost_text task told) }
{
    match task {
        Task::Show | Task::Check => put_lost_line(text, told),
        Task::ShowJson | Task::CheckJson => put_json_lost_line(alloc, text, told),
    }
}
