//! What a check counts, and numbers before the words for what they count.
ghost use Rattle.std.specs.Prelude.{◌≡◌, ◌++◌, OnOk};
ghost use Rattle.std.specs.Fmt.{decimal};
ghost use Rattle.std.specs.String.{string_bytes};
ghost use Rattle.json.specs.Json.{Members, member};
ghost use Rattle.json.specs.Tree.{members_tokens};
ghost use Rattle.dm_view.specs.JsonWords.{number_json};
ghost use Rattle.dm_trace_view.specs.Told.{messages_in, counts_words, lost_counts};
ghost use Rattle.dm_trace_view.specs.Told.{counts_members, counts_json, counts_text};

use dm_text::put_decimal;
use dm_view::JsonText;
use dm_view_lines::{Tally, Task};
use std::alloc::{AllocError, Global};

/// How many connections, octets and packets of a capture there were, each up to 2^64 - 1.
#[derive(Clone, Copy, Debug, PartialEq, Eq)]
pub struct Counts {
    /// Connections that were looked at.
    pub connections: u64,
    /// Octets of their streams that were passed over.
    pub passed: u64,
    /// Octets of Diameter over DTLS, which aren't read.
    pub secured: u64,
    /// Packets that are fragments of IP packets.
    pub fragments: u64,
    /// Packets that were captured in part, so that a segment isn't there whole.
    pub cut: u64,
}

/// How many messages there were, good and bad.
fn message_count(tally: Tally) -> u64
    ensures { result ≡ messages_in tally }
{
    tally.good.saturating_add(tally.bad)
}

/// Appends a number and what it counts.
pub(crate) fn put_number_and_words(
    text: &mut String,
    number: u64,
    words: &str,
) -> Result<(), AllocError>
    ensures { OnOk result (string_bytes text.new ≡ string_bytes text.old ++ decimal number ++ words.now) }
{
    put_decimal(text, number)?;
    text.push_str(words)
}

/// Appends the counts in words, as a line.
fn put_counts_line(text: &mut String, counts: Counts, tally: Tally) -> Result<(), AllocError>
    ensures { OnOk result (string_bytes text.new ≡ string_bytes text.old ++ counts_words counts tally) }
{
    put_number_and_words(text, counts.connections, " connections, ")?;
    put_number_and_words(text, message_count(tally), " messages, ")?;
    put_number_and_words(text, tally.good, " good, ")?;
    put_number_and_words(text, tally.bad, " bad, ")?;
    put_number_and_words(text, counts.passed, " octets passed over, ")?;
    put_number_and_words(text, counts.secured, " octets of DTLS, ")?;
    put_number_and_words(text, counts.fragments, " fragments, ")?;
    put_number_and_words(text, counts.cut, " cut packets\n")?;
    Ok(())
}

/// Appends a number under this key.
fn put_count_member(json: &mut JsonText, name: &str, number: u64) -> Result<(), AllocError>
    ensures { (more : Members) → OnOk result (json.new ++ members_tokens more
        ≡ json.old ++ members_tokens (member name.now (number_json number) more)) }
{
    json.put_key(name)?;
    json.put_number(number)
}

/// Appends the counts as members, and closes the object.
fn put_counts_and_end_object(
    json: &mut JsonText,
    counts: Counts,
    tally: Tally,
) -> Result<(), AllocError>
    ensures { OnOk result (json.new ≡ json.old ++ members_tokens (counts_members counts tally)) }
{
    put_count_member(json, "connections", counts.connections)?;
    put_count_member(json, "messages", message_count(tally))?;
    put_count_member(json, "good", tally.good)?;
    put_count_member(json, "bad", tally.bad)?;
    put_lost_counts_and_end_object(json, counts)?;
    Ok(())
}

/// Appends what was lost as members, and closes the object.
fn put_lost_counts_and_end_object(json: &mut JsonText, counts: Counts) -> Result<(), AllocError>
    ensures { OnOk result (json.new ≡ json.old ++ members_tokens (lost_counts counts)) }
{
    put_count_member(json, "passed", counts.passed)?;
    put_count_member(json, "secured", counts.secured)?;
    put_count_member(json, "fragments", counts.fragments)?;
    put_count_member(json, "cut", counts.cut)?;
    json.end_object()?;
    Ok(())
}

/// Appends the counts as an object on a line of its own.
fn put_json_counts_line(
    alloc: Global,
    text: &mut String,
    counts: Counts,
    tally: Tally,
) -> Result<(), AllocError>
    ensures { OnOk result (string_bytes text.new ≡ string_bytes text.old ++ counts_json counts tally) }
{
    let mut json = JsonText::new(alloc);
    json.begin_object()?;
    put_counts_and_end_object(&mut json, counts, tally)?;
    json.put_line_into(text)
}

/// Appends the counts where the task is a check, and nothing where it is to show. Where memory is wanted, what is
/// appended is of no use.
pub(crate) fn put_counts_if_checked(
    alloc: Global,
    text: &mut String,
    task: Task,
    counts: Counts,
    tally: Tally,
) -> Result<(), AllocError>
    ensures { OnOk result (string_bytes text.new ≡ string_bytes text.old ++ counts_text task counts tally) }
{
    match task {
        Task::Show | Task::ShowJson => Ok(()),
        Task::Check => put_counts_line(text, counts, tally),
        Task::CheckJson => put_json_counts_line(alloc, text, counts, tally),
    }
}
