//! A line or a message that is bad for a reason that is told in words, behind its number.
ghost use Rattle.std.specs.Prelude.{◌≡◌, ◌++◌, ◌∷◌, [], OnOk};
ghost use Rattle.std.specs.String.{string_bytes};
ghost use Rattle.dm_view_lines.specs.Said.{bad_said, numbered};

use crate::front::Front;
use crate::json_parts::put_json_error_line;
use crate::message_reports::Task;
use std::alloc::{AllocError, Global};

/// Appends a line of words behind their number.
fn put_numbered_line(text: &mut String, number: u64, words: &str) -> Result<(), AllocError>
    ensures { OnOk result (string_bytes text.new ≡ string_bytes text.old ++ numbered number (words.now ++ 10 ∷ [])) }
{
    number.put_front_words(text)?;
    text.push_str(words)?;
    text.push_str("\n")
}

/// Appends in words why the line or the message of this number is bad.
pub(crate) fn put_numbered_error_report(
    alloc: Global,
    text: &mut String,
    task: Task,
    number: u64,
    words: &str,
) -> Result<(), AllocError>
    ensures { OnOk result (string_bytes text.new ≡ string_bytes text.old ++ bad_said task number words.now) }
{
    match task {
        Task::Show | Task::Check => put_numbered_line(text, number, words),
        Task::ShowJson => put_json_error_line(alloc, text, "number", number, false, words),
        Task::CheckJson => put_json_error_line(alloc, text, "number", number, true, words),
    }
}
