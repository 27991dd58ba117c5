//! What ends the text of a capture: a fault of its file, and what a check counts.
ghost use Rattle.std.specs.Prelude.{◌≡◌, ◌++◌, OnOk};
ghost use Rattle.std.specs.String.{string_bytes};
ghost use Rattle.dm_trace_view.specs.Told.{why_words, file_fault_line, fault_json, fault_text, ending_text};

use crate::counts::{Counts, put_counts_if_checked};
use dm_capture::{CaptureFault, FaultKind};
use dm_text::put_decimal;
use dm_view::JsonText;
use dm_view_lines::{Tally, Task};
use std::alloc::{AllocError, Global};

/// Why a capture is read no further, in words.
fn fault_words(kind: FaultKind) -> &'static str
    ensures { result.now ≡ why_words kind }
{
    match kind {
        FaultKind::NoCapture => "no capture",
        FaultKind::OtherVersion => "unsupported version",
        FaultKind::WrongLength => "wrong length",
        FaultKind::RecordTooLong => "record too long",
        FaultKind::LengthsDiffer => "lengths of a block differ",
        FaultKind::UnknownInterface => "interface not described",
        FaultKind::TooManyInterfaces => "too many interfaces",
        FaultKind::CutRecord => "file ends inside a record",
        FaultKind::OutOfMemory => "out of memory",
    }
}

/// Appends a fault of the file in words.
fn put_fault_line(text: &mut String, fault: CaptureFault) -> Result<(), AllocError>
    ensures { OnOk result (string_bytes text.new ≡ string_bytes text.old ++ file_fault_line fault) }
{
    text.push_str("octet ")?;
    put_decimal(text, fault.offset)?;
    text.push_str(": ")?;
    text.push_str(fault_words(fault.kind))?;
    text.push_str("\n")
}

/// Appends a fault of the file as an object on a line of its own.
fn put_json_fault_line(
    alloc: Global,
    text: &mut String,
    fault: CaptureFault,
) -> Result<(), AllocError>
    ensures { OnOk result (string_bytes text.new ≡ string_bytes text.old ++ fault_json fault) }
{
    let mut json = JsonText::new(alloc);
    json.begin_object()?;
    json.put_key("octet")?;
    json.put_number(fault.offset)?;
    json.put_text_member("error", fault_words(fault.kind))?;
    json.end_object()?;
    json.put_line_into(text)
}

/// Appends a fault of the file.
fn put_file_fault(
    alloc: Global,
    text: &mut String,
    task: Task,
    fault: CaptureFault,
) -> Result<(), AllocError>
    ensures { OnOk result (string_bytes text.new ≡ string_bytes text.old ++ fault_text task fault) }
{
    match task {
        Task::Show | Task::Check => put_fault_line(text, fault),
        Task::ShowJson | Task::CheckJson => put_json_fault_line(alloc, text, fault),
    }
}

/// Appends what ends the text of a capture: the fault up to which it was read, if there is one, and under a check the
/// counts. Where memory is wanted, what is appended is of no use.
pub(crate) fn put_fault_and_counts(
    alloc: Global,
    text: &mut String,
    task: Task,
    fault: Option<CaptureFault>,
    counts: Counts,
    tally: Tally,
) -> Result<(), AllocError>
    ensures { OnOk result (string_bytes text.new ≡ string_bytes text.old ++ ending_text task fault counts tally) }
{
    if let Some(fault) = fault {
        put_file_fault(alloc, text, task, fault)?;
    }
    put_counts_if_checked(alloc, text, task, counts, tally)
}
