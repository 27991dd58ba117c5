//! Why a stream is read no further, for a frame's fault, a line that is no hexadecimal or a message cut off, and how
//! that is said (RFC 6733, 3 and 7.1.5).
ghost use Rattle.std.specs.Prelude.{◌≡◌, ◌++◌, ◌+◌, ℕ, List, None, length, IfOk, OnOk};
ghost use Rattle.std.specs.String.{string_bytes};
ghost use Rattle.dm_view_lines.specs.Counts.{tallied, tally_of};
ghost use Rattle.dm_view_lines.specs.Frames.{stream_refusal, line_stopped, part_words, stop_line, stop_text};
ghost use Rattle.dm_view_lines.specs.Frames.{stop_of, stop_verdict};

use crate::bad_line::put_numbered_error_report;
use crate::json_parts::put_json_error_line;
use crate::message_reports::Task;
use crate::refusal_words::refusal_sentence;
use crate::tally::Tally;
use dm_dict::NoMemory;
use dm_framer::FrameFault;
use dm_wire::WireFault;
use std::alloc::{AllocError, Global};

/// Why a stream is read no further, though something is left of it or lost.
#[derive(Clone, Copy)]
pub(crate) enum Stop {
    /// What comes next is no message's.
    Fault(FrameFault),
    /// The line of this number is no hexadecimal.
    Line(u64),
    /// Of the last message there are so many octets, and more of it don't come.
    Part(usize),
}

/// That a stream ends in the middle of a message, of which so many octets are left; None where none are.
pub(crate) fn stop_if_octets_left(held: usize) -> Option<Stop>
    ensures { (rest : List ℕ) → held ≡ length rest → result ≡ stop_of rest None None }
{
    if held == 0 {
        return None;
    }
    Some(Stop::Part(held))
}

/// The refusal of octets that no message begins with.
fn wire_fault_of_frame(fault: FrameFault) -> WireFault
    ensures { result ≡ stream_refusal fault }
{
    match fault {
        FrameFault::BadVersion => WireFault::Version,
        FrameFault::BadLength => WireFault::Length,
        FrameFault::TooLong => WireFault::TooLong,
        FrameFault::NoMemory => WireFault::NoMemory,
    }
}

/// Appends that the line of this number is no hexadecimal.
fn put_not_hexadecimal_report(
    alloc: Global,
    text: &mut String,
    task: Task,
    line: u64,
) -> Result<(), AllocError>
    ensures { OnOk result (string_bytes text.new ≡ string_bytes text.old ++ line_stopped task line) }
{
    match task {
        Task::Show | Task::Check => writeln!(text, "line {line}: no hexadecimal"),
        Task::ShowJson => put_json_error_line(alloc, text, "line", line, false, "no hexadecimal"),
        Task::CheckJson => put_json_error_line(alloc, text, "line", line, true, "no hexadecimal"),
    }
}

/// Appends why a stream is read no further, behind messages of which the last has the number before this one.
fn put_stop_line(
    alloc: Global,
    text: &mut String,
    task: Task,
    number: u64,
    stop: Stop,
) -> Result<(), AllocError>
    ensures { OnOk result (string_bytes text.new ≡ string_bytes text.old ++ stop_line task number stop) }
{
    match stop {
        Stop::Fault(fault) => {
            let words = refusal_sentence(alloc, wire_fault_of_frame(fault))?;
            put_numbered_error_report(alloc, text, task, number, words.as_str())
        }
        Stop::Line(line) => put_not_hexadecimal_report(alloc, text, task, line),
        Stop::Part(size) => {
            let words = partial_message_words(alloc, size)?;
            put_numbered_error_report(alloc, text, task, number, words.as_str())
        }
    }
}

/// That a stream ends inside a message of which so many octets are there.
fn partial_message_words(alloc: Global, size: usize) -> Result<String, AllocError>
    ensures { IfOk result (λ words. string_bytes words ≡ part_words size) }
{
    format!(in alloc; "no message: the stream ends inside it, at octet {size}")
}

/// Appends why a stream is read no further, where something is left of it or lost, and counts it as bad.
pub(crate) fn put_and_count_stop(
    alloc: Global,
    text: &mut String,
    task: Task,
    tally: Tally,
    stop: Option<Stop>,
) -> Result<Tally, NoMemory>
    ensures { IfOk result (λ counted. (counted ≡ tallied tally (tally_of (stop_verdict stop)))
        × (string_bytes text.new ≡ string_bytes text.old ++ stop_text task (tally.good + tally.bad + 1) stop)) }
{
    let Some(stop) = stop else {
        return Ok(tally);
    };
    let Some(number) = tally.number_of_next() else {
        return Err(NoMemory);
    };
    put_stop_line(alloc, text, task, number, stop)?;
    Ok(tally.with_verdict(Some(false)))
}
