//! A run over an input at hand: what is said of it, written at its end.
ghost use Rattle.std.specs.Prelude.{◌≡◌, ℕ, List, IfOk, IfErr, OnOk};
ghost use Rattle.std.specs.Io.KnownBytes.{Appends};
ghost use Rattle.dm_view_lines.specs.Colours.{styled, SaysStyled, SaysStreamStyled};
ghost use Rattle.dm_view_lines.specs.Run.{EndsBy};

use crate::colours::coloured_text;
use crate::line_reports::lines_report;
use crate::lines_fault::LinesFault;
use crate::message_reports::Task;
use crate::stream_lines::stream_report;
use dm_dict::Dictionary;
use dm_io::write_text_and_flush;
use std::alloc::Global;
use std::io::Write;

/// Writes a text and flushes.
fn write_plain_text<W: Write>(text: &[u8], writer: &mut W) -> Result<(), LinesFault>
    ensures written { OnOk result (Appends (W.contents writer.old) (W.contents writer.new) text.now) }
    ensures stopped { IfErr result (EndsBy (λ whole good. whole ≡ text.now) (W.contents writer.old)
        (W.contents writer.new)) }
{
    match write_text_and_flush(writer, text) {
        Ok(()) => Ok(()),
        Err(error) => Err(LinesFault::Write(error)),
    }
}

/// Writes a text with colours for a terminal or without.
fn write_plain_or_coloured_text<W: Write>(
    alloc: Global,
    task: Task,
    coloured: bool,
    text: &[u8],
    writer: &mut W,
) -> Result<(), LinesFault>
    ensures written { OnOk result (Appends (W.contents writer.old) (W.contents writer.new)
        (styled coloured task text.now)) }
    ensures stopped { IfErr result (EndsBy (λ whole good. whole ≡ styled coloured task text.now) (W.contents writer.old)
        (W.contents writer.new)) }
{
    if !coloured {
        return write_plain_text(text, writer);
    }
    let made = coloured_text(alloc, task, text)?;
    write_plain_text(made.as_slice(), writer)
}

/// Writes what is said of the lines of an input, with colours for a terminal or without. True where none of them is
/// bad.
///
/// Where memory is wanted nothing is written. Where the writer fails a front of the text was written.
pub fn write_lines_report<W: Write>(
    alloc: Global,
    dictionary: &Dictionary,
    task: Task,
    coloured: bool,
    input: &[u8],
    writer: &mut W,
) -> Result<bool, LinesFault>
    ensures written { IfOk result (λ good. (text : List ℕ) × SaysStyled coloured task dictionary.now input.now text good
        × Appends (W.contents writer.old) (W.contents writer.new) text) }
    ensures stopped { IfErr result (EndsBy (SaysStyled coloured task dictionary.now input.now)
        (W.contents writer.old) (W.contents writer.new)) }
{
    let (text, good) = lines_report(alloc, dictionary, task, input)?;
    match write_plain_or_coloured_text(alloc, task, coloured, text.as_slice(), writer) {
        Ok(()) => Ok(good),
        Err(fault) => Err(fault),
    }
}

/// Writes what is said of the lines of an input as one stream, with colours for a terminal or without. True where all
/// of it is good.
///
/// Where memory is wanted nothing is written. Where the writer fails a front of the text was written.
pub fn write_stream_report<W: Write>(
    alloc: Global,
    dictionary: &Dictionary,
    task: Task,
    coloured: bool,
    input: &[u8],
    writer: &mut W,
) -> Result<bool, LinesFault>
    ensures written { IfOk result (λ good. (text : List ℕ)
        × SaysStreamStyled coloured task dictionary.now input.now text good
        × Appends (W.contents writer.old) (W.contents writer.new) text) }
    ensures stopped { IfErr result (EndsBy (SaysStreamStyled coloured task dictionary.now input.now)
        (W.contents writer.old) (W.contents writer.new)) }
{
    let (text, is_good) = stream_report(alloc, dictionary, task, input)?;
    match write_plain_or_coloured_text(alloc, task, coloured, text.as_slice(), writer) {
        Ok(()) => Ok(is_good),
        Err(fault) => Err(fault),
    }
}
