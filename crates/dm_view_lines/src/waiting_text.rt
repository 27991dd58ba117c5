//! What is said, in its style: gathered before it is written, or written at once.
ghost use Rattle.std.specs.Prelude.{◌≡◌, ◌++◌, [], IfErr, OnOk, OnErr};
ghost use Rattle.std.specs.Io.KnownBytes.{Appends};
ghost use Rattle.dm_view_lines.specs.Colours.{styled};
ghost use Rattle.dm_view_lines.specs.Ending.{FailsAtEnd};
ghost use Rattle.dm_view_lines.specs.Faults.{run_fault};
ghost use Rattle.dm_view_lines.specs.Turns.{Gathers, Leaves, text_left, FailsToWrite, IsOfOutput};

use crate::colours::coloured_text;
use crate::message_reports::Task;
use crate::put_fault::PutFault;
use dm_io::write_text_and_flush;
use std::alloc::{AllocError, Global};
use std::io::Write;

/// So many octets are written though more input is at hand.
const GATHERED: usize = 65_536;

/// What is said of a message, how, and whether with colours for a terminal.
#[derive(Clone, Copy, Debug, PartialEq, Eq)]
pub struct Style {
    /// What is said.
    pub task: Task,
    /// Whether with colours.
    pub coloured: bool,
}

/// Writes what waits and flushes, and then nothing waits. Where the writer fails a front of it was written.
pub fn write_waiting_text<W: Write>(waits: &mut Vec<u8>, writer: &mut W) -> Result<(), PutFault>
    ensures written { OnOk result (Appends (W.contents writer.old) (W.contents writer.new) waits.old.items) }
    ensures none { OnOk result (waits.new.items ≡ []) }
    ensures stopped { IfErr result (λ fault.
        FailsToWrite fault (W.contents writer.old) (W.contents writer.new) waits.old.items) }
{
    match write_text_and_flush(writer, waits.as_slice()) {
        Ok(()) => {
            waits.clear();
            Ok(())
        }
        Err(error) => Err(PutFault::Write(error)),
    }
}

/// Appends a text in its style to what waits; where that fails nothing of it.
fn push_styled_text(
    alloc: Global,
    style: Style,
    text: &[u8],
    waits: &mut Vec<u8>,
) -> Result<(), AllocError>
    ensures put { OnOk result (waits.new.items ≡ waits.old.items ++ styled style.coloured style.task text.now) }
    ensures kept { OnErr result (waits.new.items ≡ waits.old.items) }
{
    if !style.coloured {
        return waits.extend_from_slice(text);
    }
    let made = coloured_text(alloc, style.task, text)?;
    waits.extend_from_slice(made.as_slice())
}

/// Gathers a text in its style behind what waits, and writes all of it where that is enough (65,536 octets).
///
/// Where memory is wanted nothing of the text is gathered or written. Where the writer fails a front of all was
/// written.
pub fn gather_text_and_write_if_full<W: Write>(
    alloc: Global,
    style: Style,
    text: &[u8],
    waits: &mut Vec<u8>,
    writer: &mut W,
) -> Result<(), PutFault>
    ensures gathered { OnOk result (Gathers (W.contents writer.old) waits.old.items (W.contents writer.new)
        waits.new.items (styled style.coloured style.task text.now)) }
    ensures stopped { IfErr result (λ fault. Leaves fault (W.contents writer.old) waits.old.items
        (W.contents writer.new) waits.new.items (text_left fault (styled style.coloured style.task text.now))) }
    ensures fault { IfErr result IsOfOutput }
{
    push_styled_text(alloc, style, text, waits)?;
    if waits.len() < GATHERED {
        return Ok(());
    }
    write_waiting_text(waits, writer)
}

/// Writes a text in its style. Where memory is wanted nothing of it is written, where the writer fails a front.
pub fn write_text_in_style<W: Write>(
    alloc: Global,
    style: Style,
    text: &[u8],
    writer: &mut W,
) -> Result<(), PutFault>
    ensures written { OnOk result (Appends (W.contents writer.old) (W.contents writer.new)
        (styled style.coloured style.task text.now)) }
    ensures stopped { IfErr result (λ fault. FailsAtEnd (run_fault fault) (W.contents writer.old)
        (W.contents writer.new) (styled style.coloured style.task text.now)) }
{
    let mut waits = Vec::new(alloc);
    push_styled_text(alloc, style, text, &mut waits)?;
    write_waiting_text(&mut waits, writer)
}
