//! What ends the text of a run over readers.
ghost use Rattle.std.specs.Prelude.{◌≡◌, ◌++◌, ◌+◌, nat_eq, IfOk, IfErr, OnOk};
ghost use Rattle.std.specs.Io.KnownBytes.{Appends};
ghost use Rattle.dm_view_lines.specs.Colours.{styled};
ghost use Rattle.dm_view_lines.specs.Counts.{tallied, tally_of};
ghost use Rattle.dm_view_lines.specs.Ending.{FailsAtEnd};
ghost use Rattle.dm_view_lines.specs.Faults.{run_fault};
ghost use Rattle.dm_view_lines.specs.Frames.{stop_text, stop_verdict};
ghost use Rattle.dm_view_lines.specs.Lines.{counts_line};
ghost use Rattle.dm_view_lines.specs.declared.tally.Tally.{Tally};

use crate::put_fault::PutFault;
use crate::run_fault::RunFault;
use crate::stop::{Stop, put_and_count_stop};
use crate::tally::{Tally, put_tally_if_checked};
use crate::waiting_text::{Style, write_text_in_style};
use std::alloc::Global;
use std::io::Write;

/// Writes what ends the text of lines: under a check how many were good and bad. True where none was bad.
pub(crate) fn write_ending_of_lines<W: Write>(
    alloc: Global,
    style: Style,
    tally: Tally,
    writer: &mut W,
) -> Result<bool, RunFault>
    ensures written { OnOk result (Appends (W.contents writer.old) (W.contents writer.new)
        (styled style.coloured style.task (counts_line style.task tally))) }
    ensures good { IfOk result (λ good. good ≡ nat_eq tally.bad 0) }
    ensures stopped { IfErr result (λ fault. FailsAtEnd fault (W.contents writer.old) (W.contents writer.new)
        (styled style.coloured style.task (counts_line style.task tally))) }
{
    match write_tally_if_checked(alloc, style, tally, writer) {
        Ok(()) => Ok(tally.bad == 0),
        Err(fault) => Err(RunFault::from(fault)),
    }
}

/// Writes how many were good and bad, under a check.
fn write_tally_if_checked<W: Write>(
    alloc: Global,
    style: Style,
    tally: Tally,
    writer: &mut W,
) -> Result<(), PutFault>
    ensures written { OnOk result (Appends (W.contents writer.old) (W.contents writer.new)
        (styled style.coloured style.task (counts_line style.task tally))) }
    ensures stopped { IfErr result (λ fault. FailsAtEnd (run_fault fault) (W.contents writer.old)
        (W.contents writer.new) (styled style.coloured style.task (counts_line style.task tally))) }
{
    let mut text = String::new(alloc);
    put_tally_if_checked(alloc, &mut text, style.task, tally)?;
    write_text_in_style(alloc, style, text.as_bytes(), writer)
}

/// Writes why a stream is read no further, where something is left of it or lost, and under a check how many messages
/// were good and bad. It tells how many were.
fn write_stop_and_tally<W: Write>(
    alloc: Global,
    style: Style,
    tally: Tally,
    stop: Option<Stop>,
    writer: &mut W,
) -> Result<Tally, PutFault>
    ensures counted { IfOk result (λ counted. counted ≡ tallied tally (tally_of (stop_verdict stop))) }
    ensures written { IfOk result (λ counted. Appends (W.contents writer.old) (W.contents writer.new)
        (styled style.coloured style.task (stop_text style.task (tally.good + tally.bad + 1) stop
        ++ counts_line style.task counted))) }
    ensures stopped { IfErr result (λ fault. FailsAtEnd (run_fault fault) (W.contents writer.old)
        (W.contents writer.new)
        (styled style.coloured style.task (stop_text style.task (tally.good + tally.bad + 1) stop
        ++ counts_line style.task (tallied tally (tally_of (stop_verdict stop)))))) }
{
    let mut text = String::new(alloc);
    let counted = put_and_count_stop(alloc, &mut text, style.task, tally, stop)?;
    put_tally_if_checked(alloc, &mut text, style.task, counted)?;
    write_text_in_style(alloc, style, text.as_bytes(), writer)?;
    Ok(counted)
}

/// Writes what ends the text of a stream. True where all of it was good.
pub(crate) fn write_ending_of_stream<W: Write>(
    alloc: Global,
    style: Style,
    tally: Tally,
    stop: Option<Stop>,
    writer: &mut W,
) -> Result<bool, RunFault>
    ensures written { IfOk result (λ good. (counted : Tally)
        × (counted ≡ tallied tally (tally_of (stop_verdict stop))) × (good ≡ nat_eq counted.bad 0)
        × Appends (W.contents writer.old) (W.contents writer.new)
        (styled style.coloured style.task (stop_text style.task (tally.good + tally.bad + 1) stop
        ++ counts_line style.task counted))) }
    ensures stopped { IfErr result (λ fault. FailsAtEnd fault (W.contents writer.old) (W.contents writer.new)
        (styled style.coloured style.task (stop_text style.task (tally.good + tally.bad + 1) stop
        ++ counts_line style.task (tallied tally (tally_of (stop_verdict stop)))))) }
{
    match write_stop_and_tally(alloc, style, tally, stop, writer) {
        Ok(counted) => Ok(counted.bad == 0),
        Err(fault) => Err(RunFault::from(fault)),
    }
}
