//! A run over a capture: what is said of its packets is written as they come, and then what ends it.
ghost use Rattle.std.specs.Prelude.{◌≡◌, IfOk, IfErr, IfSome, OnOk};
ghost use Rattle.std.specs.Io.KnownBytes.{Appends};
ghost use Rattle.dm_view_lines.specs.Colours.{styled};
ghost use Rattle.dm_view_lines.specs.Ending.{FailsAtEnd};
ghost use Rattle.dm_view_lines.specs.Faults.{run_fault};
ghost use Rattle.dm_trace_view.specs.Captures.{SaysCapture, StopsCapture, is_all_good};
ghost use Rattle.dm_trace_view.specs.Told.{ending_text};

use crate::buffered_packets::say_packets;
use crate::counts::Counts;
use crate::ending::put_fault_and_counts;
use crate::gathered_packets::Output;
use crate::looks::Looks;
use crate::trace_speaker::{counts_after_letting_all_go, new_trace_speaker};
use dm_capture::{CaptureFault, CaptureReader};
use dm_dict::Dictionary;
use dm_view_lines::laws::texts_gathered_in_turn_gather_as_one;
use dm_view_lines::{PutFault, RunFault, Style, Tally, write_text_in_style};
use std::alloc::Global;
use std::hash::RandomState;
use std::io::{BufRead, Write};

/// Writes what ends the text of a capture: its fault, if it has one, and what a check counts.
fn write_fault_and_counts<W: Write>(
    alloc: Global,
    style: Style,
    fault: Option<CaptureFault>,
    counts: Counts,
    tally: Tally,
    writer: &mut W,
) -> Result<(), PutFault>
    ensures written { OnOk result (Appends (W.contents writer.old) (W.contents writer.new)
        (styled style.coloured style.task (ending_text style.task fault counts tally))) }
    ensures stopped { IfErr result (λ why. FailsAtEnd (run_fault why) (W.contents writer.old) (W.contents writer.new)
        (styled style.coloured style.task (ending_text style.task fault counts tally))) }
{
    let mut text = String::new(alloc);
    put_fault_and_counts(alloc, &mut text, style.task, fault, counts, tally)?;
    write_text_in_style(alloc, style, text.as_bytes(), writer)
}

/// Writes what is said of the Diameter messages of a capture (pcap or pcapng) that a reader gives, as they come, with
/// colours for a terminal or without. True where none of them is bad, and nothing is wrong with the file.
///
/// The hashes of connections go by `keys`. A message of a TCP connection or an SCTP association that is looked at is
/// said when the packet came in which it was complete, if it passes the filter, behind its number, when and between
/// whom it was seen. What is said is written before more is read than the reader had at hand. Where the file has a
/// fault, or ends inside a record, what was whole before it is said, and then the fault. Where the reader fails what it
/// gave whole is said and written; where memory is wanted what is said of a front of the packets; where the writer
/// fails a front of that.
pub fn say_capture<R: BufRead, W: Write>(
    alloc: Global,
    keys: RandomState,
    dictionary: &Dictionary,
    style: Style,
    looks: Looks<'_>,
    reader: &mut R,
    writer: &mut W,
) -> Result<bool, RunFault>
    ensures written { IfOk result (λ good. IfSome (R.remaining reader.old) (λ octets.
        SaysCapture dictionary.now style looks.entry octets good (W.contents writer.old) (W.contents writer.new))) }
    ensures stopped { IfErr result (λ why. StopsCapture dictionary.now style looks.entry why (R.remaining reader.old)
        (R.remaining reader.new) (W.contents writer.old) (W.contents writer.new)) }
{
    texts_gathered_in_turn_gather_as_one();
    let mut speaker = match new_trace_speaker(alloc, keys, looks) {
        Ok(speaker) => speaker,
        Err(_) => return Err(RunFault::Memory),
    };
    let mut capture = CaptureReader::new(alloc);
    let mut output = Output {
        text: String::new(alloc),
        waits: Vec::new(alloc),
    };
    let said = say_packets(
        alloc,
        dictionary,
        style,
        &mut speaker,
        &mut capture,
        &mut output,
        reader,
        writer,
    );
    let tally = speaker.reckoned.numbered.tally;
    let counts = counts_after_letting_all_go(&mut speaker);
    drop(speaker);
    drop(capture);
    drop(output);
    match said {
        Ok(fault) => write_ending_of_capture(alloc, style, fault, counts, tally, writer),
        Err(why) => Err(why),
    }
}

/// Writes what ends the text of a capture, and answers true where the file has no fault and no message is bad.
fn write_ending_of_capture<W: Write>(
    alloc: Global,
    style: Style,
    fault: Option<CaptureFault>,
    counts: Counts,
    tally: Tally,
    writer: &mut W,
) -> Result<bool, RunFault>
    ensures written { OnOk result (Appends (W.contents writer.old) (W.contents writer.new)
        (styled style.coloured style.task (ending_text style.task fault counts tally))) }
    ensures good { IfOk result (λ good. good ≡ is_all_good fault tally) }
    ensures stopped { IfErr result (λ why. FailsAtEnd why (W.contents writer.old) (W.contents writer.new)
        (styled style.coloured style.task (ending_text style.task fault counts tally))) }
{
    match write_fault_and_counts(alloc, style, fault, counts, tally, writer) {
        Ok(()) => Ok(fault.is_none() && tally.bad == 0),
        Err(why) => Err(RunFault::from(why)),
    }
}
