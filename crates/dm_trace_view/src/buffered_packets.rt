//! The loop of a run over a capture: its packets are said as they come, and that is written before more is read.
ghost use Rattle.std.specs.Prelude.{◌≡◌, [], None, Ok, Err, false, IfOk, IfErr, IfSome, OnOk};
ghost use Rattle.dm_capture.specs.Captures.{new_progress};
ghost use Rattle.dm_view_lines.specs.Colours.{styled};
ghost use Rattle.dm_view_lines.specs.Turns.{Settles};
ghost use Rattle.dm_trace_view.specs.Feeds.{ReadsPiece, ReadsNoPiece, FileEnds};
ghost use Rattle.dm_trace_view.specs.Packets.{TellsHeld, StopsHeld};
ghost use Rattle.dm_trace_view.specs.Runs.{SaysFile, StopsFile};

use crate::gathered_packets::{Output, say_and_gather_held_packets};
use crate::speaker::PacketSpeaker;
use dm_capture::laws::read_items_stay_and_runs_join;
use dm_capture::{CaptureFault, CaptureReader};
use dm_dict::Dictionary;
use dm_view_lines::laws::texts_gathered_in_turn_gather_as_one;
use dm_view_lines::{PutFault, RunFault, Style, write_waiting_text};
use std::alloc::Global;
use std::io::{BufRead, Error, ErrorKind, Write};

/// Writes what waits though the run stops by this fault, unless it was a write that failed. It tells why the run stops.
fn write_waiting_unless_write_failed<W: Write>(
    fault: PutFault,
    output: &mut Output,
    writer: &mut W,
) -> PutFault
    ensures { Settles (Err fault) (Err result) (W.contents writer.old) (W.contents writer.new) output.old.waits.items }
{
    match fault {
        PutFault::Write(error) => PutFault::Write(error),
        fault => match write_waiting_text(&mut output.waits, writer) {
            Ok(()) => fault,
            Err(other) => other,
        },
    }
}

/// Writes what is said of all whole packets that the capture holds. It answers the fault that stands behind them, or
/// None.
fn say_and_write_held_packets<S: PacketSpeaker, W: Write>(
    alloc: Global,
    dictionary: &Dictionary,
    style: Style,
    speaker: &mut S,
    capture: &mut CaptureReader,
    output: &mut Output,
    writer: &mut W,
) -> Result<Option<CaptureFault>, PutFault>
    requires sound { capture.old.fault ≡ None }
    requires none { output.old.waits.items ≡ [] }
    ensures told { IfOk result (λ fault. TellsHeld (styled style.coloured style.task)
        (S.says dictionary.now style.task) capture.old speaker.old fault capture.new speaker.new
        (W.contents writer.old) [] (W.contents writer.new) []) }
    ensures sound { result ≡ Ok None → capture.new.fault ≡ None }
    ensures none { OnOk result (output.new.waits.items ≡ []) }
    ensures stopped { IfErr result (λ fault. StopsHeld (styled style.coloured style.task)
        (S.says dictionary.now style.task) capture.old speaker.old fault (W.contents writer.old) []
        (W.contents writer.new) []) }
{
    texts_gathered_in_turn_gather_as_one();
    match say_and_gather_held_packets(alloc, dictionary, style, speaker, capture, output, writer) {
        Ok(fault) => {
            write_waiting_text(&mut output.waits, writer)?;
            Ok(fault)
        }
        Err(fault) => Err(write_waiting_unless_write_failed(fault, output, writer)),
    }
}

/// What is answered where a read fails: false where it was interrupted, so that it is made again, else the fault.
fn false_if_interrupted_else_fault(error: Error) -> Result<bool, RunFault>
    ensures again { IfOk result (λ end. end ≡ false) }
    ensures failed { IfErr result (λ fault. fault ≡ RunFault.Read error) }
{
    if error.kind() == ErrorKind::Interrupted {
        return Ok(false);
    }
    Err(RunFault::Read(error))
}

/// Whether the reader is at its end; else it feeds the capture what the reader has at hand.
fn is_reader_ended_else_feed<R: BufRead>(
    capture: &mut CaptureReader,
    reader: &mut R,
) -> Result<bool, RunFault>
    ensures fed { IfOk result (ReadsPiece capture.old (R.remaining reader.old) capture.new (R.remaining reader.new)) }
    ensures none { IfErr result (λ fault. ReadsNoPiece fault capture.old (R.remaining reader.old) capture.new
        (R.remaining reader.new)) }
{
    let octets = match reader.fill_buf() {
        Ok(octets) => octets,
        Err(error) => return false_if_interrupted_else_fault(error),
    };
    let size = octets.len();
    if capture.feed(octets).is_err() {
        return Err(RunFault::Memory);
    }
    reader.consume(size);
    Ok(size == 0)
}

/// What is wrong where the file ends; None where nothing is.
fn fault_at_end(capture: &CaptureReader) -> Option<CaptureFault>
    ensures { FileEnds capture.now result }
{
    match capture.check_whole_file_was_read() {
        Ok(()) => None,
        Err(fault) => Some(fault),
    }
}

/// Writes what is said of the packets of a capture that a reader gives, as they come. It answers the fault up to which
/// they were read, or None where the file has none.
pub(crate) fn say_packets<S: PacketSpeaker, R: BufRead, W: Write>(
    alloc: Global,
    dictionary: &Dictionary,
    style: Style,
    speaker: &mut S,
    capture: &mut CaptureReader,
    output: &mut Output,
    reader: &mut R,
    writer: &mut W,
) -> Result<Option<CaptureFault>, RunFault>
    requires fresh { capture.old ≡ new_progress }
    requires none { output.old.waits.items ≡ [] }
    ensures told { IfOk result (λ fault. IfSome (R.remaining reader.old) (λ octets. SaysFile
        (styled style.coloured style.task) (S.says dictionary.now style.task) speaker.old octets fault speaker.new
        (W.contents writer.old) (W.contents writer.new))) }
    ensures stopped { IfErr result (λ fault. StopsFile (styled style.coloured style.task)
        (S.says dictionary.now style.task) speaker.old fault (R.remaining reader.old) (R.remaining reader.new)
        (W.contents writer.old) (W.contents writer.new)) }
{
    read_items_stay_and_runs_join();
    texts_gathered_in_turn_gather_as_one();
    for _ in 0..u64::MAX {
        let fault = say_and_write_held_packets(
            alloc, dictionary, style, speaker, capture, output, writer,
        )?;
        if fault.is_some() {
            return Ok(fault);
        }
        let ended = is_reader_ended_else_feed(capture, reader)?;
        if ended {
            return Ok(fault_at_end(capture));
        }
    }
    Err(RunFault::Read(Error::from(ErrorKind::TimedOut)))
}
