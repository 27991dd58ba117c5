//! A run over a reader: what is said of its lines is written as they come.
ghost use Rattle.std.specs.Prelude.{◌≤◌, ℕ, All, List, length, IfOk, IfErr, IfSome, OnOk};
ghost use Rattle.std.specs.Io.KnownBytes.{Appends};
ghost use Rattle.std.specs.Str.Lines.{lines};
ghost use Rattle.dm_view_lines.specs.Colours.{SaysStyled, SaysStreamStyled};
ghost use Rattle.dm_view_lines.specs.Ending.{EndsLines, EndsStream};
ghost use Rattle.dm_view_lines.specs.LineEnds.{ended};
ghost use Rattle.dm_view_lines.specs.declared.gathered_lines.TheConstants.{LINE_LIMIT as line_limit};

use crate::buffered_lines::say_and_count_reader_lines;
use crate::ending::{write_ending_of_lines, write_ending_of_stream};
use crate::line_speaker::LineSpeaker;
use crate::message_reports::Task;
use crate::run_fault::RunFault;
use crate::stream_speaker::StreamSpeaker;
use crate::waiting_text::Style;
use dm_dict::Dictionary;
use dm_framer::laws::{
    cuts_change_no_frames, faults_of_streams_stay, frames_in_a_row_stay_themselves,
};
use std::alloc::Global;
use std::io::{BufRead, Write};

/// Writes what is said of the lines that a reader gives, as they come, with colours for a terminal or without. True
/// where none of them is bad. The reader's end ends its last line. A line has [`LINE_LIMIT`](crate::LINE_LIMIT) octets
/// at most.
///
/// What is said of the lines that were read whole is written before more is read than the reader had at hand. Where the
/// reader fails that is written; where memory is wanted, or a line is too long, what is said of the lines before;
/// where the writer fails a front of that.
pub fn say_lines<R: BufRead, W: Write>(
    alloc: Global,
    dictionary: &Dictionary,
    task: Task,
    coloured: bool,
    reader: &mut R,
    writer: &mut W,
) -> Result<bool, RunFault>
    ensures written { IfOk result (λ good. IfSome (R.remaining reader.old) (λ octets. (text : List ℕ)
        × SaysStyled coloured task dictionary.now (ended octets) text good
        × Appends (W.contents writer.old) (W.contents writer.new) text)) }
    ensures within { OnOk result (IfSome (R.remaining reader.old) (λ octets.
        All (λ line. length line ≤ line_limit) (lines (ended octets)))) }
    ensures stopped { IfErr result (λ fault. EndsLines coloured task dictionary.now fault (R.remaining reader.old)
        (R.remaining reader.new) (W.contents writer.old) (W.contents writer.new)) }
{
    let style = Style { task, coloured };
    let mut speaker = LineSpeaker::new(alloc);
    let said = say_and_count_reader_lines(
        alloc,
        dictionary,
        style,
        &mut speaker,
        0,
        reader,
        writer,
    );
    let tally = speaker.tally();
    drop(speaker);
    match said {
        Ok(_) => write_ending_of_lines(alloc, style, tally, writer),
        Err(fault) => Err(fault),
    }
}

/// Writes what is said of the lines that a reader gives as one stream, as they come, as `say_lines` does of each by
/// itself. True where all of it is good. Behind a line at which the stream stops nothing is read.
pub fn say_stream<R: BufRead, W: Write>(
    alloc: Global,
    dictionary: &Dictionary,
    task: Task,
    coloured: bool,
    reader: &mut R,
    writer: &mut W,
) -> Result<bool, RunFault>
    ensures written { IfOk result (λ good. IfSome (R.remaining reader.old) (λ octets. (text : List ℕ)
        × SaysStreamStyled coloured task dictionary.now (ended octets) text good
        × Appends (W.contents writer.old) (W.contents writer.new) text)) }
    ensures stopped { IfErr result (λ fault. EndsStream coloured task dictionary.now fault (R.remaining reader.old)
        (R.remaining reader.new) (W.contents writer.old) (W.contents writer.new)) }
{
    cuts_change_no_frames();
    faults_of_streams_stay();
    frames_in_a_row_stay_themselves();
    let style = Style { task, coloured };
    let mut speaker = StreamSpeaker::new(alloc);
    let said = say_and_count_reader_lines(
        alloc,
        dictionary,
        style,
        &mut speaker,
        0,
        reader,
        writer,
    );
    let tally = speaker.tally();
    let stop = speaker.why_stopped();
    drop(speaker);
    match said {
        Ok(_) => write_ending_of_stream(alloc, style, tally, stop, writer),
        Err(fault) => Err(fault),
    }
}
