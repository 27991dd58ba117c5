//! The lines of an input as one stream, and what is said of its messages.
ghost use Rattle.std.specs.Prelude.{◌≡◌, ◌++◌, ◌+◌, ℕ, List, Option, Some, None, option_map, length, IfOk};
ghost use Rattle.std.specs.Str.Lines.{lines};
ghost use Rattle.std.specs.String.{string_bytes};
ghost use Rattle.dm_wire.specs.Codes.{max_message_len};
ghost use Rattle.dm_framer.specs.declared.fault.FrameFault.{FrameFault};
ghost use Rattle.dm_view_lines.specs.declared.stop.Stop.TheVariants.{Fault, Line};
ghost use Rattle.dm_view_lines.specs.declared.tally.Tally.{Tally};
ghost use Rattle.dm_view_lines.specs.Counts.{tallied};
ghost use Rattle.dm_view_lines.specs.Digits.{octets_of_line};
ghost use Rattle.dm_view_lines.specs.Frames.{stream_of, bad_line, stop_of, SaysFrames, SaysStream};

use crate::frames::{Reading, take_frames_and_put_reports};
use crate::hexadecimal::read_hex_line;
use crate::message_reports::Task;
use crate::stop::{Stop, put_and_count_stop, stop_if_octets_left};
use crate::tally::{Tally, put_tally_if_checked};
use dm_dict::{Dictionary, NoMemory};
use dm_framer::Framer;
use dm_framer::laws::{
    cuts_change_no_frames, faults_of_streams_stay, frames_in_a_row_stay_themselves,
};
use dm_text::Lines;
use dm_text::laws::lines_exceed_octets_by_one_at_most;
use dm_wire::codes::limits::MAX_MESSAGE_LEN;
use std::alloc::Global;

/// Adds a piece to the octets that the framer holds, and appends what is said of the messages that are whole then.
fn feed_piece_and_put_reports(
    alloc: Global,
    text: &mut String,
    dictionary: &Dictionary,
    task: Task,
    framer: &mut Framer,
    reading: Reading,
    piece: &[u8],
) -> Result<Reading, NoMemory>
    requires held { reading.held ≡ length framer.old.octets }
    requires most { framer.old.max ≡ max_message_len }
    requires whole { framer.old.fault ≡ None }
    ensures said { IfOk result (λ read. (more : List ℕ) × (told : Tally)
        × (string_bytes text.new ≡ string_bytes text.old ++ more)
        × SaysFrames task dictionary.now (reading.tally.good + reading.tally.bad + 1) (framer.old.octets ++ piece.now)
        framer.new.octets read.fault more told × (read.tally ≡ tallied reading.tally told)) }
    ensures held { IfOk result (λ read. read.held ≡ length framer.new.octets) }
    ensures kept { IfOk result (λ _. framer.new ≡ record framer.old { octets = framer.new.octets }) }
{
    let Some(held) = reading.held.checked_add(piece.len()) else {
        return Err(NoMemory);
    };
    if framer.feed(piece).is_err() {
        return Err(NoMemory);
    }
    take_frames_and_put_reports(
        alloc,
        text,
        dictionary,
        task,
        framer,
        Reading { held, ..reading },
    )
}

/// Adds the octets of the line of this number to those that the framer holds, and appends what is said of the messages
/// that are whole then. Returns why the stream stops at this line, None where it goes on. Where the line is no
/// hexadecimal nothing is added.
pub(crate) fn feed_line_and_put_reports(
    alloc: Global,
    text: &mut String,
    dictionary: &Dictionary,
    task: Task,
    framer: &mut Framer,
    reading: Reading,
    number: u64,
    line: &[u8],
    digits: &mut Vec<u8>,
) -> Result<(Reading, Option<Stop>), NoMemory>
    requires held { reading.held ≡ length framer.old.octets }
    requires most { framer.old.max ≡ max_message_len }
    requires whole { framer.old.fault ≡ None }
    ensures bad { IfOk result (λ read. octets_of_line line.now ≡ None → (read.0 ≡ reading)
        × (read.1 ≡ Some (Line number)) × (string_bytes text.new ≡ string_bytes text.old) × (framer.new ≡ framer.old)) }
    ensures said { IfOk result (λ read. (piece : List ℕ) → octets_of_line line.now ≡ Some piece
        → (more : List ℕ) × (told : Tally) × (string_bytes text.new ≡ string_bytes text.old ++ more)
        × SaysFrames task dictionary.now (reading.tally.good + reading.tally.bad + 1) (framer.old.octets ++ piece)
        framer.new.octets read.0.fault more told × (read.0.tally ≡ tallied reading.tally told)
        × (read.1 ≡ option_map Fault read.0.fault)) }
    ensures held { IfOk result (λ read. read.0.held ≡ length framer.new.octets) }
    ensures kept { IfOk result (λ _. framer.new ≡ record framer.old { octets = framer.new.octets }) }
{
    let Some(piece) = read_hex_line(alloc, line, digits)? else {
        return Ok((reading, Some(Stop::Line(number))));
    };
    let read = feed_piece_and_put_reports(
        alloc,
        text,
        dictionary,
        task,
        framer,
        reading,
        piece.as_slice(),
    )?;
    Ok((read, read.fault.map(Stop::Fault)))
}

/// Appends what is said of the messages of the lines of an input as one stream. It tells how many are good and bad, and
/// why the stream is read no further, where something is left of it or lost.
fn put_report_of_all_messages(
    alloc: Global,
    text: &mut String,
    dictionary: &Dictionary,
    task: Task,
    input: &[u8],
) -> Result<(Tally, Option<Stop>), NoMemory>
    ensures { IfOk result (λ read. (rest more : List ℕ) × (fault : Option FrameFault)
        × (string_bytes text.new ≡ string_bytes text.old ++ more)
        × SaysFrames task dictionary.now 1 (stream_of (lines input.now)) rest fault more read.0
        × (read.1 ≡ stop_of rest fault (bad_line 1 (lines input.now)))) }
{
    lines_exceed_octets_by_one_at_most();
    cuts_change_no_frames();
    faults_of_streams_stay();
    frames_in_a_row_stay_themselves();
    let mut framer = Framer::new(alloc, MAX_MESSAGE_LEN);
    let mut digits = Vec::new(alloc);
    let mut reading = Reading {
        tally: Tally { good: 0, bad: 0 },
        held: 0,
        fault: None,
    };
    let mut number: u64 = 0;
    for line in Lines::new(input) {
        number += 1;
        let (read, stop) = feed_line_and_put_reports(
            alloc,
            text,
            dictionary,
            task,
            &mut framer,
            reading,
            number,
            line,
            &mut digits,
        )?;
        reading = read;
        if stop.is_some() {
            return Ok((reading.tally, stop));
        }
    }
    Ok((reading.tally, stop_if_octets_left(reading.held)))
}

/// What is said of the lines of an input as one stream, and whether all of it is good.
pub fn stream_report(
    alloc: Global,
    dictionary: &Dictionary,
    task: Task,
    input: &[u8],
) -> Result<(Vec<u8>, bool), NoMemory>
    ensures { IfOk result (λ said. SaysStream task dictionary.now input.now said.0.items said.1) }
{
    let mut text = String::new(alloc);
    let (counted, stop) = put_report_of_all_messages(alloc, &mut text, dictionary, task, input)?;
    let tally = put_and_count_stop(alloc, &mut text, task, counted, stop)?;
    put_tally_if_checked(alloc, &mut text, task, tally)?;
    Ok((text.into_bytes(), tally.bad == 0))
}
