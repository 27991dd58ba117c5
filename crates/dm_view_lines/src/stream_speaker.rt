//! Lines that are one stream.
ghost use Rattle.std.specs.Prelude.{◌≡◌, ℕ, List, [], length, None, true, is_some};
ghost use Rattle.dm_view_lines.specs.Counts.{no_lines};
ghost use Rattle.dm_view_lines.specs.Frames.{stop_of};
ghost use Rattle.dm_view_lines.specs.Speakers.{ReadsLine, StreamGoes};

use crate::frames::Reading;
use crate::message_reports::Task;
use crate::speaker::Speaker;
use crate::stop::{Stop, stop_if_octets_left};
use crate::stream_lines::feed_line_and_put_reports;
use crate::tally::Tally;
use dm_dict::{Dictionary, NoMemory};
use dm_framer::Framer;
use dm_wire::codes::limits::MAX_MESSAGE_LEN;
use std::alloc::Global;

/// Says of the messages of a stream of lines what they say: what is held of it, how far it was read, why it is read no
/// further where that is so, and room that is used again from line to line.
#[derive(Drop)]
pub(crate) struct StreamSpeaker {
    framer: Framer,
    reading: Reading,
    stop: Option<Stop>,
    digits: Vec<u8>,
}

impl StreamSpeaker {
    /// Nothing yet.
    pub(crate) fn new(alloc: Global) -> StreamSpeaker
        ensures goes { StreamGoes result true }
        ensures held { result.framer.octets ≡ [] }
        ensures tally { result.reading.tally ≡ no_lines }
    {
        StreamSpeaker {
            framer: Framer::new(alloc, MAX_MESSAGE_LEN),
            reading: Reading {
                tally: Tally { good: 0, bad: 0 },
                held: 0,
                fault: None,
            },
            stop: None,
            digits: Vec::new(alloc),
        }
    }

    /// How many messages were good and bad.
    pub(crate) fn tally(&self) -> Tally
        ensures { result ≡ self.now.reading.tally }
    {
        self.reading.tally
    }

    /// Why the stream is read no further, once its lines were read, where something is left of it or lost.
    pub(crate) fn why_stopped(&self) -> Option<Stop>
        ensures stopped { is_some self.now.stop ≡ true → result ≡ self.now.stop }
        ensures going { self.now.stop ≡ None → (rest : List ℕ) → self.now.reading.held ≡ length rest
            → result ≡ stop_of rest None None }
    {
        match self.stop {
            Some(stop) => Some(stop),
            None => stop_if_octets_left(self.reading.held),
        }
    }
}

impl Speaker for StreamSpeaker {
    ghost goes = { StreamGoes };

    ghost says = { ReadsLine };

    fn say_line(
        &mut self,
        alloc: Global,
        dictionary: &Dictionary,
        task: Task,
        number: u64,
        line: &[u8],
        text: &mut String,
    ) -> Result<bool, NoMemory> {
        let reading = self.reading;
        let (read, stop) = feed_line_and_put_reports(
            alloc,
            text,
            dictionary,
            task,
            &mut self.framer,
            reading,
            number,
            line,
            &mut self.digits,
        )?;
        self.reading = read;
        self.stop = stop;
        Ok(stop.is_none())
    }
}
