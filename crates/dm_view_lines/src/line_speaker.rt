//! Lines that are messages by themselves.
ghost use Rattle.std.specs.Prelude.{◌≡◌, true};
ghost use Rattle.dm_view_lines.specs.Counts.{no_lines};
ghost use Rattle.dm_view_lines.specs.Speakers.{CountsOneLine};

use crate::line_reports::put_line_report;
use crate::message_reports::Task;
use crate::speaker::Speaker;
use crate::tally::Tally;
use dm_dict::{Dictionary, NoMemory};
use std::alloc::Global;

/// Says of each line by itself what its message says: how many lines were good and bad, and room that is used again
/// from line to line.
#[derive(Drop)]
pub(crate) struct LineSpeaker {
    tally: Tally,
    digits: Vec<u8>,
}

impl LineSpeaker {
    /// No lines yet.
    pub(crate) fn new(alloc: Global) -> LineSpeaker
        ensures { result.tally ≡ no_lines }
    {
        LineSpeaker {
            tally: Tally { good: 0, bad: 0 },
            digits: Vec::new(alloc),
        }
    }

    /// How many lines were good and bad.
    pub(crate) fn tally(&self) -> Tally
        ensures { result ≡ self.now.tally }
    {
        self.tally
    }
}

impl Speaker for LineSpeaker {
    ghost goes = { λ s going. going ≡ true };

    ghost says = { CountsOneLine };

    fn say_line(
        &mut self,
        alloc: Global,
        dictionary: &Dictionary,
        task: Task,
        number: u64,
        line: &[u8],
        text: &mut String,
    ) -> Result<bool, NoMemory> {
        if self.tally.number_of_next().is_none() {
            return Err(NoMemory);
        }
        let verdict = put_line_report(
            alloc,
            text,
            dictionary,
            task,
            number,
            line,
            &mut self.digits,
        )?;
        self.tally = self.tally.with_verdict(verdict);
        Ok(true)
    }
}
