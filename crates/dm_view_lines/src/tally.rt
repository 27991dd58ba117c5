//! How many lines were good and bad.
ghost use Rattle.std.specs.Prelude.{◌≡◌, ◌+◌, ◌<◌, ◌^◌, ◌++◌, IfSome, OnOk};
ghost use Rattle.std.specs.String.{string_bytes};
ghost use Rattle.dm_view_lines.specs.Counts.{tallied, tally_of, tally_line};
ghost use Rattle.dm_view_lines.specs.Lines.{counts_line};

use crate::json_parts::put_json_tally_line;
use crate::message_reports::Task;
use dm_text::put_decimal;
use std::alloc::{AllocError, Global};

/// How many lines were good and bad.
#[derive(Clone, Copy, Debug, PartialEq, Eq)]
pub struct Tally {
    pub good: u64,
    pub bad: u64,
}

impl Tally {
    /// The number of what comes next: where it tells one, it is one more than are counted, good and bad.
    pub fn number_of_next(self) -> Option<u64>
        ensures { IfSome result (λ number. number ≡ self.good + self.bad + 1) }
    {
        self.good.checked_add(self.bad)?.checked_add(1)
    }

    /// The lines so far, and a good line more, a bad one, or one that says nothing.
    pub(crate) fn with_verdict(self, verdict: Option<bool>) -> Tally
        requires room { self.good + self.bad + 1 < 2 ^ 64 }
        ensures { result ≡ tallied self (tally_of verdict) }
    {
        match verdict {
            None => self,
            Some(true) => Tally {
                good: self.good + 1,
                bad: self.bad,
            },
            Some(false) => Tally {
                good: self.good,
                bad: self.bad + 1,
            },
        }
    }
}

/// Appends how many lines were good and bad.
fn put_tally_line(text: &mut String, tally: Tally) -> Result<(), AllocError>
    ensures { OnOk result (string_bytes text.new ≡ string_bytes text.old ++ tally_line tally) }
{
    put_decimal(text, tally.good)?;
    text.push_str(" good, ")?;
    put_decimal(text, tally.bad)?;
    text.push_str(" bad\n")
}

/// Appends what ends the text of a task: of a check how many lines were good and bad, of any other nothing. Where
/// memory is wanted, what is appended is of no use.
pub fn put_tally_if_checked(
    alloc: Global,
    text: &mut String,
    task: Task,
    tally: Tally,
) -> Result<(), AllocError>
    ensures { OnOk result (string_bytes text.new ≡ string_bytes text.old ++ counts_line task tally) }
{
    match task {
        Task::Show | Task::ShowJson => Ok(()),
        Task::Check => put_tally_line(text, tally),
        Task::CheckJson => put_json_tally_line(alloc, text, tally),
    }
}
