//! What is said of each line of an input, where it is a message by itself.
ghost use Rattle.std.specs.Prelude.{◌≡◌, ◌++◌, ℕ, List, Some, IfOk};
ghost use Rattle.std.specs.Str.Lines.{lines};
ghost use Rattle.std.specs.String.{string_bytes};
ghost use Rattle.dm_view_lines.specs.Digits.{octets_of_line};
ghost use Rattle.dm_view_lines.specs.Lines.{SaysLine, SaysLines, Says};

use crate::bad_line::put_numbered_error_report;
use crate::hexadecimal::read_hex_line;
use crate::message_reports::{Task, put_octets_report};
use crate::tally::{Tally, put_tally_if_checked};
use dm_dict::{Dictionary, NoMemory};
use dm_text::Lines;
use dm_text::laws::lines_exceed_octets_by_one_at_most;
use std::alloc::Global;

/// Appends what is said of the line of this number, and tells whether it is good; `None` where it says nothing.
/// `digits` is room that is used again from line to line.
pub(crate) fn put_line_report(
    alloc: Global,
    text: &mut String,
    dictionary: &Dictionary,
    task: Task,
    number: u64,
    line: &[u8],
    digits: &mut Vec<u8>,
) -> Result<Option<bool>, NoMemory>
    ensures { IfOk result (λ verdict. (more : List ℕ) × (string_bytes text.new ≡ string_bytes text.old ++ more)
        × SaysLine task dictionary.now number (octets_of_line line.now) more verdict) }
{
    match read_hex_line(alloc, line, digits)? {
        Some(octets) => {
            put_numbered_octets_report(alloc, text, dictionary, task, number, octets.as_slice())
        }
        None => {
            put_numbered_error_report(alloc, text, task, number, "no hexadecimal")?;
            Ok(Some(false))
        }
    }
}

/// Appends what is said of the octets of the line of this number, and tells whether they are good; `None` where there
/// are none.
fn put_numbered_octets_report(
    alloc: Global,
    text: &mut String,
    dictionary: &Dictionary,
    task: Task,
    number: u64,
    octets: &[u8],
) -> Result<Option<bool>, NoMemory>
    ensures { IfOk result (λ verdict. (more : List ℕ) × (string_bytes text.new ≡ string_bytes text.old ++ more)
        × SaysLine task dictionary.now number (Some octets.now) more verdict) }
{
    if octets.is_empty() {
        return Ok(None);
    }
    let good = put_octets_report(alloc, text, dictionary, task, &number, octets)?;
    Ok(Some(good))
}

/// Appends what is said of the lines of an input, and tells how many are good and bad.
fn put_report_of_all_lines(
    alloc: Global,
    text: &mut String,
    dictionary: &Dictionary,
    task: Task,
    input: &[u8],
) -> Result<Tally, NoMemory>
    ensures { IfOk result (λ tally. (more : List ℕ) × (string_bytes text.new ≡ string_bytes text.old ++ more)
        × SaysLines task dictionary.now 1 (lines input.now) more tally) }
{
    lines_exceed_octets_by_one_at_most();
    let mut digits = Vec::new(alloc);
    let mut tally = Tally { good: 0, bad: 0 };
    let mut number: u64 = 0;
    for line in Lines::new(input) {
        number += 1;
        let verdict = put_line_report(alloc, text, dictionary, task, number, line, &mut digits)?;
        tally = tally.with_verdict(verdict);
    }
    Ok(tally)
}

/// What is said of the lines of an input, and whether none of them is bad.
pub fn lines_report(
    alloc: Global,
    dictionary: &Dictionary,
    task: Task,
    input: &[u8],
) -> Result<(Vec<u8>, bool), NoMemory>
    ensures { IfOk result (λ said. Says task dictionary.now input.now said.0.items said.1) }
{
    let mut text = String::new(alloc);
    let tally = put_report_of_all_lines(alloc, &mut text, dictionary, task, input)?;
    put_tally_if_checked(alloc, &mut text, task, tally)?;
    Ok((text.into_bytes(), tally.bad == 0))
}
