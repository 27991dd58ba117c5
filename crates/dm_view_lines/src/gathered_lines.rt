//! The lines of octets at hand, each said in turn and gathered behind what waits.
ghost use Rattle.std.specs.Prelude.{◌≡◌, ◌≤◌, ◌+◌, true, [], ◌∷◌, length, IfOk, IfErr, OnOk};
ghost use Rattle.std.specs.Str.Lines.{lines};
ghost use Rattle.dm_view_lines.specs.Colours.{styled};
ghost use Rattle.dm_view_lines.specs.Turns.{TellsLines, StopsInTurn, CountsLong};
ghost use Rattle.dm_view_lines.specs.declared.gathered_lines.TheConstants.{LINE_LIMIT as line_limit};

use crate::put_fault::PutFault;
use crate::speaker::Speaker;
use crate::waiting_text::{Style, gather_text_and_write_if_full};
use dm_dict::Dictionary;
use dm_text::Lines;
use std::alloc::Global;
use std::io::Write;

/// The most octets of a line, without its end.
pub const LINE_LIMIT: usize = 67_108_864;

/// What is said: of one line, and what of all waits to be written.
#[derive(Drop)]
pub(crate) struct Output {
    pub text: String,
    pub waits: Vec<u8>,
}

/// The number of the next line, which is this one. It fails where the line has too many octets, or no number is left.
fn line_number_unless_too_long(before: u64, line: &[u8]) -> Result<u64, PutFault>
    ensures next { IfOk result (λ number. number ≡ before + 1) }
    ensures within { OnOk result (length line.now ≤ line_limit) }
    ensures long { IfErr result (λ fault. CountsLong fault before (line.now ∷ []) []) }
{
    let Some(number) = before.checked_add(1) else {
        return Err(PutFault::Memory);
    };
    if line.len() > LINE_LIMIT {
        return Err(PutFault::TooLong(number));
    }
    Ok(number)
}

/// Says a line behind so many others, and gathers that. It tells how many were said, and whether more is to be said.
fn say_and_gather_line<S: Speaker, W: Write>(
    alloc: Global,
    dictionary: &Dictionary,
    style: Style,
    speaker: &mut S,
    before: u64,
    line: &[u8],
    output: &mut Output,
    writer: &mut W,
) -> Result<(u64, bool), PutFault>
    requires going { S.goes speaker.old true }
    ensures told { IfOk result (λ read. TellsLines (styled style.coloured style.task)
        (S.says dictionary.now style.task) before
        speaker.old (line.now ∷ []) read.0 speaker.new read.1 (W.contents writer.old) output.old.waits.items
        (W.contents writer.new) output.new.waits.items) }
    ensures goes { IfOk result (λ read. S.goes speaker.new read.1) }
    ensures stopped { IfErr result (λ fault. StopsInTurn (styled style.coloured style.task)
        (S.says dictionary.now style.task)
        before speaker.old (line.now ∷ []) [] fault (W.contents writer.old) output.old.waits.items
        (W.contents writer.new) output.new.waits.items) }
{
    let number = line_number_unless_too_long(before, line)?;
    output.text.clear();
    let going = speaker.say_line(
        alloc,
        dictionary,
        style.task,
        number,
        line,
        &mut output.text,
    )?;
    gather_text_and_write_if_full(
        alloc,
        style,
        output.text.as_bytes(),
        &mut output.waits,
        writer,
    )?;
    Ok((number, going))
}

/// Says the lines of octets, behind so many others, up to one behind which nothing more is to be said. It tells how
/// many were said, and whether more is to be said.
pub(crate) fn say_and_gather_lines<S: Speaker, W: Write>(
    alloc: Global,
    dictionary: &Dictionary,
    style: Style,
    speaker: &mut S,
    before: u64,
    octets: &[u8],
    output: &mut Output,
    writer: &mut W,
) -> Result<(u64, bool), PutFault>
    requires going { S.goes speaker.old true }
    ensures told { IfOk result (λ read. TellsLines (styled style.coloured style.task)
        (S.says dictionary.now style.task) before
        speaker.old (lines octets.now) read.0 speaker.new read.1 (W.contents writer.old) output.old.waits.items
        (W.contents writer.new) output.new.waits.items) }
    ensures goes { IfOk result (λ read. S.goes speaker.new read.1) }
    ensures stopped { IfErr result (λ fault. StopsInTurn (styled style.coloured style.task)
        (S.says dictionary.now style.task)
        before speaker.old (lines octets.now) [] fault (W.contents writer.old) output.old.waits.items
        (W.contents writer.new) output.new.waits.items) }
{
    let mut so_far = before;
    for line in Lines::new(octets) {
        let (number, going) = say_and_gather_line(
            alloc, dictionary, style, speaker, so_far, line, output, writer,
        )?;
        so_far = number;
        if !going {
            return Ok((so_far, false));
        }
    }
    Ok((so_far, true))
}
