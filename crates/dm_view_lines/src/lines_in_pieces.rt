//! Lines that are read in pieces: each is said and gathered once it is whole, and its front is held until then.
ghost use Rattle.std.specs.Prelude.{◌≡◌, ◌≢◌, ◌≤◌, ◌++◌, All, true, [], length, take, drop};
ghost use Rattle.std.specs.Prelude.{IfOk, IfErr, OnOk};
ghost use Rattle.dm_view_lines.specs.Colours.{styled};
ghost use Rattle.dm_view_lines.specs.LineEnds.{HasLineEnds, ended};
ghost use Rattle.dm_view_lines.specs.Reads.{TellsPiece, BreaksPiece};
ghost use Rattle.dm_view_lines.specs.Turns.{TellsLines, StopsInTurn, CountsLong};
ghost use Rattle.std.specs.Str.Lines.{lines};

use crate::files::is_last_line_ended;
use crate::gathered_lines::{LINE_LIMIT, Output, say_and_gather_lines};
use crate::put_fault::PutFault;
use crate::speaker::Speaker;
use crate::waiting_text::Style;
use dm_dict::Dictionary;
use memchr::{memchr, memrchr};
use std::alloc::Global;
use std::io::Write;

/// Where the lines are that were read so far: how many were said, and what is held of the next one.
#[derive(Drop)]
pub(crate) struct Seam {
    pub lines: u64,
    pub held: Vec<u8>,
}

/// The front of the octets that ends with their last line feed, as its length.
fn whole_lines_len(octets: &[u8]) -> usize
    ensures within { result ≤ length octets.now }
    ensures whole { HasLineEnds (take result octets.now) }
    ensures rest { All (λ b. b ≢ 10) (drop result octets.now) }
{
    match memrchr(b'\n', octets) {
        Some(at) => at + 1,
        None => 0,
    }
}

/// Holds a piece of a line, without its end, behind what is held. It fails where the line has too many octets, whatever
/// comes: one octet more may be a CR before its end.
fn hold_piece(seam: &mut Seam, piece: &[u8]) -> Result<(), PutFault>
    ensures held { OnOk result (seam.new.held.items ≡ seam.old.held.items ++ piece.now) }
    ensures lines { seam.new.lines ≡ seam.old.lines }
    ensures long { All (λ b. b ≢ 10) (seam.old.held.items ++ piece.now) → IfErr result (λ fault.
        CountsLong fault seam.old.lines [] (seam.old.held.items ++ piece.now)) }
{
    let Some(number) = seam.lines.checked_add(1) else {
        return Err(PutFault::Memory);
    };
    if piece.len() > LINE_LIMIT + 1 || seam.held.len() > LINE_LIMIT + 1 - piece.len() {
        return Err(PutFault::TooLong(number));
    }
    seam.held.extend_from_slice(piece)?;
    Ok(())
}

/// Says and gathers the line that is held and ends with these octets. True where more is to be said.
fn say_and_gather_held_line<S: Speaker, W: Write>(
    alloc: Global,
    dictionary: &Dictionary,
    style: Style,
    speaker: &mut S,
    seam: &mut Seam,
    front: &[u8],
    output: &mut Output,
    writer: &mut W,
) -> Result<bool, PutFault>
    requires going { S.goes speaker.old true }
    ensures told { IfOk result (λ going. TellsLines (styled style.coloured style.task)
        (S.says dictionary.now style.task)
        seam.old.lines speaker.old (lines (seam.old.held.items ++ front.now)) seam.new.lines speaker.new going
        (W.contents writer.old) output.old.waits.items (W.contents writer.new) output.new.waits.items) }
    ensures none { OnOk result (seam.new.held.items ≡ []) }
    ensures goes { IfOk result (λ going. S.goes speaker.new going) }
    ensures stopped { IfErr result (λ fault. StopsInTurn (styled style.coloured style.task)
        (S.says dictionary.now style.task)
        seam.old.lines speaker.old (lines (seam.old.held.items ++ front.now)) [] fault (W.contents writer.old)
        output.old.waits.items (W.contents writer.new) output.new.waits.items) }
{
    seam.held.extend_from_slice(front)?;
    let before = seam.lines;
    let (number, going) = say_and_gather_lines(
        alloc,
        dictionary,
        style,
        speaker,
        before,
        seam.held.as_slice(),
        output,
        writer,
    )?;
    seam.lines = number;
    seam.held.clear();
    Ok(going)
}

/// Says and gathers the lines that end in these octets, and holds what is left of them; nothing is held before. True
/// where more is to be said.
fn say_whole_lines_and_hold_rest<S: Speaker, W: Write>(
    alloc: Global,
    dictionary: &Dictionary,
    style: Style,
    speaker: &mut S,
    seam: &mut Seam,
    octets: &[u8],
    output: &mut Output,
    writer: &mut W,
) -> Result<bool, PutFault>
    requires going { S.goes speaker.old true }
    requires none { seam.old.held.items ≡ [] }
    ensures told { IfOk result (λ going. TellsPiece (styled style.coloured style.task)
        (S.says dictionary.now style.task)
        seam.old.lines speaker.old [] octets.now seam.new.lines speaker.new going seam.new.held.items
        (W.contents writer.old) output.old.waits.items (W.contents writer.new) output.new.waits.items) }
    ensures one_line { IfOk result (λ going. going ≡ true → All (λ b. b ≢ 10) seam.new.held.items) }
    ensures goes { IfOk result (λ going. S.goes speaker.new going) }
    ensures stopped { IfErr result (λ fault. BreaksPiece (styled style.coloured style.task)
        (S.says dictionary.now style.task) seam.old.lines speaker.old [] octets.now fault (W.contents writer.old)
        output.old.waits.items (W.contents writer.new) output.new.waits.items) }
{
    let end = whole_lines_len(octets);
    let before = seam.lines;
    let (number, going) = say_and_gather_lines(
        alloc,
        dictionary,
        style,
        speaker,
        before,
        &octets[..end],
        output,
        writer,
    )?;
    seam.lines = number;
    if going {
        hold_piece(seam, &octets[end..])?;
    }
    Ok(going)
}

/// Says and gathers the lines that end in these octets, the first of which began with what is held, and holds what is
/// left of them. True where more is to be said.
pub(crate) fn say_and_gather_piece<S: Speaker, W: Write>(
    alloc: Global,
    dictionary: &Dictionary,
    style: Style,
    speaker: &mut S,
    seam: &mut Seam,
    octets: &[u8],
    output: &mut Output,
    writer: &mut W,
) -> Result<bool, PutFault>
    requires going { S.goes speaker.old true }
    requires one_line { All (λ b. b ≢ 10) seam.old.held.items }
    ensures told { IfOk result (λ going. TellsPiece (styled style.coloured style.task)
        (S.says dictionary.now style.task)
        seam.old.lines speaker.old seam.old.held.items octets.now seam.new.lines speaker.new going seam.new.held.items
        (W.contents writer.old) output.old.waits.items (W.contents writer.new) output.new.waits.items) }
    ensures one_line { IfOk result (λ going. going ≡ true → All (λ b. b ≢ 10) seam.new.held.items) }
    ensures goes { IfOk result (λ going. S.goes speaker.new going) }
    ensures stopped { IfErr result (λ fault. BreaksPiece (styled style.coloured style.task)
        (S.says dictionary.now style.task) seam.old.lines speaker.old seam.old.held.items octets.now fault
        (W.contents writer.old) output.old.waits.items (W.contents writer.new) output.new.waits.items) }
{
    if seam.held.is_empty() {
        return say_whole_lines_and_hold_rest(
            alloc, dictionary, style, speaker, seam, octets, output, writer,
        );
    }
    match memchr(b'\n', octets) {
        None => {
            hold_piece(seam, octets)?;
            Ok(true)
        }
        Some(at) => {
            let front = &octets[..at + 1];
            if !say_and_gather_held_line(
                alloc, dictionary, style, speaker, seam, front, output, writer,
            )? {
                return Ok(false);
            }
            say_whole_lines_and_hold_rest(
                alloc,
                dictionary,
                style,
                speaker,
                seam,
                &octets[at + 1..],
                output,
                writer,
            )
        }
    }
}

/// Says and gathers the line that is held, which ends with the input, where one is. True where more could be said.
pub(crate) fn say_and_gather_last_line<S: Speaker, W: Write>(
    alloc: Global,
    dictionary: &Dictionary,
    style: Style,
    speaker: &mut S,
    seam: &mut Seam,
    output: &mut Output,
    writer: &mut W,
) -> Result<bool, PutFault>
    requires going { S.goes speaker.old true }
    ensures told { IfOk result (λ going. TellsLines (styled style.coloured style.task)
        (S.says dictionary.now style.task)
        seam.old.lines speaker.old (lines (ended seam.old.held.items)) seam.new.lines speaker.new going
        (W.contents writer.old) output.old.waits.items (W.contents writer.new) output.new.waits.items) }
    ensures goes { IfOk result (λ going. S.goes speaker.new going) }
    ensures stopped { IfErr result (λ fault. StopsInTurn (styled style.coloured style.task)
        (S.says dictionary.now style.task)
        seam.old.lines speaker.old (lines (ended seam.old.held.items)) [] fault (W.contents writer.old)
        output.old.waits.items (W.contents writer.new) output.new.waits.items) }
{
    if !is_last_line_ended(seam.held.as_slice()) {
        seam.held.extend_from_slice(b"\n")?;
    }
    let before = seam.lines;
    let (number, going) = say_and_gather_lines(
        alloc,
        dictionary,
        style,
        speaker,
        before,
        seam.held.as_slice(),
        output,
        writer,
    )?;
    seam.lines = number;
    Ok(going)
}
