//! The loop of a run over a reader: its lines are said as they come, and what is said is written before more is read.
ghost use Rattle.std.specs.Prelude.{◌≡◌, ◌≢◌, All, List, ℕ, true, [], IfOk, IfErr, IfSome, OnOk, OnSome};
ghost use Rattle.std.specs.Io.{StartsWith};
ghost use Rattle.std.specs.Io.KnownBytes.{Consumes, IsAtEnd};
ghost use Rattle.std.specs.Str.Lines.{lines};
ghost use Rattle.dm_view_lines.specs.Colours.{styled};
ghost use Rattle.dm_view_lines.specs.Reads.{TellsPiece, BreaksPiece, StopsRun};
ghost use Rattle.dm_view_lines.specs.LineEnds.{ended};
ghost use Rattle.dm_view_lines.specs.Turns.{TellsLines, StopsInTurn, Settles};
ghost use Rattle.dm_view_lines.specs.Came.{goes_further};

use crate::gathered_lines::Output;
use crate::lines_in_pieces::{Seam, say_and_gather_last_line, say_and_gather_piece};
use crate::put_fault::PutFault;
use crate::run_fault::RunFault;
use crate::speaker::Speaker;
use crate::waiting_text::{Style, write_waiting_text};
use dm_dict::Dictionary;
use std::alloc::Global;
use std::io::{BufRead, Error, ErrorKind, Write};

/// What a read came to.
pub(crate) enum Came {
    /// More may come.
    More,
    /// Nothing more comes.
    End,
    /// Nothing more is to be said.
    Enough,
    /// The reader fails.
    Failed(Error),
}

/// Writes what waits, unless `put` is a write that failed, and returns `put`; the fault of the writer where that fails.
fn write_waiting_unless_write_failed<W: Write>(
    put: Result<bool, PutFault>,
    output: &mut Output,
    writer: &mut W,
) -> Result<bool, PutFault>
    ensures settled { Settles put result (W.contents writer.old) (W.contents writer.new) output.old.waits.items }
    ensures none { OnOk result (output.new.waits.items ≡ []) }
{
    match put {
        Ok(going) => {
            write_waiting_text(&mut output.waits, writer)?;
            Ok(going)
        }
        Err(PutFault::Write(error)) => Err(PutFault::Write(error)),
        Err(fault) => {
            write_waiting_text(&mut output.waits, writer)?;
            Err(fault)
        }
    }
}

/// Says the lines that end in these octets, the first of which began with what is held, holds what is left of them, and
/// writes what was said. True where more is to be said.
fn say_and_write_piece<S: Speaker, W: Write>(
    alloc: Global,
    dictionary: &Dictionary,
    style: Style,
    speaker: &mut S,
    seam: &mut Seam,
    octets: &[u8],
    output: &mut Output,
    writer: &mut W,
) -> Result<bool, PutFault>
    requires going { S.goes speaker.old true }
    requires one_line { All (λ b. b ≢ 10) seam.old.held.items }
    requires none { output.old.waits.items ≡ [] }
    ensures told { IfOk result (λ going. TellsPiece (styled style.coloured style.task)
        (S.says dictionary.now style.task)
        seam.old.lines speaker.old seam.old.held.items octets.now seam.new.lines speaker.new going seam.new.held.items
        (W.contents writer.old) [] (W.contents writer.new) []) }
    ensures one_line { IfOk result (λ going. going ≡ true → All (λ b. b ≢ 10) seam.new.held.items) }
    ensures goes { IfOk result (λ going. S.goes speaker.new going) }
    ensures none { OnOk result (output.new.waits.items ≡ []) }
    ensures stopped { IfErr result (λ fault. BreaksPiece (styled style.coloured style.task)
        (S.says dictionary.now style.task)
        seam.old.lines speaker.old seam.old.held.items octets.now fault (W.contents writer.old) []
        (W.contents writer.new) []) }
{
    let put = say_and_gather_piece(
        alloc, dictionary, style, speaker, seam, octets, output, writer,
    );
    write_waiting_unless_write_failed(put, output, writer)
}

/// What a read that failed comes to: an interrupted one is made again.
fn came_of_failed_read(error: Error) -> Came
    ensures goes { goes_further result ≡ true }
    ensures more { result ≢ Came.End }
{
    if error.kind() == ErrorKind::Interrupted {
        return Came::More;
    }
    Came::Failed(error)
}

/// Says the lines that end in what the reader has at hand, writes that, and consumes it.
fn say_and_consume_lines_at_hand<S: Speaker, R: BufRead, W: Write>(
    alloc: Global,
    dictionary: &Dictionary,
    style: Style,
    speaker: &mut S,
    seam: &mut Seam,
    output: &mut Output,
    reader: &mut R,
    writer: &mut W,
) -> Result<Came, PutFault>
    requires going { S.goes speaker.old true }
    requires one_line { All (λ b. b ≢ 10) seam.old.held.items }
    requires none { output.old.waits.items ≡ [] }
    ensures told { IfOk result (λ came. (octets : List ℕ)
        × Consumes (R.remaining reader.old) (R.remaining reader.new) octets
        × TellsPiece (styled style.coloured style.task) (S.says dictionary.now style.task) seam.old.lines speaker.old
        seam.old.held.items octets seam.new.lines speaker.new (goes_further came) seam.new.held.items
        (W.contents writer.old) [] (W.contents writer.new) []) }
    ensures end { IfOk result (λ came. came ≡ Came.End
        → OnSome (R.remaining reader.old) (IsAtEnd (R.remaining reader.new))) }
    ensures one_line { IfOk result (λ came. goes_further came ≡ true → All (λ b. b ≢ 10) seam.new.held.items) }
    ensures goes { IfOk result (λ came. S.goes speaker.new (goes_further came)) }
    ensures none { OnOk result (output.new.waits.items ≡ []) }
    ensures stopped { IfErr result (λ fault. (octets : List ℕ)
        × IfSome (R.remaining reader.old) (λ xs. StartsWith xs octets)
        × BreaksPiece (styled style.coloured style.task) (S.says dictionary.now style.task) seam.old.lines speaker.old
        seam.old.held.items octets fault (W.contents writer.old) [] (W.contents writer.new) []) }
{
    let octets = match reader.fill_buf() {
        Ok(octets) => octets,
        Err(error) => return Ok(came_of_failed_read(error)),
    };
    let size = octets.len();
    if size == 0 {
        return Ok(Came::End);
    }
    let going = say_and_write_piece(
        alloc, dictionary, style, speaker, seam, octets, output, writer,
    )?;
    reader.consume(size);
    Ok(came_of_good_read(going))
}

/// What octets come to that were read: whether more is to be said.
fn came_of_good_read(going: bool) -> Came
    ensures goes { goes_further result ≡ going }
    ensures more { result ≢ Came.End }
{
    if going { Came::More } else { Came::Enough }
}

/// Says the line that is held at the end of the input, where one is, and writes that. True where more could be said.
fn say_and_write_last_line<S: Speaker, W: Write>(
    alloc: Global,
    dictionary: &Dictionary,
    style: Style,
    speaker: &mut S,
    seam: &mut Seam,
    output: &mut Output,
    writer: &mut W,
) -> Result<bool, PutFault>
    requires going { S.goes speaker.old true }
    requires none { output.old.waits.items ≡ [] }
    ensures told { IfOk result (λ going. TellsLines (styled style.coloured style.task)
        (S.says dictionary.now style.task)
        seam.old.lines speaker.old (lines (ended seam.old.held.items)) seam.new.lines speaker.new going
        (W.contents writer.old) [] (W.contents writer.new) []) }
    ensures goes { IfOk result (λ going. S.goes speaker.new going) }
    ensures stopped { IfErr result (λ fault. StopsInTurn (styled style.coloured style.task)
        (S.says dictionary.now style.task)
        seam.old.lines speaker.old (lines (ended seam.old.held.items)) [] fault (W.contents writer.old) []
        (W.contents writer.new) []) }
{
    let put = say_and_gather_last_line(alloc, dictionary, style, speaker, seam, output, writer);
    write_waiting_unless_write_failed(put, output, writer)
}

/// Says and writes the lines of a reader, up to one behind which nothing more is to be said. True where more could be
/// said.
fn say_reader_lines<S: Speaker, R: BufRead, W: Write>(
    alloc: Global,
    dictionary: &Dictionary,
    style: Style,
    speaker: &mut S,
    seam: &mut Seam,
    output: &mut Output,
    reader: &mut R,
    writer: &mut W,
) -> Result<bool, RunFault>
    requires going { S.goes speaker.old true }
    requires none { output.old.waits.items ≡ [] }
    requires no_line { seam.old.held.items ≡ [] }
    ensures told { IfOk result (λ going. IfSome (R.remaining reader.old) (λ octets. TellsLines
        (styled style.coloured style.task) (S.says dictionary.now style.task) seam.old.lines speaker.old
        (lines (ended octets)) seam.new.lines speaker.new going
        (W.contents writer.old) [] (W.contents writer.new) [])) }
    ensures goes { IfOk result (λ going. S.goes speaker.new going) }
    ensures stopped { IfErr result (λ fault. StopsRun (styled style.coloured style.task)
        (S.says dictionary.now style.task)
        seam.old.lines speaker.old fault (R.remaining reader.old) (R.remaining reader.new) (W.contents writer.old)
        (W.contents writer.new)) }
{
    for _ in 0..u64::MAX {
        match say_and_consume_lines_at_hand(
            alloc, dictionary, style, speaker, seam, output, reader, writer,
        )? {
            Came::More => {}
            Came::End => {
                let going = say_and_write_last_line(
                    alloc, dictionary, style, speaker, seam, output, writer,
                )?;
                return Ok(going);
            }
            Came::Enough => return Ok(false),
            Came::Failed(error) => return Err(RunFault::Read(error)),
        }
    }
    Err(RunFault::Read(Error::from(ErrorKind::TimedOut)))
}

/// Says the lines of a reader behind so many others, up to one behind which nothing more is to be said. It tells how
/// many were said, the others among them, and whether more could be said.
pub(crate) fn say_and_count_reader_lines<S: Speaker, R: BufRead, W: Write>(
    alloc: Global,
    dictionary: &Dictionary,
    style: Style,
    speaker: &mut S,
    before: u64,
    reader: &mut R,
    writer: &mut W,
) -> Result<(u64, bool), RunFault>
    requires going { S.goes speaker.old true }
    ensures told { IfOk result (λ read. IfSome (R.remaining reader.old) (λ octets. TellsLines
        (styled style.coloured style.task) (S.says dictionary.now style.task) before speaker.old (lines (ended octets))
        read.0 speaker.new read.1 (W.contents writer.old) [] (W.contents writer.new) [])) }
    ensures goes { IfOk result (λ read. S.goes speaker.new read.1) }
    ensures stopped { IfErr result (λ fault. StopsRun (styled style.coloured style.task)
        (S.says dictionary.now style.task)
        before speaker.old fault (R.remaining reader.old) (R.remaining reader.new) (W.contents writer.old)
        (W.contents writer.new)) }
{
    let mut seam = Seam {
        lines: before,
        held: Vec::new(alloc),
    };
    let mut output = Output {
        text: String::new(alloc),
        waits: Vec::new(alloc),
    };
    let done = say_reader_lines(
        alloc,
        dictionary,
        style,
        speaker,
        &mut seam,
        &mut output,
        reader,
        writer,
    );
    let lines = seam.lines;
    drop(seam);
    drop(output);
    match done {
        Ok(going) => Ok((lines, going)),
        Err(fault) => Err(fault),
    }
}
