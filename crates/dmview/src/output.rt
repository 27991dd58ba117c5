//! What is written of a reader's lines, or of the stream that they are.
ghost use Rattle.std.specs.Prelude.{◌≡◌, ℕ, true, false, List, IfOk, IfSome};
ghost use Rattle.std.specs.Io.KnownBytes.{Appends};
ghost use Rattle.dm_view_lines.specs.Colours.{SaysStyled, SaysStreamStyled};
ghost use Rattle.dm_view_lines.specs.LineEnds.{ended};

use dm_dict::Dictionary;
use dm_view_lines::{RunFault, Style, say_lines, say_stream};
use std::alloc::Global;
use std::io::{BufRead, Write};

/// Writes what is said of an input as it is read: of each of its lines, or of the stream that they are. True where
/// nothing is bad.
pub fn say_lines_or_stream<R: BufRead, W: Write>(
    alloc: Global,
    dictionary: &Dictionary,
    style: Style,
    is_stream: bool,
    reader: &mut R,
    writer: &mut W,
) -> Result<bool, RunFault>
    ensures lines { is_stream ≡ false → IfOk result (λ good. IfSome (R.remaining reader.old) (λ octets.
        (text : List ℕ) × SaysStyled style.coloured style.task dictionary.now (ended octets) text good
        × Appends (W.contents writer.old) (W.contents writer.new) text)) }
    ensures stream { is_stream ≡ true → IfOk result (λ good. IfSome (R.remaining reader.old) (λ octets.
        (text : List ℕ) × SaysStreamStyled style.coloured style.task dictionary.now (ended octets) text good
        × Appends (W.contents writer.old) (W.contents writer.new) text)) }
{
    let Style { task, coloured } = style;
    if is_stream {
        say_stream(alloc, dictionary, task, coloured, reader, writer)
    } else {
        say_lines(alloc, dictionary, task, coloured, reader, writer)
    }
}
