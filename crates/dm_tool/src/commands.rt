//! The commands of the program, each over a reader and a writer.
//!
//! The whole input is read first. Where the reader fails, gives more than [`INPUT_LIMIT`](crate::INPUT_LIMIT) octets or
//! isn't at its end after as many reads, that is Read, and nothing is written. Where memory runs out nothing is written
//! either. Where the writer fails a front of the text was written.
ghost use Rattle.dm_replay.specs.Replay.{ReplaysText};
ghost use Rattle.dm_tool.specs.Build.{BuildsText};
ghost use Rattle.dm_tool.specs.Run.{Checks, RanTool};
ghost use Rattle.dm_tool.specs.Show.{ShowsText};

use crate::choice::Choice;
use crate::fault::ToolFault;
use crate::run::run_choice;
use std::alloc::Global;
use std::io::{Read, Write};

/// Reads Diameter messages in hexadecimal, one a line, and writes each as text. True where each line was a
/// message.
///
/// A line that is no message is written as its fault, and the next line goes on.
pub fn run_show<R: Read, W: Write>(
    alloc: Global,
    reader: &mut R,
    writer: &mut W,
) -> Result<bool, ToolFault>
    ensures { RanTool ShowsText (R.remaining reader.old) (R.remaining reader.new)
        (W.contents writer.old) (W.contents writer.new) result }
{
    run_choice(alloc, Choice::Show, reader, writer)
}

/// Reads Diameter messages in hexadecimal, one a line, and writes of each whether it is good, or its first fault:
/// `bad`, the Result-Code (RFC 6733, 7.1) and the failed AVP. True where each line was a good message.
///
/// Messages are judged by the base dictionary. With `with_dict` the input up to a line `%%`, or to its end, is the
/// text of a dictionary over the base one (3.2), and they are judged by that; where it is refused, its fault is
/// all that is written.
///
/// A line that is no message is written as its fault, and the next line goes on.
pub fn run_check<R: Read, W: Write>(
    alloc: Global,
    reader: &mut R,
    writer: &mut W,
    with_dict: bool,
) -> Result<bool, ToolFault>
    ensures { RanTool (Checks with_dict) (R.remaining reader.old) (R.remaining reader.new)
        (W.contents writer.old) (W.contents writer.new) result }
{
    run_choice(alloc, Choice::Check { with_dict }, reader, writer)
}

/// Reads Diameter messages as show prints them, and writes each as one line of lower case hexadecimal. True where
/// all were written.
///
/// A message that has no spelling is written as `fault TooLong`, and the next message goes on. The first line that
/// is neither of a message nor of an AVP, or of an AVP before any message, ends the run: it is written as `fault
/// syntax` and its number, and the message that it interrupts isn't written.
pub fn run_build<R: Read, W: Write>(
    alloc: Global,
    reader: &mut R,
    writer: &mut W,
) -> Result<bool, ToolFault>
    ensures { RanTool BuildsText (R.remaining reader.old) (R.remaining reader.new)
        (W.contents writer.old) (W.contents writer.new) result }
{
    run_choice(alloc, Choice::Build, reader, writer)
}

/// Reads a script of two peers, and writes a line for each happening: its number, whether it was done or ignored,
/// and how the peers stand behind it. The last line tells whether they agree, whether nothing is under way between
/// them, and the link on which both are open. True where all of it was good, though the peers may disagree.
///
/// The script is read before its first happening. An input that is no script is written as its fault: `fault
/// syntax` and the number of its first bad line, `fault SameHost` where the two peers have one name, or `fault
/// NothingCommon` where they have no application in common. A happening that names a link that isn't there is
/// written as its number and `nolink`, and ends the run.
pub fn run_replay<R: Read, W: Write>(
    alloc: Global,
    reader: &mut R,
    writer: &mut W,
) -> Result<bool, ToolFault>
    ensures { RanTool ReplaysText (R.remaining reader.old) (R.remaining reader.new)
        (W.contents writer.old) (W.contents writer.new) result }
{
    run_choice(alloc, Choice::Replay, reader, writer)
}
