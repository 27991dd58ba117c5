//! A run of a command: all is read, then the text is made, then it is written.
ghost use Rattle.std.specs.Prelude.{◌≡◌, true, map, IfSome, IfNone, IfOk, IfErr, IsErrOf};
ghost use Rattle.std.specs.String.{string_bytes};
ghost use Rattle.dm_tool.specs.declared.choice.Choice.{Choice};
ghost use Rattle.dm_tool.specs.Choice.{words_of};
ghost use Rattle.dm_tool.specs.Limits.{HasMost};
ghost use Rattle.dm_tool.specs.Run.{Prints, RanTool};

use crate::build::build_text;
use crate::check::{check_text, check_text_with_dictionary};
use crate::choice::{Choice, choose};
use crate::fault::ToolFault;
use crate::input::read_input;
use crate::messages::{Task, messages_text};
use crate::source::Source;
use dm_io::write_text_and_flush;
use dm_replay::replay_text;
use std::alloc::Global;
use std::io::{Read, Write};

/// Runs the command that the words of the command line choose, the program's name left out. None, and nothing is read
/// or written, where they choose none.
///
/// A run tells whether all of its input was good; [`ending`](crate::ending) gives the program's status for what comes
/// of it.
pub fn run_words<R: Read, W: Write>(
    alloc: Global,
    words: &[String],
    reader: &mut R,
    writer: &mut W,
) -> Option<Result<bool, ToolFault>>
    ensures ran { IfSome result (λ outcome. (choice : Choice) × (map string_bytes words.now ≡ words_of choice)
        × RanTool (Prints choice) (R.remaining reader.old) (R.remaining reader.new)
        (W.contents writer.old) (W.contents writer.new) outcome) }
    ensures refused { IfNone result ((choice : Choice) → map string_bytes words.now ≡ words_of choice → ⊥) }
    ensures unread { IfNone result (reader.new ≡ reader.old) }
    ensures unwritten { IfNone result (writer.new ≡ writer.old) }
{
    run_words_on_source(alloc, words, reader, writer)
}

/// Runs the command that the words choose over all that the source gives, as [`run_words`] does over a reader.
pub fn run_words_on_source<S: Source, W: Write>(
    alloc: Global,
    words: &[String],
    reader: &mut S,
    writer: &mut W,
) -> Option<Result<bool, ToolFault>>
    ensures ran { IfSome result (λ outcome. (choice : Choice) × (map string_bytes words.now ≡ words_of choice)
        × RanTool (Prints choice) (S.left reader.old) (S.left reader.new)
        (W.contents writer.old) (W.contents writer.new) outcome) }
    ensures refused { IfNone result ((choice : Choice) → map string_bytes words.now ≡ words_of choice → ⊥) }
    ensures read { S.never_fails ≡ true → result ≡ Some (Err ToolFault.Read) → HasMost (S.left reader.old) }
    ensures unread { IfNone result (reader.new ≡ reader.old) }
    ensures unwritten { IfNone result (writer.new ≡ writer.old) }
{
    let choice = choose(words)?;
    Some(run_choice(alloc, choice, reader, writer))
}

/// Runs the command over all that the source gives. True where all of it was good.
pub fn run_choice<S: Source, W: Write>(
    alloc: Global,
    choice: Choice,
    reader: &mut S,
    writer: &mut W,
) -> Result<bool, ToolFault>
    ensures ran { RanTool (Prints choice) (S.left reader.old) (S.left reader.new)
        (W.contents writer.old) (W.contents writer.new) result }
    ensures read { S.never_fails ≡ true → IsErrOf result ToolFault.Read → HasMost (S.left reader.old) }
{
    let input = read_input(alloc, reader)?;
    let (text, good) = command_text(alloc, choice, input.as_slice())?;
    match write_text_and_flush(writer, text.as_slice()) {
        Ok(()) => Ok(good),
        Err(_) => Err(ToolFault::Write),
    }
}

/// The text of the command for an input, and whether all of it is good.
fn command_text(alloc: Global, choice: Choice, input: &[u8]) -> Result<(Vec<u8>, bool), ToolFault>
    ensures printed { IfOk result (λ printed. Prints choice input.now printed.0.items printed.1) }
    ensures fault { IfErr result (λ e. e ≡ ToolFault.Memory) }
{
    match choice {
        Choice::Show => messages_text(alloc, Task::Show, input),
        Choice::Check { with_dict: false } => check_text(alloc, input),
        Choice::Check { with_dict: true } => check_text_with_dictionary(alloc, input),
        Choice::Build => build_text(alloc, input),
        Choice::Replay => Ok(replay_text(alloc, input)?),
    }
}
