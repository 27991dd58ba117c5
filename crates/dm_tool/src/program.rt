//! The program, but for its real streams: the words of the command line are run, and what that comes to is told.
ghost use Rattle.std.specs.Prelude.{◌≡◌, ◌++◌, ℕ, List, true, map, IfSome, IfNone, IfOk, IfErr, OnErr};
ghost use Rattle.std.specs.Io.KnownBytes.{Appends};
ghost use Rattle.std.specs.String.{string_bytes};
ghost use Rattle.dm_io.specs.Ending.{line_of};
ghost use Rattle.dm_io.specs.Words.{without_words};
ghost use Rattle.dm_tool.specs.declared.choice.Choice.{Choice};
ghost use Rattle.dm_tool.specs.Choice.{words_of};
ghost use Rattle.dm_tool.specs.Ending.{tool_ending};
ghost use Rattle.dm_tool.specs.Limits.{HasMost};
ghost use Rattle.dm_tool.specs.Run.{Prints, RanTool};

use crate::fault::ToolFault;
use crate::run::run_words_on_source;
use crate::source::Source;
use crate::status::ending;
use dm_io::{WordsFault, end_with_status_and_words};
use std::alloc::Global;
use std::io::Write;

/// How the program ends: its outcome is None where the words choose no command.
pub type Ended = dm_io::Ended<Result<bool, ToolFault>>;

/// Runs the program on the words of its command line, the program's name left out, and on its three streams.
///
/// The command that the words choose is run as by [`run_words`](crate::run_words), and the status and the words for
/// standard error are those of [`ending`](crate::ending): nothing is written to standard error at the statuses 0 and 1,
/// and the words and a line feed at 2 and 3. A word that isn't UTF-8 chooses no command, and where no memory is left
/// for the words that is Memory: nothing is read or printed then.
pub fn run_program<S: Source, W: Write, E: Write>(
    alloc: Global,
    words: Result<Vec<String>, WordsFault>,
    reader: &mut S,
    writer: &mut W,
    errors: &mut E,
) -> Ended
    ensures ran { IfOk words (λ list. IfSome result.outcome (λ outcome.
        (choice : Choice) × (map string_bytes list.items ≡ words_of choice)
        × RanTool (Prints choice) (S.left reader.old) (S.left reader.new)
        (W.contents writer.old) (W.contents writer.new) outcome)) }
    ensures refused { IfOk words (λ list. IfNone result.outcome
        ((choice : Choice) → map string_bytes list.items ≡ words_of choice → ⊥)) }
    ensures wordless { IfErr words (λ fault. result.outcome ≡ without_words (Err ToolFault.Memory) fault) }
    ensures read { S.never_fails ≡ true → result.outcome ≡ Some (Err ToolFault.Read) → HasMost (S.left reader.old) }
    ensures unread { IfNone result.outcome (reader.new ≡ reader.old) }
    ensures unwritten { IfNone result.outcome (writer.new ≡ writer.old) }
    ensures idle { OnErr words ((reader.new ≡ reader.old) × (writer.new ≡ writer.old)) }
    ensures status { result.status ≡ (tool_ending result.outcome).0 }
    ensures told { result.told ≡ true →
        Appends (E.contents errors.old) (E.contents errors.new) (line_of (tool_ending result.outcome).1) }
    ensures front { (front rest : List ℕ) × (line_of (tool_ending result.outcome).1 ≡ front ++ rest)
        × Appends (E.contents errors.old) (E.contents errors.new) front }
{
    match words {
        Ok(words) => {
            let outcome = run_words_on_source(alloc, words.as_slice(), reader, writer);
            drop(words);
            end_with_outcome(outcome, errors)
        }
        Err(WordsFault::NotText) => end_with_outcome(None, errors),
        Err(WordsFault::NoMemory) => end_with_outcome(Some(Err(ToolFault::Memory)), errors),
    }
}

/// The status for an outcome, once its words stand on standard error.
fn end_with_outcome<E: Write>(outcome: Option<Result<bool, ToolFault>>, errors: &mut E) -> Ended
    ensures outcome { result.outcome ≡ outcome }
    ensures status { result.status ≡ (tool_ending outcome).0 }
    ensures told { result.told ≡ true →
        Appends (E.contents errors.old) (E.contents errors.new) (line_of (tool_ending outcome).1) }
    ensures front { (front rest : List ℕ) × (line_of (tool_ending outcome).1 ≡ front ++ rest)
        × Appends (E.contents errors.old) (E.contents errors.new) front }
{
    let (status, words) = ending(outcome);
    end_with_status_and_words(outcome, status, words, errors)
}
