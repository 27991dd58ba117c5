//! The program, but for its real streams: what its command line asks for is done, and what that comes to is told.
ghost use Rattle.std.specs.Prelude.{◌≡◌, ◌≢◌, ◌++◌, [], ℕ, List, true, None, Err, IfSome, IfNone, IfOk};
ghost use Rattle.std.specs.Prelude.{IfErr, OnOk, OnErr};
ghost use Rattle.std.specs.Io.KnownBytes.{Appends};
ghost use Rattle.dm_io.specs.Ending.{line_of};
ghost use Rattle.dm_io.specs.Words.{without_words};
ghost use Rattle.dm_live.specs.Ending.{ending_of, Ran};

use crate::fault::LiveFault;
use crate::serve::serve_lines;
use dm_io::{READ_AT_ONCE, WordsFault, end_with_status_and_words};
use std::alloc::Global;
use std::io::{BufReader, Read, Write};

/// How the program ends: its outcome is None where its command line has words.
pub type Ended = dm_io::Ended<Result<(), LiveFault>>;

/// Runs the program on its three streams, where its command line has no words.
///
/// The lines are answered as by [`serve_lines`]. The status is 0 at the end of the input, and nothing is written to
/// standard error then. With words nothing is read or answered, and the status is 2; where the run stops before the end
/// it is 3. One line on standard error says why.
pub fn run_program<R: Read + Drop, W: Write, E: Write>(
    alloc: Global,
    words: Result<Vec<String>, WordsFault>,
    reader: R,
    writer: &mut W,
    errors: &mut E,
) -> Ended
    ensures ran { OnOk words (IfSome result.outcome (λ outcome. IfSome (R.remaining reader) (λ octets.
        Ran outcome octets (W.contents writer.old) (W.contents writer.new)))) }
    ensures runs { IfOk words (λ list. list.items ≡ [] → result.outcome ≢ None) }
    ensures given { IfOk words (λ list. list.items ≢ [] → result.outcome ≡ None) }
    ensures wordless { IfErr words (λ fault. result.outcome ≡ without_words (Err LiveFault.Memory) fault) }
    ensures unwritten { IfNone result.outcome (writer.new ≡ writer.old) }
    ensures idle { OnErr words (writer.new ≡ writer.old) }
    ensures status { result.status ≡ (ending_of result.outcome).0 }
    ensures told { result.told ≡ true →
        Appends (E.contents errors.old) (E.contents errors.new) (line_of (ending_of result.outcome).1) }
    ensures front { (front rest : List ℕ) × (line_of (ending_of result.outcome).1 ≡ front ++ rest)
        × Appends (E.contents errors.old) (E.contents errors.new) front }
{
    match words {
        Ok(words) if words.is_empty() => {
            let outcome = serve_reader(alloc, reader, writer);
            write_ending_of_outcome(Some(outcome), errors)
        }
        Ok(_) | Err(WordsFault::NotText) => write_ending_of_outcome(None, errors),
        Err(WordsFault::NoMemory) => write_ending_of_outcome(Some(Err(LiveFault::Memory)), errors),
    }
}

/// Answers the lines that the reader gives.
fn serve_reader<R: Read + Drop, W: Write>(
    alloc: Global,
    reader: R,
    writer: &mut W,
) -> Result<(), LiveFault>
    ensures { IfSome (R.remaining reader) (λ octets.
        Ran result octets (W.contents writer.old) (W.contents writer.new)) }
{
    match BufReader::with_capacity(alloc, READ_AT_ONCE, reader) {
        Ok(mut lines) => serve_lines(alloc, &mut lines, writer),
        Err(_) => Err(LiveFault::Memory),
    }
}

/// The status for an outcome, once its words stand on standard error; it has none where all went well.
fn write_ending_of_outcome<E: Write>(
    outcome: Option<Result<(), LiveFault>>,
    errors: &mut E,
) -> Ended
    ensures outcome { result.outcome ≡ outcome }
    ensures status { result.status ≡ (ending_of outcome).0 }
    ensures told { result.told ≡ true →
        Appends (E.contents errors.old) (E.contents errors.new) (line_of (ending_of outcome).1) }
    ensures front { (front rest : List ℕ) × (line_of (ending_of outcome).1 ≡ front ++ rest)
        × Appends (E.contents errors.old) (E.contents errors.new) front }
{
    let (status, words) = ending(outcome);
    end_with_status_and_words(outcome, status, words, errors)
}

/// The status with which the program ends, and the words for standard error.
fn ending(outcome: Option<Result<(), LiveFault>>) -> (u8, &'static str)
    ensures { (result.0, result.1.now) ≡ ending_of outcome }
{
    match outcome {
        None => (2, "dmlive: usage"),
        Some(Ok(())) => (0, ""),
        Some(Err(LiveFault::Read)) => (3, "dmlive: read"),
        Some(Err(LiveFault::Write)) => (3, "dmlive: write"),
        Some(Err(LiveFault::Memory)) => (3, "dmlive: memory"),
    }
}
