//! How a program ends.
ghost use Rattle.std.specs.Prelude.{◌≡◌, ◌++◌, ℕ, List, true};
ghost use Rattle.std.specs.Io.KnownBytes.{Appends};
ghost use Rattle.std.specs.Process.{exit_status};
ghost use Rattle.dm_io.specs.Ending.{line_of};

use crate::written::write_line_unless_empty;
use std::io::Write;
use std::process::ExitCode;

/// How a program ends, whose runs come to a `T`.
#[derive(Clone, Copy)]
pub struct Ended<T> {
    /// What the run came to, None where the words ask for none.
    pub outcome: Option<T>,
    /// The program's status.
    pub status: u8,
    /// Whether all that is to stand on standard error was written there. Otherwise a front of it was.
    pub told: bool,
}

/// Writes the words to standard error, a line feed behind them, and nothing where there are none. It answers how the
/// program ends then: with this outcome and this status.
pub fn end_with_status_and_words<T, E: Write>(
    outcome: Option<T>,
    status: u8,
    words: &str,
    errors: &mut E,
) -> Ended<T>
    ensures outcome { result.outcome ≡ outcome }
    ensures status { result.status ≡ status }
    ensures told { result.told ≡ true → Appends (E.contents errors.old) (E.contents errors.new) (line_of words.now) }
    ensures front { (front rest : List ℕ) × (line_of words.now ≡ front ++ rest)
        × Appends (E.contents errors.old) (E.contents errors.new) front }
{
    let told = write_line_unless_empty(words, errors);
    Ended {
        outcome,
        status,
        told,
    }
}

/// The code with which the process ends. Where standard error couldn't be written, the status still tells.
pub fn exit_code<T>(ended: &Ended<T>) -> ExitCode
    ensures { exit_status result ≡ ended.now.status }
{
    ExitCode::from(ended.status)
}
