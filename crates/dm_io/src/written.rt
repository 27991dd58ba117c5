//! Texts written whole to a writer, and a line to standard error.
ghost use Rattle.std.specs.Prelude.{◌≡◌, ◌++◌, ℕ, List, OnOk, OnErr, true};
ghost use Rattle.std.specs.Io.KnownBytes.{Appends};
ghost use Rattle.dm_io.specs.Ending.{line_of};

use std::io;
use std::io::{Error, ErrorKind, Write};

/// The most writes beside those that a writer of one octet a write needs.
const SPARE_WRITES: usize = 67_108_864;

/// Writes the text, and lets nothing of it wait in the writer. Where that fails, a front of the text was written.
///
/// An interrupted write is made again, but for a writer that is interrupted without end.
pub fn write_text_and_flush<W: Write>(writer: &mut W, text: &[u8]) -> io::Result<()>
    ensures whole { OnOk result (Appends (W.contents writer.old) (W.contents writer.new) text.now) }
    ensures front { OnErr result ((front rest : List ℕ) × (text.now ≡ front ++ rest)
        × Appends (W.contents writer.old) (W.contents writer.new) front) }
{
    write_all_octets(writer, text)?;
    writer.flush()
}

/// Writes the octets. Where that fails, a front of them was written.
fn write_all_octets<W: Write>(writer: &mut W, text: &[u8]) -> io::Result<()>
    ensures whole { OnOk result (Appends (W.contents writer.old) (W.contents writer.new) text.now) }
    ensures front { OnErr result ((front rest : List ℕ) × (text.now ≡ front ++ rest)
        × Appends (W.contents writer.old) (W.contents writer.new) front) }
{
    let mut rest = text;
    for _ in 0..text.len().saturating_add(SPARE_WRITES) {
        if rest.is_empty() {
            return Ok(());
        }
        match writer.write(rest) {
            Ok(0) => return Err(Error::from(ErrorKind::WriteZero)),
            Ok(count) => rest = &rest[count..],
            Err(error) => {
                if error.kind() != ErrorKind::Interrupted {
                    return Err(error);
                }
            }
        }
    }
    Err(Error::from(ErrorKind::TimedOut))
}

/// Writes the words and a line feed, or nothing where there are no words. False where that fails.
pub(crate) fn write_line_unless_empty<E: Write>(words: &str, errors: &mut E) -> bool
    ensures told { result ≡ true → Appends (E.contents errors.old) (E.contents errors.new) (line_of words.now) }
    ensures front { (front rest : List ℕ) × (line_of words.now ≡ front ++ rest)
        × Appends (E.contents errors.old) (E.contents errors.new) front }
{
    if words.is_empty() {
        return true;
    }
    match write_text_and_flush(errors, words.as_bytes()) {
        Ok(()) => write_text_and_flush(errors, b"\n").is_ok(),
        Err(_) => false,
    }
}
