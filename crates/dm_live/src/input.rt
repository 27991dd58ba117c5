//! The input, line by line.
ghost use Rattle.std.specs.Prelude.{◌≡◌, ◌≢◌, ◌⊎◌, ◌<◌, ◌≤◌, All, length, take, true, false, IfOk, IfErr, IfSome};
ghost use Rattle.std.specs.Io.{StopsAt, IsEmptyOrEndsWith};
ghost use Rattle.dm_live.specs.Input.{without_end, GivesLine, TakesPiece};

use crate::fault::LiveFault;
use memchr::memchr;
use std::io::{BufRead, ErrorKind};

/// Reads the next line, without its end; false at the end of the input.
///
/// A line ends with LF, and one CR right before that isn't part of it; the last LF may be missing. What the reader
/// gives stays unread from the line's end on.
pub fn next_line<R: BufRead>(reader: &mut R, line: &mut Vec<u8>) -> Result<bool, LiveFault>
    ensures given { IfOk result (λ more. IfSome (R.remaining reader.old)
        (λ octets. GivesLine octets (R.remaining reader.new) more line.new.items)) }
    ensures fault { IfErr result (λ f. (f ≡ LiveFault.Read) ⊎ (f ≡ LiveFault.Memory)) }
{
    line.clear();
    'piece: for _ in 0..u64::MAX {
        if extend_line(reader, line)? {
            let is_there = !line.is_empty();
            remove_lf_or_crlf(line);
            return Ok(is_there);
        }
    }
    Err(LiveFault::Read)
}

/// Appends what the reader has at hand, up to an LF. True behind that, and at the end of the input.
fn extend_line<R: BufRead>(reader: &mut R, line: &mut Vec<u8>) -> Result<bool, LiveFault>
    ensures taken { IfOk result (λ done. TakesPiece (R.remaining reader.old) (R.remaining reader.new)
        line.old.items line.new.items done) }
    ensures fault { IfErr result (λ f. (f ≡ LiveFault.Read) ⊎ (f ≡ LiveFault.Memory)) }
{
    let octets = match reader.fill_buf() {
        Ok(octets) => octets,
        Err(error) => {
            return match error.kind() {
                // The read is made again.
                ErrorKind::Interrupted => Ok(false),
                ErrorKind::OutOfMemory => Err(LiveFault::Memory),
                _ => Err(LiveFault::Read),
            };
        }
    };
    let (end, done) = line_part_len_and_is_last(octets);
    line.extend_from_slice(&octets[..end])?;
    reader.consume(end);
    Ok(done)
}

/// How many octets there are up to the first LF and with it, or all of them; and whether that was it, or none are
/// there.
fn line_part_len_and_is_last(octets: &[u8]) -> (usize, bool)
    ensures bound { result.0 ≤ length octets.now }
    ensures some { 0 < length octets.now → 0 < result.0 }
    ensures stops { StopsAt (take result.0 octets.now) 10 }
    ensures more { result.1 ≡ false → All (λ b. b ≢ 10) (take result.0 octets.now) }
    ensures ends { result.1 ≡ true → IsEmptyOrEndsWith (take result.0 octets.now) 10 }
{
    match memchr(b'\n', octets) {
        Some(end) => (end + 1, true),
        None => (octets.len(), octets.is_empty()),
    }
}

/// Takes the line's LF off, and a CR right before that.
fn remove_lf_or_crlf(line: &mut Vec<u8>)
    ensures { line.new.items ≡ without_end line.old.items }
{
    if let Some(b'\n') = line.last() {
        let _ = line.pop();
        if let Some(b'\r') = line.last() {
            let _ = line.pop();
        }
    }
}
