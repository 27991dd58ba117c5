//! Files that are read whole, and how the last line of octets ends.
ghost use Rattle.std.specs.Prelude.{◌≡◌, ◌≤◌, ◌++◌, length, IfSome, OnOk};
ghost use Rattle.dm_view_lines.specs.LineEnds.{is_ended, ended};
ghost use Rattle.dm_view_lines.specs.declared.files.TheConstants.{FILE_LIMIT as file_limit};

use std::io;
use std::io::{Error, ErrorKind, Read};

/// The most octets of one file.
pub const FILE_LIMIT: usize = 67_108_864;

/// Appends all octets that the reader gives up to its end, and a line feed where the last line lacks one. It fails
/// where the reader does, where it gives more than [`FILE_LIMIT`] octets, and where memory is wanted.
pub fn push_limited_file_as_lines<R: Read + Drop>(reader: R, input: &mut Vec<u8>) -> io::Result<()>
    ensures whole { OnOk result (IfSome (R.remaining reader) (λ octets. input.new.items
        ≡ ended (input.old.items ++ octets))) }
    ensures within { OnOk result (IfSome (R.remaining reader) (λ octets. length octets ≤ file_limit)) }
{
    let mut front = reader.take(FILE_LIMIT as u64 + 1);
    let count = front.read_to_end(input)?;
    if count > FILE_LIMIT {
        return Err(Error::new(ErrorKind::FileTooLarge, "more than 67108864 octets"));
    }
    if !is_last_line_ended(input.as_slice()) {
        input.push(b'\n')?;
    }
    Ok(())
}

/// Whether the input is empty or ends with a line feed.
pub(crate) fn is_last_line_ended(input: &[u8]) -> bool
    ensures { result ≡ is_ended input.now }
{
    match input {
        [] => true,
        [.., last] => *last == b'\n',
    }
}
