//! Several readers, read one after the other.
ghost use Rattle.std.specs.Prelude.{◌≡◌, ◌≤◌, Some, [], length, option_map, IfOk, IfSome, OnOk, OnErr};
ghost use Rattle.std.specs.Fmt.{option_append};
ghost use Rattle.dm_view_lines.specs.Inputs.{ReadsFirstReader, inputs_remaining};
ghost use Rattle.dm_view_lines.specs.LineEnds.{ended};

use std::alloc::{AllocError, Global};
use std::collections::VecDeque;
use std::io;
use std::io::{Error, ErrorKind, Read};

/// A reader, at whose end its last line ends.
#[derive(Drop)]
struct EndedReader<R> {
    reader: R,
    /// What was read last.
    last: u8,
}

impl<R: Read> Read for EndedReader<R> {
    ghost use Rattle.dm_view_lines.specs.Inputs.{ended_remaining};

    ghost remaining = { ended_remaining R.remaining };

    fn read(&mut self, buf: &mut [u8]) -> io::Result<usize> {
        let count = self.reader.read(buf)?;
        if count > 0 {
            self.last = buf[count - 1];
            return Ok(count);
        }
        if buf.is_empty() || self.last == b'\n' {
            return Ok(0);
        }
        buf[0] = b'\n';
        self.last = b'\n';
        Ok(1)
    }
}

/// Several readers, read one after the other. The end of each ends its last line.
#[derive(Drop)]
pub struct Inputs<R> {
    readers: VecDeque<EndedReader<R>>,
    at: usize,
}

impl<R: Read + Drop> Inputs<R> {
    /// None yet.
    pub fn new(alloc: Global) -> Inputs<R>
        ensures { inputs_remaining R.remaining result ≡ Some [] }
    {
        Inputs {
            readers: VecDeque::new(alloc),
            at: 0,
        }
    }

    /// Reads this one behind the others, and a line feed behind it where its last line lacks one. For want of memory
    /// they are as they were.
    pub fn push_as_lines(&mut self, reader: R) -> Result<(), AllocError>
        ensures more { OnOk result (inputs_remaining R.remaining self.new
            ≡ option_append (inputs_remaining R.remaining self.old) (option_map ended (R.remaining reader))) }
        ensures kept { OnErr result (inputs_remaining R.remaining self.new ≡ inputs_remaining R.remaining self.old) }
    {
        let last = EndedReader {
            reader,
            last: b'\n',
        };
        match self.readers.push_back(last) {
            Ok(()) => Ok(()),
            Err(error) => Err(AllocError::from(error)),
        }
    }

    /// How many of the readers were read to their ends.
    pub fn ended_reader_count(&self) -> usize {
        self.at
    }

    /// Reads the first reader. `None` where it is at its end.
    fn read_first_reader(&mut self, buf: &mut [u8]) -> io::Result<Option<usize>>
        ensures bound { IfOk result (λ read. IfSome read (λ n. n ≤ length buf.new)) }
        ensures bytes { ReadsFirstReader (inputs_remaining R.remaining self.old)
            (inputs_remaining R.remaining self.new) result
            buf.new }
    {
        let Some(reader) = self.readers.front_mut() else {
            return Ok(Some(0));
        };
        let count = reader.read(buf)?;
        if count > 0 || buf.is_empty() {
            return Ok(Some(count));
        }
        self.readers.pop_front();
        self.at = self.at.saturating_add(1);
        Ok(None)
    }
}

impl<R: Read + Drop> Read for Inputs<R> {
    ghost use Rattle.dm_view_lines.specs.Inputs.{inputs_remaining};

    ghost remaining = { inputs_remaining R.remaining };

    fn read(&mut self, buf: &mut [u8]) -> io::Result<usize> {
        for _ in 0..u64::MAX {
            if let Some(count) = self.read_first_reader(buf)? {
                return Ok(count);
            }
        }
        Err(Error::from(ErrorKind::TimedOut))
    }
}
