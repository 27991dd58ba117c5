//! A reader and a writer that give and take little at once, or fail.
use dm_dict::Dictionary;
use dm_view_lines::{RunFault, Task, say_lines, say_stream};
use std::alloc::Global;
use std::io;
use std::io::{BufRead, Error, ErrorKind, Read, Write};

/// Gives at most so many octets a read. Behind its last one it ends, or fails where it breaks.
#[derive(Drop)]
pub struct Source<'a> {
    pub rest: &'a [u8],
    pub most: usize,
    pub breaks: bool,
    pub reads: u32,
}

impl Read for Source<'_> {
    fn read(&mut self, buf: &mut [u8]) -> io::Result<usize> {
        self.reads = self.reads.saturating_add(1);
        if self.rest.is_empty() && self.breaks {
            return Err(Error::from(ErrorKind::ConnectionReset));
        }
        let count = self.most.min(self.rest.len()).min(buf.len());
        let (front, rest) = self.rest.split_at(count);
        buf[..count].copy_from_slice(front);
        self.rest = rest;
        Ok(count)
    }
}

/// Takes at most so many octets a write. It fails at the write of this number, never at 0.
#[derive(Drop)]
pub struct Sink {
    pub held: Vec<u8>,
    pub most: usize,
    pub fails_at: u32,
    pub writes: u32,
}

impl Write for Sink {
    fn write(&mut self, buf: &[u8]) -> io::Result<usize> {
        self.writes = self.writes.saturating_add(1);
        if self.writes == self.fails_at {
            return Err(Error::from(ErrorKind::StorageFull));
        }
        let count = self.most.min(buf.len());
        self.held.extend_from_slice(&buf[..count])?;
        Ok(count)
    }

    fn flush(&mut self) -> io::Result<()> {
        Ok(())
    }
}

/// A reader or a writer that is interrupted before each of its calls.
#[derive(Drop)]
pub struct Interrupted<T> {
    pub inner: T,
    is_next: bool,
}

impl<T> Interrupted<T> {
    pub fn of(inner: T) -> Interrupted<T> {
        Interrupted {
            inner,
            is_next: false,
        }
    }
}

impl<T: Read> Read for Interrupted<T> {
    fn read(&mut self, buf: &mut [u8]) -> io::Result<usize> {
        self.is_next = !self.is_next;
        if self.is_next {
            return Err(Error::from(ErrorKind::Interrupted));
        }
        self.inner.read(buf)
    }
}

impl<T: Write> Write for Interrupted<T> {
    fn write(&mut self, buf: &[u8]) -> io::Result<usize> {
        self.is_next = !self.is_next;
        if self.is_next {
            return Err(Error::from(ErrorKind::Interrupted));
        }
        self.inner.write(buf)
    }

    fn flush(&mut self) -> io::Result<()> {
        self.inner.flush()
    }
}

/// What is said, and whether of the stream that the lines are.
pub type Way = (Task, bool);

/// Writes what is said of what the reader gives.
pub fn say<R: BufRead, W: Write>(
    alloc: Global,
    dictionary: &Dictionary,
    way: Way,
    reader: &mut R,
    writer: &mut W,
) -> Result<bool, RunFault> {
    let (task, is_stream) = way;
    if is_stream {
        say_stream(alloc, dictionary, task, false, reader, writer)
    } else {
        say_lines(alloc, dictionary, task, false, reader, writer)
    }
}

/// How a run ended.
#[derive(Clone, Copy, Debug, PartialEq, Eq)]
pub enum End {
    /// Nothing was bad.
    Good,
    /// Something was bad.
    Bad,
    /// The source broke.
    Broken,
    /// The sink failed, with room for nothing more.
    Full,
    /// The writer took nothing.
    Stuck,
    /// The line of this number is too long.
    TooLong(u64),
    /// Otherwise.
    Other,
}

/// How the run ended.
pub fn end_of(said: Result<bool, RunFault>) -> End {
    match said {
        Ok(true) => End::Good,
        Ok(false) => End::Bad,
        Err(RunFault::Read(error)) if error.kind() == ErrorKind::ConnectionReset => End::Broken,
        Err(RunFault::Write(error)) if error.kind() == ErrorKind::StorageFull => End::Full,
        Err(RunFault::Write(error)) if error.kind() == ErrorKind::WriteZero => End::Stuck,
        Err(RunFault::TooLong(number)) => End::TooLong(number),
        Err(_) => End::Other,
    }
}
