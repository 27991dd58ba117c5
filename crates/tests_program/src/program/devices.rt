//! Readers and writers that give or take little, fail, or never end.
use super::{SHORT, SHORT_TEXT, WATCHDOG_REQUEST, WATCHDOG_TEXT};
use dm_tool::{Ended, INPUT_LIMIT, Source, ToolFault, run_program, run_show};
use std::alloc::Global;
use std::io;
use std::io::{Error, ErrorKind, Read, Write};
use std::process::Abort;

/// Gives one octet a read, and is interrupted before each.
#[derive(Drop)]
struct Drips<'a> {
    rest: &'a [u8],
    interrupted: bool,
}

impl Read for Drips<'_> {
    fn read(&mut self, buf: &mut [u8]) -> io::Result<usize> {
        self.interrupted = !self.interrupted;
        if self.interrupted {
            return Err(Error::from(ErrorKind::Interrupted));
        }
        match (self.rest, buf) {
            ([first, rest @ ..], [room, ..]) => {
                *room = *first;
                self.rest = rest;
                Ok(1)
            }
            _ => Ok(0),
        }
    }
}

/// Gives its octets at once, and then fails.
#[derive(Drop)]
struct Breaks<'a> {
    rest: &'a [u8],
}

impl Read for Breaks<'_> {
    fn read(&mut self, buf: &mut [u8]) -> io::Result<usize> {
        if self.rest.is_empty() {
            return Err(Error::other("broken"));
        }
        self.rest.read(buf)
    }
}

/// Gives this many octets, `#` and then what the buffers hold, as many as there is room for.
#[derive(Drop)]
struct Floods {
    left: usize,
}

impl Read for Floods {
    fn read(&mut self, buf: &mut [u8]) -> io::Result<usize> {
        if let [first, ..] = buf {
            *first = b'#';
        }
        let count = self.left.min(buf.len());
        self.left -= count;
        Ok(count)
    }
}

/// Is interrupted at every read.
#[derive(Drop)]
struct Interrupted;

impl Read for Interrupted {
    fn read(&mut self, _buf: &mut [u8]) -> io::Result<usize> {
        Err(Error::from(ErrorKind::Interrupted))
    }
}

/// Takes one octet a write and is interrupted before each, up to a number of octets. Then it fails.
#[derive(Drop)]
struct Sips {
    held: Vec<u8>,
    room: usize,
    interrupted: bool,
}

impl Write for Sips {
    fn write(&mut self, buf: &[u8]) -> io::Result<usize> {
        self.interrupted = !self.interrupted;
        if self.interrupted {
            return Err(Error::from(ErrorKind::Interrupted));
        }
        let Some(first) = buf.first() else {
            return Ok(0);
        };
        if self.held.len() >= self.room {
            return Err(Error::other("full"));
        }
        self.held.push(*first)?;
        Ok(1)
    }

    fn flush(&mut self) -> io::Result<()> {
        Ok(())
    }
}

/// Takes everything, and then can't be flushed.
#[derive(Drop)]
struct Clogged {
    held: Vec<u8>,
}

impl Write for Clogged {
    fn write(&mut self, buf: &[u8]) -> io::Result<usize> {
        self.held.write(buf)
    }

    fn flush(&mut self) -> io::Result<()> {
        Err(Error::other("clogged"))
    }
}

/// Takes nothing.
#[derive(Drop)]
struct Full;

impl Write for Full {
    fn write(&mut self, _buf: &[u8]) -> io::Result<usize> {
        Ok(0)
    }

    fn flush(&mut self) -> io::Result<()> {
        Ok(())
    }
}

/// Whether the run stops for its reader, with nothing printed.
fn stops<R: Read>(alloc: Global, reader: &mut R) -> bool {
    let mut text = Vec::new(alloc);
    let done = run_show(alloc, reader, &mut text);
    let empty = text.is_empty();
    drop(text);
    empty && done == Err(ToolFault::Read)
}

/// Whether the run stops for a writer with room for so much of the short message, which it takes.
fn fills(alloc: Global, room: usize) -> bool {
    let mut writer = Sips {
        held: Vec::new(alloc),
        room,
        interrupted: false,
    };
    let done = run_show(alloc, &mut SHORT.as_bytes(), &mut writer);
    let taken = writer.held.as_slice();
    let filled = taken.len() == room && SHORT_TEXT.as_bytes().starts_with(taken);
    drop(writer);
    filled && done == Err(ToolFault::Write)
}

/// Whether a reader of single octets and a writer of them give and take all of the text.
fn comes_in_drips(alloc: Global, input: &str, want: &str) -> bool {
    let mut reader = Drips {
        rest: input.as_bytes(),
        interrupted: false,
    };
    let mut writer = Sips {
        held: Vec::new(alloc),
        room: 1000,
        interrupted: false,
    };
    let done = run_show(alloc, &mut reader, &mut writer);
    let same = writer.held.as_slice() == want.as_bytes();
    drop(writer);
    same && done == Ok(true)
}

/// Whether the run stops for a writer that takes all, and can't be flushed.
fn clogs(alloc: Global) -> bool {
    let mut writer = Clogged {
        held: Vec::new(alloc),
    };
    let done = run_show(alloc, &mut SHORT.as_bytes(), &mut writer);
    let same = writer.held.as_slice() == SHORT_TEXT.as_bytes();
    drop(writer);
    same && done == Err(ToolFault::Write)
}

/// Whether the run takes all that the reader gives, and prints nothing.
fn skips<R: Read>(alloc: Global, reader: &mut R) -> bool {
    let mut text = Vec::new(alloc);
    let done = run_show(alloc, reader, &mut text);
    let empty = text.is_empty();
    drop(text);
    empty && done == Ok(true)
}

#[test]
fn one_octet_at_a_time(rt: HostRuntime) {
    assert!(rt; comes_in_drips(rt.alloc(), WATCHDOG_REQUEST, WATCHDOG_TEXT));
}

#[test]
fn reader_fails(rt: HostRuntime) {
    let mut reader = Breaks {
        rest: SHORT.as_bytes(),
    };
    assert!(rt; stops(rt.alloc(), &mut reader));
}

#[test]
fn reader_never_ends(rt: HostRuntime) {
    let mut endless = Floods { left: usize::MAX };
    assert!(rt; stops(rt.alloc(), &mut endless));
    assert_eq!(rt; endless.left, usize::MAX - (INPUT_LIMIT + 1));
    assert!(rt; stops(rt.alloc(), &mut Interrupted));
}

/// As many octets as a run may take, and one more.
#[test]
fn input_limit(rt: HostRuntime) {
    let mut most = Floods { left: INPUT_LIMIT };
    assert!(rt; skips(rt.alloc(), &mut most));
    let mut more = Floods {
        left: INPUT_LIMIT + 1,
    };
    assert!(rt; stops(rt.alloc(), &mut more));
}

#[test]
fn writer_fails(rt: HostRuntime) {
    for room in [0, 1, 30, SHORT_TEXT.len() - 1] {
        assert!(rt; fills(rt.alloc(), room), "with room for {room}");
    }
}

#[test]
fn writer_takes_nothing(rt: HostRuntime) {
    let done = run_show(rt.alloc(), &mut SHORT.as_bytes(), &mut Full);
    assert!(rt; done == Err(ToolFault::Write));
    assert!(rt; clogs(rt.alloc()));
}

/// How the program ends with the word `show` on these streams.
fn shows<S: Source, W: Write, E: Write>(
    rt: &(impl Abort + AllocGlobal),
    reader: &mut S,
    writer: &mut W,
    errors: &mut E,
) -> Ended {
    let mut words = Vec::new(rt.alloc());
    let word = String::from_str(rt.alloc(), "show").expect(rt, "memory");
    words.push(word).expect(rt, "memory");
    run_program(rt.alloc(), Ok(words), reader, writer, errors)
}

/// The status tells of a device that fails, also where standard error fails too.
#[test]
fn the_program_tells_of_devices(rt: HostRuntime) {
    let mut reader = Breaks {
        rest: SHORT.as_bytes(),
    };
    let mut errors = Vec::new(rt.alloc());
    let ended = shows(&rt, &mut reader, &mut Full, &mut errors);
    assert!(rt; ended.status == 3 && ended.told);
    assert!(rt; errors.as_slice() == "dmpeer: read\n".as_bytes());
    let ended = shows(&rt, &mut SHORT.as_bytes(), &mut Full, &mut errors);
    assert!(rt; ended.status == 3 && ended.told);
    assert!(rt; errors.as_slice() == "dmpeer: read\ndmpeer: write\n".as_bytes());
    let ended = shows(&rt, &mut SHORT.as_bytes(), &mut Full, &mut Full);
    assert!(rt; ended.status == 3 && !ended.told);
}
