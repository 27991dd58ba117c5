//! What was said is written before more is read.
use crate::devices::{End, Way, end_of, say};
use crate::dictionary::dictionary;
use dm_dict::Dictionary;
use dm_view_lines::Task;
use std::alloc::Global;
use std::cell::Cell;
use std::io;
use std::io::{BufReader, Read, Write};

/// A piece that a reader gives, and how many octets have to be written before it is asked for.
type Piece = (&'static str, usize);

/// Gives a piece a read, and notes where something else was written before it.
#[derive(Drop)]
struct Waits<'a> {
    pieces: &'a [Piece],
    written: &'a Cell<usize>,
    is_early: bool,
}

impl Read for Waits<'_> {
    fn read(&mut self, buf: &mut [u8]) -> io::Result<usize> {
        let [(piece, before), rest @ ..] = self.pieces else {
            return Ok(0);
        };
        self.is_early = self.is_early || self.written.get() != *before;
        self.pieces = rest;
        let mut octets = piece.as_bytes();
        octets.read(buf)
    }
}

/// Counts what is written.
#[derive(Drop)]
struct Counts<'a> {
    written: &'a Cell<usize>,
}

impl Write for Counts<'_> {
    fn write(&mut self, buf: &[u8]) -> io::Result<usize> {
        let written = self.written.get().saturating_add(buf.len());
        self.written.set(written);
        Ok(buf.len())
    }

    fn flush(&mut self) -> io::Result<()> {
        Ok(())
    }
}

/// How the run over these pieces ends, and how much is written. `None` where too little or too much was written before
/// one of them.
fn waited(
    alloc: Global,
    dictionary: &Dictionary,
    way: Way,
    pieces: &[Piece],
) -> Option<(End, usize)> {
    let written = Cell::new(0usize);
    let source = Waits {
        pieces,
        written: &written,
        is_early: false,
    };
    let Ok(mut reader) = BufReader::with_capacity(alloc, 65_536, source) else {
        return None;
    };
    let mut writer = Counts { written: &written };
    let end = end_of(say(alloc, dictionary, way, &mut reader, &mut writer));
    let is_early = reader.get_ref().is_early;
    drop(reader);
    if is_early {
        None
    } else {
        Some((end, written.get()))
    }
}

/// A line of 92 octets is shown of the first message, of the second, and of the third.
const LINES: [Piece; 8] = [
    ("# nothing\n\n", 0),
    ("010000148000012c", 0),
    ("000000040000001100000022", 0),
    ("\r", 0),
    ("\n01", 0),
    (
        "0000148000012c000000040000001100000022 ; and\n010000148000012c000000040000001100000022\n0",
        92,
    ),
    ("\n", 276),
    ("0", 294),
];

/// One behind each message of a stream, however its lines are cut; nothing behind a line that isn't whole.
const STREAM: [Piece; 7] = [
    ("0100001480\n00012c0000000400\n", 0),
    ("00001100000022", 0),
    ("\n", 0),
    (
        "010000148000012c000000040000001100000022010000148000012c\n0000",
        92,
    ),
    ("00040000001100000022\n", 184),
    ("01\n", 276),
    ("00\n", 276),
];

#[test]
fn text_is_written_before_a_wait(rt: HostRuntime) {
    let dictionary = dictionary(&rt);
    let lines = waited(rt.alloc(), &dictionary, (Task::Show, false), &LINES);
    let stream = waited(rt.alloc(), &dictionary, (Task::Show, true), &STREAM);
    drop(dictionary);
    assert_eq!(rt; lines, Some((End::Bad, 312)));
    assert_eq!(rt; stream, Some((End::Bad, 329)));
}
