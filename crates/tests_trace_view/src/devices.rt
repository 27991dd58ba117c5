//! Readers and writers that give and take little at once, are interrupted, or fail.
use crate::packets::Row;
use crate::told::{AMPLE, looks, octets_of, text_of};
use dm_dict::Dictionary;
use dm_trace_view::say_capture;
use dm_view_lines::{RunFault, Style, Task};
use std::alloc::Global;
use std::hash::RandomState;
use std::io;
use std::io::{BufReader, Error, ErrorKind, Read, Write};
use std::process::Abort;
use std::random::RandomSource;

const ROWS: [Row; 2] = [
    (
        1,
        41_000,
        3868,
        "",
        100,
        "0100001480000118000000000000001200000023",
    ),
    (
        2,
        41_000,
        3868,
        "",
        120,
        "0100001480000118000000000000001300000024",
    ),
];

/// What is said of the first packet, and of both.
const FIRST: &str =
    "1: 2026-11-23T02:15:00.000001Z 10.0.0.1:41000 > 10.0.0.2:3868 tcp packet 1\nDWR 280 request, application 0, hop-by-hop 18 (0x00000012), end-to-end 35 (0x00000023)\n";

const BOTH: &str =
    "1: 2026-11-23T02:15:00.000001Z 10.0.0.1:41000 > 10.0.0.2:3868 tcp packet 1\nDWR 280 request, application 0, hop-by-hop 18 (0x00000012), end-to-end 35 (0x00000023)\n2: 2026-11-23T02:15:00.000002Z 10.0.0.1:41000 > 10.0.0.2:3868 tcp packet 2\nDWR 280 request, application 0, hop-by-hop 19 (0x00000013), end-to-end 36 (0x00000024)\n";

/// Gives three octets a read, and is interrupted before each. Behind its last one it ends, or fails where it breaks.
#[derive(Drop)]
struct Source<'a> {
    rest: &'a [u8],
    breaks: bool,
    is_next: bool,
}

impl Read for Source<'_> {
    fn read(&mut self, buf: &mut [u8]) -> io::Result<usize> {
        self.is_next = !self.is_next;
        if self.is_next {
            return Err(Error::from(ErrorKind::Interrupted));
        }
        if self.rest.is_empty() && self.breaks {
            return Err(Error::from(ErrorKind::ConnectionReset));
        }
        let count = self.rest.len().min(buf.len()).min(3);
        let (front, rest) = self.rest.split_at(count);
        buf[..count].copy_from_slice(front);
        self.rest = rest;
        Ok(count)
    }
}

/// Takes three octets a write, and fails where it holds so many or more.
#[derive(Drop)]
struct Sink {
    held: Vec<u8>,
    most: usize,
}

impl Write for Sink {
    fn write(&mut self, buf: &[u8]) -> io::Result<usize> {
        if self.held.len() >= self.most {
            return Err(Error::from(ErrorKind::StorageFull));
        }
        let count = buf.len().min(3);
        self.held.extend_from_slice(&buf[..count])?;
        Ok(count)
    }

    fn flush(&mut self) -> io::Result<()> {
        Ok(())
    }
}

/// How a run ended.
#[derive(Clone, Copy, Debug, PartialEq, Eq)]
enum End {
    Good,
    Broken,
    Full,
    Other,
}

fn end_of(said: Result<bool, RunFault>) -> End {
    match said {
        Ok(true) => End::Good,
        Err(RunFault::Read(error)) if error.kind() == ErrorKind::ConnectionReset => End::Broken,
        Err(RunFault::Write(error)) if error.kind() == ErrorKind::StorageFull => End::Full,
        _ => End::Other,
    }
}

/// How it ends to say a capture that a source gives, in a buffer of five octets.
fn run(
    alloc: Global,
    keys: RandomState,
    dictionary: &Dictionary,
    source: Source<'_>,
    sink: &mut Sink,
) -> Option<End> {
    let Ok(mut reader) = BufReader::with_capacity(alloc, 5, source) else {
        return None;
    };
    let style = Style {
        task: Task::Show,
        coloured: false,
    };
    let said = say_capture(
        alloc,
        keys,
        dictionary,
        style,
        looks(AMPLE),
        &mut reader,
        sink,
    );
    drop(reader);
    Some(end_of(said))
}

/// A capture that ends or breaks, and lacks so many of its octets, is said up to this, where a writer takes so many.
fn assert_run(
    rt: &(impl Abort + AllocGlobal + RandomSource),
    breaks: bool,
    lacks: usize,
    most: usize,
    want: (&str, End),
) {
    let dictionary = Dictionary::base(rt.alloc()).expect(rt, "memory");
    let octets = octets_of(rt, &ROWS, "");
    let source = Source {
        rest: &octets[..octets.len().saturating_sub(lacks)],
        breaks,
        is_next: false,
    };
    let mut sink = Sink {
        held: Vec::new(rt.alloc()),
        most,
    };
    let keys = RandomState::new(rt).expect(rt, "keys");
    let end = run(rt.alloc(), keys, &dictionary, source, &mut sink);
    let told = text_of(&sink.held);
    assert!(rt; told == want.0, "{told}");
    assert!(rt; end == Some(want.1), "{end:?}");
    drop(sink);
    drop(octets);
    drop(dictionary);
}

#[test]
fn an_odd_reader(rt: HostRuntime) {
    assert_run(&rt, false, 0, 10_000, (BOTH, End::Good));
}

/// What is said of the packets that it gave whole is written.
#[test]
fn a_reader_that_fails(rt: HostRuntime) {
    assert_run(&rt, true, 1, 10_000, (FIRST, End::Broken));
    assert_run(&rt, true, 0, 10_000, (BOTH, End::Broken));
}

#[test]
fn a_writer_that_fails(rt: HostRuntime) {
    assert_run(&rt, false, 0, 1, ("1: ", End::Full));
}
