//! The program's runs over a reader and a writer that give and take little, fail, or never end.
use dm_tool::{ToolFault, ending, run_build, run_check, run_replay, run_show};
use std::alloc::Global;
use std::io;
use std::io::{Error, ErrorKind, Read, Write};
use std::process::Abort;

/// Gives at most so many octets a read, and fails at the read of this number, never at 0. One that never ends goes on
/// with `#` and what the buffers hold.
#[derive(Drop)]
struct Source<'a> {
    rest: &'a [u8],
    most: usize,
    fails_at: u32,
    reads: u32,
    is_endless: bool,
}

impl Read for Source<'_> {
    fn read(&mut self, buf: &mut [u8]) -> io::Result<usize> {
        self.reads = self.reads.saturating_add(1);
        if self.reads == self.fails_at {
            return Err(Error::from(ErrorKind::BrokenPipe));
        }
        if self.is_endless && self.rest.is_empty() {
            if let [first, ..] = buf {
                *first = b'#';
            }
            return Ok(buf.len());
        }
        let count = self.most.min(self.rest.len()).min(buf.len());
        let (front, rest) = self.rest.split_at(count);
        buf[..count].copy_from_slice(front);
        self.rest = rest;
        Ok(count)
    }
}

/// Takes at most so many octets a write, and fails at the write of this number, never at 0.
#[derive(Drop)]
struct Sink {
    held: Vec<u8>,
    most: usize,
    fails_at: u32,
    writes: u32,
}

impl Write for Sink {
    fn write(&mut self, buf: &[u8]) -> io::Result<usize> {
        self.writes = self.writes.saturating_add(1);
        if self.writes == self.fails_at {
            return Err(Error::from(ErrorKind::BrokenPipe));
        }
        let count = self.most.min(buf.len());
        self.held.extend_from_slice(&buf[..count])?;
        Ok(count)
    }

    fn flush(&mut self) -> io::Result<()> {
        Ok(())
    }
}

/// A run of the program.
#[derive(Clone, Copy, Debug)]
enum Run {
    Show,
    Check,
    WithDictionary,
    Build,
    Replay,
}

fn run_over(
    alloc: Global,
    which: Run,
    reader: &mut Source<'_>,
    writer: &mut Sink,
) -> Result<bool, ToolFault> {
    match which {
        Run::Show => run_show(alloc, reader, writer),
        Run::Check => run_check(alloc, reader, writer, false),
        Run::WithDictionary => run_check(alloc, reader, writer, true),
        Run::Build => run_build(alloc, reader, writer),
        Run::Replay => run_replay(alloc, reader, writer),
    }
}

/// How many octets a device gives or takes at once, and the number of the call at which it fails, 0 for never.
type Way = (usize, u32);

const AT_ONCE: Way = (65_536, 0);

const BY_OCTETS: Way = (1, 0);

/// How a run ended: its answer, what was written, and how many reads and writes were made.
#[derive(Drop)]
struct Done {
    answer: Result<bool, ToolFault>,
    text: Vec<u8>,
    reads: u32,
    writes: u32,
}

fn go(alloc: Global, which: Run, input: &[u8], reads: Way, writes: Way) -> Done {
    let mut reader = Source {
        rest: input,
        most: reads.0,
        fails_at: reads.1,
        reads: 0,
        is_endless: false,
    };
    let mut writer = Sink {
        held: Vec::new(alloc),
        most: writes.0,
        fails_at: writes.1,
        writes: 0,
    };
    let answer = run_over(alloc, which, &mut reader, &mut writer);
    let Sink { held, writes, .. } = writer;
    Done {
        answer,
        text: held,
        reads: reader.reads,
        writes,
    }
}

/// Whether the run gives the whole text.
fn is_whole(done: &Done, whole: &Done) -> bool {
    done.answer == whole.answer && done.text.as_slice() == whole.text.as_slice()
}

/// Whether the run stopped for its reader, with nothing written.
fn is_unread(done: &Done) -> bool {
    done.answer == Err(ToolFault::Read) && done.text.is_empty()
}

/// Whether the run stopped for its writer, which had taken so many octets of the whole text.
fn is_unwritten(done: &Done, whole: &[u8], count: u32) -> bool {
    done.answer == Err(ToolFault::Write)
        && done.text.len() == count as usize
        && whole.starts_with(done.text.as_slice())
}

fn stops_at_read(alloc: Global, which: Run, input: &[u8], place: u32) -> bool {
    let done = go(alloc, which, input, (1, place), BY_OCTETS);
    let is_unread = is_unread(&done);
    drop(done);
    is_unread
}

fn stops_at_write(alloc: Global, which: Run, input: &[u8], text: &[u8], place: u32) -> bool {
    let done = go(alloc, which, input, AT_ONCE, (1, place));
    let is_unwritten = is_unwritten(&done, text, place.saturating_sub(1));
    drop(done);
    is_unwritten
}

/// The reader fails at each of its reads, and the writer at each of its writes.
fn check_failures(rt: &(impl Abort + AllocGlobal), which: Run, input: &[u8], whole: &Done) {
    for place in 1..=whole.reads {
        assert!(rt;
            stops_at_read(rt.alloc(), which, input, place),
            "{which:?} at read {place}"
        );
    }
    let text = whole.text.as_slice();
    for place in 1..=whole.writes {
        let stops = stops_at_write(rt.alloc(), which, input, text, place);
        assert!(rt; stops, "{which:?} at write {place}");
    }
}

/// Whether the run came to the same by octets as at once.
fn is_same_by_octets(alloc: Global, which: Run, input: &[u8], slow: &Done) -> bool {
    let whole = go(alloc, which, input, AT_ONCE, AT_ONCE);
    let same = is_whole(slow, &whole) && whole.answer.is_ok();
    drop(whole);
    same
}

fn check_run(rt: &(impl Abort + AllocGlobal), which: Run, input: &[u8]) {
    let slow = go(rt.alloc(), which, input, BY_OCTETS, BY_OCTETS);
    let same = is_same_by_octets(rt.alloc(), which, input, &slow);
    check_failures(rt, which, input, &slow);
    drop(slow);
    assert!(rt; same, "{which:?} by octets");
}

/// A good message, a line that is no digits, and a message without AVPs.
const MESSAGES: &str = "\
01000038800001180000000000000001000000010000010840000011612e6578616d706c65000000000001284000000f6578616d706c6500
0g
0100001480000118000000000000000100000001
";

/// A dictionary with a vendor and a list of values, and a message under it.
const WITH_DICTIONARY: &str = "\
@ 2
@ vendor Acme 99
@ Colour 5000 Enumerated : Acme { RED 0, BLUE 2 }
< Ask > ::= < Diameter Header: 300, REQ > { Colour }
%%
010000248000012c00000000000000010000000100001388c00000100000006300000001
";

/// A message with two AVPs, and one that is past a limit.
const TEXT: &str = "\
message 280 R--- app 0 hop 1 end 1
  264 -M- 612e6578616d706c65
  296 -M- 6578616d706c65
message 16777216 ---- app 0 hop 1 end 1
";

/// One side starts.
const SCRIPT: &str =
    "peer A b.example 4\npeer B a.example 4\nstart A\nack 0\ndeliver 0 B\ndeliver 0 A\n";

const RUNS: [(Run, &str); 5] = [
    (Run::Show, MESSAGES),
    (Run::Check, MESSAGES),
    (Run::WithDictionary, WITH_DICTIONARY),
    (Run::Build, TEXT),
    (Run::Replay, SCRIPT),
];

#[test]
fn little_at_once_or_a_failure(rt: HostRuntime) {
    for (which, input) in RUNS {
        check_run(&rt, which, input.as_bytes());
    }
}

/// The answer of a run over a reader that never ends, and whether nothing is written.
fn endless(alloc: Global, which: Run, input: &[u8]) -> (Result<bool, ToolFault>, bool) {
    let mut reader = Source {
        rest: input,
        most: 65_536,
        fails_at: 0,
        reads: 0,
        is_endless: true,
    };
    let mut writer = Sink {
        held: Vec::new(alloc),
        most: 65_536,
        fails_at: 0,
        writes: 0,
    };
    let answer = run_over(alloc, which, &mut reader, &mut writer);
    let is_empty = writer.held.is_empty();
    drop(writer);
    (answer, is_empty)
}

#[test]
fn readers_that_never_end(rt: HostRuntime) {
    for (which, input) in RUNS {
        let told = endless(rt.alloc(), which, input.as_bytes());
        assert!(&rt; told == (Err(ToolFault::Read), true), "{which:?}");
    }
}

const ENDINGS: [(ToolFault, &str); 3] = [
    (ToolFault::Read, "dmpeer: read"),
    (ToolFault::Write, "dmpeer: write"),
    (ToolFault::Memory, "dmpeer: memory"),
];

#[test]
fn endings_of_faults(rt: HostRuntime) {
    for (fault, word) in ENDINGS {
        assert!(&rt; ending(Some(Err(fault))) == (3, word), "{word}");
    }
}
