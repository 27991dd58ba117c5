//! Writers that fail: nothing further is read.
use crate::devices::{End, Interrupted, Sink, Source, Way, end_of, say};
use crate::dictionary::dictionary;
use dm_dict::Dictionary;
use dm_view_lines::Task;
use std::alloc::{AllocError, Global};
use std::io::BufReader;
use std::process::Abort;

const SHOW: Way = (Task::Show, false);

/// What is said, the input, and what is written of it.
type Said<'a> = (Way, &'a str, &'a str);

/// Three lines, which are three messages of a stream too.
const THREE: &str = "\
010000148000012c000000040000001100000022
010000148000012c000000040000001100000022
010000148000012c000000040000001100000022
";

/// What is shown of them.
const THREE_SHOWN: &str = "\
1: Thing 300 request, application 4, hop-by-hop 17 (0x00000011), end-to-end 34 (0x00000022)
2: Thing 300 request, application 4, hop-by-hop 17 (0x00000011), end-to-end 34 (0x00000022)
3: Thing 300 request, application 4, hop-by-hop 17 (0x00000011), end-to-end 34 (0x00000022)
";

const LINES: Said<'_> = (SHOW, THREE, THREE_SHOWN);

const STREAM: Said<'_> = ((Task::Show, true), THREE, THREE_SHOWN);

const COUNTS: Said<'_> = ((Task::Check, false), "# nothing\n", "0 good, 0 bad\n");

/// How many octets the reader gives and the writer takes at once, and the number of the write that fails.
type Little = (usize, usize, u32);

/// How a run ended, how many octets were written, and after how many reads.
type Ended = (End, usize, u32);

/// How the run ends. `None` where what was written isn't of the text.
fn written(
    alloc: Global,
    dictionary: &Dictionary,
    said: Said<'_>,
    little: Little,
) -> Option<Ended> {
    let (way, input, text) = said;
    let (given, taken, fails_at) = little;
    let source = Source {
        rest: input.as_bytes(),
        most: given,
        breaks: false,
        reads: 0,
    };
    let Ok(mut reader) = BufReader::with_capacity(alloc, 65_536, source) else {
        return None;
    };
    let mut sink = Sink {
        held: Vec::new(alloc),
        most: taken,
        fails_at,
        writes: 0,
    };
    let end = end_of(say(alloc, dictionary, way, &mut reader, &mut sink));
    let (count, reads) = (sink.held.len(), reader.get_ref().reads);
    let same = text.as_bytes().starts_with(sink.held.as_slice());
    drop(sink);
    drop(reader);
    if same {
        Some((end, count, reads))
    } else {
        None
    }
}

/// The first and later writes fail, and nothing further is read; or none fails, and the end is read. What is shown of
/// each of the three lines has 92 octets.
const WRITES: [(Little, Ended); 17] = [
    ((41, 65_536, 1), (End::Full, 0, 1)),
    ((41, 65_536, 2), (End::Full, 92, 2)),
    ((41, 65_536, 3), (End::Full, 184, 3)),
    ((41, 65_536, 0), (End::Good, 276, 4)),
    ((1, 65_536, 1), (End::Full, 0, 41)),
    ((1, 65_536, 2), (End::Full, 92, 82)),
    ((1, 65_536, 3), (End::Full, 184, 123)),
    ((1, 65_536, 0), (End::Good, 276, 124)),
    ((7, 65_536, 1), (End::Full, 0, 6)),
    ((7, 65_536, 2), (End::Full, 92, 12)),
    ((7, 65_536, 3), (End::Full, 184, 18)),
    ((65_536, 65_536, 1), (End::Full, 0, 1)),
    ((65_536, 65_536, 2), (End::Good, 276, 2)),
    ((41, 1, 2), (End::Full, 1, 1)),
    ((41, 1, 93), (End::Full, 92, 2)),
    ((65_536, 1, 184), (End::Full, 183, 1)),
    ((41, 0, 0), (End::Stuck, 0, 1)),
];

/// The counts at the end can't be written.
const WRITES_OF_COUNTS: [(Little, Ended); 3] = [
    ((7, 65_536, 1), (End::Full, 0, 3)),
    ((1, 4, 3), (End::Full, 8, 11)),
    ((1, 4, 0), (End::Good, 14, 11)),
];

fn assert_written(rt: &(impl Abort + AllocGlobal), said: Said<'_>, rows: &[(Little, Ended)]) {
    let dictionary = dictionary(rt);
    for (little, want) in rows {
        let ended = written(rt.alloc(), &dictionary, said, *little);
        assert!(rt;
            ended == Some(*want),
            "{ended:?}, and not {want:?}, of {little:?}"
        );
    }
    drop(dictionary);
}

#[test]
fn writers_fail(rt: HostRuntime) {
    assert_written(&rt, LINES, &WRITES);
    assert_written(&rt, STREAM, &WRITES);
    assert_written(&rt, COUNTS, &WRITES_OF_COUNTS);
}

/// A line so often.
fn repeated(alloc: Global, line: &str, count: u32) -> Result<String, AllocError> {
    let mut text = String::new(alloc);
    for _ in 0..count {
        text.push_str(line)?;
    }
    Ok(text)
}

/// How a run over all of the input at once ends, and how many octets were written, by how many writes.
fn gathered(alloc: Global, dictionary: &Dictionary, input: &str, fails_at: u32) -> Ended {
    let mut sink = Sink {
        held: Vec::new(alloc),
        most: usize::MAX,
        fails_at,
        writes: 0,
    };
    let end = end_of(say(alloc, dictionary, SHOW, &mut input.as_bytes(), &mut sink));
    let ended = (end, sink.held.len(), sink.writes);
    drop(sink);
    ended
}

/// The text of a thousand lines that are at hand is written as soon as 64 KiB of it wait, and then the rest.
#[test]
fn text_is_gathered(rt: HostRuntime) {
    let line = "010000148000012c000000040000001100000022\n";
    let input = repeated(rt.alloc(), line, 1000).expect(&rt, "memory");
    let dictionary = dictionary(&rt);
    for (fails_at, want) in [
        (0, (End::Good, 93_893, 2)),
        (1, (End::Full, 0, 1)),
        (2, (End::Full, 65_598, 2)),
    ] {
        let ended = gathered(rt.alloc(), &dictionary, input.as_str(), fails_at);
        assert!(&rt; ended == want, "{ended:?}, and not {want:?}");
    }
    drop(dictionary);
    drop(input);
}

/// Whether three lines are shown by single octets, each read and each write of which is interrupted first.
fn comes_in_drips(alloc: Global, dictionary: &Dictionary, said: Said<'_>) -> bool {
    let (way, input, text) = said;
    let source = Source {
        rest: input.as_bytes(),
        most: 1,
        breaks: false,
        reads: 0,
    };
    let Ok(mut reader) = BufReader::with_capacity(alloc, 1, Interrupted::of(source)) else {
        return false;
    };
    let mut sink = Interrupted::of(Sink {
        held: Vec::new(alloc),
        most: 1,
        fails_at: 0,
        writes: 0,
    });
    let end = end_of(say(alloc, dictionary, way, &mut reader, &mut sink));
    let same = sink.inner.held.as_slice() == text.as_bytes();
    drop(sink);
    drop(reader);
    same && end == End::Good
}

#[test]
fn interrupted_calls_are_made_again(rt: HostRuntime) {
    let dictionary = dictionary(&rt);
    for said in [LINES, STREAM, COUNTS] {
        assert!(&rt;
            comes_in_drips(rt.alloc(), &dictionary, said),
            "of {}",
            said.1
        );
    }
    drop(dictionary);
}
