//! The limit of a line, by a reader that makes its octets as they are read.
use crate::devices::{End, Way, end_of, say};
use crate::dictionary::dictionary;
use dm_dict::Dictionary;
use dm_view_lines::{LINE_LIMIT, Task};
use std::alloc::Global;
use std::io;
use std::io::{BufReader, Read};
use std::process::Abort;

/// Gives what stands in front, this many octets `#`, and then its end.
#[derive(Drop)]
struct Floods<'a> {
    front: &'a [u8],
    left: usize,
    end: &'a [u8],
    /// So many octets `#` at most are given at once.
    flood: &'a [u8],
}

impl Read for Floods<'_> {
    fn read(&mut self, buf: &mut [u8]) -> io::Result<usize> {
        if !self.front.is_empty() {
            return self.front.read(buf);
        }
        if self.left == 0 {
            return self.end.read(buf);
        }
        let most = self.left.min(self.flood.len());
        let mut octets = &self.flood[..most];
        let count = octets.read(buf)?;
        self.left = self.left.saturating_sub(count);
        Ok(count)
    }
}

/// What is said, what stands before the octets `#`, how many they are, and what stands behind them; what is written,
/// and how the run ends.
type Flood = (Way, &'static str, usize, &'static str, &'static str, End);

/// A message, and its line's end.
const MESSAGE: &str = "010000148000012c000000040000001100000022\n";

/// What is shown of it as the first line, and as the second one.
const FIRST: &str =
    "1: Thing 300 request, application 4, hop-by-hop 17 (0x00000011), end-to-end 34 (0x00000022)\n";

const SECOND: &str =
    "2: Thing 300 request, application 4, hop-by-hop 17 (0x00000011), end-to-end 34 (0x00000022)\n";

const LINES: Way = (Task::Show, false);

const STREAM: Way = (Task::Show, true);

/// A message behind a line's end.
const NEXT: &str = "\n010000148000012c000000040000001100000022";

/// A comment of as many octets as a line may have.
const LINES_OF_THE_LIMIT: [Flood; 4] = [
    (LINES, "", LINE_LIMIT, NEXT, SECOND, End::Good),
    (LINES, "", LINE_LIMIT, "\r\n", "", End::Good),
    (LINES, MESSAGE, LINE_LIMIT, "", FIRST, End::Good),
    (STREAM, "", LINE_LIMIT, NEXT, FIRST, End::Good),
];

/// Of one more.
const LONGER_LINES: [Flood; 5] = [
    (LINES, "", LINE_LIMIT + 1, NEXT, "", End::TooLong(1)),
    (LINES, MESSAGE, LINE_LIMIT + 1, "", FIRST, End::TooLong(2)),
    (LINES, MESSAGE, LINE_LIMIT, "#\r\n", FIRST, End::TooLong(2)),
    (
        STREAM,
        MESSAGE,
        LINE_LIMIT + 1,
        NEXT,
        FIRST,
        End::TooLong(2),
    ),
    (STREAM, MESSAGE, LINE_LIMIT + 1, "", FIRST, End::TooLong(2)),
];

/// How the run ends, and how many octets `#` were not read. `None` where something else is written.
fn flooded(
    alloc: Global,
    dictionary: &Dictionary,
    row: Flood,
    flood: &[u8],
) -> Option<(End, usize)> {
    let (way, front, left, end, want, _) = row;
    let source = Floods {
        front: front.as_bytes(),
        left,
        end: end.as_bytes(),
        flood,
    };
    let Ok(mut reader) = BufReader::with_capacity(alloc, 65_536, source) else {
        return None;
    };
    let mut text = Vec::new(alloc);
    let end = end_of(say(alloc, dictionary, way, &mut reader, &mut text));
    let same = text.as_slice() == want.as_bytes();
    let left = reader.get_ref().left;
    drop(text);
    drop(reader);
    if same { Some((end, left)) } else { None }
}

/// So many octets `#` as are read at once.
fn flood(rt: &(impl Abort + AllocGlobal)) -> Vec<u8> {
    let mut flood = Vec::new(rt.alloc());
    flood.resize(65_536, b'#').expect(rt, "memory");
    flood
}

/// The runs end as their rows say, and nothing of the lines is left.
fn assert_flooded(rt: &(impl Abort + AllocGlobal), rows: &[Flood]) {
    let dictionary = dictionary(rt);
    let flood = flood(rt);
    for row in rows {
        let ended = flooded(rt.alloc(), &dictionary, *row, flood.as_slice());
        assert!(rt; ended == Some((row.5, 0)), "{ended:?}, of {row:?}");
    }
    drop(flood);
    drop(dictionary);
}

#[test]
fn lines_have_a_limit(rt: HostRuntime) {
    assert_flooded(&rt, &LINES_OF_THE_LIMIT);
}

#[test]
fn lines_are_too_long(rt: HostRuntime) {
    assert_flooded(&rt, &LONGER_LINES);
}

/// A line that never ends is read as far as a line may go, and one read further at most.
#[test]
fn a_line_never_ends(rt: HostRuntime) {
    let dictionary = dictionary(&rt);
    let flood = flood(&rt);
    let endless = (LINES, MESSAGE, usize::MAX, "", FIRST, End::TooLong(2));
    let ended = flooded(rt.alloc(), &dictionary, endless, flood.as_slice());
    drop(flood);
    drop(dictionary);
    let (end, left) = ended.expect(&rt, "another text");
    assert_eq!(&rt; end, End::TooLong(2));
    assert!(&rt; usize::MAX - left <= LINE_LIMIT + 1 + 65_536);
}
