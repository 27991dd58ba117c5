//! Readers that fail: what was said of whole lines is written.
use crate::devices::{End, Source, Way, end_of, say};
use crate::dictionary::{PIECES, dictionary};
use dm_dict::Dictionary;
use dm_view_lines::Task;
use std::alloc::Global;
use std::io::BufReader;
use std::process::Abort;

const SHOW: Way = (Task::Show, false);

const CHECK: Way = (Task::Check, false);

const CHECK_JSON: Way = (Task::CheckJson, false);

const SHOW_STREAM: Way = (Task::Show, true);

const CHECK_STREAM: Way = (Task::Check, true);

/// What is said, the input, what is written of it, and how the run ends where the reader fails behind the input.
type Broken = (Way, &'static str, &'static str, End);

const BROKEN_LINES: [Broken; 11] = [
    (SHOW, "", "", End::Broken),
    (CHECK, "", "", End::Broken),
    (SHOW, "# nothing\n\n", "", End::Broken),
    (
        SHOW,
        "010000148000012c000000040000001100000022\n",
        "1: Thing 300 request, application 4, hop-by-hop 17 (0x00000011), end-to-end 34 (0x00000022)\n",
        End::Broken,
    ),
    (
        SHOW,
        "010000148000012c000000040000001100000022",
        "",
        End::Broken,
    ),
    (
        SHOW,
        "010000148000012c000000040000001100000022\r",
        "",
        End::Broken,
    ),
    (SHOW, "\u{feff}", "", End::Broken),
    (
        SHOW,
        "\u{feff}010000148000012c000000040000001100000022\r\nxyz\n010000148000012c",
        "1: Thing 300 request, application 4, hop-by-hop 17 (0x00000011), end-to-end 34 (0x00000022)\n2: no hexadecimal\n",
        End::Broken,
    ),
    (
        SHOW,
        "0100\n\n010000148000012c000000040000001100000022 ; and\n\n0",
        "1: no message: 5015 DIAMETER_INVALID_MESSAGE_LENGTH: fewer octets than a header has\n3: Thing 300 request, application 4, hop-by-hop 17 (0x00000011), end-to-end 34 (0x00000022)\n",
        End::Broken,
    ),
    (
        CHECK,
        "010000208000012c000000040000001100000022000017744000000c00000001\nxyz\n010000208000012c0000000400000011",
        "1: good Thing 300 request, application 4, hop-by-hop 17 (0x00000011), end-to-end 34 (0x00000022)\n2: no hexadecimal\n",
        End::Broken,
    ),
    (
        CHECK_JSON,
        "xyz\n010000208000012c0000000400000011",
        "{\"number\":1,\"verdict\":\"bad\",\"error\":\"no hexadecimal\"}\n",
        End::Broken,
    ),
];

/// A line at which a stream stops ends the run: the reader isn't asked any more.
const BROKEN_STREAMS: [Broken; 8] = [
    (SHOW_STREAM, "", "", End::Broken),
    (CHECK_STREAM, "01000020\n8000012c\n", "", End::Broken),
    (
        SHOW_STREAM,
        "010000148000012c000000040000001100000022\n",
        "1: Thing 300 request, application 4, hop-by-hop 17 (0x00000011), end-to-end 34 (0x00000022)\n",
        End::Broken,
    ),
    (
        SHOW_STREAM,
        "010000148000012c000000040000001100000022",
        "",
        End::Broken,
    ),
    (
        SHOW_STREAM,
        "010000148000012c0000\n00040000001100000022010000148000012b\n000000040000001100000022010000\n14",
        "1: Thing 300 request, application 4, hop-by-hop 17 (0x00000011), end-to-end 34 (0x00000022)\n2: ? 299 request, application 4, hop-by-hop 17 (0x00000011), end-to-end 34 (0x00000022)\n",
        End::Broken,
    ),
    (
        CHECK_STREAM,
        "010000208000012c000000040000001100000022\n000017744000000c00000001010000208000012c0000\n0004",
        "1: good Thing 300 request, application 4, hop-by-hop 17 (0x00000011), end-to-end 34 (0x00000022)\n",
        End::Broken,
    ),
    (SHOW_STREAM, "\nxyz\n", "line 2: no hexadecimal\n", End::Bad),
    (
        CHECK_STREAM,
        "010000208000012c000000040000001100000022000017744000000c0000000102\n",
        "1: good Thing 300 request, application 4, hop-by-hop 17 (0x00000011), end-to-end 34 (0x00000022)\n2: no message: 5011 DIAMETER_UNSUPPORTED_VERSION: the first octet isn't 1\n1 good, 1 bad\n",
        End::Bad,
    ),
];

/// How the run ends that reads the input in pieces of this size, where the reader fails behind it. `None` where
/// something else is written.
fn broken(alloc: Global, dictionary: &Dictionary, row: Broken, size: usize) -> Option<End> {
    let (way, input, want, _) = row;
    let source = Source {
        rest: input.as_bytes(),
        most: size,
        breaks: true,
        reads: 0,
    };
    let Ok(mut reader) = BufReader::with_capacity(alloc, size, source) else {
        return None;
    };
    let mut text = Vec::new(alloc);
    let end = end_of(say(alloc, dictionary, way, &mut reader, &mut text));
    let same = text.as_slice() == want.as_bytes();
    drop(text);
    drop(reader);
    if same { Some(end) } else { None }
}

/// What was said of whole lines is written, and then the reader's fault is told, in whatever pieces it reads.
fn assert_broken(rt: &(impl Abort + AllocGlobal), rows: &[Broken]) {
    let dictionary = dictionary(rt);
    for row in rows {
        for size in PIECES {
            let end = broken(rt.alloc(), &dictionary, *row, size);
            assert!(rt;
                end == Some(row.3),
                "{end:?}, in pieces of {size}, of {}",
                row.1
            );
        }
    }
    drop(dictionary);
}

#[test]
fn readers_fail(rt: HostRuntime) {
    assert_broken(&rt, &BROKEN_LINES);
}

#[test]
fn readers_of_streams_fail(rt: HostRuntime) {
    assert_broken(&rt, &BROKEN_STREAMS);
}
