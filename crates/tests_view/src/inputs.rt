//! Several readers, read as one.
use crate::devices::{End, Source, Way, end_of, say};
use crate::dictionary::{PIECES, dictionary};
use dm_dict::Dictionary;
use dm_view_lines::{Inputs, Task};
use std::alloc::Global;
use std::io::{BufReader, Read};

/// What readers give whose last lines lack their ends, or that give nothing.
#[test]
fn readers_end_their_lines(rt: HostRuntime) {
    let mut inputs = Inputs::new(rt.alloc());
    for text in &["a\nb", "", "\n", "c\n", "\r"] {
        inputs.push_as_lines(text.as_bytes()).expect(&rt, "memory");
    }
    let mut octets = Vec::new(rt.alloc());
    let count = inputs.read_to_end(&mut octets).expect(&rt, "readers");
    assert!(rt;
        octets.as_slice() == b"a\nb\n\nc\n\r\n".as_slice(),
        "{count} octets"
    );
    assert!(rt; inputs.ended_reader_count() == 5, "not all were read");
    drop(octets);
    drop(inputs);
}

/// What is said, what each reader gives, which of them fails behind that, what is written, how the run ends, and how
/// many readers were read to their ends.
type Row = (
    Way,
    &'static [&'static str],
    usize,
    &'static str,
    End,
    usize,
);

const LINES: Way = (Task::Show, false);

const STREAM: Way = (Task::Show, true);

/// A message.
const MESSAGE: &str = "010000148000012c000000040000001100000022";

/// What is shown of it as the first line.
const SHOWN: &str =
    "1: Thing 300 request, application 4, hop-by-hop 17 (0x00000011), end-to-end 34 (0x00000022)\n";

const ROWS: [Row; 8] = [
    (LINES, &[MESSAGE, "", "; no more"], 3, SHOWN, End::Good, 3),
    (LINES, &[MESSAGE, "", MESSAGE], 0, "", End::Broken, 0),
    (LINES, &[MESSAGE, "", MESSAGE], 1, SHOWN, End::Broken, 1),
    (LINES, &[MESSAGE, "; no", MESSAGE], 1, SHOWN, End::Broken, 1),
    (LINES, &[MESSAGE, "\n", MESSAGE], 2, SHOWN, End::Broken, 2),
    (
        STREAM,
        &["010000148000012c", "000000040000001100000022", ""],
        2,
        SHOWN,
        End::Broken,
        2,
    ),
    (
        STREAM,
        &["010000148000012c", "000000040000001100000022", ""],
        1,
        "",
        End::Broken,
        1,
    ),
    (
        STREAM,
        &["\r\n", "0x01000014 8000012c:00000004", "0000001100000022"],
        3,
        SHOWN,
        End::Good,
        3,
    ),
];

/// How the run ends, and how many readers were read to their ends, in pieces of this size. `None` where something else
/// is written.
fn said(alloc: Global, dictionary: &Dictionary, row: Row, size: usize) -> Option<(End, usize)> {
    let (way, texts, broken, want, ..) = row;
    let mut inputs = Inputs::new(alloc);
    for (place, text) in texts.iter().enumerate() {
        let source = Source {
            rest: text.as_bytes(),
            most: size,
            breaks: place == broken,
            reads: 0,
        };
        if inputs.push_as_lines(source).is_err() {
            return None;
        }
    }
    let Ok(mut reader) = BufReader::with_capacity(alloc, size, inputs) else {
        return None;
    };
    let mut text = Vec::new(alloc);
    let end = end_of(say(alloc, dictionary, way, &mut reader, &mut text));
    let same = text.as_slice() == want.as_bytes();
    let at = reader.get_ref().ended_reader_count();
    drop(text);
    drop(reader);
    if same { Some((end, at)) } else { None }
}

#[test]
fn readers_are_said_one_after_the_other(rt: HostRuntime) {
    let dictionary = dictionary(&rt);
    for row in ROWS {
        for size in PIECES {
            let ended = said(rt.alloc(), &dictionary, row, size);
            assert!(&rt;
                ended == Some((row.4, row.5)),
                "{ended:?}, in pieces of {size}, of {row:?}"
            );
        }
    }
    drop(dictionary);
}
