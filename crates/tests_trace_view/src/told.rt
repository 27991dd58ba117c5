//! What is said of a capture, in whatever pieces it is read.
use crate::packets::{Row, digits_of};
use dm_connections::{Choice, DIAMETER_PORT, Limits, MAX_CONNECTIONS, MAX_HELD};
use dm_dict::Dictionary;
use dm_trace_view::{Filter, Looks, Times, say_capture};
use dm_view_lines::{Style, Task};
use std::alloc::Global;
use std::hash::RandomState;
use std::io::BufReader;
use std::process::Abort;
use std::random::RandomSource;

const PORTS: [u16; 1] = [DIAMETER_PORT];

/// A limit that no test reaches.
pub const AMPLE: Limits = Limits {
    connections: MAX_CONNECTIONS,
    octets: MAX_HELD,
};

/// All messages.
pub const ALL: Filter<'static> = Filter {
    host: None,
    session: None,
    command: None,
    bad: false,
};

/// Connections of Diameter's port, under these limits.
pub fn looks(limits: Limits) -> Looks<'static> {
    Looks {
        choice: Choice::Ports(&PORTS),
        limits,
        times: Times::Utc,
        filter: ALL,
    }
}

/// What was written.
pub fn text_of(octets: &[u8]) -> &str {
    str::from_utf8(octets).unwrap_or("no text")
}

/// The octets that hexadecimal digits are, of packets and what is behind them.
pub fn octets_of(rt: &(impl Abort + AllocGlobal), rows: &[Row], behind: &str) -> Vec<u8> {
    let digits = digits_of(rt.alloc(), rows, behind).expect(rt, "memory");
    let octets = hex::decode(rt.alloc(), digits.as_str());
    drop(digits);
    octets.expect(rt, "octets")
}

/// Writes what is said of a capture that is read in pieces of this size.
fn said(
    alloc: Global,
    keys: RandomState,
    dictionary: &Dictionary,
    style: Style,
    looks: Looks<'_>,
    capture: (&[u8], usize),
    text: &mut Vec<u8>,
) -> Option<bool> {
    let (octets, size) = capture;
    let Ok(mut reader) = BufReader::with_capacity(alloc, size, octets) else {
        return None;
    };
    let said = say_capture(alloc, keys, dictionary, style, looks, &mut reader, text);
    drop(reader);
    said.ok()
}

/// In this style this is said of a capture of packets and what is behind them, in whatever pieces it is read; all is
/// good, or not.
pub fn assert_styled(
    rt: &(impl Abort + AllocGlobal + RandomSource),
    style: Style,
    looks: Looks<'_>,
    rows: &[Row],
    behind: &str,
    want: (&str, bool),
) {
    let dictionary = Dictionary::base(rt.alloc()).expect(rt, "memory");
    let octets = octets_of(rt, rows, behind);
    let mut text = Vec::new(rt.alloc());
    for size in [1, 7, 65_536] {
        text.clear();
        let keys = RandomState::new(rt).expect(rt, "keys");
        let good = said(
            rt.alloc(),
            keys,
            &dictionary,
            style,
            looks,
            (&octets, size),
            &mut text,
        );
        let told = text_of(&text);
        assert!(rt; told == want.0, "in pieces of {size}: {told}");
        assert!(rt; good == Some(want.1), "in pieces of {size}: {good:?}");
    }
    drop(text);
    drop(octets);
    drop(dictionary);
}

/// The same without colours.
pub fn assert_said(
    rt: &(impl Abort + AllocGlobal + RandomSource),
    task: Task,
    looks: Looks<'_>,
    rows: &[Row],
    behind: &str,
    want: (&str, bool),
) {
    let style = Style {
        task,
        coloured: false,
    };
    assert_styled(rt, style, looks, rows, behind, want);
}
