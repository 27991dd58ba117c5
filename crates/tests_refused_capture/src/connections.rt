//! Messages of the connections that are held.
use crate::each::each;
use dm_connections::{Choice, Connections, Ends};
use dm_flows::{Address, Endpoint, Segment};
use dm_refusal::{
    End, Subject, end_of_answered_call, end_of_repeated_call, refuse_nth_request,
    was_request_refused_and_stop, worse_end,
};
use std::alloc::Global;
use std::hash::RandomState;
use std::process::Abort;
use std::random::RandomSource;

/// A segment: whether the first end sends it, of which connection, its control bits, its number, and from where to
/// where its octets stand among those of ten messages.
type Row = (bool, u16, &'static str, u32, usize, usize);

/// Two connections: one from its begin, out of order and in pieces, the other from its middle.
const ROWS: [Row; 8] = [
    (true, 1, "S", 99, 0, 0),
    (true, 1, "", 120, 20, 45),
    (true, 1, "", 100, 0, 20),
    (false, 2, "", 7, 40, 60),
    (true, 1, "", 145, 45, 60),
    (false, 2, "", 27, 60, 75),
    (false, 2, "", 42, 75, 80),
    (true, 1, "F", 160, 60, 80),
];

/// The identifiers of the messages that are handed out, one behind the other.
const TOLD: u64 = 12_233;

const MESSAGE: usize = 20;

/// The octets of ten messages, each with its number as its Hop-by-Hop Identifier: Capabilities-Exchange-Requests
/// without AVPs.
fn fill(stream: &mut [u8; 200]) {
    for at in 0..10usize {
        let id = at as u8;
        let message = [
            1, 0, 0, 20, 128, 0, 1, 1, 0, 0, 0, 0, 0, 0, 0, id, 0, 0, 0, 9,
        ];
        stream[at * MESSAGE..at * MESSAGE + MESSAGE].copy_from_slice(&message);
    }
}

fn end(port: u16) -> Endpoint {
    Endpoint {
        address: Address::V4(0x0a00_0001),
        port,
    }
}

fn segment_of<'a>(row: &Row, stream: &'a [u8; 200]) -> Segment<'a> {
    let (forth, port, control, sequence, from, to) = *row;
    let payload = if from <= to && to <= stream.len() {
        &stream[from..to]
    } else {
        &stream[..0]
    };
    Segment {
        source: if forth { end(port) } else { end(3868) },
        destination: if forth { end(3868) } else { end(port) },
        sequence,
        syn: control.contains('S'),
        fin: control.contains('F'),
        rst: false,
        payload,
    }
}

/// The segment is taken with the nth request refused, and once more where memory was wanted.
fn take(
    alloc: Global,
    connections: &mut Connections,
    segment: Segment<'_>,
    nth: u32,
) -> (End, Option<Ends>) {
    let choice = Choice::Ports(&[3868]);
    refuse_nth_request(alloc, nth);
    let first = connections.take_if_held_or_wanted(choice, segment);
    let refused = was_request_refused_and_stop(alloc);
    match first {
        Ok(ends) => (end_of_answered_call(refused, true), ends),
        Err(_) => match connections.take_if_held_or_wanted(choice, segment) {
            Ok(ends) => (end_of_repeated_call(refused, true), ends),
            Err(_) => (End::Alone, None),
        },
    }
}

/// Counts a message, by its identifier.
fn count(message: Option<Vec<u8>>, told: &mut u64) -> bool {
    match message {
        Some(message) => {
            let id = message.get(15).copied().unwrap_or(9);
            drop(message);
            *told = told.saturating_mul(10).saturating_add(u64::from(id));
            true
        }
        None => false,
    }
}

/// The next message with the nth request refused, and once more where memory was wanted.
fn next(
    alloc: Global,
    connections: &mut Connections,
    ends: Ends,
    from_first: bool,
    nth: u32,
    told: &mut u64,
) -> (End, bool) {
    refuse_nth_request(alloc, nth);
    let first = connections.next_message_of(ends, from_first);
    let refused = was_request_refused_and_stop(alloc);
    match first {
        Ok(message) => (end_of_answered_call(refused, true), count(message, told)),
        Err(_) => match connections.next_message_of(ends, from_first) {
            Ok(message) => (end_of_repeated_call(refused, true), count(message, told)),
            Err(_) => (End::Alone, false),
        },
    }
}

/// All messages of a direction.
fn drain(
    alloc: Global,
    connections: &mut Connections,
    ends: Ends,
    from_first: bool,
    nth: u32,
    told: &mut u64,
) -> End {
    let mut end = End::Whole;
    for _ in 0..4u8 {
        let (one, more) = next(alloc, connections, ends, from_first, nth, told);
        end = worse_end(end, one);
        if !more {
            return end;
        }
    }
    End::Changed
}

/// How the segments come. Of each call the nth request is refused.
fn come(alloc: Global, connections: &mut Connections, rows: &[Row], nth: u32) -> End {
    let mut stream = [0u8; 200];
    fill(&mut stream);
    let mut end = End::Whole;
    let mut told = 0u64;
    for row in rows {
        let segment = segment_of(row, &stream);
        let (one, ends) = take(alloc, connections, segment, nth);
        end = worse_end(end, one);
        if let Some(ends) = ends {
            let is_first = ends.first == segment.source;
            end = worse_end(
                end,
                drain(alloc, connections, ends, is_first, nth, &mut told),
            );
        }
    }
    if told == TOLD { end } else { End::Changed }
}

/// Connections for messages of this length are told the segments, of each call the nth request refused.
#[derive(Clone, Copy)]
struct Segments<'a> {
    rows: &'a [Row],
    max: u32,
}

fn end_of(alloc: Global, keys: RandomState, segments: &Segments<'_>, nth: u32) -> End {
    match Connections::new(alloc, keys, segments.max) {
        Ok(mut connections) => {
            let end = come(alloc, &mut connections, segments.rows, nth);
            drop(connections);
            end
        }
        Err(_) => End::Alone,
    }
}

impl<R: AllocGlobal + RandomSource> Subject<R> for Segments<'_> {
    fn end_when_refused(&self, rt: &R, nth: u32) -> End {
        match RandomState::new(rt) {
            Ok(keys) => end_of(rt.alloc(), keys, self, nth),
            Err(_) => End::Fault,
        }
    }
}

fn assert_segments(rt: &(impl Abort + AllocGlobal + RandomSource), rows: &[Row]) {
    let segments = Segments { rows, max: 100_000 };
    each(rt, &segments, "messages of connections");
}

#[test]
fn messages_of_connections(rt: HostRuntime) {
    assert_segments(&rt, &ROWS);
}
