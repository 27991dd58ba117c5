//! Messages of an association.
use crate::each::each;
use dm_association::SctpFlow;
use dm_flows::DataChunk;
use dm_refusal::{
    End, Subject, end_of_answered_call, end_of_repeated_call, refuse_nth_request,
    was_request_refused_and_stop, worse_end,
};
use std::alloc::Global;
use std::process::Abort;

/// A chunk: its TSN, its B and E bits, and its octets.
type Chunk = (u32, bool, bool, &'static str);

/// Whole ones, fragments in their order and out of it, and one that comes again.
const CHUNKS: [Chunk; 7] = [
    (10, true, true, "abc"),
    (12, false, true, "de"),
    (11, true, false, "f"),
    (13, true, false, "g"),
    (15, false, true, "h"),
    (14, false, false, "ij"),
    (14, false, false, "ij"),
];

/// How many octets their messages have.
const OCTETS: u64 = 10;

fn chunk_of(chunk: &Chunk) -> DataChunk<'static> {
    DataChunk {
        unordered: false,
        beginning: chunk.1,
        ending: chunk.2,
        tsn: chunk.0,
        stream: 0,
        sequence: 0,
        payload_protocol: 46,
        user_data: chunk.3.as_bytes(),
    }
}

/// How many octets a message has.
fn length_of(message: Option<Vec<u8>>) -> u64 {
    match message {
        Some(message) => {
            let length = message.len() as u64;
            drop(message);
            length
        }
        None => 0,
    }
}

/// A chunk is taken with the nth request refused, and once more where memory was wanted.
fn take(alloc: Global, flow: &mut SctpFlow, chunk: &Chunk, nth: u32, sum: &mut u64) -> End {
    refuse_nth_request(alloc, nth);
    let first = flow.take_chunk(chunk_of(chunk));
    let refused = was_request_refused_and_stop(alloc);
    match first {
        Ok(message) => {
            *sum = sum.saturating_add(length_of(message));
            end_of_answered_call(refused, true)
        }
        Err(_) => match flow.take_chunk(chunk_of(chunk)) {
            Ok(message) => {
                *sum = sum.saturating_add(length_of(message));
                end_of_repeated_call(refused, true)
            }
            Err(_) => End::Alone,
        },
    }
}

/// The chunks of a direction that begins with an INIT, or in its middle.
#[derive(Clone, Copy)]
struct Row<'a> {
    chunks: &'a [Chunk],
    is_begun: bool,
}

fn end_of(alloc: Global, row: &Row<'_>, nth: u32) -> End {
    let mut flow = SctpFlow::new(alloc);
    if row.is_begun {
        flow.begin_association(10);
    }
    let mut end = End::Whole;
    let mut sum = 0u64;
    for chunk in row.chunks {
        end = worse_end(end, take(alloc, &mut flow, chunk, nth, &mut sum));
    }
    drop(flow);
    if sum == OCTETS { end } else { End::Changed }
}

impl<R: AllocGlobal> Subject<R> for Row<'_> {
    fn end_when_refused(&self, rt: &R, nth: u32) -> End {
        end_of(rt.alloc(), self, nth)
    }
}

fn assert_chunks(rt: &(impl Abort + AllocGlobal), chunks: &[Chunk]) {
    for is_begun in [true, false] {
        let row = Row { chunks, is_begun };
        each(rt, &row, "messages of an association");
    }
}

#[test]
fn messages_of_an_association(rt: HostRuntime) {
    assert_chunks(&rt, &CHUNKS);
}
