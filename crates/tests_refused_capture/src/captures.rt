//! Packets out of a capture.
use crate::each::each;
use dm_capture::{CaptureFault, CaptureReader, FaultKind, Packet};
use dm_refusal::{
    End, Subject, end_of_answered_call, end_of_repeated_call, refuse_nth_request,
    was_request_refused_and_stop, worse_end,
};
use std::alloc::Global;

/// Two packets of pcap, the second one cut.
const PCAP: &str =
    "d4c3b2a1020004000000000000000000000004000100000000f153653f420f0004000000040000000102030401f1536500000000010000005a00000005";

/// A section with an interface and two packets of pcapng.
const PCAPNG: &str =
    "0a0d0d0a1c0000004d3c2b1a01000000ffffffffffffffff1c000000010000001400000001000000000000001400000006000000240000000000000000000000000000000400000004000000616263642400000006000000240000000000000000000000000000000300000003000000616263002400000000";

/// A piece is fed with the nth request refused, and once more where memory was wanted.
fn feed(alloc: Global, capture: &mut CaptureReader, piece: &[u8], nth: u32) -> End {
    refuse_nth_request(alloc, nth);
    let fed = capture.feed(piece);
    let refused = was_request_refused_and_stop(alloc);
    match fed {
        Ok(()) => end_of_answered_call(refused, true),
        Err(_) => end_of_repeated_call(refused, capture.feed(piece).is_ok()),
    }
}

/// What a packet adds to a sum: its number, and how many octets it has.
fn sum_of(packet: Packet) -> u64 {
    let found = packet
        .number
        .saturating_mul(1000)
        .saturating_add(packet.octets.len() as u64);
    drop(packet);
    found
}

/// What an answer adds, or how it ended.
fn counted(answer: Result<Option<Packet>, CaptureFault>, sum: &mut u64) -> Option<End> {
    match answer {
        Ok(Some(packet)) => {
            *sum = sum.saturating_add(sum_of(packet));
            None
        }
        Ok(None) => Some(End::Whole),
        Err(_) => Some(End::Fault),
    }
}

/// The next packet with the nth request refused, and once more where memory was wanted; how that ended, and whether it
/// was the last one there.
fn next(alloc: Global, capture: &mut CaptureReader, nth: u32, sum: &mut u64) -> (End, Option<End>) {
    refuse_nth_request(alloc, nth);
    let first = capture.next();
    let refused = was_request_refused_and_stop(alloc);
    match first {
        Err(fault) if fault.kind == FaultKind::OutOfMemory => {
            let last = counted(capture.next(), sum);
            (
                end_of_repeated_call(refused, last != Some(End::Fault)),
                last,
            )
        }
        first => (end_of_answered_call(refused, true), counted(first, sum)),
    }
}

/// All packets that are whole.
fn drain(alloc: Global, capture: &mut CaptureReader, nth: u32, sum: &mut u64) -> End {
    let mut end = End::Whole;
    for _ in 0..4u8 {
        let (one, last) = next(alloc, capture, nth, sum);
        end = worse_end(end, one);
        if let Some(last) = last {
            return worse_end(end, last);
        }
    }
    End::Changed
}

/// A capture, the size of the pieces in which it comes, and the sum of its packets.
#[derive(Clone, Copy)]
struct Row<'a> {
    octets: &'a [u8],
    size: usize,
    sum: u64,
}

fn end_of(alloc: Global, row: &Row<'_>, nth: u32) -> End {
    let mut capture = CaptureReader::new(alloc);
    let mut end = End::Whole;
    let mut sum = 0u64;
    for piece in row.octets.chunks(row.size.max(1)) {
        end = worse_end(end, feed(alloc, &mut capture, piece, nth));
        end = worse_end(end, drain(alloc, &mut capture, nth, &mut sum));
    }
    drop(capture);
    if sum == row.sum { end } else { End::Changed }
}

impl<R: AllocGlobal> Subject<R> for Row<'_> {
    fn end_when_refused(&self, rt: &R, nth: u32) -> End {
        end_of(rt.alloc(), self, nth)
    }
}

#[test]
fn packets_of_captures(rt: HostRuntime) {
    for (digits, sum) in [(PCAP, 3005u64), (PCAPNG, 3007)] {
        let octets = hex::decode(rt.alloc(), digits.as_bytes()).expect(&rt, "hexadecimal");
        for size in [1usize, 30, 4096] {
            let row = Row {
                octets: octets.as_slice(),
                size,
                sum,
            };
            each(&rt, &row, "packets of captures");
        }
        drop(octets);
    }
}
