//! Messages out of a stream.
use crate::each::{each, each_made};
use crate::rows::{WATCHDOG, octets};
use dm_refusal::{
    End, Making, Subject, end_of_answered_call, end_of_repeated_call, refuse_nth_request,
    stop_refusing, was_request_larger_than, was_request_refused_and_stop, worse_end,
};
use dm_wire::{FrameFault, Framer};
use std::alloc::Global;
use std::process::Abort;

/// The greatest Message Length there is.
const GREATEST: u32 = 16777212;

/// How many messages `next` gives, and the fault behind them.
type Told = (u32, Option<FrameFault>);

fn told(framer: &mut Framer) -> Told {
    for count in 0..4u32 {
        match framer.next() {
            Ok(Some(_)) => {}
            Ok(None) => return (count, None),
            Err(fault) => return (count, Some(fault)),
        }
    }
    (4, None)
}

/// The same of a copy, so that the framer stays as it is.
fn told_by_copy(framer: &Framer) -> Option<Told> {
    match framer.copy() {
        Ok(mut copy) => Some(told(&mut copy)),
        Err(_) => None,
    }
}

/// A piece is fed with the nth request refused, and once more where memory was wanted.
fn feed(alloc: Global, framer: &mut Framer, piece: &[u8], nth: u32) -> End {
    let before = told_by_copy(framer);
    refuse_nth_request(alloc, nth);
    let fed = framer.feed(piece);
    let refused = was_request_refused_and_stop(alloc);
    match fed {
        Ok(()) => end_of_answered_call(refused, true),
        Err(FrameFault::NoMemory) => {
            let same = before.is_some() && told_by_copy(framer) == before;
            end_of_repeated_call(refused, same && framer.feed(piece).is_ok())
        }
        Err(_) => End::Fault,
    }
}

/// What `next` gives: nothing, the message, or something else.
#[derive(Clone, Copy, PartialEq, Eq)]
enum Given {
    Nothing,
    Row,
    Other,
}

fn look_at(answer: Result<Option<Vec<u8>>, FrameFault>, row: &[u8]) -> Given {
    match answer {
        Ok(None) => Given::Nothing,
        Ok(Some(message)) => {
            if message.as_slice() == row {
                Given::Row
            } else {
                Given::Other
            }
        }
        Err(_) => Given::Other,
    }
}

/// What `next` gives with the nth request refused, or once more where memory was wanted.
fn next(alloc: Global, framer: &mut Framer, row: &[u8], nth: u32) -> (End, Given) {
    let before = told_by_copy(framer);
    refuse_nth_request(alloc, nth);
    let first = framer.next();
    let refused = was_request_refused_and_stop(alloc);
    match first {
        Err(FrameFault::NoMemory) => {
            let same = before.is_some() && told_by_copy(framer) == before;
            let again = look_at(framer.next(), row);
            (
                end_of_repeated_call(refused, same && again != Given::Other),
                again,
            )
        }
        first => {
            let it = look_at(first, row);
            (end_of_answered_call(refused, it != Given::Other), it)
        }
    }
}

/// Takes out what is whole, and counts it.
fn drain(alloc: Global, framer: &mut Framer, row: &[u8], nth: u32, count: &mut u32) -> End {
    let mut end = End::Whole;
    for _ in 0..3u8 {
        let (one, it) = next(alloc, framer, row, nth);
        end = worse_end(end, one);
        if it != Given::Row {
            return end;
        }
        *count = count.saturating_add(1);
    }
    End::Changed
}

/// How two messages come in pieces of so many octets. Of each call the nth request is refused.
fn come(alloc: Global, twice: &[u8], row: &[u8], size: usize, nth: u32) -> End {
    let mut framer = Framer::new(alloc, GREATEST);
    let mut end = End::Whole;
    let mut count = 0u32;
    for piece in twice.chunks(size.max(1)) {
        end = worse_end(end, feed(alloc, &mut framer, piece, nth));
        end = worse_end(end, drain(alloc, &mut framer, row, nth, &mut count));
    }
    drop(framer);
    if count == 2 { end } else { End::Changed }
}

/// The message that stands twice in a row, and the size of the pieces.
#[derive(Clone, Copy)]
struct Stream<'a>(&'a [u8], &'a [u8], usize);

impl<R: AllocGlobal> Subject<R> for Stream<'_> {
    fn end_when_refused(&self, rt: &R, nth: u32) -> End {
        come(rt.alloc(), self.0, self.1, self.2, nth)
    }
}

fn twice(rt: &(impl Abort + AllocGlobal), row: &[u8]) -> Vec<u8> {
    let mut octets = Vec::from_slice(rt.alloc(), row).expect(rt, "memory");
    octets.extend_from_slice(row).expect(rt, "memory");
    octets
}

#[test]
fn streams(rt: HostRuntime) {
    let row = octets(&rt, WATCHDOG);
    let twice = twice(&rt, row.as_slice());
    let (twice, row) = (twice.as_slice(), row.as_slice());
    each(&rt, &Stream(twice, row, 1), "a stream by octets");
    each(&rt, &Stream(twice, row, 112), "a stream at once");
}

/// A framer that has so much of a message, and the rest of it.
#[derive(Clone, Copy)]
struct Copied<'a>(&'a Framer, &'a [u8], &'a [u8]);

impl Making for Copied<'_> {
    type Made = Framer;

    type Fault = FrameFault;

    fn call(&self, _alloc: Global) -> Result<Framer, FrameFault> {
        self.0.copy()
    }

    fn is_want_of_memory(&self, fault: &FrameFault) -> bool {
        *fault == FrameFault::NoMemory
    }

    fn is_as_expected(&self, _alloc: Global, made: &Framer) -> bool {
        match made.copy() {
            Ok(mut copy) => {
                let fed = copy.feed(self.1).is_ok() && copy.feed(self.2).is_ok();
                fed && told(&mut copy) == (2, None)
            }
            Err(_) => false,
        }
    }
}

#[test]
fn copies(rt: HostRuntime) {
    let row = octets(&rt, WATCHDOG);
    let (front, rest) = row.as_slice().split_at_checked(30).expect(&rt, "a front");
    let mut framer = Framer::new(rt.alloc(), GREATEST);
    assert!(&rt; framer.feed(front).is_ok());
    each_made(&rt, &Copied(&framer, rest, row.as_slice()), "Framer::copy");
    drop(framer);
}

/// How often the message comes out of a stream of so many of it, each in two pieces.
fn comes(framer: &mut Framer, row: &[u8], count: u32) -> u32 {
    let (front, rest) = row.split_at(row.len() / 3);
    let mut came = 0u32;
    for _ in 0..count {
        let fed = framer.feed(front).is_ok() && framer.feed(rest).is_ok();
        if fed && look_at(framer.next(), row) == Given::Row {
            came = came.saturating_add(1);
        }
    }
    came
}

/// A framer drops what it has handed out: ten thousand messages of 56 octets take no block of more than a thousand.
#[test]
fn a_long_stream_takes_little(rt: HostRuntime) {
    let row = octets(&rt, WATCHDOG);
    let mut framer = Framer::new(rt.alloc(), GREATEST);
    stop_refusing(rt.alloc());
    let came = comes(&mut framer, row.as_slice(), 10_000);
    let larger = was_request_larger_than(rt.alloc(), 1000);
    drop(framer);
    assert_eq!(&rt; came, 10_000);
    assert!(&rt; !larger);
}
