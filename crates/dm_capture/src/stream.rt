//! The packets of a capture that a reader gives.
ghost use Rattle.std.specs.Prelude.{◌≡◌, false, None, IfOk, IfErr, IfSome};
ghost use Rattle.dm_capture.specs.Streams.{HandsFrom, AnswersAgain, EndsAs, FeedsPiece, FeedsNone, IsNoneRead};

use crate::fault::{CaptureFault, FaultKind};
use crate::packet::Packet;
use crate::reader::CaptureReader;
use std::io::{BufRead, Error, ErrorKind};

/// Why a capture that is read gives no further packet.
#[derive(Clone, Copy, Debug, PartialEq, Eq)]
pub enum StreamFault {
    /// The capture has a fault, or ends inside a record, or memory is wanted.
    Capture(CaptureFault),
    /// The reader failed.
    Unreadable,
}

/// The next packet of the capture that a reader gives; `None` where it ends whole.
///
/// What the reader has at hand is taken and no more, so that a capture is followed while it grows. Where the capture
/// ends inside a record, or is none, the fault says so. Behind `Unreadable`, and where memory is wanted, nothing that
/// was read is lost, and a further call goes on. An interrupted read is made again.
pub fn next_packet<R: BufRead>(
    reader: &mut R,
    capture: &mut CaptureReader,
) -> Result<Option<Packet>, StreamFault>
    // What is handed out, or why nothing is, and what is left.
    ensures hands { capture.old.fault ≡ None → HandsFrom capture.old (R.remaining reader.old)
        capture.new (R.remaining reader.new) result }
    // A kept fault is answered again, and nothing is read.
    ensures kept { IfSome capture.old.fault (λ fault. AnswersAgain fault capture.old capture.new
        (R.remaining reader.old) (R.remaining reader.new) result) }
{
    match capture.kept_fault() {
        Some(fault) => Err(StreamFault::Capture(fault)),
        None => next_packet_without_kept_fault(reader, capture),
    }
}

/// The next packet, where no fault is kept.
fn next_packet_without_kept_fault<R: BufRead>(
    reader: &mut R,
    capture: &mut CaptureReader,
) -> Result<Option<Packet>, StreamFault>
    requires { capture.old.fault ≡ None }
    ensures { HandsFrom capture.old (R.remaining reader.old) capture.new (R.remaining reader.new) result }
{
    'piece: for _ in 0..u64::MAX {
        match capture.next() {
            Ok(Some(packet)) => return Ok(Some(packet)),
            Ok(None) => (),
            Err(fault) => return Err(StreamFault::Capture(fault)),
        }
        if is_reader_ended_else_feed(reader, capture)? {
            return none_or_fault_at_end(capture);
        }
    }
    Err(StreamFault::Unreadable)
}

/// What is answered where the file ends: None where it ends whole, else what is wrong.
fn none_or_fault_at_end(capture: &CaptureReader) -> Result<Option<Packet>, StreamFault>
    ensures { EndsAs capture.now result }
{
    match capture.check_whole_file_was_read() {
        Ok(()) => Ok(None),
        Err(fault) => Err(StreamFault::Capture(fault)),
    }
}

/// Whether the reader has nothing left; else it feeds the capture what the reader has at hand.
fn is_reader_ended_else_feed<R: BufRead>(
    reader: &mut R,
    capture: &mut CaptureReader,
) -> Result<bool, StreamFault>
    ensures fed { IfOk result (FeedsPiece (R.remaining reader.old) (R.remaining reader.new)
        capture.old capture.new) }
    ensures none { IfErr result (FeedsNone (R.remaining reader.old) (R.remaining reader.new)
        capture.old capture.new) }
{
    let octets = match reader.fill_buf() {
        Ok(octets) => octets,
        Err(error) => return false_if_interrupted_else_fault(capture, error),
    };
    let size = octets.len();
    if capture.feed(octets).is_err() {
        return Err(StreamFault::Capture(capture.fault_with_front_place(FaultKind::OutOfMemory)));
    }
    reader.consume(size);
    Ok(size == 0)
}

/// What is answered where a read fails: false where it was interrupted, so that it is made again, else the fault.
fn false_if_interrupted_else_fault(
    capture: &CaptureReader,
    error: Error,
) -> Result<bool, StreamFault>
    ensures again { IfOk result (λ done. done ≡ false) }
    ensures none { IfErr result (IsNoneRead capture.now) }
{
    match error.kind() {
        ErrorKind::Interrupted => Ok(false),
        ErrorKind::OutOfMemory => Err(StreamFault::Capture(capture.fault_with_front_place(
            FaultKind::OutOfMemory,
        ))),
        _ => Err(StreamFault::Unreadable),
    }
}
