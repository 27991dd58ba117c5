//! Messages out of a stream of octets.

use crate::wire::WATCHDOG_REQUEST;
use dm_wire::{FrameFault, Framer};
use std::alloc::{AllocError, Global};
use std::test::Fail;

/// The greatest Message Length there is.
const GREATEST: u32 = 16777212;

/// A header alone, the shortest message.
const HEADER: [u8; 20] = [1, 0, 0, 20, 0, 0, 0, 0, 0, 0, 0, 0, 0, 0, 0, 0, 0, 0, 0, 0];

/// Adds each whole message behind its number of octets.
fn push_whole(framer: &mut Framer, told: &mut Vec<u8>) -> Result<(), FrameFault> {
    for _ in 0..4u8 {
        let Some(message) = framer.next()? else {
            return Ok(());
        };
        let size = u8::try_from(message.len()).unwrap_or(0);
        told.extend_from_slice(&[size])?;
        told.extend_from_slice(message.as_slice())?;
    }
    Ok(())
}

/// The same after each of the pieces.
fn push_whole_by_pieces(
    framer: &mut Framer,
    pieces: &[&[u8]],
    told: &mut Vec<u8>,
) -> Result<(), FrameFault> {
    for piece in pieces {
        framer.feed(piece)?;
        push_whole(framer, told)?;
    }
    Ok(())
}

/// The same where of each piece no more is fed at once than the message at the front wants.
fn push_whole_by_fronts(
    framer: &mut Framer,
    pieces: &[&[u8]],
    told: &mut Vec<u8>,
) -> Result<(), FrameFault> {
    for piece in pieces {
        let mut rest = *piece;
        for _ in 0..4u8 {
            let size = framer.feed_front(rest)?;
            rest = &rest[size..];
            push_whole(framer, told)?;
        }
    }
    Ok(())
}

/// Whether the pieces give these messages.
fn give(alloc: Global, pieces: &[&[u8]], messages: &[u8]) -> bool {
    let mut framer = Framer::new(alloc, GREATEST);
    let mut told = Vec::new(alloc);
    let done = push_whole_by_pieces(&mut framer, pieces, &mut told);
    done.is_ok() && told.as_slice() == messages
}

/// The same where they are fed by fronts.
fn give_by_fronts(alloc: Global, pieces: &[&[u8]], messages: &[u8]) -> bool {
    let mut framer = Framer::new(alloc, GREATEST);
    let mut told = Vec::new(alloc);
    let done = push_whole_by_fronts(&mut framer, pieces, &mut told);
    done.is_ok() && told.as_slice() == messages
}

fn push_pieces(octets: &mut Vec<u8>, pieces: &[&[u8]]) -> Result<(), AllocError> {
    for piece in pieces {
        octets.extend_from_slice(piece)?;
    }
    Ok(())
}

fn joined(alloc: Global, pieces: &[&[u8]]) -> Result<Vec<u8>, AllocError> {
    let mut octets = Vec::new(alloc);
    let done = push_pieces(&mut octets, pieces);
    done.and(Ok(octets))
}

/// Whether the octets, cut at two places, give these messages wherever the cuts are.
fn give_cut_anywhere(alloc: Global, octets: &[u8], messages: &[u8]) -> bool {
    for first in 0..octets.len() {
        let (front, back) = octets.split_at(first);
        for second in 0..back.len() {
            let (middle, end) = back.split_at(second);
            let pieces = [front, middle, end];
            if !give(alloc, &pieces, messages) || !give_by_fronts(alloc, &pieces, messages) {
                return false;
            }
        }
    }
    true
}

fn cut_anywhere(alloc: Global) -> Result<bool, AllocError> {
    let request = WATCHDOG_REQUEST.as_slice();
    let header = HEADER.as_slice();
    let octets = joined(alloc, &[request, header, request])?;
    let messages = joined(alloc, &[&[56], request, &[20], header, &[56], request])?;
    Ok(give_cut_anywhere(alloc, octets.as_slice(), messages.as_slice()))
}

#[test]
fn three_messages_cut_anywhere(rt: HostRuntime) {
    assert!(rt; cut_anywhere(rt.alloc()) == Ok(true));
}

/// How many Device-Watchdog-Requests come when the octets are fed one by one.
fn requests_by_octets(framer: &mut Framer, octets: &[u8]) -> Result<usize, FrameFault> {
    let mut count = 0usize;
    for octet in octets {
        framer.feed(&[*octet])?;
        if let Some(message) = framer.next()? {
            let is_request = message.as_slice() == WATCHDOG_REQUEST.as_slice();
            count = count.saturating_add(usize::from(is_request));
        }
    }
    Ok(count)
}

/// How many come of two requests, the framer copied after 30 octets and the copy fed the other 82.
fn requests_with_copy(alloc: Global) -> Result<usize, FrameFault> {
    let request = WATCHDOG_REQUEST.as_slice();
    let mut framer = Framer::new(alloc, GREATEST);
    let before = requests_by_octets(&mut framer, &request[..30])?;
    let mut copy = framer.copy()?;
    let first = requests_by_octets(&mut copy, &request[30..])?;
    let second = requests_by_octets(&mut copy, request)?;
    Ok(before.saturating_add(first).saturating_add(second))
}

#[test]
fn one_octet_at_a_time_in_a_copy_too(rt: HostRuntime) {
    assert!(rt; requests_with_copy(rt.alloc()) == Ok(2));
}

/// What `next` answers twice and then `feed`, after the octets were fed.
fn answers(alloc: Global, max: u32, octets: &[u8]) -> Option<[FrameFault; 3]> {
    let mut framer = Framer::new(alloc, max);
    framer.feed(octets).ok()?;
    let first = framer.next().err()?;
    let second = framer.next().err()?;
    let third = framer.feed(octets).err()?;
    Some([first, second, third])
}

#[test]
fn faults_are_kept(rt: HostRuntime) {
    let table = [
        (GREATEST, [2].as_slice(), FrameFault::BadVersion),
        (GREATEST, [1, 0, 0, 0x13].as_slice(), FrameFault::BadLength),
        (GREATEST, [1, 0, 0, 0x10].as_slice(), FrameFault::BadLength),
        (GREATEST, [1, 0, 0, 0x15].as_slice(), FrameFault::BadLength),
        (52, [1, 0, 0, 0x38].as_slice(), FrameFault::TooLong),
    ];
    for (max, octets, fault) in table {
        assert!(rt; answers(rt.alloc(), max, octets) == Some([fault, fault, fault]));
    }
}

/// Whether a whole message before a fault is handed out first.
fn hands_out_before_fault(alloc: Global) -> Result<bool, FrameFault> {
    let mut framer = Framer::new(alloc, 20);
    framer.feed(&HEADER)?;
    framer.feed(&[2])?;
    let is_first = framer.next()?.is_some();
    Ok(is_first && framer.next().err() == Some(FrameFault::BadVersion))
}

#[test]
fn message_before_fault(rt: HostRuntime) -> Result<(), Fail> {
    assert!(rt; hands_out_before_fault(rt.alloc()) == Ok(true));
    Ok(())
}

/// Two headers, the first of which stands whole at 20.
const TWO_HEADERS: [u8; 40] = [
    1, 0, 0, 20, 0, 0, 0, 0, 0, 0, 0, 0, 0, 0, 0, 0, 0, 0, 0, 0, //
    1, 0, 0, 20, 0, 0, 0, 0, 0, 0, 0, 0, 0, 0, 0, 0, 0, 0, 0, 0,
];

/// Of two headers: how many octets are held, where the piece behind them ends, and how many of it the front wants.
const FRONTS: [(usize, usize, usize); 9] = [
    // no octet, and a header that isn't told or isn't whole: all
    (0, 0, 0),
    (0, 3, 3),
    (0, 19, 19),
    (4, 19, 15),
    // the end of a message, and the front of the next behind it
    (0, 20, 20),
    (0, 22, 20),
    (2, 23, 18),
    (19, 40, 1),
    // a message that is whole: none
    (20, 40, 0),
];

/// How many octets the front wants, and how many are held when they were taken back.
fn fed_and_back(framer: &mut Framer, held: &[u8], piece: &[u8]) -> Option<(usize, usize)> {
    framer.feed(held).ok()?;
    let size = framer.feed_front(piece).ok()?;
    framer.take_back(size);
    Some((size, framer.len()))
}

/// Whether a message stands at the front behind these octets.
fn hands_out(framer: &mut Framer, octets: &[u8]) -> Result<bool, FrameFault> {
    framer.feed(octets)?;
    Ok(framer.next()?.is_some())
}

/// Whether a row holds, and a message is handed out when all that is behind the octets held is fed.
fn is_front(alloc: Global, row: (usize, usize, usize)) -> bool {
    let (held, end, wanted) = row;
    let (front, behind) = TWO_HEADERS.as_slice().split_at(held.min(40));
    let piece = &behind[..end.saturating_sub(held).min(behind.len())];
    let mut framer = Framer::new(alloc, GREATEST);
    let done = fed_and_back(&mut framer, front, piece);
    done == Some((wanted, held)) && hands_out(&mut framer, behind) == Ok(true)
}

/// Whether all rows hold.
fn are_fronts(alloc: Global, rows: &[(usize, usize, usize)]) -> bool {
    for row in rows {
        if !is_front(alloc, *row) {
            return false;
        }
    }
    true
}

#[test]
fn fronts_of_pieces(rt: HostRuntime) {
    assert!(rt; are_fronts(rt.alloc(), &FRONTS));
}

/// How many octets are fed where a fault stands at the front, and whether it is forgotten when they were taken back.
fn fault_taken_back(alloc: Global) -> Result<(usize, bool), FrameFault> {
    let mut framer = Framer::new(alloc, GREATEST);
    let size = framer.feed_front(&[2, 0, 0, 20, 0])?;
    let is_fault = framer.next().err() == Some(FrameFault::BadVersion);
    framer.take_back(9);
    Ok((size, is_fault && hands_out(&mut framer, &HEADER)?))
}

#[test]
fn fault_is_taken_back(rt: HostRuntime) {
    assert!(rt; fault_taken_back(rt.alloc()) == Ok((5, true)));
}
