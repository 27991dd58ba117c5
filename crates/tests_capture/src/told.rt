//! What is told of a capture: a line for each packet, and how it ends.
use dm_capture::{CaptureFault, CaptureReader, Packet, StreamFault, Time, next_packet};
use std::alloc::{AllocError, Global};
use std::io::{BufRead, BufReader};
use std::process::Abort;

/// Appends a packet's line: its number, link, time, original length and octets.
fn put_packet(alloc: Global, text: &mut String, packet: &Packet) -> Result<(), AllocError> {
    text.push_str(format!(in alloc; "{} {} ", packet.number, packet.link)?.as_str())?;
    match packet.time {
        Some(time) => put_time(alloc, text, time)?,
        None => text.push_str("none")?,
    }
    text.push_str(format!(in alloc; " {} ", packet.original)?.as_str())?;
    for octet in &packet.octets {
        text.push_str(format!(in alloc; "{:02x}", *octet)?.as_str())?;
    }
    text.push_str("\n")
}

fn put_time(alloc: Global, text: &mut String, time: Time) -> Result<(), AllocError> {
    let line = format!(in alloc; "{} {} {:?}", time.seconds, time.fraction, time.resolution)?;
    text.push_str(line.as_str())
}

fn put_fault(alloc: Global, text: &mut String, fault: CaptureFault) -> Result<(), AllocError> {
    text.push_str(format!(in alloc; "{} {:?}\n", fault.offset, fault.kind)?.as_str())
}

/// Appends the lines of the packets that are whole, and answers whether a fault came.
fn put_packets(
    alloc: Global,
    text: &mut String,
    reader: &mut CaptureReader,
) -> Result<bool, AllocError> {
    for _ in 0..1000 {
        match reader.next() {
            Ok(Some(packet)) => put_packet(alloc, text, &packet)?,
            Ok(None) => return Ok(false),
            Err(fault) => {
                put_fault(alloc, text, fault)?;
                return Ok(true);
            }
        }
    }
    Ok(true)
}

/// What is told of a capture that is fed in pieces of so many octets.
fn told(alloc: Global, octets: &[u8], piece: usize) -> Result<String, AllocError> {
    let mut text = String::new(alloc);
    let mut reader = CaptureReader::new(alloc);
    let mut rest = octets;
    for _ in 0..=octets.len() {
        let (front, more) = rest.split_at(piece.min(rest.len()));
        reader.feed(front)?;
        if put_packets(alloc, &mut text, &mut reader)? {
            return Ok(text);
        }
        if more.is_empty() {
            break;
        }
        rest = more;
    }
    match reader.check_whole_file_was_read() {
        Ok(()) => text.push_str("whole\n")?,
        Err(fault) => put_fault(alloc, &mut text, fault)?,
    }
    Ok(text)
}

/// What is told of a capture that a reader gives: the packets, a line for each time that it fails, and the end.
pub fn read_told<R: BufRead>(alloc: Global, reader: &mut R) -> Result<String, AllocError> {
    let mut text = String::new(alloc);
    let mut capture = CaptureReader::new(alloc);
    for _ in 0..1000 {
        match next_packet(reader, &mut capture) {
            Ok(Some(packet)) => put_packet(alloc, &mut text, &packet)?,
            Ok(None) => {
                text.push_str("whole\n")?;
                break;
            }
            Err(StreamFault::Unreadable) => text.push_str("unreadable\n")?,
            Err(StreamFault::Capture(fault)) => {
                put_fault(alloc, &mut text, fault)?;
                break;
            }
        }
    }
    drop(capture);
    Ok(text)
}

/// Whether this is told of a capture that is read in pieces of so many octets.
fn is_read_told(alloc: Global, octets: &[u8], piece: usize, want: &str) -> Option<bool> {
    let Ok(mut reader) = BufReader::with_capacity(alloc, piece, octets) else {
        return None;
    };
    let text = read_told(alloc, &mut reader);
    drop(reader);
    match text {
        Ok(text) => Some(text.as_str() == want),
        Err(_) => None,
    }
}

/// Of the capture that the hexadecimal digits are this is told, however it is fed.
pub fn assert_told(rt: &(impl Abort + AllocGlobal), digits: &str, want: &str) {
    let octets = hex::decode(rt.alloc(), digits).expect(rt, "octets");
    for piece in [1, 7, 100_000] {
        let text = told(rt.alloc(), &octets, piece).expect(rt, "memory");
        assert!(rt; text.as_str() == want, "in pieces of {piece}: {text}");
        drop(text);
        let read = is_read_told(rt.alloc(), &octets, piece, want);
        assert!(rt; read == Some(true), "read in pieces of {piece}");
    }
    drop(octets);
}
