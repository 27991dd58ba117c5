//! What is told of a packet: its ends and tag, and a line for each DATA chunk; or what it is instead.
use crate::told::{letter, put_endpoint, put_passed};
use dm_flows::{DataChunk, DataChunks, SctpPacket, sctp_packet_of};
use std::alloc::{AllocError, Global};
use std::process::Abort;

fn put_chunk(alloc: Global, text: &mut String, chunk: DataChunk<'_>) -> Result<(), AllocError> {
    text.push_str("\n")?;
    text.push_str(letter(chunk.unordered, "U"))?;
    text.push_str(letter(chunk.beginning, "B"))?;
    text.push_str(letter(chunk.ending, "E"))?;
    text.push_str(format!(in alloc; " {} {} ", chunk.tsn, chunk.stream)?.as_str())?;
    text.push_str(format!(in alloc; "{} {} ", chunk.sequence, chunk.payload_protocol)?.as_str())?;
    for octet in chunk.user_data {
        text.push_str(format!(in alloc; "{:02x}", *octet)?.as_str())?;
    }
    Ok(())
}

fn put_packet(alloc: Global, text: &mut String, packet: SctpPacket<'_>) -> Result<(), AllocError> {
    put_endpoint(alloc, text, packet.source)?;
    text.push_str(" > ")?;
    put_endpoint(alloc, text, packet.destination)?;
    text.push_str(format!(in alloc; " {}", packet.verification_tag)?.as_str())?;
    for chunk in DataChunks::new(packet.chunks) {
        put_chunk(alloc, text, chunk)?;
    }
    Ok(())
}

/// What is told of the packet that the hexadecimal digits are.
fn told_sctp(alloc: Global, link: u16, digits: &str) -> Option<String> {
    let Ok(octets) = hex::decode(alloc, digits) else {
        return None;
    };
    let mut text = String::new(alloc);
    let put = match sctp_packet_of(link, &octets) {
        Ok(packet) => put_packet(alloc, &mut text, packet),
        Err(passed) => put_passed(alloc, &mut text, passed),
    };
    drop(octets);
    match put {
        Ok(()) => Some(text),
        Err(_) => None,
    }
}

/// This is told of each packet.
pub fn assert_sctp_rows(rt: &(impl Abort + AllocGlobal), rows: &[(u16, &str, &str)]) {
    for (link, digits, want) in rows {
        let text = told_sctp(rt.alloc(), *link, digits).expect(rt, "what is told");
        assert!(rt; text.as_str() == *want, "{link} {digits}: {text}");
        drop(text);
    }
}
