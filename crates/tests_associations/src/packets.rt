//! Packets as the octets behind their common header.
use dm_flows::{Address, Endpoint, SctpPacket};
use std::alloc::{AllocError, Global};

/// The chunks of a packet.
#[derive(Clone, Copy)]
pub(crate) enum Chunks {
    /// An INIT: its Initiate Tag and its Initial TSN.
    Init(u32, u32),
    /// An INIT ACK: the same of the other end.
    InitAck(u32, u32),
    /// An ABORT, and its T bit.
    Abort(u8),
    /// A SHUTDOWN COMPLETE, and its T bit.
    Complete(u8),
    /// A DATA chunk: its TSN, B and E bits, Payload Protocol Identifier and user data.
    Data(u32, &'static str, u32, &'static str),
    /// Two whole messages of Diameter, with this TSN and the next.
    Two(u32, &'static str, &'static str),
    /// A DATA chunk whose user data are a Capabilities-Exchange-Request without AVPs: its TSN, bits and protocol.
    Exchange(u32, &'static str, u32),
}

pub(crate) const EXCHANGE: [u8; 20] = [
    1, 0, 0, 20, 128, 0, 1, 1, 0, 0, 0, 0, 0, 0, 0, 1, 0, 0, 0, 9,
];

fn push_init(octets: &mut Vec<u8>, kind: u8, tag: u32, tsn: u32) -> Result<(), AllocError> {
    octets.extend_from_slice(&[kind, 0, 0, 20])?;
    octets.extend_from_slice(&tag.to_be_bytes())?;
    octets.extend_from_slice(&[0, 1, 0, 0, 0, 2, 0, 2])?;
    octets.extend_from_slice(&tsn.to_be_bytes())
}

fn bits_of(bits: &str) -> u8 {
    let beginning = if bits.contains('B') { 2 } else { 0 };
    if bits.contains('E') {
        beginning + 1
    } else {
        beginning
    }
}

fn push_data(
    octets: &mut Vec<u8>,
    tsn: u32,
    bits: &str,
    protocol: u32,
    user_data: &[u8],
) -> Result<(), AllocError> {
    let len = user_data.len() % 200;
    octets.extend_from_slice(&[0, bits_of(bits), 0, (len + 16) as u8])?;
    octets.extend_from_slice(&tsn.to_be_bytes())?;
    octets.extend_from_slice(&[0, 1, 0, 0])?;
    octets.extend_from_slice(&protocol.to_be_bytes())?;
    octets.extend_from_slice(&user_data[..len])?;
    for _ in 0..(4 - len % 4) % 4 {
        octets.push(0)?;
    }
    Ok(())
}

/// The octets of the chunks.
pub(crate) fn octets_of(alloc: Global, chunks: Chunks) -> Result<Vec<u8>, AllocError> {
    let mut octets = Vec::new(alloc);
    match chunks {
        Chunks::Init(tag, tsn) => push_init(&mut octets, 1, tag, tsn)?,
        Chunks::InitAck(tag, tsn) => push_init(&mut octets, 2, tag, tsn)?,
        Chunks::Abort(bit) => octets.extend_from_slice(&[6, bit, 0, 4])?,
        Chunks::Complete(bit) => octets.extend_from_slice(&[14, bit, 0, 4])?,
        Chunks::Data(tsn, bits, protocol, text) => {
            push_data(&mut octets, tsn, bits, protocol, text.as_bytes())?;
        }
        Chunks::Two(tsn, one, other) => {
            push_data(&mut octets, tsn, "BE", 46, one.as_bytes())?;
            push_data(&mut octets, tsn.wrapping_add(1), "BE", 46, other.as_bytes())?;
        }
        Chunks::Exchange(tsn, bits, protocol) => {
            push_data(&mut octets, tsn, bits, protocol, &EXCHANGE)?;
        }
    }
    Ok(octets)
}

pub(crate) fn end(port: u16) -> Endpoint {
    Endpoint {
        address: Address::V4(0x0a00_0001),
        port,
    }
}

/// A packet from this port to that one, with this Verification Tag.
pub(crate) fn packet_of(from: u16, to: u16, tag: u32, chunks: &[u8]) -> SctpPacket<'_> {
    SctpPacket {
        source: end(from),
        destination: end(to),
        verification_tag: tag,
        chunks,
    }
}
