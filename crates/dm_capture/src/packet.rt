//! A packet that was captured.
ghost use Rattle.std.specs.Prelude.{◌≡◌, ◌≤◌, ◌+◌, length, IfOk};
ghost use Rattle.dm_capture.specs.Packets.{captured_of, packet_of};

use crate::time::Time;
use std::alloc::{AllocError, Global};

/// The greatest number of octets that a packet has captured.
pub(crate) const MOST_CAPTURED: usize = 262_144;

/// What a record says of its packet, and where in the record its octets stand.
#[derive(Clone, Copy, Debug)]
pub(crate) struct Record {
    pub(crate) link: u16,
    pub(crate) time: Option<Time>,
    pub(crate) original: u32,
    pub(crate) start: usize,
    pub(crate) captured: usize,
}

/// A packet.
#[derive(Debug, Drop)]
pub struct Packet {
    /// Its place among the packets of the file, from 1, 2^64 - 1 at most.
    pub number: u64,
    /// The type of link that its octets begin with, as the registry of link types has it.
    pub link: u16,
    /// When it was captured; a simple packet block doesn't say.
    pub time: Option<Time>,
    /// How many octets it had. The captured ones are fewer where it was cut.
    pub original: u32,
    /// The octets that were captured.
    pub octets: Vec<u8>,
}

/// The packet with a number that a record of these octets holds.
pub(crate) fn packet_of_record(
    alloc: Global,
    number: u64,
    stands: Record,
    octets: &[u8],
) -> Result<Packet, AllocError>
    requires { stands.start + stands.captured ≤ length octets.now }
    ensures { IfOk result (λ packet. captured_of packet ≡ packet_of number stands octets.now) }
{
    let end = stands.start + stands.captured;
    Ok(Packet {
        number,
        link: stands.link,
        time: stands.time,
        original: stands.original,
        octets: Vec::from_slice(alloc, &octets[stands.start..end])?,
    })
}
