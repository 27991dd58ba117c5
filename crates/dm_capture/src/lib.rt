//! Packets out of the octets of a capture file: pcap, with microseconds or nanoseconds, and pcapng, each in either
//! order of octets.
#![tactic(auto)]

mod block;
mod buffer;
mod fault;
mod front_item;
mod interface;
pub mod laws;
mod options;
mod order;
mod packet;
mod packet_block;
mod pcap;
mod reader;
mod section;
mod stream;
mod time;

pub use fault::{CaptureFault, FaultKind};
pub use packet::Packet;
pub use reader::CaptureReader;
pub use stream::{StreamFault, next_packet};
pub use time::{Resolution, Time};
