//! TCP segments, and SCTP packets with their DATA chunks, out of captured packets: what stands in front of them on
//! links and in IP packets; and the Diameter messages in the segments of both ends of a connection.
#![tactic(auto)]

mod address;
mod carried;
mod closing;
mod connection;
mod control_bits;
mod extensions;
mod flow;
mod header;
mod ip;
mod ipv4;
mod ipv6;
pub mod laws;
mod link;
mod network;
mod octet_slices;
mod passed;
mod sctp;
mod sctp_chunks;
pub mod sctp_laws;
mod segment;
mod slots;
mod tags;
mod window;

pub use address::{Address, Endpoint};
pub use closing::Closing;
pub use connection::Connection;
pub use flow::Flow;
pub use header::{begins_with_exchange_request, begins_with_whole_header};
pub use passed::Passed;
pub use sctp::{SctpPacket, sctp_packet_of};
pub use sctp_chunks::{DataChunk, DataChunks};
pub use segment::{Segment, segment_of};
pub use window::{WINDOW, Window, WindowFault};
