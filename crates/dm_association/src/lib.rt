//! Diameter messages out of the DATA chunks of one direction of an SCTP association.
#![tactic(auto)]

mod chunk_place;
mod fragment;
mod front_chunk;
pub mod laws;
mod marks;
mod message_around;
mod sctp_flow;
mod tsn_state;
mod tsn_window;
mod tsns;

pub use front_chunk::{Init, ends_association, read_init_or_ack};
pub use sctp_flow::SctpFlow;
