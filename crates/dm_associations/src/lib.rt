//! SCTP associations by their ends, held in the table of [`dm_connections`] as TCP connections are.
#![tactic(auto)]

mod association;
mod association_table;
mod exchange;
mod front_chunk;
pub mod laws;
mod message;
mod packet_effects;
mod way;

pub use association::Association;
pub use association_table::Associations;
pub use way::SctpWay;
