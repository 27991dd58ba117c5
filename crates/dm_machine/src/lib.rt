//! The state machine of a Diameter peer (RFC 6733, 5.6) on kinds of events: one event is one row of the state table.
#![tactic(auto)]

mod connection;
mod inputs;
pub mod laws;
mod outputs;
mod peer_core;
mod phase;
mod printing;
mod state_name;
mod table;

pub use connection::Conn;
pub use inputs::{Input, Word};
pub use outputs::{Command, Commands, Refusal};
pub use peer_core::{Core, step};
pub use state_name::State;
