//! A Diameter peer over octets (RFC 6733, 5.3 to 5.6): an event is read, takes one row of the state table, and gives
//! what is to be sent, closed and handed up.
#![tactic(auto)]

mod actions;
mod arrivals;
mod command_actions;
mod config;
mod events;
mod fault;
mod heard_message;
mod kept_peer;
pub mod laws;
mod message;
mod next_standing;
mod peer;
mod requests;
mod sending;
mod shared;
mod standing;
mod steps;

pub use actions::{Action, Actions};
pub use config::{Config, is_same_host};
pub use dm_base::{Cause, Node};
pub use dm_machine::{Command, Commands, Conn, Core, Input, Refusal, State, Word, step};
pub use events::Event;
pub use fault::{ConfigFault, PeerFault};
pub use message::{read_message, sent_octets};
pub use peer::Peer;
