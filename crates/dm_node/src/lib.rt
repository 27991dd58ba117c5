//! A node of one neighbour or of many, with its connections (RFC 6733, 5.6): each event goes to the one neighbour that
//! it concerns, and does there what it does to a peer of its own.
#![tactic(auto)]

mod acquaintances;
mod alone;
mod answer;
mod calling;
mod concerned_neighbour;
mod connection_of_open_peer;
mod counting;
mod events;
mod fault;
mod hearing;
mod hosts;
pub mod laws;
mod meeting;
mod membership;
mod neighbours;
mod newcomer;
mod node;
mod offered_config;
mod one_told;
mod order;
mod owners;
mod peer_by_number;
mod removal_and_reset;
mod reserved_place;
mod settling;
mod stranger_events;
mod strangers;
mod taken_orders;
mod telling;

pub use alone::Alone;
pub use answer::{Answer, Told};
pub use dm_peer::{Action, Actions, Cause, Config, Conn, Peer, PeerFault};
pub use dm_slots::Acquaintance;
pub use events::NodeEvent;
pub use fault::{AddFault, OrderFault};
pub use node::Node;
pub use order::Order;
pub use strangers::{Open, Strangers};
