//! Two peers and the links between them: whatever happens to them, in whatever order, they agree on what is open.
#![tactic(auto)]

mod acks_and_restarts;
mod agreement;
mod applying;
mod delivering;
mod direction;
mod events_on_links;
mod fault;
mod happening;
pub mod laws;
mod link;
mod links;
mod made_ends;
mod net;
mod pair;
mod rooms;
mod running;
mod side;
mod starts_and_timeouts;
mod world;

pub use dm_peer::{Cause, Config, Conn, Node, Peer};
pub use fault::{Effect, NewFault, WorldFault};
pub use happening::Happening;
pub use side::Side;
pub use world::World;
