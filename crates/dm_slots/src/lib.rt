//! Connections by number, each with what came on it and wasn't told yet, and whom a peer met (RFC 6733, 5.6).
#![tactic(auto)]

mod acquaintance;
mod intake;
pub mod laws;
mod slots;

pub use acquaintance::{Acquaintance, is_exchange_before_open};
pub use dm_peer::{Action, Conn};
pub use intake::Front;
pub use slots::{Arrival, Slots};
