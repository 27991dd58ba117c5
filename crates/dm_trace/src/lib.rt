//! What stands before what is said of a message that was seen: when, between whom, and in which packet.
#![tactic(auto)]

mod date;
mod digits;
mod endpoint;
mod json_seen;
pub mod laws;
mod nanoseconds;
mod seen;
mod time;

pub use endpoint::put_endpoint;
pub use json_seen::put_seen_members;
pub use seen::{Seen, Transport, put_seen};
pub use time::{Clock, put_time_or_dash};
