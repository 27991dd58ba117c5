//! What is said of the Diameter messages of a capture: read, said and written packet by packet.
#![tactic(auto)]

mod buffered_packets;
mod counts;
mod ending;
mod filter;
mod gathered_packets;
mod handed_messages;
mod let_go_connections;
mod looks;
mod lost;
mod packet_context;
mod run;
mod seen_front;
mod sent_and_unread;
mod speaker;
mod times;
mod trace_speaker;

pub use filter::{Filter, Wanted};
pub use looks::Looks;
pub use run::say_capture;
pub use seen_front::SeenFront;
pub use times::Times;
