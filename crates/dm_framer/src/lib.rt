//! Messages out of a stream of octets (RFC 6733, 3): where each begins and ends. What they say is left unread.
#![tactic(auto)]

mod buffer;
mod fault;
mod framer;
mod front;
pub mod laws;

pub use fault::FrameFault;
pub use framer::Framer;
pub use front::front_len;
