//! The octets of Diameter messages and what they say: header, AVPs and messages (RFC 6733, 3 and 4.1).
#![tactic(auto)]

mod avp;
mod avp_and_header_octets;
mod avp_extent;
mod avp_places;
mod avp_ref;
mod avps_of_code;
mod avps_ref;
pub mod codes;
mod constructors;
mod decode;
mod encode;
mod fault;
mod first_avp_and_header;
pub mod laws;
mod letters;
mod listed;
mod message;
mod message_buf;
mod message_ref;
mod octets;
mod printing;
mod size;
mod walk;

pub use avp::{Avp, AvpList};
pub use avp_and_header_octets::{header_octets, push_avp};
pub use avp_ref::AvpRef;
pub use avps_of_code::AvpsOf;
pub use avps_ref::{AvpsRef, spells_avps};
pub use decode::decode_avps;
pub use dm_framer::{FrameFault, Framer};
pub use encode::encode_avps;
pub use fault::WireFault;
pub use first_avp_and_header::first_avp;
pub use letters::{avp_letters, header_letters};
pub use listed::Listed;
pub use message::{Header, Message};
pub use message_buf::MessageBuf;
pub use message_ref::MessageRef;
pub use octets::Octets;
pub use printing::{AvpFront, Data};
pub use walk::AvpWalk;
