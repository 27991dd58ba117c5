//! The base messages of a Diameter peer (RFC 6733, 5.3 to 5.6 and 7): what kind of message one is, the messages that
//! a node builds, the applications that two sides have in common, and the order of their hosts.
#![tactic(auto)]

mod answers;
mod applications;
mod base_command;
mod base_fault;
mod caps_ref;
pub mod codes;
mod election_order;
mod extras;
mod extras_fault;
mod headers;
mod kind;
mod kind_ref;
pub mod laws;
mod limits;
mod lists;
mod message_kind;
mod message_kind_ref;
mod names;
mod node;
mod node_fault;
mod private_laws;
mod received_avps;
mod requests;
mod sender_ref;
mod senders;
mod sent_avps;
mod success;
mod vendor_application;

pub use answers::{cea, dpa, dwa, error_answer};
pub use applications::{common, common_nodes, secure};
pub use base_command::{BaseCommand, is_base_command};
pub use base_fault::BaseFault;
pub use caps_ref::CapsRef;
pub use election_order::{host_order, lower_octet};
pub use extras::Extras;
pub use extras_fault::ExtrasFault;
pub use kind::{Caps, Cause, Kind};
pub use kind_ref::KindRef;
pub use lists::{IdList, IpList};
pub use message_kind::classify;
pub use message_kind_ref::view;
pub use names::is_name;
pub use node::Node;
pub use node_fault::NodeFault;
pub use requests::{cer, dpr, dwr};
pub use sender_ref::SenderRef;
pub use senders::{disconnect_cause, sender};
pub use success::success_octets;
pub use vendor_application::{VendorApplication, VendorApplicationList};
