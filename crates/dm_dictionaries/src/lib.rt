//! The right dictionary for each application: a command may have one rule in one application and another in the next
//! (RFC 6733, 2.4 and 3), so a node that serves several judges each message by the dictionary of its Application-ID.
#![tactic(auto)]

mod dictionaries;
pub mod laws;

pub use dictionaries::Dictionaries;
