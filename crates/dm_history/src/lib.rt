//! What has happened to one peer, whatever the other side is: how it was opened, what it hands up and sends, and that a
//! Close is its last.
#![tactic(auto)]

pub mod calls;
pub mod laws;
pub mod running;
