//! Connections by their ends: each takes what both ends send, and the one that was idle longest can be let go. TCP's
//! are those of [`dm_flows`]; [`TwoWay`] and [`Takes`] say what others have to be.
#![tactic(auto)]

mod choice;
mod connections;
mod ends;
mod limits;
mod octet_sum;
mod table_traits;
mod tcp;

pub use choice::{Choice, DIAMETER_PORT};
pub use connections::{Connections, LetGo};
pub use ends::Ends;
pub use limits::{Limits, MAX_CONNECTIONS, MAX_HELD};
pub use table_traits::{Takes, TwoWay};
