//! What of a capture is looked at.
use crate::filter::Filter;
use crate::times::Times;
use dm_connections::{Choice, Limits};

/// What of a capture is looked at, and how its times are said.
#[derive(Clone, Copy, Debug)]
pub struct Looks<'a> {
    /// Which connections are looked at.
    pub choice: Choice<'a>,
    /// How much may be held: by the connections of TCP, and as much by the associations of SCTP.
    pub limits: Limits,
    /// How times are said.
    pub times: Times,
    /// Which messages something is said of.
    pub filter: Filter<'a>,
}
