//! Verdicts: what a dictionary says of a message, with a copy of the failed AVP (RFC 6733, 7).
use dm_wire::Avp;

/// What a dictionary says of a message: good, or its first fault (RFC 6733, 7).
#[derive(Debug, Drop, PartialEq, Eq)]
pub enum Verdict {
    /// Nothing is wrong.
    Good,
    /// The first fault.
    Bad {
        /// The Result-Code (RFC 6733, 7.1).
        code: u32,
        /// The failed AVP, alone, without the groups round it (7.5).
        failed: Option<Avp>,
    },
}
