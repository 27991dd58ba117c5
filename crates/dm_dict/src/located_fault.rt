//! Faults with the groups round their AVPs (RFC 6733, 4.4 and 7.5).

use crate::fault::Fault;
use crate::path::Path;

/// A fault of a message with the groups round its failed AVP; of an AVP that is missing those that lack it.
#[derive(Clone, Copy, Debug)]
pub struct LocatedFault<'a> {
    /// The groups.
    pub path: Path,
    /// The fault.
    pub fault: Fault<'a>,
}
