//! What came of a TSN.
use crate::fragment::Fragment;

/// What came of a Transmission Sequence Number (RFC 9260, 3.3.1).
#[derive(Drop)]
pub(crate) enum TsnState {
    /// No chunk yet.
    Missing,
    /// A chunk, which was handed out or passed over.
    Done,
    /// A fragment that waits for the others of its message.
    Held(Fragment),
}
