//! Limits of this project's own on what a node says and sends.

/// The octets that the name of a host, a realm or a product may have at most.
pub(crate) const MAX_NAME_LEN: usize = 255;

/// The addresses that a node may have at most.
pub(crate) const MAX_ADDRESSES: usize = 64;

/// The ids of applications of one kind, auth or acct, that a node may have at most.
pub(crate) const MAX_IDS: usize = 256;

/// The greatest AVP Length of a failed AVP that is handed back.
pub(crate) const LONGEST_FAILED: u32 = 4096;
