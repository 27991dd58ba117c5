//! How much may be held.

/// How many connections of a capture are held at most.
pub const MAX_CONNECTIONS: usize = 65_536;

/// How many octets the connections of a capture hold at most: 64 MiB in all.
pub const MAX_HELD: u64 = 67_108_864;

/// How much may be held.
#[derive(Clone, Copy, Debug, PartialEq, Eq)]
pub struct Limits {
    /// So many connections.
    pub connections: usize,
    /// So many octets in all.
    pub octets: u64,
}
