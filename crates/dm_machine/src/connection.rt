//! A transport connection.

/// The number of a transport connection, given by the caller.
#[derive(Clone, Copy, Debug, PartialEq, Eq, Hash)]
pub struct Conn(pub u64);
