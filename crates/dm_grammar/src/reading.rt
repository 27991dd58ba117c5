//! How a text is read.

/// The version of a text: the second where its first two tokens are `@` and `2`.
#[derive(Clone, Copy)]
pub enum Version {
    First,
    Second,
}

/// How a text is read: its version, and its last line, where a fault stands when the tokens run out.
#[derive(Clone, Copy)]
pub(crate) struct Reading {
    pub(crate) version: Version,
    pub(crate) last: usize,
}
