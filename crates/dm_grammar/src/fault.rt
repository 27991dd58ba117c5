//! Why a text gives no items.

use thiserror::Error;

/// Why a text gives no items.
#[derive(Debug, Drop, PartialEq, Eq, Error)]
pub enum ItemFault {
    /// The line, from 1, of the first token that can't stand there; the last line where the text ends
    /// too early.
    #[error("line {0}: this can't stand here")]
    Syntax(usize),
    #[error("out of memory")]
    NoMemory,
}
