//! What the programs have in common: the words of a command line, texts that are written whole, and how a program ends.
#![tactic(auto)]

mod ended;
mod words;
mod written;

pub use crate::ended::{Ended, end_with_status_and_words, exit_code};
pub use crate::words::{WordsFault, command_line_words};
pub use crate::written::write_text_and_flush;

/// How many octets a program reads at once, at most.
pub const READ_AT_ONCE: usize = 65_536;
