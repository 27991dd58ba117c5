//! The words behind the first one of a line: numbers, a cause, a last word.
#![tactic(auto)]

mod cause;
mod last_word;
mod numbers;

pub use crate::cause::read_disconnect_cause_by_number;
pub use crate::last_word::only_word_left;
pub use crate::numbers::{next_long_number, next_number, only_two_numbers_left};
