//! Texts as lines, words and numbers: what the program reads, and the numbers that it prints.
#![tactic(auto)]

mod decimal;
mod digit;
mod hexadecimal;
mod lanes;
pub mod laws;
mod line;
mod line_room;
mod number;
mod syntax_fault;
mod word;

pub use crate::decimal::{push_decimal, put_decimal};
pub use crate::hexadecimal::{Hexadecimal, push_hexadecimal, put_hexadecimal, read_hex_word};
pub use crate::line::{Lines, first_line_feed, is_empty_or_comment, trim_spaces};
pub use crate::line_room::LineRoom;
pub use crate::number::{read_long_number, read_number};
pub use crate::syntax_fault::push_syntax_fault_line;
pub use crate::word::Words;
