//! The text of a dictionary in the command code format, read into tables and printed from them (RFC 6733, 3.2).
#![tactic(auto)]

mod bounds;
mod checks;
mod define;
mod entries;
mod fault;
mod kind;
pub mod laws;
mod number;
mod print;
mod tables_to_text;
mod text_to_tables;
mod unknown;
mod value_list;

pub use fault::DictFault;
pub use tables_to_text::print_tables;
pub use text_to_tables::read_tables;
