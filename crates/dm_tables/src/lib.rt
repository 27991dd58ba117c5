//! The definitions of vendors, AVPs and commands that a Diameter peer goes by, as tables with an index for each key:
//! the base ones, and the look-ups by name and by code (RFC 6733, 3.2, 4 and 4.1).
#![tactic(auto)]

mod base;
mod def;
pub mod laws;
mod name_guesses;
mod rows;
mod rule;
mod tables;
mod values;
mod vendors;

pub use base::base_tables;
pub use def::{AvpDef, CommandDef, VendorDef};
pub use dm_grammar::Form;
pub use dm_value::{AvpType, NoMemory};
pub use name_guesses::NameGuesses;
pub use rule::{Entry, Rule};
pub use tables::Tables;
pub use values::{EnumValue, Values, is_number_noted, note_number};
pub use vendors::Vendors;
