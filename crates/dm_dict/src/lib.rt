//! What the AVPs and commands of Diameter mean (RFC 6733, 3.2 and 4): values, dictionaries, and the verdict
//! on a message, which is its first fault in a stated order.
#![tactic(auto)]

mod avp_faults;
mod avps;
mod bounds;
pub mod codes;
mod command_guesses;
mod counts;
mod data;
mod dictionary;
mod entries;
mod entry_faults;
mod enumerated_lists;
mod fault;
mod faults;
mod findings;
mod judge;
mod judged;
pub mod laws;
mod linked;
mod links;
mod located_fault;
mod located_faults;
mod marks;
mod message_avps;
mod occurrences;
mod octet_ranges;
mod passing;
mod path;
mod printing;
mod rows;
mod rule_links;
mod rules;
mod seats;
mod tallies;
mod verdict;
mod windows;

pub use dictionary::Dictionary;
pub use dm_dict_text::DictFault;
pub use dm_tables::{AvpDef, CommandDef, Entry, EnumValue, Form, Rule, Values};
pub use dm_value::{
    Address, AvpType, Ip, NoMemory, Text, Utc, Value, ValueFault, least_len, read_value,
    unix_seconds, utc_date, value_fault, write_value,
};
pub use fault::Fault;
pub use judged::{Failed, Judged};
pub use located_fault::LocatedFault;
pub use path::{Path, Step};
pub use verdict::Verdict;
