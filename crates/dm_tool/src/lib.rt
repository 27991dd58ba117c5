//! The library of the program `dmpeer`: what each of its commands reads and prints.
#![tactic(auto)]

mod avp_line;
mod build;
mod built_messages;
mod check;
mod choice;
mod commands;
mod divide;
mod fault;
mod header_and_avp_text;
mod header_line;
mod input;
pub mod laws;
mod message_text;
mod messages;
mod program;
mod run;
mod source;
mod status;
mod verdict;

pub use crate::choice::{Choice, choose};
pub use crate::commands::{run_build, run_check, run_replay, run_show};
pub use crate::fault::ToolFault;
pub use crate::input::INPUT_LIMIT;
pub use crate::program::{Ended, run_program};
pub use crate::run::run_words;
pub use crate::source::{Held, Source};
pub use crate::status::ending;
pub use dm_io::WordsFault;
