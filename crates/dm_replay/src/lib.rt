//! Scripts of two peers, read and replayed.
#![tactic(auto)]

mod arguments;
mod configs;
mod fault;
mod happening_line;
mod happening_list;
mod host_line;
pub mod laws;
mod lines_so_far;
mod replay;
mod replay_lines;
mod script;
mod script_lines;
mod verb;

pub use crate::fault::ScriptFault;
pub use crate::happening_list::HappeningList;
pub use crate::host_line::HostLine;
pub use crate::replay::replay_text;
pub use crate::replay_lines::trace;
pub use crate::script::{Script, read_script};
pub use crate::script_lines::{ScriptLines, read_script_lines_if_any};
pub use dm_world::{Happening, Side};
