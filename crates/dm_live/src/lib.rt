//! The library of the program `dmlive`: a node with its connections, of one peer or of several, told by lines.
#![tactic(auto)]

mod answer;
mod answer_lines;
mod asked;
mod begun;
mod configuration;
mod fault;
mod form;
mod input;
pub mod laws;
mod line_ends;
mod live;
mod order_line;
mod order_name;
mod order_words;
mod peers;
mod program;
mod sender_lines;
mod serve;
mod setting_name;
mod setting_words;

pub use crate::answer::answer_asked_without_dot;
pub use crate::asked::Asked;
pub use crate::fault::LiveFault;
pub use crate::form::Form;
pub use crate::input::next_line;
pub use crate::order_line::{OrderLine, read_order_line};
pub use crate::order_name::OrderName;
pub use crate::program::{Ended, run_program};
pub use crate::serve::serve_lines;
pub use crate::setting_name::SettingName;
pub use dm_io::WordsFault;
