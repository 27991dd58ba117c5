//! What a Diameter message says, in names and values, and all that is wrong with it, by a dictionary (RFC 6733, 3, 4
//! and 7).
#![tactic(auto)]

mod avp_description;
mod avps;
mod clean;
mod code_and_flags;
mod data;
mod described_data;
mod faults;
mod header;
mod json_avps;
mod json_data;
mod json_faults;
mod json_header;
mod json_message;
mod json_octets_and_texts;
mod json_path;
mod json_printed;
mod json_text;
mod message;
mod reasons;
mod results;
mod texts_and_numbers;

pub use avp_description::{AvpDescription, describe};
pub use faults::put_verdict_header_and_faults;
pub use header::put_header_line;
pub use json_faults::{put_json_verdict_header_and_faults, put_verdict_member};
pub use json_header::put_header_object;
pub use json_message::put_message_members;
pub use json_text::JsonText;
pub use message::put_message;
pub use results::ResultName;
