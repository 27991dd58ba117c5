//! Lines of hexadecimal, and what is said of the message of each, or of the messages of all lines as one stream: read,
//! said and written.
#![tactic(auto)]

mod bad_line;
mod buffered_lines;
mod colours;
mod ending;
mod files;
mod frames;
mod front;
mod gathered_lines;
mod header;
mod hexadecimal;
mod inputs;
mod json_parts;
mod json_refused;
mod json_reports;
pub mod laws;
mod line_reports;
mod line_speaker;
mod lines_fault;
mod lines_in_pieces;
mod message_reports;
mod one_word;
mod put_fault;
mod refusal_words;
mod refused;
mod run_fault;
mod run_reader;
mod speaker;
mod stop;
mod stream_lines;
mod stream_speaker;
mod tally;
mod waiting_text;
mod written_text;

pub use colours::coloured_text;
pub use files::{FILE_LIMIT, push_limited_file_as_lines};
pub use front::Front;
pub use gathered_lines::LINE_LIMIT;
pub use hexadecimal::read_hex_line;
pub use inputs::Inputs;
pub use line_reports::lines_report;
pub use lines_fault::LinesFault;
pub use message_reports::{Task, put_octets_report};
pub use put_fault::PutFault;
pub use run_fault::RunFault;
pub use run_reader::{say_lines, say_stream};
pub use stream_lines::stream_report;
pub use tally::{Tally, put_tally_if_checked};
pub use waiting_text::{
    Style, gather_text_and_write_if_full, write_text_in_style, write_waiting_text,
};
pub use written_text::{write_lines_report, write_stream_report};
