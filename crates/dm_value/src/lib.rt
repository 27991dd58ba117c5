//! The values of AVPs: the basic and derived AVP data formats, read and written (RFC 6733, 4.2 to 4.4).
#![tactic(auto)]

mod address;
mod avp_type;
mod data_faults;
mod date;
mod fault;
pub mod laws;
mod numbers;
mod printing;
mod read;
mod text;
mod time;
mod value;
mod value_to_avp;
mod write;

pub use address::{Address, Ip};
pub use avp_type::{AvpType, least_len};
pub use data_faults::value_fault;
pub use date::{Utc, utc_date};
pub use fault::{NoMemory, ValueFault};
pub use printing::Name;
pub use read::read_value;
pub use text::Text;
pub use time::unix_seconds;
pub use value::Value;
pub use write::write_value;
