//! The numbers of the base protocol by name (RFC 6733, 3.1, 4.5 and 7.1). None of its AVPs has a vendor.

pub mod avps;
pub mod commands;
pub mod limits;
pub mod results;
