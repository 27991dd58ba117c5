//! The Result-Codes of verdicts (RFC 6733, 7.1), and the AVP Code of Failed-AVP (7.5), as `dm_wire::codes` has them.
//! When each comes stands at `Dictionary::check`.
pub use dm_wire::codes::avps::FAILED_AVP;
pub use dm_wire::codes::results::{
    AVP_NOT_ALLOWED, AVP_OCCURS_TOO_MANY_TIMES, AVP_UNSUPPORTED, COMMAND_UNSUPPORTED,
    INVALID_AVP_LENGTH, INVALID_AVP_VALUE, INVALID_HDR_BITS, MISSING_AVP,
};
