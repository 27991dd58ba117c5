//! The size of a header, and the greatest numbers that fields hold (RFC 6733, 3 and 4.1).

/// The octets of a message's header.
pub const HEADER_LEN: u32 = 20;
/// The greatest Command Code: what three octets hold.
pub const MAX_COMMAND: u32 = 0xff_ffff;
/// The greatest AVP Length: what three octets hold.
pub const MAX_AVP_LEN: u32 = 0xff_ffff;
/// The greatest Message Length: three octets hold 16777215, and it is a multiple of 4.
pub const MAX_MESSAGE_LEN: u32 = 0xff_fffc;
