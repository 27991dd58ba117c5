//! The Command Codes of the base protocol (RFC 6733, 3.1). A request and its answer share one.

/// Abort-Session-Request and -Answer (8.5).
pub const ABORT_SESSION: u32 = 274;
/// Accounting-Request and -Answer (9.7).
pub const ACCOUNTING: u32 = 271;
/// Capabilities-Exchange-Request and -Answer (5.3).
pub const CAPABILITIES_EXCHANGE: u32 = 257;
/// Device-Watchdog-Request and -Answer (5.5).
pub const DEVICE_WATCHDOG: u32 = 280;
/// Disconnect-Peer-Request and -Answer (5.4).
pub const DISCONNECT_PEER: u32 = 282;
/// Re-Auth-Request and -Answer (8.3).
pub const RE_AUTH: u32 = 258;
/// Session-Termination-Request and -Answer (8.4).
pub const SESSION_TERMINATION: u32 = 275;
