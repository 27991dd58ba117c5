//! The codes of the base messages and their AVPs, and the Result-Codes of a capabilities exchange (RFC 6733, 3.1, 4.5
//! and 7.1), as `dm_wire::codes` has them; and two numbers of their own. Those of a verdict stand in
//! `dm_dict::codes`.
pub use dm_wire::codes::avps::{
    ACCT_APPLICATION_ID, AUTH_APPLICATION_ID, DISCONNECT_CAUSE, FAILED_AVP, FIRMWARE_REVISION,
    HOST_IP_ADDRESS, INBAND_SECURITY_ID, ORIGIN_HOST, ORIGIN_REALM, ORIGIN_STATE_ID, PRODUCT_NAME,
    RESULT_CODE, SUPPORTED_VENDOR_ID, VENDOR_ID, VENDOR_SPECIFIC_APPLICATION_ID,
};
pub use dm_wire::codes::commands::{CAPABILITIES_EXCHANGE, DEVICE_WATCHDOG, DISCONNECT_PEER};
pub use dm_wire::codes::results::{
    NO_COMMON_APPLICATION, NO_COMMON_SECURITY, SUCCESS, UNABLE_TO_COMPLY, UNKNOWN_PEER,
};

/// The Application-ID of a relay, which has every application in common with everyone (2.4).
pub const RELAY: u32 = 0xffff_ffff;
/// The Inband-Security-Id of a connection without security: NO_INBAND_SECURITY (6.10).
pub const NO_INBAND_SECURITY: u32 = 0;
