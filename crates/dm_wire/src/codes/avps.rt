//! The AVP Codes of the base protocol (RFC 6733, 4.5).

/// Acct-Application-Id (6.9).
pub const ACCT_APPLICATION_ID: u32 = 259;
/// Acct-Interim-Interval (9.8.2).
pub const ACCT_INTERIM_INTERVAL: u32 = 85;
/// Acct-Multi-Session-Id (9.8.5).
pub const ACCT_MULTI_SESSION_ID: u32 = 50;
/// Acct-Session-Id (9.8.4).
pub const ACCT_SESSION_ID: u32 = 44;
/// Accounting-Realtime-Required (9.8.7).
pub const ACCOUNTING_REALTIME_REQUIRED: u32 = 483;
/// Accounting-Record-Number (9.8.3).
pub const ACCOUNTING_RECORD_NUMBER: u32 = 485;
/// Accounting-Record-Type (9.8.1).
pub const ACCOUNTING_RECORD_TYPE: u32 = 480;
/// Accounting-Sub-Session-Id (9.8.6).
pub const ACCOUNTING_SUB_SESSION_ID: u32 = 287;
/// Auth-Application-Id (6.8).
pub const AUTH_APPLICATION_ID: u32 = 258;
/// Auth-Grace-Period (8.10).
pub const AUTH_GRACE_PERIOD: u32 = 276;
/// Auth-Request-Type (8.7).
pub const AUTH_REQUEST_TYPE: u32 = 274;
/// Auth-Session-State (8.11).
pub const AUTH_SESSION_STATE: u32 = 277;
/// Authorization-Lifetime (8.9).
pub const AUTHORIZATION_LIFETIME: u32 = 291;
/// Class (8.20).
pub const CLASS: u32 = 25;
/// Destination-Host (6.5).
pub const DESTINATION_HOST: u32 = 293;
/// Destination-Realm (6.6).
pub const DESTINATION_REALM: u32 = 283;
/// Disconnect-Cause (5.4.3).
pub const DISCONNECT_CAUSE: u32 = 273;
/// Error-Message (7.3).
pub const ERROR_MESSAGE: u32 = 281;
/// Error-Reporting-Host (7.4).
pub const ERROR_REPORTING_HOST: u32 = 294;
/// Event-Timestamp (8.21).
pub const EVENT_TIMESTAMP: u32 = 55;
/// Experimental-Result (7.6).
pub const EXPERIMENTAL_RESULT: u32 = 297;
/// Experimental-Result-Code (7.7).
pub const EXPERIMENTAL_RESULT_CODE: u32 = 298;
/// Failed-AVP (7.5).
pub const FAILED_AVP: u32 = 279;
/// Firmware-Revision (5.3.4).
pub const FIRMWARE_REVISION: u32 = 267;
/// Host-IP-Address (5.3.5).
pub const HOST_IP_ADDRESS: u32 = 257;
/// Inband-Security-Id (6.10).
pub const INBAND_SECURITY_ID: u32 = 299;
/// Multi-Round-Time-Out (8.19).
pub const MULTI_ROUND_TIME_OUT: u32 = 272;
/// Origin-Host (6.3).
pub const ORIGIN_HOST: u32 = 264;
/// Origin-Realm (6.4).
pub const ORIGIN_REALM: u32 = 296;
/// Origin-State-Id (8.16).
pub const ORIGIN_STATE_ID: u32 = 278;
/// Product-Name (5.3.7).
pub const PRODUCT_NAME: u32 = 269;
/// Proxy-Host (6.7.3).
pub const PROXY_HOST: u32 = 280;
/// Proxy-Info (6.7.2).
pub const PROXY_INFO: u32 = 284;
/// Proxy-State (6.7.4).
pub const PROXY_STATE: u32 = 33;
/// Re-Auth-Request-Type (8.12).
pub const RE_AUTH_REQUEST_TYPE: u32 = 285;
/// Redirect-Host (6.12).
pub const REDIRECT_HOST: u32 = 292;
/// Redirect-Host-Usage (6.13).
pub const REDIRECT_HOST_USAGE: u32 = 261;
/// Redirect-Max-Cache-Time (6.14).
pub const REDIRECT_MAX_CACHE_TIME: u32 = 262;
/// Result-Code (7.1).
pub const RESULT_CODE: u32 = 268;
/// Route-Record (6.7.1).
pub const ROUTE_RECORD: u32 = 282;
/// Session-Binding (8.17).
pub const SESSION_BINDING: u32 = 270;
/// Session-Id (8.8).
pub const SESSION_ID: u32 = 263;
/// Session-Server-Failover (8.18).
pub const SESSION_SERVER_FAILOVER: u32 = 271;
/// Session-Timeout (8.13).
pub const SESSION_TIMEOUT: u32 = 27;
/// Supported-Vendor-Id (5.3.6).
pub const SUPPORTED_VENDOR_ID: u32 = 265;
/// Termination-Cause (8.15).
pub const TERMINATION_CAUSE: u32 = 295;
/// User-Name (8.14).
pub const USER_NAME: u32 = 1;
/// Vendor-Id (5.3.3).
pub const VENDOR_ID: u32 = 266;
/// Vendor-Specific-Application-Id (6.11).
pub const VENDOR_SPECIFIC_APPLICATION_ID: u32 = 260;
