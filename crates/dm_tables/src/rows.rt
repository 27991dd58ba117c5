//! The rows of the base dictionary, as constants (RFC 6733, 4.5 and 5.3 to 7.5).
use crate::{AvpType, Form};

/// An entry of a rule.
pub struct EntryRow {
    pub form: Form,
    pub name: &'static [u8],
    pub min: u32,
    pub max: Option<u32>,
}

/// An AVP without a vendor.
pub struct AvpRow {
    pub name: &'static [u8],
    pub code: u32,
    pub kind: AvpType,
    pub rule: &'static [EntryRow],
}

/// A command of Application-ID 0 that isn't proxied.
pub struct CommandRow {
    pub name: &'static [u8],
    pub code: u32,
    pub request: bool,
    pub err: bool,
    pub rule: &'static [EntryRow],
}

// fixed_optional: 0*1 < NAME >, one: { NAME }, some: 1*{ NAME }, optional: [ NAME ], any: *[ NAME ]
macro_rules! entry {
    (fixed_optional $name:literal) => {
        entry!(Fixed, $name, 0, Some(1))
    };
    (one $name:literal) => {
        entry!(Required, $name, 1, Some(1))
    };
    (some $name:literal) => {
        entry!(Required, $name, 1, None)
    };
    (optional $name:literal) => {
        entry!(Optional, $name, 0, Some(1))
    };
    (any $name:literal) => {
        entry!(Optional, $name, 0, None)
    };
    ($form:ident, $name:literal, $min:literal, $max:expr) => {
        EntryRow {
            form: Form::$form,
            name: $name,
            min: $min,
            max: $max,
        }
    };
}

// NAME CODE TYPE, or NAME CODE Grouped RULE
macro_rules! avp {
    ($name:literal, $code:literal, $kind:ident) => {
        avp!($name, $code, $kind, &[])
    };
    ($name:literal, $code:literal, $kind:ident, $rule:expr) => {
        AvpRow {
            name: $name,
            code: $code,
            kind: AvpType::$kind,
            rule: $rule,
        }
    };
}

// NAME CODE, whether REQ and whether ERR, RULE
macro_rules! command {
    ($name:literal, $code:literal, $request:literal, $err:literal, $rule:expr) => {
        CommandRow {
            name: $name,
            code: $code,
            request: $request,
            err: $err,
            rule: $rule,
        }
    };
}

const VENDOR_SPECIFIC_APPLICATION_ID: [EntryRow; 3] = [
    entry!(some b"Vendor-Id"),
    entry!(optional b"Auth-Application-Id"),
    entry!(optional b"Acct-Application-Id"),
];

const FAILED_AVP: [EntryRow; 1] = [entry!(some b"AVP")];

const PROXY_INFO: [EntryRow; 3] = [
    entry!(one b"Proxy-Host"),
    entry!(one b"Proxy-State"),
    entry!(any b"AVP"),
];

const EXPERIMENTAL_RESULT: [EntryRow; 2] = [
    entry!(one b"Vendor-Id"),
    entry!(one b"Experimental-Result-Code"),
];

const CER: [EntryRow; 13] = [
    entry!(one b"Origin-Host"),
    entry!(one b"Origin-Realm"),
    entry!(some b"Host-IP-Address"),
    entry!(one b"Vendor-Id"),
    entry!(one b"Product-Name"),
    entry!(optional b"Origin-State-Id"),
    entry!(any b"Supported-Vendor-Id"),
    entry!(any b"Auth-Application-Id"),
    entry!(any b"Inband-Security-Id"),
    entry!(any b"Acct-Application-Id"),
    entry!(any b"Vendor-Specific-Application-Id"),
    entry!(optional b"Firmware-Revision"),
    entry!(any b"AVP"),
];

const CEA: [EntryRow; 16] = [
    entry!(one b"Result-Code"),
    entry!(one b"Origin-Host"),
    entry!(one b"Origin-Realm"),
    entry!(some b"Host-IP-Address"),
    entry!(one b"Vendor-Id"),
    entry!(one b"Product-Name"),
    entry!(optional b"Origin-State-Id"),
    entry!(optional b"Error-Message"),
    entry!(any b"Failed-AVP"),
    entry!(any b"Supported-Vendor-Id"),
    entry!(any b"Auth-Application-Id"),
    entry!(any b"Inband-Security-Id"),
    entry!(any b"Acct-Application-Id"),
    entry!(any b"Vendor-Specific-Application-Id"),
    entry!(optional b"Firmware-Revision"),
    entry!(any b"AVP"),
];

const DWR: [EntryRow; 4] = [
    entry!(one b"Origin-Host"),
    entry!(one b"Origin-Realm"),
    entry!(optional b"Origin-State-Id"),
    entry!(any b"AVP"),
];

const DWA: [EntryRow; 7] = [
    entry!(one b"Result-Code"),
    entry!(one b"Origin-Host"),
    entry!(one b"Origin-Realm"),
    entry!(optional b"Error-Message"),
    entry!(any b"Failed-AVP"),
    entry!(optional b"Origin-State-Id"),
    entry!(any b"AVP"),
];

const DPR: [EntryRow; 4] = [
    entry!(one b"Origin-Host"),
    entry!(one b"Origin-Realm"),
    entry!(one b"Disconnect-Cause"),
    entry!(any b"AVP"),
];

const DPA: [EntryRow; 6] = [
    entry!(one b"Result-Code"),
    entry!(one b"Origin-Host"),
    entry!(one b"Origin-Realm"),
    entry!(optional b"Error-Message"),
    entry!(any b"Failed-AVP"),
    entry!(any b"AVP"),
];

const ANSWER_MESSAGE: [EntryRow; 11] = [
    entry!(fixed_optional b"Session-Id"),
    entry!(one b"Origin-Host"),
    entry!(one b"Origin-Realm"),
    entry!(one b"Result-Code"),
    entry!(optional b"Origin-State-Id"),
    entry!(optional b"Error-Message"),
    entry!(optional b"Error-Reporting-Host"),
    entry!(any b"Failed-AVP"),
    entry!(optional b"Experimental-Result"),
    entry!(any b"Proxy-Info"),
    entry!(any b"AVP"),
];

pub static AVPS: [AvpRow; 29] = [
    avp!(b"User-Name", 1, UTF8String),
    avp!(b"Class", 25, OctetString),
    avp!(b"Proxy-State", 33, OctetString),
    avp!(b"Event-Timestamp", 55, Time),
    avp!(b"Host-IP-Address", 257, Address),
    avp!(b"Auth-Application-Id", 258, Unsigned32),
    avp!(b"Acct-Application-Id", 259, Unsigned32),
    avp!(b"Session-Id", 263, UTF8String),
    avp!(b"Origin-Host", 264, DiameterIdentity),
    avp!(b"Supported-Vendor-Id", 265, Unsigned32),
    avp!(b"Vendor-Id", 266, Unsigned32),
    avp!(b"Firmware-Revision", 267, Unsigned32),
    avp!(b"Result-Code", 268, Unsigned32),
    avp!(b"Product-Name", 269, UTF8String),
    avp!(b"Disconnect-Cause", 273, Enumerated),
    avp!(b"Origin-State-Id", 278, Unsigned32),
    avp!(b"Proxy-Host", 280, DiameterIdentity),
    avp!(b"Error-Message", 281, UTF8String),
    avp!(b"Destination-Realm", 283, DiameterIdentity),
    avp!(b"Redirect-Host", 292, DiameterURI),
    avp!(b"Destination-Host", 293, DiameterIdentity),
    avp!(b"Error-Reporting-Host", 294, DiameterIdentity),
    avp!(b"Origin-Realm", 296, DiameterIdentity),
    avp!(b"Experimental-Result-Code", 298, Unsigned32),
    avp!(b"Inband-Security-Id", 299, Unsigned32),
    avp!(
        b"Vendor-Specific-Application-Id",
        260,
        Grouped,
        &VENDOR_SPECIFIC_APPLICATION_ID
    ),
    avp!(b"Failed-AVP", 279, Grouped, &FAILED_AVP),
    avp!(b"Proxy-Info", 284, Grouped, &PROXY_INFO),
    avp!(b"Experimental-Result", 297, Grouped, &EXPERIMENTAL_RESULT),
];

pub static COMMANDS: [CommandRow; 7] = [
    command!(b"CER", 257, true, false, &CER),
    command!(b"CEA", 257, false, false, &CEA),
    command!(b"DWR", 280, true, false, &DWR),
    command!(b"DWA", 280, false, false, &DWA),
    command!(b"DPR", 282, true, false, &DPR),
    command!(b"DPA", 282, false, false, &DPA),
    command!(b"answer-message", 0, false, true, &ANSWER_MESSAGE),
];
