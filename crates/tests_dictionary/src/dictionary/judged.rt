//! Messages judged where they lie (RFC 6733, 7).
use super::rows::assert_judged_under_base;
use super::verdicts::{
    CAPABILITIES_REQUEST_ROWS, DISCONNECT_CHECKS_ROWS, ERROR_BITS_ROWS, FAILED_AVPS_ROWS,
    MISSING_ORIGIN_HOST_ROWS, WATCHDOG_REQUEST_ROWS,
};
use dm_dict::{Dictionary, Failed, Judged};
use dm_wire::{AvpWalk, MessageRef, WireFault};
use std::process::Abort;

/// Padding octets and reserved bits are free.
const FREE_BITS_ROWS: &[(&str, &str)] = &[(
    "010000388f000118000000000000000100000001000001085f000011612e6578616d706c65ffffff000001285f00000f6578616d706c65ff",
    "good",
)];

/// Of each message `judge` says the same as `check`, whose tests are over the same tables.
#[test]
fn judged_as_checked(rt: HostRuntime) {
    assert_judged_under_base(&rt, WATCHDOG_REQUEST_ROWS);
    assert_judged_under_base(&rt, FREE_BITS_ROWS);
    assert_judged_under_base(&rt, MISSING_ORIGIN_HOST_ROWS);
    assert_judged_under_base(&rt, CAPABILITIES_REQUEST_ROWS);
    assert_judged_under_base(&rt, DISCONNECT_CHECKS_ROWS);
    assert_judged_under_base(&rt, ERROR_BITS_ROWS);
    assert_judged_under_base(&rt, FAILED_AVPS_ROWS);
}

/// A Device-Watchdog-Request without Origin-Host.
const WITHOUT_ORIGIN_HOST: &str = "0100001480000118000000000000000100000001";

/// A Device-Watchdog-Request with a Result-Code inside Vendor-Specific-Application-Id.
const WITH_RESULT_CODE: &str =
    "01000058800001180000000000000001000000010000010840000011612e6578616d706c65000000000001284000000f6578616d706c650000000104400000200000010a4000000c000000000000010c4000000c000007d1";

/// An AVP whose Length is below its header.
const BAD_AVP: &str = "0100001c800001180000000000000001000000010000010840000007";

/// The Result-Code and the parts of the example: code, vendor, zeros.
fn example_of(judged: Judged<'_>) -> Option<(u32, u32, Option<u32>, u32)> {
    match judged {
        Judged::Bad {
            code,
            failed: Failed::Example {
                code: avp,
                vendor,
                zeros,
            },
        } => Some((code, avp, vendor, zeros)),
        _ => None,
    }
}

/// The Result-Code and the code of the AVP that was found.
fn found_of(judged: Judged<'_>) -> Option<(u32, u32)> {
    match judged {
        Judged::Bad {
            code,
            failed: Failed::Found(avp),
        } => Some((code, avp.code)),
        _ => None,
    }
}

fn assert_example(rt: &(impl Abort + AllocGlobal), base: &Dictionary) {
    let octets = hex::decode(rt.alloc(), WITHOUT_ORIGIN_HOST.as_bytes()).expect(rt, "hexadecimal");
    let message = MessageRef::read(octets.as_slice()).expect(rt, "a message");
    assert!(rt; example_of(base.judge(&message)) == Some((5005, 264, None, 1)));
}

fn assert_found(rt: &(impl Abort + AllocGlobal), base: &Dictionary) {
    let octets = hex::decode(rt.alloc(), WITH_RESULT_CODE.as_bytes()).expect(rt, "hexadecimal");
    let message = MessageRef::read(octets.as_slice()).expect(rt, "a message");
    assert!(rt; found_of(base.judge(&message)) == Some((5008, 268)));
}

/// What `judge` answers of both, under the base dictionary.
fn assert_parts(rt: &(impl Abort + AllocGlobal)) {
    let base = Dictionary::base(rt.alloc()).expect(rt, "a dictionary");
    assert_example(rt, &base);
    assert_found(rt, &base);
    drop(base);
}

/// Whether a walk answers the offset of its first bad AVP, 0, and then nothing.
fn ends_at_once(octets: &[u8]) -> bool {
    let mut walk = AvpWalk::new(octets);
    let is_bad = match walk.next() {
        Some(Err(offset)) => offset == 0,
        _ => false,
    };
    is_bad && walk.next().is_none()
}

#[test]
fn judged_rows(rt: HostRuntime) {
    assert_parts(&rt);
    let octets = hex::decode(rt.alloc(), BAD_AVP.as_bytes()).expect(&rt, "hexadecimal");
    let fault = MessageRef::read(octets.as_slice()).err();
    assert!(rt; fault == Some(WireFault::AvpLength(20)));
    assert!(rt; ends_at_once(&octets.as_slice()[20..]));
}
