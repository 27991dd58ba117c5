//! The messages that a node builds, as octets.
use super::{
    CAPABILITIES_REQUEST, DISCONNECT_REQUEST, WATCHDOG_REQUEST, decoded, node, octets, spelled,
};
use dm_base::{Cause, cea, cer, dpa, dpr, dwa, dwr, error_answer};
use dm_wire::{Avp, Octets};
use std::process::Abort;

/// The request of this command that a.example builds.
fn request(rt: &(impl Abort + AllocGlobal), command: u32) -> String {
    let own = node(rt, b"a.example", &[4]);
    let message = match command {
        257 => cer(rt.alloc(), &own, 1),
        280 => dwr(rt.alloc(), &own, 1),
        _ => dpr(rt.alloc(), &own, 1, Cause::Rebooting),
    };
    spelled(rt, &message.expect(rt, "memory"))
}

/// A command, and the request of it.
const REQUEST_ROWS: &[(u32, &str)] = &[
    (257, CAPABILITIES_REQUEST),
    (280, WATCHDOG_REQUEST),
    (282, DISCONNECT_REQUEST),
];

fn assert_requests(rt: &(impl Abort + AllocGlobal), rows: &[(u32, &str)]) {
    for (command, want) in rows {
        assert_eq!(rt; request(rt, *command).as_str(), *want, "of {command}");
    }
}

#[test]
fn built_messages(rt: HostRuntime) {
    assert_requests(&rt, REQUEST_ROWS);
}

/// The answer of B.example with Result-Code 2001.
fn answer(rt: &(impl Abort + AllocGlobal), request: &str) -> String {
    let own = node(rt, b"B.example", &[4]);
    let to = decoded(rt, request).header;
    let message = match to.command {
        257 => cea(rt.alloc(), &own, &to, 2001, None),
        280 => dwa(rt.alloc(), &own, &to, 2001, None),
        _ => dpa(rt.alloc(), &own, &to, 2001, None),
    };
    spelled(rt, &message.expect(rt, "memory"))
}

/// A request, and the answer to it.
const ANSWER_ROWS: &[(&str, &str)] = &[
    (
        CAPABILITIES_REQUEST,
        "0100007c000001010000000000000001000000010000010c4000000c000007d10000010840000011422e6578616d706c65000000000001284000000f6578616d706c6500000001014000000e00017f00000100000000010a4000000c000000000000010d0000000e646d706565720000000001024000000c00000004",
    ),
    (
        WATCHDOG_REQUEST,
        "01000044000001180000000000000001000000010000010c4000000c000007d10000010840000011422e6578616d706c65000000000001284000000f6578616d706c6500",
    ),
    (
        DISCONNECT_REQUEST,
        "010000440000011a0000000000000001000000010000010c4000000c000007d10000010840000011422e6578616d706c65000000000001284000000f6578616d706c6500",
    ),
];

fn assert_answers(rt: &(impl Abort + AllocGlobal), rows: &[(&str, &str)]) {
    for (request, want) in rows {
        assert_eq!(rt; answer(rt, request).as_str(), *want, "to {request}");
    }
}

#[test]
fn built_messages_of_answers(rt: HostRuntime) {
    assert_answers(&rt, ANSWER_ROWS);
}

/// An answer with the E bit and Result-Code 3010 to the Capabilities-Exchange-Request.
const ERROR_ANSWER: &str =
    "01000044200001010000000000000001000000010000010840000011422e6578616d706c65000000000001284000000f6578616d706c65000000010c4000000c00000bc2";

fn refused(rt: &(impl Abort + AllocGlobal), request: &str) -> String {
    let own = node(rt, b"B.example", &[4]);
    let message = error_answer(rt.alloc(), &own, &decoded(rt, request).header, 3010);
    spelled(rt, &message.expect(rt, "memory"))
}

#[test]
fn error_answers_are_built(rt: HostRuntime) {
    assert!(&rt; refused(&rt, CAPABILITIES_REQUEST).as_str() == ERROR_ANSWER);
}

const ANSWER_WITH_FAILED_AVP: &str =
    "01000058000001180000000000000001000000010000010c4000000c0000138d0000010840000011422e6578616d706c65000000000001284000000f6578616d706c65000000011740000014000001084000000900000000";

/// The answer with 5005 and an Origin-Host of so many zero octets as failed AVP.
fn failed(rt: &(impl Abort + AllocGlobal), zeros: &[u8]) -> String {
    let own = node(rt, b"B.example", &[4]);
    let avp = Avp {
        code: 264,
        vendor: None,
        mandatory: true,
        protected: false,
        bytes: Octets::from_vec(octets(rt, zeros)),
    };
    let to = decoded(rt, WATCHDOG_REQUEST).header;
    let message = dwa(rt.alloc(), &own, &to, 5005, Some(&avp)).expect(rt, "memory");
    spelled(rt, &message)
}

/// An AVP Length of 4096 is the greatest that is sent back.
#[test]
fn answer_with_failed_avp(rt: HostRuntime) {
    assert!(&rt; failed(&rt, &[0]).as_str() == ANSWER_WITH_FAILED_AVP);
    assert!(&rt; failed(&rt, &[0; 4088]).len() == 136 + 2 * 4104);
    assert!(&rt; failed(&rt, &[0; 4089]).len() == 136);
}
