//! A node that says more than it must, as peers of 3GPP want it.
use super::{
    CAPABILITIES_REQUEST, DISCONNECT_REQUEST, WATCHDOG_REQUEST, decoded, ids, node, spelled,
};
use dm_base::{
    Cause, Extras, ExtrasFault, Kind, Node, VendorApplication, cea, cer, classify, common,
    common_nodes, dpa, dpr, dwa, dwr, sender, success_octets,
};
use dm_dict::Dictionary;
use dm_wire::MessageRef;
use std::process::Abort;

/// Two applications of 3GPP: one tells an auth id, the other an acct id.
const APPLICATIONS: [VendorApplication; 2] = [
    VendorApplication {
        vendor: 10415,
        application: 16777251,
        accounting: false,
    },
    VendorApplication {
        vendor: 10415,
        application: 16777238,
        accounting: true,
    },
];

/// Extras of these applications, two vendors, firmware 9 and state 7.
fn extras(
    rt: &(impl Abort + AllocGlobal),
    applications: &[VendorApplication],
) -> Result<Extras, ExtrasFault> {
    Extras::new(
        rt.alloc(),
        Vec::from_slice(rt.alloc(), applications).expect(rt, "memory"),
        ids(rt, &[10415, 13019]),
        Some(9),
        Some(7),
    )
}

/// a.example with the auth id 4 and the extras.
fn own(rt: &(impl Abort + AllocGlobal)) -> Node {
    node(rt, b"a.example", &[4]).with_extras(extras(rt, &APPLICATIONS).ok().expect(rt, "extras"))
}

/// The request of this command that it builds.
fn request(rt: &(impl Abort + AllocGlobal), command: u32) -> String {
    let own = own(rt);
    let message = match command {
        257 => cer(rt.alloc(), &own, 1),
        280 => dwr(rt.alloc(), &own, 1),
        _ => dpr(rt.alloc(), &own, 1, Cause::Rebooting),
    };
    spelled(rt, &message.expect(rt, "memory"))
}

const REQUEST: &str =
    "010000e0800001010000000000000001000000010000010840000011612e6578616d706c65000000000001284000000f6578616d706c6500000001014000000e00017f00000100000000010a4000000c000000000000010d0000000e646d706565720000000001164000000c00000007000001094000000c000028af000001094000000c000032db000001024000000c0000000400000104400000200000010a4000000c000028af000001024000000c0100002300000104400000200000010a4000000c000028af000001034000000c010000160000010b0000000c00000009";

/// A command, and the request of it.
const REQUEST_ROWS: &[(u32, &str)] = &[
    (257, REQUEST),
    (
        280,
        "01000044800001180000000000000001000000010000010840000011612e6578616d706c65000000000001284000000f6578616d706c6500000001164000000c00000007",
    ),
    (282, DISCONNECT_REQUEST),
];

fn assert_requests(rt: &(impl Abort + AllocGlobal), rows: &[(u32, &str)]) {
    for (command, want) in rows {
        assert_eq!(rt; request(rt, *command).as_str(), *want, "of {command}");
    }
}

#[test]
fn extras_in_requests(rt: HostRuntime) {
    assert_requests(&rt, REQUEST_ROWS);
}

/// Its answer with Result-Code 2001.
fn answer(rt: &(impl Abort + AllocGlobal), request: &str) -> String {
    let own = own(rt);
    let to = decoded(rt, request).header;
    let message = match to.command {
        257 => cea(rt.alloc(), &own, &to, 2001, None),
        280 => dwa(rt.alloc(), &own, &to, 2001, None),
        _ => dpa(rt.alloc(), &own, &to, 2001, None),
    };
    spelled(rt, &message.expect(rt, "memory"))
}

/// A request, and the answer to it.
const ANSWER_ROWS: &[(&str, &str)] = &[
    (
        CAPABILITIES_REQUEST,
        "010000ec000001010000000000000001000000010000010c4000000c000007d10000010840000011612e6578616d706c65000000000001284000000f6578616d706c6500000001014000000e00017f00000100000000010a4000000c000000000000010d0000000e646d706565720000000001164000000c00000007000001094000000c000028af000001094000000c000032db000001024000000c0000000400000104400000200000010a4000000c000028af000001024000000c0100002300000104400000200000010a4000000c000028af000001034000000c010000160000010b0000000c00000009",
    ),
    (
        WATCHDOG_REQUEST,
        "01000050000001180000000000000001000000010000010c4000000c000007d10000010840000011612e6578616d706c65000000000001284000000f6578616d706c6500000001164000000c00000007",
    ),
    (
        DISCONNECT_REQUEST,
        "010000440000011a0000000000000001000000010000010c4000000c000007d10000010840000011612e6578616d706c65000000000001284000000f6578616d706c6500",
    ),
];

fn assert_answers(rt: &(impl Abort + AllocGlobal), rows: &[(&str, &str)]) {
    for (request, want) in rows {
        assert_eq!(rt; answer(rt, request).as_str(), *want, "to {request}");
    }
}

#[test]
fn extras_in_answers(rt: HostRuntime) {
    assert_answers(&rt, ANSWER_ROWS);
}

/// The octets of success to a watchdog are those of its answer.
fn assert_success(rt: &(impl Abort + AllocGlobal)) {
    let to = decoded(rt, WATCHDOG_REQUEST).header;
    let octets = success_octets(rt.alloc(), &own(rt), &to)
        .ok()
        .expect(rt, "octets");
    let written = hex::encode(rt.alloc(), octets.as_slice()).expect(rt, "memory");
    assert_eq!(rt; written.as_str(), answer(rt, WATCHDOG_REQUEST).as_str());
}

#[test]
fn extras_in_the_octets_of_success(rt: HostRuntime) {
    assert_success(&rt);
}

/// Its request is good under the base dictionary, and another node with just one of its applications of vendors has
/// that in common with it.
fn assert_common(rt: &(impl Abort + AllocGlobal), application: u32, want: bool) {
    let message = decoded(rt, REQUEST);
    let base = Dictionary::base(rt.alloc()).expect(rt, "memory");
    let other = node(rt, b"b.example", &[application]);
    let Ok(Kind::Cer(caps)) = classify(rt.alloc(), &base, &message) else {
        assert!(rt; false, "no good request");
        return;
    };
    assert!(rt; common(&caps, &other) == want && common_nodes(&own(rt), &other) == want);
    assert!(rt; common_nodes(&other, &own(rt)) == want);
}

#[test]
fn extras_in_common(rt: HostRuntime) {
    assert_common(&rt, 16777251, true);
    assert_common(&rt, 16777238, true);
    assert_common(&rt, 10415, false);
}

/// The other side reads what the node says.
fn assert_told(rt: &(impl Abort + AllocGlobal)) {
    let octets = hex::decode(rt.alloc(), REQUEST.as_bytes()).expect(rt, "hexadecimal");
    let message = MessageRef::read(octets.as_slice()).expect(rt, "a message");
    let sender = sender(&message).expect(rt, "a sender");
    assert!(rt; sender.firmware() == Some(9) && sender.state_id() == Some(7));
    let vendors = sender.vendors(rt.alloc()).expect(rt, "memory");
    assert!(rt; vendors.as_slice() == [10415, 13019].as_slice());
    let applications = sender.applications(rt.alloc()).expect(rt, "memory");
    assert!(rt; applications.as_slice() == [4, 16777251, 16777238].as_slice());
}

#[test]
fn extras_told(rt: HostRuntime) {
    assert_told(&rt);
}

#[test]
fn extras_too_long(rt: HostRuntime) {
    assert!(&rt; extras(&rt, &[APPLICATIONS[0]; 256]).is_ok());
    assert!(&rt; extras(&rt, &[APPLICATIONS[0]; 257]).err() == Some(ExtrasFault::TooLong));
}
