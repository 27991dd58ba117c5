//! What a message says of its sender, and a disconnect of its cause.
use super::{CAPABILITIES_REQUEST, DISCONNECT_REQUEST, WATCHDOG_REQUEST};
use dm_base::{disconnect_cause, sender};
use dm_wire::MessageRef;
use std::process::Abort;

fn assert_sender(rt: &(impl Abort + AllocGlobal)) {
    let octets = hex::decode(rt.alloc(), CAPABILITIES_REQUEST.as_bytes()).expect(rt, "hexadecimal");
    let message = MessageRef::read(octets.as_slice()).expect(rt, "a message");
    let sender = sender(&message).expect(rt, "a sender");
    assert!(rt; sender.host() == b"a.example".as_slice());
    assert!(rt; sender.realm() == b"example".as_slice());
    assert!(rt; sender.product() == b"dmpeer".as_slice());
    assert!(rt;
        sender.vendor() == Some(0) && sender.firmware().is_none() && sender.state_id().is_none()
    );
    let applications = sender.applications(rt.alloc()).expect(rt, "memory");
    assert!(rt; applications.as_slice() == [4].as_slice());
    let vendors = sender.vendors(rt.alloc()).expect(rt, "memory");
    assert!(rt; vendors.as_slice().is_empty());
}

/// The cause, and whether the message has a sender.
fn assert_cause(rt: &(impl Abort + AllocGlobal), digits: &str, cause: Option<i32>) {
    let octets = hex::decode(rt.alloc(), digits.as_bytes()).expect(rt, "hexadecimal");
    let message = MessageRef::read(octets.as_slice()).expect(rt, "a message");
    assert!(rt; disconnect_cause(&message) == cause && sender(&message).is_none());
}

/// A CER tells host, realm, product, vendor and applications.
#[test]
fn sender_of_a_cer(rt: HostRuntime) {
    assert_sender(&rt);
}

/// A DPR tells its cause, a DWR none.
#[test]
fn cause_of_a_disconnect(rt: HostRuntime) {
    assert_cause(&rt, DISCONNECT_REQUEST, Some(0));
    assert_cause(&rt, WATCHDOG_REQUEST, None);
}
