//! What docs/LIBRARY.md says lies below a peer: a message built, and a kind told.
use super::node;
use dm_base::{KindRef, dwr, view};
use dm_dict::Dictionary;
use dm_wire::MessageRef;
use std::process::Abort;

/// The octets of a Device-Watchdog-Request.
fn built(rt: &(impl Abort + AllocGlobal)) -> Vec<u8> {
    let node = node(rt, b"a.example", &[4]);
    let request = dwr(rt.alloc(), &node, 1).expect(rt, "memory");
    request.encode(rt.alloc()).expect(rt, "memory")
}

/// What the octets are, in words.
fn told(rt: &(impl Abort + AllocGlobal), octets: &[u8]) -> &'static str {
    let base = Dictionary::base(rt.alloc()).expect(rt, "memory");
    let message = MessageRef::read(octets).expect(rt, "a message");
    let words = match view(&base, &message) {
        Ok(KindRef::Dwr) => "a watchdog request",
        Ok(KindRef::Cer(_)) => "capabilities",
        Ok(_) => "another message",
        Err(_) => "a bad message",
    };
    drop(base);
    words
}

#[test]
fn built_and_told(rt: HostRuntime) {
    let octets = built(&rt);
    assert_eq!(rt; octets.len(), 56);
    assert_eq!(rt; told(&rt, octets.as_slice()), "a watchdog request");
}
