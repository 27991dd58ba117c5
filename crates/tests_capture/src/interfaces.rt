//! How many interfaces a section may describe.
use dm_capture::{CaptureReader, FaultKind};
use std::alloc::Global;

/// A section's header, in the lower order of octets.
const SECTION: &str = "0a0d0d0a1c0000004d3c2b1a01000000ffffffffffffffff1c000000";

/// The description of an interface.
const INTERFACE: &str = "0100000014000000010000000000000014000000";

/// What comes of a section with so many interfaces: nothing, or a fault with its place.
fn described(alloc: Global, count: u32) -> Option<Option<(u64, FaultKind)>> {
    let Ok(section) = hex::decode(alloc, SECTION) else {
        return None;
    };
    let Ok(interface) = hex::decode(alloc, INTERFACE) else {
        return None;
    };
    let mut reader = CaptureReader::new(alloc);
    let mut came = reader.feed(&section).is_ok().then_some(None);
    for _ in 0..count {
        if reader.feed(&interface).is_err() {
            came = None;
        }
        if let Err(fault) = reader.next() {
            came = Some(Some((fault.offset, fault.kind)));
        }
    }
    drop(reader);
    drop(section);
    drop(interface);
    came
}

#[test]
fn as_many_as_may_be(rt: HostRuntime) {
    let came = described(rt.alloc(), 65_536).expect(&rt, "memory");
    assert!(rt; came.is_none(), "{came:?}");
}

#[test]
fn one_too_many(rt: HostRuntime) {
    let came = described(rt.alloc(), 65_537).expect(&rt, "memory");
    assert!(rt;
        came == Some((1_310_748, FaultKind::TooManyInterfaces)),
        "{came:?}"
    );
}
