//! Chunks that begin and end associations, as hexadecimal digits.
use dm_association::{Init, ends_association, read_init_or_ack};
use std::alloc::Global;
use std::process::Abort;

/// Octets behind a common header, what they say as an INIT or INIT ACK, if they are one, and whether they end the
/// association.
const FRONTS: [(&str, Option<Init>, bool); 12] = [
    // INIT, and INIT with a parameter
    (
        "010000140a0b0c0d0001a000000a000afffffffe",
        Some(Init {
            is_ack: false,
            initiate_tag: 168_496_141,
            initial_tsn: 4_294_967_294,
        }),
        false,
    ),
    (
        "01000018fffffffe0001a000000a000a00000007c0000004",
        Some(Init {
            is_ack: false,
            initiate_tag: 4_294_967_294,
            initial_tsn: 7,
        }),
        false,
    ),
    // INIT ACK
    (
        "020000140a0b0c0d0001a000000a000a01020304",
        Some(Init {
            is_ack: true,
            initiate_tag: 168_496_141,
            initial_tsn: 16_909_060,
        }),
        false,
    ),
    // SACK
    ("030000140a0b0c0d0001a000000a000a01020304", None, false),
    // INIT too short, and INIT in part
    ("010000100a0b0c0d0001a000000a000a01020304", None, false),
    ("010000140a0b0c0d0001a000000a000a010203", None, false),
    // ABORT, and ABORT in part
    ("06000004", None, true),
    ("06000008", None, false),
    // SHUTDOWN, SHUTDOWN ACK and SHUTDOWN COMPLETE
    ("0700000801020304", None, false),
    ("08000004", None, false),
    ("0e000004", None, true),
    // nothing
    ("", None, false),
];

/// What is told of octets.
fn told(alloc: Global, digits: &str) -> Option<(Option<Init>, bool)> {
    let Ok(octets) = hex::decode(alloc, digits) else {
        return None;
    };
    let told = (read_init_or_ack(&octets), ends_association(&octets));
    drop(octets);
    Some(told)
}

fn assert_fronts(rt: &(impl Abort + AllocGlobal), rows: &[(&str, Option<Init>, bool)]) {
    for (digits, init, ends) in rows {
        let told = told(rt.alloc(), digits).expect(rt, "octets");
        assert!(rt; told.0 == *init && told.1 == *ends, "{digits}");
    }
}

#[test]
fn fronts(rt: HostRuntime) {
    assert_fronts(&rt, &FRONTS);
}
