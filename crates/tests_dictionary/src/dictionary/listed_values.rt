//! Lists of the values of an Enumerated (RFC 6733, 4.3.1).
use super::rows::assert_over_empty;

/// A list of two values, and a command that asks for one.
const COLOURS: &str =
    "@ 2 @ vendor Acme 99 @ Colour 5000 Enumerated : Acme { RED 0, BLUE 2 } < Ask > ::= < Diameter Header: 300, REQ > { Colour }";

const LISTED_ROWS: &[(&str, &str, &str)] = &[
    (
        COLOURS,
        "010000248000012c00000000000000010000000100001388800000100000006300000000",
        "good",
    ),
    (
        COLOURS,
        "010000248000012c00000000000000010000000100001388800000100000006300000002",
        "good",
    ),
    (
        COLOURS,
        "010000248000012c00000000000000010000000100001388c00000100000006300000001",
        "bad 5004 5000/99 VM- 00000001",
    ),
    // A negative value is never listed.
    (
        COLOURS,
        "010000248000012c00000000000000010000000100001388c00000100000006380000002",
        "bad 5004 5000/99 VM- 80000002",
    ),
    (
        COLOURS,
        "010000248000012c00000000000000010000000100001388c000001000000063ffffffff",
        "bad 5004 5000/99 VM- ffffffff",
    ),
    // Another size comes first.
    (
        COLOURS,
        "010000288000012c00000000000000010000000100001388c0000014000000630000000000000001",
        "bad 5014 5000/99 VM- 0000000000000001",
    ),
    // The other bits of the rule stay: a value of the list may stand once.
    (
        COLOURS,
        "010000148000012c000000000000000100000001",
        "bad 5005 5000/99 VM- 00000000",
    ),
];

#[test]
fn listed_values(rt: HostRuntime) {
    assert_over_empty(&rt, LISTED_ROWS);
}
