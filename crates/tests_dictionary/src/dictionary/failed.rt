//! AVP 279, whatever a dictionary calls it (RFC 6733, 7.5).
use super::rows::assert_over_empty;

const FAILED_AVP_ROWS: &[(&str, &str, &str)] = &[
    // AVP 279 without vendor is Failed-AVP, whatever its type and name.
    (
        "@ F 279 Unsigned32 < Q > ::= < Diameter Header: 300, REQ > *[ AVP ]",
        "010000208000012c000000000000000100000001000001174000000961000000",
        "good",
    ),
    (
        "@ F 279 Unsigned32 9 < Q > ::= < Diameter Header: 300, REQ > *[ AVP ]",
        "010000248000012c00000000000000010000000100000117c000000d0000000961000000",
        "bad 5014 279/9 VM- 61",
    ),
    // It has to be defined, to be allowed and to be counted as any other.
    (
        "< Q > ::= < Diameter Header: 300, REQ > *[ AVP ]",
        "010000208000012c000000000000000100000001000001174000000961000000",
        "bad 5001 279 -M- 61",
    ),
    (
        "@ F 279 Unsigned32 < Q > ::= < Diameter Header: 300, REQ > ",
        "010000208000012c000000000000000100000001000001174000000961000000",
        "bad 5008 279 -M- 61",
    ),
    (
        "@ F 279 Unsigned32 < Q > ::= < Diameter Header: 300, REQ > [ F ]",
        "0100002c8000012c000000000000000100000001000001174000000961000000000001174000000962000000",
        "bad 5009 279 -M- 62",
    ),
    (
        "@ F 279 Unsigned32 < Q > ::= < Diameter Header: 300, REQ > { F }",
        "010000148000012c000000000000000100000001",
        "bad 5005 279 -M- 00000000",
    ),
];

#[test]
fn failed_avp_by_its_code(rt: HostRuntime) {
    assert_over_empty(&rt, FAILED_AVP_ROWS);
}
