//! The rule that a message goes by, and the bits of its header (RFC 6733, 3 and 7.1.3).
use super::rows::{assert_over_base, assert_over_empty};

/// Commands with ERR of their own, and an answer.
const OWN_ERRORS: &str =
    "< A > ::= < Diameter Header: 300, ERR > { Session-Id } < B > ::= < Diameter Header: 301, REQ, ERR > *[ AVP ] < C > ::= < Diameter Header: 302 > *[ AVP ]";

const ANSWERS_ROWS: &[(&str, &str, &str)] = &[
    // An answer with E goes by command 0, not by a command of its own code with ERR.
    (
        OWN_ERRORS,
        "010000442000012c0000000000000001000000010000010840000011422e6578616d706c65000000000001284000000f6578616d706c65000000010c4000000c00000bc2",
        "good",
    ),
    (
        OWN_ERRORS,
        "010000440000012c0000000000000001000000010000010840000011422e6578616d706c65000000000001284000000f6578616d706c65000000010c4000000c00000bc2",
        "bad 3001",
    ),
    (
        OWN_ERRORS,
        "010000148000012d000000000000000100000001",
        "bad 3001",
    ),
    (
        OWN_ERRORS,
        "01000014a000012d000000000000000100000001",
        "bad 3001",
    ),
    (
        OWN_ERRORS,
        "0100001c0000012e0000000000000001000000010000270f00000008",
        "good",
    ),
    (
        OWN_ERRORS,
        "0100001c1000012e0000000000000001000000010000270f40000008",
        "bad 3008",
    ),
    (
        OWN_ERRORS,
        "010000148000012e000000000000000100000001",
        "bad 3001",
    ),
    (
        OWN_ERRORS,
        "010000142000012e000000000000000100000001",
        "bad 5005 264 -M- 00",
    ),
    // Command 0 is for errors alone; T is for requests alone, and goes with every rule of theirs.
    (
        OWN_ERRORS,
        "01000014a0000000000000000000000100000001",
        "bad 3001",
    ),
    (
        OWN_ERRORS,
        "01000014b00003e7000000000000000100000001",
        "bad 3001",
    ),
    (
        OWN_ERRORS,
        "01000038900001180000000000000001000000010000010840000011612e6578616d706c65000000000001284000000f6578616d706c6500",
        "good",
    ),
    (
        OWN_ERRORS,
        "0100001ca00001180000000000000001000000010000270f40000008",
        "bad 3008",
    ),
];

#[test]
fn answers_by_their_bits(rt: HostRuntime) {
    assert_over_base(&rt, ANSWERS_ROWS);
}

const NO_ERRORS_ROWS: &[(&str, &str, &str)] = &[
    // Without a command 0 no answer with E has a rule.
    (
        "< C > ::= < Diameter Header: 302 > *[ AVP ]",
        "010000142000012e000000000000000100000001",
        "bad 3001",
    ),
    (
        "< C > ::= < Diameter Header: 302 >",
        "010000140000012e000000000000000100000001",
        "good",
    ),
    ("", "010000140000012e000000000000000100000001", "bad 3001"),
];

#[test]
fn answers_without_command_0(rt: HostRuntime) {
    assert_over_empty(&rt, NO_ERRORS_ROWS);
}
