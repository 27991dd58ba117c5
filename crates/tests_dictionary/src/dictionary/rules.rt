//! Rules of dictionaries read from a text, and the first fault of messages under them.
use super::rows::assert_over_base;

const VENDOR_AND_DICTIONARY_ROWS: &[(&str, &str, &str)] = &[
    (
        "",
        "01000048800001180000000000000001000000010000010840000011612e6578616d706c65000000000001284000000f6578616d706c650000001388c00000100000006300000007",
        "bad 5001 5000/99 VM- 00000007",
    ),
    (
        "@ Foo 5000 Unsigned32 99",
        "01000048800001180000000000000001000000010000010840000011612e6578616d706c65000000000001284000000f6578616d706c650000001388c00000100000006300000007",
        "good",
    ),
    // No vendor, vendor 0 and vendor 99 are three.
    (
        "@ Foo 5000 Unsigned32",
        "01000048800001180000000000000001000000010000010840000011612e6578616d706c65000000000001284000000f6578616d706c650000001388c00000100000006300000007",
        "bad 5001 5000/99 VM- 00000007",
    ),
    (
        "@ Foo 5000 Unsigned32 0",
        "01000048800001180000000000000001000000010000010840000011612e6578616d706c65000000000001284000000f6578616d706c650000001388c00000100000006300000007",
        "bad 5001 5000/99 VM- 00000007",
    ),
];

#[test]
fn vendor_and_dictionary(rt: HostRuntime) {
    assert_over_base(&rt, VENDOR_AND_DICTIONARY_ROWS);
}

const ALLOWED_ROWS: &[(&str, &str, &str)] = &[
    // What an entry of max 0 names may not stand there, and the counts say nothing of it.
    (
        "@ Foo 5000 Unsigned32 < Q > ::= < Diameter Header: 300, REQ > 0*0 [ Foo ] *[ AVP ]",
        "010000208000012c000000000000000100000001000013884000000c00000001",
        "bad 5008 5000 -M- 00000001",
    ),
    (
        "@ Foo 5000 Unsigned32 < Q > ::= < Diameter Header: 300, REQ > 0*0 [ Foo ] *[ AVP ]",
        "010000148000012c000000000000000100000001",
        "good",
    ),
    (
        "@ Foo 5000 Unsigned32 < Q > ::= < Diameter Header: 300, REQ > *[ AVP ]",
        "010000208000012c000000000000000100000001000013884000000c00000001",
        "good",
    ),
    (
        "@ Foo 5000 Unsigned32 < Q > ::= < Diameter Header: 300, REQ > [ Foo ] 0*0 [ AVP ]",
        "010000208000012c000000000000000100000001000001074000000961000000",
        "bad 5008 263 -M- 61",
    ),
    (
        "@ Foo 5000 Unsigned32 < Q > ::= < Diameter Header: 300, REQ > [ Foo ]",
        "010000208000012c000000000000000100000001000001074000000961000000",
        "bad 5008 263 -M- 61",
    ),
    // What isn't defined passes without M all the same, and counts for `AVP`.
    (
        "@ Foo 5000 Unsigned32 < Q > ::= < Diameter Header: 300, REQ > [ Foo ] 0*0 [ AVP ]",
        "010000248000012c0000000000000001000000010000270f000000080000270f00000008",
        "good",
    ),
    (
        "@ Foo 5000 Unsigned32 < Q > ::= < Diameter Header: 300, REQ > [ Foo ]",
        "0100001c8000012c0000000000000001000000010000270f00000008",
        "good",
    ),
    (
        "@ Foo 5000 Unsigned32 < Q > ::= < Diameter Header: 300, REQ > [ Foo ]",
        "0100001c8000012c0000000000000001000000010000270f40000008",
        "bad 5001 9999 -M- -",
    ),
    (
        "@ Foo 5000 Unsigned32 < Q > ::= < Diameter Header: 300, REQ > 1*{ AVP }",
        "0100001c8000012c0000000000000001000000010000270f00000008",
        "good",
    ),
    (
        "@ Foo 5000 Unsigned32 < Q > ::= < Diameter Header: 300, REQ > [ Foo ] *1 [ AVP ]",
        "010000348000012c0000000000000001000000010000270f00000008000013884000000c00000001000001074000000961000000",
        "bad 5009 263 -M- 61",
    ),
    // What another entry names doesn't count for `AVP`, of which there is no example.
    (
        "@ Foo 5000 Unsigned32 < Q > ::= < Diameter Header: 300, REQ > 1*{ AVP }",
        "010000148000012c000000000000000100000001",
        "bad 5005",
    ),
    (
        "@ Foo 5000 Unsigned32 < Q > ::= < Diameter Header: 300, REQ > < Foo > 1*{ AVP }",
        "010000208000012c000000000000000100000001000013884000000c00000001",
        "bad 5005",
    ),
    (
        "@ Foo 5000 Unsigned32 < Q > ::= < Diameter Header: 300, REQ > [ Foo ] *1 [ AVP ]",
        "0100002c8000012c000000000000000100000001000013884000000c00000001000001074000000961000000",
        "good",
    ),
];

#[test]
fn allowed(rt: HostRuntime) {
    assert_over_base(&rt, ALLOWED_ROWS);
}

const COUNTED_ROWS: &[(&str, &str, &str)] = &[
    (
        "@ Foo 5000 Unsigned32 < Q > ::= < Diameter Header: 300, REQ > *2 [ Foo ]",
        "0100002c8000012c000000000000000100000001000013884000000c00000001000013884000000c00000002",
        "good",
    ),
    (
        "@ Foo 5000 Unsigned32 < Q > ::= < Diameter Header: 300, REQ > *2 [ Foo ]",
        "010000448000012c000000000000000100000001000013884000000c00000001000013884000000c00000002000013884000000c00000003000013884000000c00000004",
        "bad 5009 5000 -M- 00000003",
    ),
    (
        "@ Foo 5000 Unsigned32 < Q > ::= < Diameter Header: 300, REQ > [ Foo ]",
        "0100002c8000012c000000000000000100000001000013884000000c00000001000013882000000c00000002",
        "bad 5009 5000 --P 00000002",
    ),
    (
        "@ Foo 5000 Unsigned32 < Q > ::= < Diameter Header: 300, REQ > 2*{ Foo }",
        "010000208000012c000000000000000100000001000013884000000c00000001",
        "bad 5005 5000 -M- 00000000",
    ),
    // Where a fixed entry stands isn't looked at.
    (
        "@ Foo 5000 Unsigned32 < Q > ::= < Diameter Header: 300, REQ > < Session-Id > { Foo }",
        "010000208000012c000000000000000100000001000013884000000c00000001",
        "bad 5005 263 -M- -",
    ),
    (
        "@ Foo 5000 Unsigned32 < Q > ::= < Diameter Header: 300, REQ > < Session-Id > { Foo }",
        "0100002c8000012c000000000000000100000001000013884000000c00000001000001074000000961000000",
        "good",
    ),
    (
        "@ Foo 5000 Unsigned32 < Q > ::= < Diameter Header: 300, REQ > < Session-Id > { Foo }",
        "010000388000012c000000000000000100000001000001074000000961000000000001074000000962000000000013884000000c00000001",
        "bad 5009 263 -M- 62",
    ),
    // The entries are gone through in the order of the rule.
    (
        "@ Foo 5000 Unsigned32 < Q > ::= < Diameter Header: 300, REQ > { Foo } [ Session-Id ]",
        "0100002c8000012c000000000000000100000001000001074000000961000000000001074000000962000000",
        "bad 5005 5000 -M- 00000000",
    ),
    (
        "@ Foo 5000 Unsigned32 < Q > ::= < Diameter Header: 300, REQ > [ Session-Id ] [ Foo ]",
        "010000448000012c000000000000000100000001000013884000000c00000001000013884000000c00000002000001074000000961000000000001074000000962000000",
        "bad 5009 263 -M- 62",
    ),
    // Examples of a group, and of an AVP with a vendor.
    (
        "< Q > ::= < Diameter Header: 300, REQ > { Vendor-Specific-Application-Id }",
        "010000148000012c000000000000000100000001",
        "bad 5005 260 -M- -",
    ),
    (
        "@ Foo 5000 Unsigned32 99 < Q > ::= < Diameter Header: 300, REQ > { Foo }",
        "010000148000012c000000000000000100000001",
        "bad 5005 5000/99 VM- 00000000",
    ),
    (
        "@ Foo 5000 Unsigned32 0 < Q > ::= < Diameter Header: 300, REQ > { Foo }",
        "010000208000012c000000000000000100000001000013880000000c00000001",
        "bad 5005 5000/0 VM- 00000000",
    ),
];

#[test]
fn counted(rt: HostRuntime) {
    assert_over_base(&rt, COUNTED_ROWS);
}

const IN_ORDER_ROWS: &[(&str, &str, &str)] = &[
    // The first AVP that is wrong, whatever is wrong with it.
    (
        "@ Foo 5000 Unsigned32 < Q > ::= < Diameter Header: 300, REQ > [ Foo ]",
        "010000288000012c0000000000000001000000010000270f40000008000013884000000b61626300",
        "bad 5001 9999 -M- -",
    ),
    (
        "@ Foo 5000 Unsigned32 < Q > ::= < Diameter Header: 300, REQ > [ Foo ]",
        "010000288000012c000000000000000100000001000013884000000b616263000000270f40000008",
        "bad 5014 5000 -M- 616263",
    ),
    (
        "@ Foo 5000 Unsigned32 < Q > ::= < Diameter Header: 300, REQ > [ Session-Id ]",
        "010000288000012c000000000000000100000001000013884000000b616263000000270f40000008",
        "bad 5008 5000 -M- 616263",
    ),
    // The rule comes last.
    (
        "@ Foo 5000 Unsigned32 < Q > ::= < Diameter Header: 300, REQ > { Class } *1 [ Foo ]",
        "010000348000012c000000000000000100000001000013884000000c00000001000013884000000c000000020000270f40000008",
        "bad 5001 9999 -M- -",
    ),
    (
        "@ Foo 5000 Unsigned32 < Q > ::= < Diameter Header: 300, REQ > { Class } *1 [ Foo ]",
        "010000388000012c000000000000000100000001000013884000000c00000001000013884000000c00000002000013884000000b61626300",
        "bad 5014 5000 -M- 616263",
    ),
];

#[test]
fn in_order(rt: HostRuntime) {
    assert_over_base(&rt, IN_ORDER_ROWS);
}
