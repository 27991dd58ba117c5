//! AVPs, each on one line.
use crate::dictionary::dictionary;
use dm_dict::Dictionary;
use dm_view::describe;
use dm_wire::{Avp, Octets};
use std::alloc::Global;
use std::process::Abort;

/// An AVP with the M bit by its code and vendor, its data in hexadecimal, and its text.
type Row<'a> = (u32, Option<u32>, &'a str, &'a str);

/// The data of a group with eight others inside each other.
const EIGHT_GROUPS: &str =
    "000017764000004c0000177640000044000017764000003c0000177640000034000017764000002c0000177640000024000017764000001c0000177640000014000017744000000c00000009";

const EIGHT_GROUPS_TEXT: &str =
    "Group 6006 -M- { Group 6006 -M- { Group 6006 -M- { Group 6006 -M- { Group 6006 -M- { Group 6006 -M- { Group 6006 -M- { Group 6006 -M- { Group 6006 -M- too deep 000017744000000c00000009; }; }; }; }; }; }; }; }";

/// AVPs that are no groups: of each type, of vendors, not defined, and without a value.
const PLAIN: &[Row<'static>] = &[
    (
        263,
        None,
        "612e6578616d706c653b313b32",
        "Session-Id 263 -M- \"a.example;1;2\"",
    ),
    (6001, None, "", "Octets 6001 -M- -"),
    (6001, None, "abcd", "Octets 6001 -M- abcd"),
    (6002, None, "fffffffe", "Whole 6002 -M- -2"),
    (6003, None, "fffffffffffffffd", "Long 6003 -M- -3"),
    (6004, None, "ffffffff", "Count 6004 -M- 4294967295"),
    (
        6005,
        None,
        "ffffffffffffffff",
        "Large 6005 -M- 18446744073709551615",
    ),
    (6004, Some(99), "00000001", "Acme-Count 6004/99 VM- 1"),
    (6004, Some(100), "00000002", "? 6004/100 VM- 00000002"),
    (7777, None, "01", "? 7777 -M- 01"),
    (6007, None, "0001c0000201", "Place 6007 -M- 192.0.2.1"),
    (
        6007,
        None,
        "000220010db8000000000000000000000001",
        "Place 6007 -M- 2001:db8::1",
    ),
    (6007, None, "00030102", "Place 6007 -M- family 3 0102"),
    (
        6008,
        None,
        "e000e100",
        "When 6008 -M- 1549165184 2019-02-03T03:39:44Z",
    ),
    (6009, None, "c3a9", "Words 6009 -M- \"é\""),
    (6009, None, "612262", "Words 6009 -M- 612262"),
    (6009, None, "610a62", "Words 6009 -M- 610a62"),
    (6010, None, "612e6578616d706c65", "Host 6010 -M- a.example"),
    (
        6011,
        None,
        "6161613a2f2f612e6578616d706c65",
        "Where 6011 -M- aaa://a.example",
    ),
    (6012, None, "00000002", "Colour 6012 -M- BLUE (2)"),
    (6012, None, "00000003", "Colour 6012 -M- 3"),
    (6004, None, "000001", "Count 6004 -M- wrong length 000001"),
    (
        6007,
        None,
        "00010102",
        "Place 6007 -M- wrong value 00010102",
    ),
    (6010, None, "610a62", "Host 6010 -M- wrong value 610a62"),
];

/// Groups.
const GROUPS: &[Row<'static>] = &[
    (
        260,
        None,
        "0000010a4000000c000028af000001024000000c01000023",
        "Vendor-Specific-Application-Id 260 -M- { Vendor-Id 266 -M- 10415; Auth-Application-Id 258 -M- 16777251; }",
    ),
    (6006, None, "", "Group 6006 -M- { }"),
    (
        6006,
        None,
        "000017744000000c0000000700001776400000100000177100000008c0ffee",
        "Group 6006 -M- wrong length 000017744000000c0000000700001776400000100000177100000008c0ffee",
    ),
    (
        6006,
        None,
        "000017744000000c000000070000177640000010000017710000000800001774c000001000000063000000010000270f00000009ff000000",
        "Group 6006 -M- { Count 6004 -M- 7; Group 6006 -M- { Octets 6001 --- -; }; Acme-Count 6004/99 VM- 1; ? 9999 --- ff; }",
    ),
    (
        6006,
        None,
        "00000001",
        "Group 6006 -M- wrong length 00000001",
    ),
    (6006, None, EIGHT_GROUPS, EIGHT_GROUPS_TEXT),
];

/// The AVP as text, and whether that is what is wanted.
fn is_described(alloc: Global, dictionary: &Dictionary, row: Row<'_>) -> Option<bool> {
    let (code, vendor, data, want) = row;
    let octets = hex::decode(alloc, data.as_bytes()).ok()?;
    let avp = Avp::new(code, vendor, true, Octets::from_vec(octets));
    let text = format!(in alloc; "{}", describe(dictionary, &avp));
    drop(avp);
    let text = text.ok()?;
    let same = text.as_str() == want;
    drop(text);
    Some(same)
}

/// Each AVP has its text.
fn assert_described(rt: &(impl Abort + AllocGlobal), rows: &[Row<'_>]) {
    let dictionary = dictionary(rt);
    for row in rows {
        assert!(rt;
            is_described(rt.alloc(), &dictionary, *row) == Some(true),
            "{}",
            row.3
        );
    }
    drop(dictionary);
}

#[test]
fn avps_on_one_line(rt: HostRuntime) {
    assert_described(&rt, PLAIN);
}

#[test]
fn groups_on_one_line(rt: HostRuntime) {
    assert_described(&rt, GROUPS);
}
