//! Numbers of dictionary texts, and the order of their faults: what each text's first fault is.
use crate::texts::{assert_faults_over_base, assert_faults_over_empty};
use dm_dict::DictFault;
use std::process::Abort;

const NUMBERS_ROWS: &[(&[u8], Option<DictFault>)] = &[
    (b"@ Foo 4294967295 Time 4294967295", None),
    (b"@ Foo 5000 Time\n4294967296", Some(DictFault::Range(2))),
    (b"< X > ::= < Diameter Header: 16777215 4294967295 >", None),
    (
        b"< X > ::= < Diameter Header: \n16777216 >",
        Some(DictFault::Range(2)),
    ),
    (
        b"< X > ::= < Diameter Header: 300\n4294967296 >",
        Some(DictFault::Range(2)),
    ),
    (b"< G > ::= < AVP Header: 16777216 >", None),
    (
        b"< G > ::= < AVP Header: 5\n4294967296 >",
        Some(DictFault::Range(2)),
    ),
    // A min above its limit stands at the min, one above the max at the max.
    (
        b"< G > ::= < AVP Header: 5 >\n4294967296\n*\n1 [ AVP ]",
        Some(DictFault::Range(2)),
    ),
    (
        b"< G > ::= < AVP Header: 5 >\n2\n*\n1 [ AVP ]",
        Some(DictFault::Range(4)),
    ),
    (
        b"< G > ::= < AVP Header: 5 >\n*\n4294967296 [ AVP ]",
        Some(DictFault::Range(3)),
    ),
    (b"< G > ::= < AVP Header: 5 > 2 * 2 [ AVP ]", None),
    (b"< G > ::= < AVP Header: 5 > 0*0 [ AVP ]", None),
    (b"< G > ::= < AVP Header: 5 > *0 < AVP >", None),
    (
        b"< G > ::= < AVP Header: 5 > *0 { AVP }",
        Some(DictFault::Range(1)),
    ),
];

#[test]
fn numbers_of_texts(rt: HostRuntime) {
    assert_faults_over_base(&rt, NUMBERS_ROWS);
}

const ORDER_ROWS: &[(&[u8], Option<DictFault>)] = &[
    // Names and codes of the old dictionary count; no vendor and vendor 0 are two.
    (b"@ User-Name\n264 Time", Some(DictFault::Duplicate(1))),
    (b"@ Foo\n264 Time", Some(DictFault::Duplicate(2))),
    (
        b"< User-Name > ::= < AVP Header: 5 >",
        Some(DictFault::Duplicate(1)),
    ),
    (b"@ Foo 264 Unsigned32 0", None),
    (
        b"@ Foo 264 Time 0\n@ Bar 264 Time 00",
        Some(DictFault::Duplicate(2)),
    ),
    (b"< G > ::= < AVP Header: 264 99 >", None),
    (
        b"< CER > ::= < Diameter Header:\n257 >",
        Some(DictFault::Duplicate(1)),
    ),
    (
        b"< X > ::= < Diameter Header: \n257, REQ >",
        Some(DictFault::Duplicate(2)),
    ),
    // PXY makes no other command, REQ and ERR do.
    (
        b"< X > ::= < Diameter Header: \n257, REQ, PXY >",
        Some(DictFault::Duplicate(2)),
    ),
    (b"< X > ::= < Diameter Header: 257, REQ, ERR >", None),
    (
        b"< X > ::= < Diameter Header: 300 >\n< Y > ::= < Diameter Header: 300, PXY >",
        Some(DictFault::Duplicate(2)),
    ),
    // An AVP of unknown type still counts.
    (
        b"@ Foo 5000 Nothing\n@ Foo 5001 Time",
        Some(DictFault::Duplicate(2)),
    ),
    (
        b"@ Foo 5000 Nothing\n< G > ::= < AVP Header: 5 > { Foo }",
        Some(DictFault::UnknownName(1)),
    ),
    // Unknown names in order of the text, behind all else; a later Syntax comes first.
    (
        b"< G > ::= < AVP Header: 5 > { None }\n@ Foo 5000 Nothing",
        Some(DictFault::UnknownName(1)),
    ),
    (
        b"< G > ::= < AVP Header: 5 > [ None ]\n{ None2 }",
        Some(DictFault::Order(2)),
    ),
    (b"@ Foo 264 Time\n@ @", Some(DictFault::Syntax(2))),
    (
        b"< G > ::= < AVP Header: 5 > { Foo }\n@ Foo 5000 Time",
        None,
    ),
    // One name twice in a rule comes before the order of its entries.
    (
        b"< G > ::= < AVP Header: 5 > { AVP }\n{ AVP }",
        Some(DictFault::Duplicate(2)),
    ),
    (
        b"< G > ::= < AVP Header: 5 > [ Class ]\n{\nClass }",
        Some(DictFault::Duplicate(3)),
    ),
    (
        b"< G > ::= < AVP Header: 5 > [ Class ]\n< AVP >",
        Some(DictFault::Order(2)),
    ),
    (
        b"< G > ::= < AVP Header: 5 > { Class }\n< AVP >",
        Some(DictFault::Order(2)),
    ),
];

#[test]
fn faults_in_order(rt: HostRuntime) {
    assert_faults_over_base(&rt, ORDER_ROWS);
}

/// The text with 5,000 of the digit between its two parts.
fn long_text(rt: &(impl Abort + AllocGlobal), head: &str, digit: u8, tail: &str) -> Vec<u8> {
    let mut text = Vec::from_slice(rt.alloc(), head.as_bytes()).expect(rt, "memory");
    let size = usize::saturating_add(head.len(), 5000);
    text.resize(size, digit).expect(rt, "memory");
    text.extend_from_slice(tail.as_bytes()).expect(rt, "memory");
    text
}

/// That text has this fault alone.
fn assert_digits(
    rt: &(impl Abort + AllocGlobal),
    head: &str,
    digit: u8,
    tail: &str,
    fault: Option<DictFault>,
) {
    let text = long_text(rt, head, digit, tail);
    assert_faults_over_empty(rt, &[(text.as_slice(), fault)]);
    drop(text);
}

#[test]
fn numbers_of_5000_digits(rt: HostRuntime) {
    let rule = "< G > ::= < AVP Header: 5 > ";
    let range = Some(DictFault::Range(1));
    assert_digits(&rt, "@ Foo ", b'0', "5 Time", None);
    assert_digits(&rt, "@ Foo ", b'9', " Time", range);
    assert_digits(&rt, rule, b'0', "1*1 { AVP }", None);
    assert_digits(&rt, rule, b'9', "*[ AVP ]", range);
    assert_digits(&rt, rule, b'0', "*5[ AVP ]", None);
}
