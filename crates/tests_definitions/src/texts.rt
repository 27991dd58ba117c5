//! Dictionary texts and their answers, told from outside.
use dm_dict::{DictFault, Dictionary};
use std::alloc::Global;
use std::process::Abort;

/// The fault of a text, or none.
fn fault_of(alloc: Global, text: &[u8], old: &Dictionary) -> Option<DictFault> {
    Dictionary::read(alloc, text, old).err()
}

/// Each row is a text over the old dictionary and its fault.
fn assert_faults(
    rt: &(impl Abort + AllocGlobal),
    old: &Dictionary,
    rows: &[(&[u8], Option<DictFault>)],
) {
    for (text, fault) in rows {
        assert_eq!(rt;
            fault_of(rt.alloc(), text, old),
            *fault,
            "of {}",
            text.escape_ascii()
        );
    }
}

/// Each row is a text over the base dictionary and its fault.
pub fn assert_faults_over_base(
    rt: &(impl Abort + AllocGlobal),
    rows: &[(&[u8], Option<DictFault>)],
) {
    let base = Dictionary::base(rt.alloc()).expect(rt, "a dictionary");
    assert_faults(rt, &base, rows);
    drop(base);
}

/// Each row is a text over the dictionary of the old text and its fault.
pub fn assert_faults_over(
    rt: &(impl Abort + AllocGlobal),
    old: &[u8],
    rows: &[(&[u8], Option<DictFault>)],
) {
    let empty = Dictionary::empty(rt.alloc());
    let read = Dictionary::read(rt.alloc(), old, &empty);
    drop(empty);
    let old = read.expect(rt, "a dictionary");
    assert_faults(rt, &old, rows);
    drop(old);
}

/// Each row is a text over the empty dictionary and its fault.
pub fn assert_faults_over_empty(
    rt: &(impl Abort + AllocGlobal),
    rows: &[(&[u8], Option<DictFault>)],
) {
    let empty = Dictionary::empty(rt.alloc());
    assert_faults(rt, &empty, rows);
    drop(empty);
}

/// The fault of a text over the empty dictionary, or none.
pub fn fault_over_empty(alloc: Global, text: &[u8]) -> Option<DictFault> {
    let empty = Dictionary::empty(alloc);
    let fault = fault_of(alloc, text, &empty);
    drop(empty);
    fault
}

/// How the text over the empty dictionary is printed.
fn printed(rt: &(impl Abort + AllocGlobal), text: &[u8]) -> Vec<u8> {
    let empty = Dictionary::empty(rt.alloc());
    let read = Dictionary::read(rt.alloc(), text, &empty);
    drop(empty);
    let dictionary = read.expect(rt, "a dictionary");
    let printed = dictionary.print(rt.alloc());
    drop(dictionary);
    printed.expect(rt, "memory")
}

/// Each row is a text and how it is printed.
pub fn assert_printed(rt: &(impl Abort + AllocGlobal), rows: &[(&[u8], &[u8])]) {
    for (text, want) in rows {
        let printed = printed(rt, text);
        assert_eq!(rt; printed.as_slice(), *want, "of {}", text.escape_ascii());
    }
}

/// Whether a refused text leaves the dictionary as it was.
fn is_left(alloc: Global, base: &Dictionary) -> bool {
    fault_of(alloc, b"@ Foo 5000 Time @ Bar 5000 Time", base).is_some()
        && base.avp_by_name(b"Foo").is_none()
        && base.avp_by_code(5000, None).is_none()
        && base.avp_by_name(b"User-Name").is_some()
        && base.command(257, true, false).is_some()
}

#[test]
fn dictionary_faults(rt: HostRuntime) {
    let table: &[(&[u8], Option<DictFault>)] = &[
        (
            b"< X > ::= < Diameter Header: 300, REQ > 0*1 < Session-Id > 1* { Host-IP-Address } { AVP }",
            None,
        ),
        (
            b"< X > ::= < Diameter Header: 300, REQ > [ User-Name ] { Class }",
            Some(DictFault::Order(1)),
        ),
        (
            b"< X > ::= < Diameter Header: 300, REQ > { No-Such }",
            Some(DictFault::UnknownName(1)),
        ),
        (b"@ Foo 264 Unsigned32", Some(DictFault::Duplicate(1))),
        (b"< X > ::= <", Some(DictFault::Syntax(1))),
        (b"@ Foo 4294967296 Time", Some(DictFault::Range(1))),
        (b"@ Foo 5000 Unsigned32 99", None),
        (b"", None),
    ];
    assert_faults_over_base(&rt, table);
    assert_printed(
        &rt,
        &[(b"@ Foo 5000 Unsigned32 99", b"@ Foo 5000 Unsigned32 99\n")],
    );
}

#[test]
fn fault_tokens(rt: HostRuntime) {
    let table: &[(&[u8], Option<DictFault>)] = &[
        (
            b"< C > ::= < Diameter Header: 1 > *0 { X }",
            Some(DictFault::Range(1)),
        ),
        (b"@ AVP 1 Time", Some(DictFault::Duplicate(1))),
        (b"@ A 1 Grouped", Some(DictFault::UnknownName(1))),
        (b"@ A 1 Time\n@ B\n1 Time", Some(DictFault::Duplicate(3))),
        (b"%", Some(DictFault::Syntax(1))),
    ];
    assert_faults_over_empty(&rt, table);
}

#[test]
fn printed_titles(rt: HostRuntime) {
    let table: &[(&[u8], &[u8])] = &[
        (
            b"X ::= < AVP-Header: 7 > * [ AVP ]",
            b"< X > ::= < AVP Header: 7 > 0* [ AVP ]\n",
        ),
        (
            b"X ::= < Diameter-Header: 300 >",
            b"< X > ::= < Diameter Header: 300 0 >\n",
        ),
        (
            b"X ::= < AVP-Header: 7, 99 >",
            b"< X > ::= < AVP Header: 7 99 >\n",
        ),
        (
            b"X ::= <Diameter Header:300,REQ,PXY,ERR,5>*{AVP}",
            b"< X > ::= < Diameter Header: 300, REQ, PXY, ERR 5 > 1* { AVP }\n",
        ),
        (
            b"X ::= < Diameter-Header: 007 > < AVP >",
            b"< X > ::= < Diameter Header: 7 0 > 1*1 < AVP >\n",
        ),
        (
            b"AVP ::= < Diameter-Header: 7 > 2*3 { AVP } ; ends here",
            b"< AVP > ::= < Diameter Header: 7 0 > 2*3 { AVP }\n",
        ),
    ];
    assert_printed(&rt, table);
}

#[test]
fn refused_texts_leave_the_old_dictionary(rt: HostRuntime) {
    let base = Dictionary::base(rt.alloc()).expect(&rt, "a dictionary");
    assert!(rt; is_left(rt.alloc(), &base));
    drop(base);
}
